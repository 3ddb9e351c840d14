// The claims of stripes.
ghost use Rattle.std.specs.Prelude.{◌≡◌, ◌<◌, ◌≤◌, IfOk};
ghost use Rattle.xs_params.specs.Accepted.{IsAccepted};
ghost use Rattle.xs_params.specs.Geometry.{slice_count};
ghost use Rattle.xs_lane_core.specs.Sound.{IsAlone};
ghost use Rattle.xs_lanes.specs.Knowing.{IsChoice, SameShare};
ghost use Rattle.xs_handover.specs.Blocks.{blocks};
ghost use Rattle.xs_handover.specs.Passes.{IsHandPass, stripe_count, actor};
ghost use Rattle.xs_handover.specs.Answers.{ClaimAnswers, GetsMore, HandsNothing, StripeAnswers};

use crate::block::{Blank, RowBlock};
use crate::claim::StripeClaim;
use crate::handover::{HandPass, Handover};
use crate::synthesis::synthesise;
use arrayvec::ArrayVec;
use std::alloc::Global;
use xs_io::Memory;
use xs_lane_core::EVERY_WORD;
use xs_lanes::{Claim, PLACES};
use xs_params::Header;

impl Handover {
    // Claims the stripe, and synthesises it.
    fn claim_blocks(
        &self,
        alloc: Global,
        pass: &mut HandPass,
        header: &Header,
        slice: u32,
    ) -> Result<StripeClaim, Memory>
        requires pass { IsHandPass self.now pass.old }
        requires accepted { IsAccepted header.now }
        requires slice { slice < slice_count header.now }
        requires stripes { slice_count header.now ≤ stripe_count self.now }
        ensures pass { IsHandPass self.now pass.new }
        ensures share { SameShare (actor pass.old) (actor pass.new) }
        ensures hands { HandsNothing (actor pass.old) (actor pass.new) }
        ensures grows { GetsMore (actor pass.old) (actor pass.new) }
        ensures answer { IfOk result (λ r. ClaimAnswers (actor pass.old) header.now slice r (actor pass.new)) }
    {
        let mut blocks: ArrayVec<RowBlock, PLACES, Blank> = ArrayVec::new_in(Blank);
        match self.lanes.claim(&mut pass.pass, slice, &mut blocks) {
            Claim::Got => Ok(StripeClaim::Got(synthesise(
                alloc,
                header,
                slice,
                blocks.as_slice(),
            )?)),
            Claim::NotWhole(seen) => Ok(StripeClaim::NotWhole(seen)),
            Claim::Gone => Ok(StripeClaim::Gone),
        }
    }

    /// Claims the stripe of a slice, where all its rows are handed and nobody has claimed it, and synthesises it. Where memory
    /// is wanting after the claim, the rows are given up and the stripe stays claimed.
    pub fn claim_stripe(
        &self,
        alloc: Global,
        pass: &mut HandPass,
        header: &Header,
        slice: u32,
    ) -> Result<StripeClaim, Memory>
        requires pass { IsHandPass self.now pass.old }
        requires accepted { IsAccepted header.now }
        requires slice { slice < slice_count header.now }
        requires stripes { slice_count header.now ≤ stripe_count self.now }
        ensures pass { IsHandPass self.now pass.new }
        ensures share { SameShare (actor pass.old) (actor pass.new) }
        ensures hands { HandsNothing (actor pass.old) (actor pass.new) }
        ensures grows { GetsMore (actor pass.old) (actor pass.new) }
        ensures answer { IfOk result (λ r. StripeAnswers (actor pass.old) header.now slice r (actor pass.new)) }
        ensures choice { IsAlone (actor pass.old) → IsChoice blocks (actor pass.old) }
    {
        let seen = self.lanes.look(&mut pass.pass, slice);
        if seen != EVERY_WORD {
            return Ok(StripeClaim::NotWhole(seen));
        }
        self.claim_blocks(alloc, pass, header, slice)
    }
}
