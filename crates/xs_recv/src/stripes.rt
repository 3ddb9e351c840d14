// The stripes that are left are made, and the handover is closed.
ghost use Rattle.std.specs.Prelude.{◌≡◌, ◌<◌, ◌≤◌, ℕ, true, false, IfOk, OnOk, All, Contains};
ghost use Rattle.xs_params.specs.Accepted.{IsAccepted};
ghost use Rattle.xs_params.specs.Geometry.{slice_count};
ghost use Rattle.xs_lanes.specs.Claiming.{got_in};
ghost use Rattle.xs_lanes.specs.Settled.{IsDone};
ghost use Rattle.xs_capture.specs.Selection.{Held};
ghost use Rattle.xs_handover.specs.Blocks.{blocks};
ghost use Rattle.xs_handover.specs.Decoded.{IsDecodedBlock};
ghost use Rattle.xs_handover.specs.Answers.{GetsMore, HandsNothing};
ghost use Rattle.xs_handover.specs.Passes.{actor, stripe_count};
ghost use Rattle.xs_recv.specs.Handed.{AreStripesBy, HasMade};
ghost use Rattle.xs_recv.specs.Finishing.{HaveAll, IsFinishing, IsWholeIfChosen};

use crate::activity::{MadeStripe, Stripes};
use crate::finishing::Finishing;
use crate::stripe::keep_stripe;
use std::alloc::Global;
use xs_geometry::Geometry;
use xs_handover::{ClosedHandover, StripeClaim};
use xs_io::Memory;
use xs_params::Header;

impl Finishing {
    // Makes the stripe of a slice, unless it was claimed before. False where not all its rows are handed.
    fn try_make(&mut self, alloc: Global, header: &Header, slice: u32) -> Result<bool, Memory>
        requires pass { IsFinishing self.old }
        requires accepted { IsAccepted header.now }
        requires slice { slice < slice_count header.now }
        requires room { slice_count header.now ≤ stripe_count self.old.handover }
        ensures pass { IsFinishing self.new }
        ensures same { self.new.handover ≡ self.old.handover }
        ensures hands { HandsNothing (actor self.old.stripes.hand) (actor self.new.stripes.hand) }
        ensures grows { GetsMore (actor self.old.stripes.hand) (actor self.new.stripes.hand) }
        ensures part { IfOk result (λ claimed. claimed ≡ false → IsWholeIfChosen slice (actor self.old.stripes.hand) → ⊥) }
        ensures got { IfOk result (λ claimed. claimed ≡ true → 0 < got_in blocks slice (actor self.new.stripes.hand)) }
        ensures kept { OnOk result ((made : MadeStripe) → Contains self.old.stripes.made.items made → Contains self.new.stripes.made.items made) }
        ensures made { IfOk result (λ claimed. (held : Held) → AreStripesBy held header.now (actor self.old.stripes.hand) self.old.stripes.made.items
            → AreStripesBy held header.now (actor self.new.stripes.hand) self.new.stripes.made.items × (claimed ≡ true → HasMade self.new.stripes.made.items slice)) }
    {
        let claim = self
            .handover
            .claim_stripe(alloc, &mut self.stripes.hand, header, slice)?;
        match claim {
            StripeClaim::Got(stripe) => {
                keep_stripe(&mut self.stripes.made, MadeStripe { slice, stripe })?;
                Ok(true)
            }
            StripeClaim::Gone => Ok(true),
            StripeClaim::NotWhole(_) => Ok(false),
        }
    }

    // Makes the stripe of the slice before, where there is one and all its rows are handed.
    pub(crate) fn make_before(
        &mut self,
        alloc: Global,
        header: &Header,
        slice: u32,
    ) -> Result<(), Memory>
        requires pass { IsFinishing self.old }
        requires accepted { IsAccepted header.now }
        requires slice { slice < slice_count header.now }
        requires room { slice_count header.now ≤ stripe_count self.old.handover }
        ensures pass { IsFinishing self.new }
        ensures same { self.new.handover ≡ self.old.handover }
        ensures hands { HandsNothing (actor self.old.stripes.hand) (actor self.new.stripes.hand) }
        ensures made { OnOk result ((held : Held) → AreStripesBy held header.now (actor self.old.stripes.hand) self.old.stripes.made.items
            → AreStripesBy held header.now (actor self.new.stripes.hand) self.new.stripes.made.items) }
    {
        if slice > 0 {
            self.try_make(alloc, header, slice - 1)?;
        }
        Ok(())
    }

    // Makes the stripe of a slice whose rows are all handed, unless it was claimed before.
    fn make(&mut self, alloc: Global, header: &Header, slice: u32) -> Result<(), Memory>
        requires pass { IsFinishing self.old }
        requires accepted { IsAccepted header.now }
        requires slice { slice < slice_count header.now }
        requires room { slice_count header.now ≤ stripe_count self.old.handover }
        requires whole { IsWholeIfChosen slice (actor self.old.stripes.hand) }
        ensures pass { IsFinishing self.new }
        ensures same { self.new.handover ≡ self.old.handover }
        ensures hands { HandsNothing (actor self.old.stripes.hand) (actor self.new.stripes.hand) }
        ensures grows { GetsMore (actor self.old.stripes.hand) (actor self.new.stripes.hand) }
        ensures got { OnOk result (0 < got_in blocks slice (actor self.new.stripes.hand)) }
        ensures kept { OnOk result ((made : MadeStripe) → Contains self.old.stripes.made.items made → Contains self.new.stripes.made.items made) }
        ensures made { OnOk result ((held : Held) → AreStripesBy held header.now (actor self.old.stripes.hand) self.old.stripes.made.items
            → AreStripesBy held header.now (actor self.new.stripes.hand) self.new.stripes.made.items × HasMade self.new.stripes.made.items slice) }
    {
        if !self.try_make(alloc, header, slice)? {
            unreachable!()
        }
        Ok(())
    }

    // Makes all stripes that were not claimed before.
    pub(crate) fn make_all(&mut self, alloc: Global, header: &Header) -> Result<(), Memory>
        requires pass { IsFinishing self.old }
        requires accepted { IsAccepted header.now }
        requires room { slice_count header.now ≤ stripe_count self.old.handover }
        requires whole { (slice : ℕ) → slice < slice_count header.now → IsWholeIfChosen slice (actor self.old.stripes.hand) }
        ensures pass { IsFinishing self.new }
        ensures hands { HandsNothing (actor self.old.stripes.hand) (actor self.new.stripes.hand) }
        ensures made { OnOk result ((held : Held) → AreStripesBy held header.now (actor self.old.stripes.hand) self.old.stripes.made.items
            → AreStripesBy held header.now (actor self.new.stripes.hand) self.new.stripes.made.items × HaveAll header.now (actor self.new.stripes.hand) self.new.stripes.made.items) }
    {
        'making: for slice in 0..Geometry::of(header).slices() {
            self.make(alloc, header, slice)?;
        }
        Ok(())
    }

    // Closes the handover.
    pub(crate) fn close(self) -> (ClosedHandover, Vec<MadeStripe>)
        requires { IsFinishing self }
        ensures actor { result.0.actor ≡ actor self.stripes.hand }
        ensures made { result.1.items ≡ self.stripes.made.items }
        ensures done { IsDone blocks (actor self.stripes.hand) }
        ensures decoded { All IsDecodedBlock (actor self.stripes.hand).stored }
    {
        let Finishing { handover, stripes } = self;
        let Stripes { hand, made } = stripes;
        (handover.close(hand), made)
    }
}
