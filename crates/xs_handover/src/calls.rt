// The calls of the handover that neither hand nor claim.
ghost use Rattle.std.specs.Prelude.{◌≡◌, ◌≤◌, IfOk, All};
ghost use Rattle.xs_lane_core.specs.Machine.{newcomer, halves, copied, joined};
ghost use Rattle.xs_lane_core.specs.Sound.{IsAlone};
ghost use Rattle.xs_lanes.specs.Settled.{IsDone};
ghost use Rattle.xs_handover.specs.Blocks.{blocks};
ghost use Rattle.xs_handover.specs.Decoded.{IsDecodedBlock};
ghost use Rattle.xs_handover.specs.Passes.{IsHandPass, stripe_count, actor};

use crate::closed::ClosedHandover;
use crate::handover::{HandPass, Handover};
use std::alloc::Global;
use xs_io::Memory;
use xs_lanes::Lanes;

impl Handover {
    /// A handover of 1 to 2047 stripes without rows, and a pass with the whole share.
    pub fn new(alloc: Global, stripes: u32) -> Result<(Handover, HandPass), Memory>
        requires stripes { (1 ≤ stripes) × (stripes ≤ 2047) }
        ensures pass { IfOk result (λ r. IsHandPass r.0 r.1) }
        ensures first { IfOk result (λ r. actor r.1 ≡ newcomer) }
        ensures count { IfOk result (λ r. stripe_count r.0 ≡ stripes) }
    {
        let (lanes, pass) = Lanes::new(alloc, stripes)?;
        Ok((Handover { lanes }, HandPass { pass }))
    }

    /// A pass for another thread, with half of this one's share. It knows what this one saw.
    pub fn split(&self, pass: &mut HandPass) -> HandPass
        requires pass { IsHandPass self.now pass.old }
        ensures pass { IsHandPass self.now pass.new }
        ensures old { actor pass.new ≡ halves (actor pass.old) }
        ensures other { IsHandPass self.now result }
        ensures new { actor result ≡ copied (actor pass.old) }
    {
        HandPass {
            pass: self.lanes.split(&mut pass.pass),
        }
    }

    /// Takes in what the other pass did and saw, and its share.
    pub fn join(&self, pass: &mut HandPass, other: HandPass)
        requires pass { IsHandPass self.now pass.old }
        requires other { IsHandPass self.now other }
        ensures pass { IsHandPass self.now pass.new }
        ensures union { actor pass.new ≡ joined (actor pass.old) (actor other) }
    {
        self.lanes.join(&mut pass.pass, other.pass);
    }

    /// Ends the handover. All passes were joined into this one.
    pub fn close(self, pass: HandPass) -> ClosedHandover
        requires pass { IsHandPass self pass }
        requires alone { IsAlone (actor pass) }
        ensures last { (result.actor ≡ actor pass) × (result.count ≡ stripe_count self) }
        ensures done { IsDone blocks (actor pass) }
        ensures decoded { All IsDecodedBlock (actor pass).stored }
    {
        ClosedHandover {
            closed: self.lanes.close(pass.pass),
        }
    }
}
