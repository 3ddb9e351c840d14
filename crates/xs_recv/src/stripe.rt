// An activity claims stripes, and keeps them.
ghost use Rattle.std.specs.Prelude.{◌≡◌, ◌≤◌, ◌++◌, ◌∷◌, [], OnOk};
ghost use Rattle.xs_params.specs.Geometry.{slice_count};
ghost use Rattle.xs_board.specs.Passes.{knows};
ghost use Rattle.xs_handover.specs.Passes.{IsHandPass, stripe_count};
ghost use Rattle.xs_recv.specs.Activities.{HasHand, IsReadable};

use crate::activity::{Activity, MadeStripe};
use crate::claim::Tried;
use crate::exchange::Exchange;
use xs_handover::StripeClaim;
use xs_io::Memory;
use xs_params::Header;

// Puts a stripe at the end.
pub(crate) fn keep_stripe(made: &mut Vec<MadeStripe>, stripe: MadeStripe) -> Result<(), Memory>
    ensures { OnOk result (made.new.items ≡ made.old.items ++ stripe ∷ []) }
{
    made.push(stripe).map_err(|_| Memory)
}

impl Activity {
    // Claims the stripe of a slice, and keeps it.
    pub(crate) fn try_stripe(&mut self, exchange: &Exchange, header: &Header, slice: u32) -> Tried
        requires hand { IsHandPass exchange.now.handover self.old.hand }
        requires header { IsReadable (knows self.old.pass) header.now slice }
        requires stripes { slice_count header.now ≤ stripe_count exchange.now.handover }
        ensures pass { self.new.pass ≡ self.old.pass }
        ensures hand { HasHand exchange.now.handover self.old.hand self.new.hand }
    {
        match exchange
            .handover
            .claim_stripe(self.alloc, &mut self.hand, header, slice)
        {
            Ok(StripeClaim::Got(stripe)) => {
                if keep_stripe(&mut self.stripes, MadeStripe { slice, stripe }).is_ok() {
                    return Tried::Got;
                }
                self.starved = true;
                Tried::Starved
            }
            Ok(StripeClaim::NotWhole(_)) => Tried::NotWhole,
            Ok(StripeClaim::Gone) => Tried::Gone,
            Err(Memory) => {
                self.starved = true;
                Tried::Starved
            }
        }
    }
}
