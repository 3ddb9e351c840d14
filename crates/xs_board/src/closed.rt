// A board that no thread shares any more.
ghost use Rattle.std.specs.Prelude.{◌≡◌, ◌+◌, ◌<◌, ℕ, MatchBool, IfOk};
ghost use Rattle.xs_capture.specs.Selection.{AreMissing, IsWholeUnit};
ghost use Rattle.xs_stored.specs.Stored.{held_in};

use std::alloc::Global;
use std::marker::Model;
use xs_capture::Packet;
use xs_io::{Memory, Numbers};
use xs_lanes::Closed;

/// A board that no thread shares any more. Contracts see how many units it has, and in `actor` what all passes stored,
/// repeated, got and saw.
#[derive(Drop)]
pub struct ClosedBoard {
    pub(crate) closed: Closed<Packet>,
    pub(crate) units: u32,
}

impl Model for ClosedBoard {
    ghost use Rattle.std.specs.Prelude.{◌≡◌};
    ghost use Rattle.xs_lanes.specs.Settled.{ClosedLanes};
    ghost use Rattle.xs_capture.specs.Offer.{Offer};
    ghost use Rattle.xs_stored.specs.Stored.{AreIn};

    ghost Value = { ClosedLanes Offer };

    ghost view = { λ s. s.closed };

    ghost invariant = { λ s. (s.closed.count ≡ s.units) × AreIn s.units s.closed.actor.stored };
}

impl ClosedBoard {
    // Whether the unit is whole. One that the board does not have is not.
    fn is_whole(&self, unit: u32) -> bool
        ensures { MatchBool result (IsWholeUnit (held_in self.now.actor.stored) unit) (¬ IsWholeUnit (held_in self.now.actor.stored) unit) }
    {
        unit < self.units && self.closed.whole(unit)
    }

    /// The slices below a number whose units are not whole, or not there, ascending.
    pub fn missing(&self, alloc: Global, slices: u32) -> Result<Numbers, Memory>
        ensures missing { IfOk result (AreMissing (held_in self.now.actor.stored) slices) }
    {
        let mut missing = Numbers::new(alloc);
        'looking: for slice in 0..slices {
            if !self.is_whole(slice + 1) {
                missing.extend(&[slice])?;
            }
        }
        Ok(missing)
    }
}
