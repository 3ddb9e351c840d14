// A handover that no thread shares any more.
use crate::block::RowBlock;
use std::marker::Model;
use xs_lanes::Closed;

/// A handover that no thread shares any more. Contracts see how many stripes it has, and in `actor` what all passes stored,
/// repeated, got and saw: each stripe was got at most once, of stored blocks, whose rows are those that their bytes give.
#[derive(Drop)]
pub struct ClosedHandover {
    pub(crate) closed: Closed<RowBlock>,
}

impl Model for ClosedHandover {
    ghost use Rattle.std.specs.Prelude.{All};
    ghost use Rattle.xs_lanes.specs.Settled.{ClosedLanes};
    ghost use Rattle.xs_handover.specs.Blocks.{Carried};
    ghost use Rattle.xs_handover.specs.Decoded.{IsDecodedBlock};

    ghost Value = { ClosedLanes Carried };

    ghost view = { λ s. s.closed };

    ghost invariant = { λ s. All IsDecodedBlock s.closed.actor.stored };
}
