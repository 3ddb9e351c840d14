// Where the threads of a picture meet.
ghost use Rattle.std.specs.Prelude.{◌≡◌, ◌+◌, ◌≤◌};
ghost use Rattle.xs_board.specs.Passes.{unit_count};
ghost use Rattle.xs_handover.specs.Passes.{stripe_count};

use xs_board::Board;
use xs_handover::Handover;

// Where the threads of a picture meet: the board of its packets, and the handover of its rows, which has so many stripes: one for
// each slice that has a unit on the board, and at least one.
#[derive(Drop)]
pub(crate) struct Exchange {
    pub(crate) board: Board,
    pub(crate) handover: Handover,
    pub(crate) stripes: u32,
    ghost has_stripes: { stripe_count handover ≡ stripes },
    ghost has_room: { unit_count board ≤ stripes + 1 },
    ghost few: { stripes ≤ 2047 },
}
