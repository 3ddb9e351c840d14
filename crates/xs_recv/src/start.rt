// An exchange is opened, and what it has room for.
ghost use Rattle.std.specs.Prelude.{◌≡◌, ◌+◌, ◌<◌, ◌≤◌, true, IfOk};
ghost use Rattle.xs_params.specs.Accepted.{IsAccepted};
ghost use Rattle.xs_params.specs.Geometry.{slice_count};
ghost use Rattle.xs_lane_core.specs.Machine.{newcomer};
ghost use Rattle.xs_board.specs.Passes.{IsBoardPass, actor, unit_count};
ghost use Rattle.xs_handover.specs.Passes.{IsHandPass, actor as hand_actor};

use crate::activity::Passes;
use crate::exchange::Exchange;
use std::alloc::Global;
use xs_board::Board;
use xs_geometry::Geometry;
use xs_handover::Handover;
use xs_io::Memory;
use xs_params::Header;

impl Exchange {
    // A board of 1 to 2048 units without packets, a handover without rows that has a stripe for each slice, or one, and passes with
    // the whole share.
    pub(crate) fn new(alloc: Global, units: u32) -> Result<(Exchange, Passes), Memory>
        requires units { (1 ≤ units) × (units ≤ 2048) }
        ensures pass { IfOk result (λ r. IsBoardPass r.0.board r.1.pass) }
        ensures first { IfOk result (λ r. actor r.1.pass ≡ newcomer) }
        ensures hand { IfOk result (λ r. IsHandPass r.0.handover r.1.hand) }
        ensures fresh { IfOk result (λ r. hand_actor r.1.hand ≡ newcomer) }
        ensures units { IfOk result (λ r. unit_count r.0.board ≡ units) }
    {
        let (board, pass) = Board::new(alloc, units)?;
        let stripes = (units - 1).max(1);
        let (handover, hand) = Handover::new(alloc, stripes)?;
        let exchange = Exchange {
            board,
            handover,
            stripes,
        };
        Ok((exchange, Passes { pass, hand }))
    }

    // Whether the header has the slice, and the board its unit.
    pub(crate) fn has_unit(&self, header: &Header, slice: u32) -> bool
        requires { IsAccepted header.now }
        ensures there { result ≡ true → slice < slice_count header.now }
        ensures unit { result ≡ true → slice + 1 < unit_count self.now.board }
    {
        slice < Geometry::of(header).slices() && slice < self.board.units() - 1
    }
}
