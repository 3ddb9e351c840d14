// What no worker claimed is claimed by the caller, and the board is closed.
ghost use Rattle.std.specs.Prelude.{◌≡◌, ◌<◌, ℕ, true, false};
ghost use Rattle.xs_lane_core.specs.Sound.{IsAlone};
ghost use Rattle.xs_lanes.specs.Knowing.{SameShare};
ghost use Rattle.xs_lanes.specs.Settled.{IsDone};
ghost use Rattle.xs_stored.specs.Stored.{held_in, packets};
ghost use Rattle.xs_board.specs.Passes.{IsBoardPass, actor, knows, unit_count};
ghost use Rattle.xs_board.specs.Answers.{FilesNothing, GetsMore};
ghost use Rattle.xs_handover.specs.Passes.{IsHandPass, actor as hand_actor};
ghost use Rattle.xs_recv.specs.Activities.{HasHand};
ghost use Rattle.xs_recv.specs.Sweeping.{AreReadAlike, GetsAbove, GetsAll, GotIfWhole, IsKeptOf, StarvesNot};

use crate::activity::{Activity, Kept, Stripes, SweepEnd};
use crate::exchange::Exchange;
use xs_board::{Board, BoardPass, HeadRead};

impl Activity {
    // Claims each slice that is left, and reads none. Where memory is wanting, it stops.
    fn sweep_slices(&mut self, exchange: &Exchange)
        requires pass { IsBoardPass exchange.now.board self.old.pass }
        requires hand { IsHandPass exchange.now.handover self.old.hand }
        ensures pass { IsBoardPass exchange.now.board self.new.pass }
        ensures share { SameShare (actor self.old.pass) (actor self.new.pass) }
        ensures files { FilesNothing (actor self.old.pass) (actor self.new.pass) }
        ensures grows { GetsMore (actor self.old.pass) (actor self.new.pass) }
        ensures hand { HasHand exchange.now.handover self.old.hand self.new.hand }
        ensures starved { StarvesNot self.old self.new }
        ensures all { GetsAbove (unit_count exchange.now.board) self.old self.new }
    {
        let slices = exchange.board.units() - 1;
        'sweeping: for slice in 0..slices {
            if self.is_starved() {
                return;
            }
            self.try_slice(exchange, None, slice);
        }
    }

    // Claims the header unit and each slice that is left, and reads no slice. Nothing where memory was wanting.
    pub(crate) fn sweep(&mut self, exchange: &Exchange)
        requires pass { IsBoardPass exchange.now.board self.old.pass }
        requires hand { IsHandPass exchange.now.handover self.old.hand }
        ensures pass { IsBoardPass exchange.now.board self.new.pass }
        ensures share { SameShare (actor self.old.pass) (actor self.new.pass) }
        ensures files { FilesNothing (actor self.old.pass) (actor self.new.pass) }
        ensures hand { HasHand exchange.now.handover self.old.hand self.new.hand }
        ensures all { GetsAll (unit_count exchange.now.board) self.old self.new }
    {
        if self.is_starved() {
            return;
        }
        self.try_header(exchange);
        self.sweep_slices(exchange);
    }

    // Whether memory was wanting.
    pub(crate) fn is_starved(&self) -> bool
        ensures { result ≡ self.now.starved }
    {
        self.starved
    }

    // Closes the board.
    pub(crate) fn end(self, exchange: Exchange) -> SweepEnd
        requires pass { IsBoardPass exchange.board self.pass }
        requires alone { IsAlone (actor self.pass) }
        requires hand { IsHandPass exchange.handover self.hand }
        requires single { IsAlone (hand_actor self.hand) }
        requires sated { self.starved ≡ false }
        requires all { (unit : ℕ) → unit < unit_count exchange.board → GotIfWhole (actor self.pass) unit }
        ensures kept { IsKeptOf (held_in result.board.actor.stored) result.handover result.kept }
        ensures actor { result.board.actor ≡ actor self.pass }
        ensures done { IsDone packets (actor self.pass) }
    {
        let Activity {
            mut pass,
            hand,
            head,
            kept,
            stripes: made,
            ..
        } = self;
        let Exchange {
            board,
            handover,
            ..
        } = exchange;
        let trusted = is_shown(&board, &mut pass, &head);
        let kept = Kept {
            head,
            copies: kept,
            stripes: Stripes { hand, made },
            trusted,
        };
        SweepEnd {
            board: board.close(pass),
            handover,
            kept,
        }
    }
}

// Whether the header that is shown was read of the same bytes.
fn is_shown(board: &Board, pass: &mut BoardPass, head: &Option<HeadRead>) -> bool
    requires pass { IsBoardPass board.now pass.old }
    ensures pass { IsBoardPass board.now pass.new }
    ensures same { actor pass.new ≡ actor pass.old }
    ensures shown { result ≡ true → AreReadAlike (knows pass.old) head.now }
{
    let Some(head) = head else {
        return false;
    };
    match board.header(pass) {
        Some(shown) => shown.bytes.as_slice() == head.bytes.as_slice(),
        None => false,
    }
}
