// An activity files its part.
ghost use Rattle.std.specs.Prelude.{◌≡◌, ◌<◌, All};
ghost use Rattle.xs_lanes.specs.Knowing.{SameShare};
ghost use Rattle.xs_stored.specs.Stored.{IsFiled};
ghost use Rattle.xs_board.specs.Passes.{IsBoardPass, actor, knows, unit_count};
ghost use Rattle.xs_recv.specs.Filing.{FilesOf, Puts};

use crate::activity::Activity;
use std::mem;
use xs_board::{Board, BoardPass};
use xs_capture::Packet;

// Files one packet. One that comes back is dropped.
fn file(board: &Board, pass: &mut BoardPass, packet: Packet)
    requires pass { IsBoardPass board.now pass.old }
    requires unit { packet.unit < unit_count board.now }
    ensures pass { IsBoardPass board.now pass.new }
    ensures share { SameShare (actor pass.old) (actor pass.new) }
    ensures knows { knows pass.new ≡ knows pass.old }
    ensures got { (actor pass.new).got ≡ (actor pass.old).got }
    ensures puts { Puts packet (actor pass.old) (actor pass.new) }
{
    drop(board.file(pass, packet));
}

// Files all packets of a part, the first one first.
fn file_all(board: &Board, pass: &mut BoardPass, part: Vec<Packet>)
    requires pass { IsBoardPass board.now pass.old }
    requires units { All (λ p. p.unit < unit_count board.now) part.items }
    ensures pass { IsBoardPass board.now pass.new }
    ensures share { SameShare (actor pass.old) (actor pass.new) }
    ensures knows { knows pass.new ≡ knows pass.old }
    ensures got { (actor pass.new).got ≡ (actor pass.old).got }
    ensures files { FilesOf part.items (actor pass.old) (actor pass.new) }
    ensures each { All (IsFiled (actor pass.new)) part.items }
{
    'feeding: for packet in part {
        file(board, pass, packet);
    }
}

impl Activity {
    // Files each packet of its part.
    pub(crate) fn feed(&mut self, board: &Board)
        requires pass { IsBoardPass board.now self.old.pass }
        requires units { All (λ p. p.unit < unit_count board.now) self.old.part }
        ensures pass { IsBoardPass board.now self.new.pass }
        ensures share { SameShare (actor self.old.pass) (actor self.new.pass) }
        ensures files { FilesOf self.old.part (actor self.old.pass) (actor self.new.pass) }
        ensures each { All (IsFiled (actor self.new.pass)) self.old.part }
        ensures hand { self.new.hand ≡ self.old.hand }
    {
        let part = mem::replace(&mut self.part, Vec::new(self.alloc));
        file_all(board, &mut self.pass, part);
    }
}
