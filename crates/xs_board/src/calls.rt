// The calls of the board that claim nothing.
ghost use Rattle.std.specs.Prelude.{◌≡◌, ◌<◌, ◌≤◌, None, IfOk, IfSome, MatchOption, Some};
ghost use Rattle.once_cell.specs.Once.{Agrees};
ghost use Rattle.xs_lane_core.specs.Machine.{newcomer, halves, copied, joined};
ghost use Rattle.xs_lane_core.specs.Sound.{IsAlone};
ghost use Rattle.xs_lanes.specs.Knowing.{SameShare, IsChoice};
ghost use Rattle.xs_lanes.specs.Answers.{Answers};
ghost use Rattle.xs_lanes.specs.Exact.{PutExactly};
ghost use Rattle.xs_lanes.specs.Settled.{IsDone};
ghost use Rattle.xs_stored.specs.Stored.{packets};
ghost use Rattle.xs_board.specs.Passes.{IsBoardPass, KnowsStill, unit_count, actor, knows};

use crate::board::{Board, BoardPass};
use crate::closed::ClosedBoard;
use crate::head::HeadRead;
use once_cell::race::OnceBox;
use std::alloc::Global;
use xs_capture::Packet;
use xs_io::Memory;
use xs_lanes::{Lanes, Put};

impl Board {
    /// A board of 1 to 2048 units without packets, and a pass with the whole share.
    pub fn new(alloc: Global, units: u32) -> Result<(Board, BoardPass), Memory>
        requires units { (1 ≤ units) × (units ≤ 2048) }
        ensures pass { IfOk result (λ r. IsBoardPass r.0 r.1) }
        ensures first { IfOk result (λ r. actor r.1 ≡ newcomer) }
        ensures knows { IfOk result (λ r. knows r.1 ≡ None) }
        ensures count { IfOk result (λ r. unit_count r.0 ≡ units) }
    {
        let (lanes, pass) = Lanes::new(alloc, units)?;
        let head = OnceBox::new(alloc);
        let note = head.note();
        Ok((Board { lanes, head, units }, BoardPass { pass, note }))
    }

    /// How many units it has.
    pub fn units(&self) -> u32
        ensures count { result ≡ unit_count self.now }
        ensures some { 0 < result }
    {
        self.units
    }

    /// A pass for another thread, with half of this one's share. It knows what this one saw.
    pub fn split(&self, pass: &mut BoardPass) -> BoardPass
        requires pass { IsBoardPass self.now pass.old }
        ensures pass { IsBoardPass self.now pass.new }
        ensures old { (actor pass.new ≡ halves (actor pass.old)) × (knows pass.new ≡ knows pass.old) }
        ensures other { IsBoardPass self.now result }
        ensures new { (actor result ≡ copied (actor pass.old)) × (knows result ≡ knows pass.old) }
    {
        BoardPass {
            pass: self.lanes.split(&mut pass.pass),
            note: pass.note.again(),
        }
    }

    /// Takes in what the other pass did and saw, and its share.
    pub fn join(&self, pass: &mut BoardPass, other: BoardPass)
        requires pass { IsBoardPass self.now pass.old }
        requires other { IsBoardPass self.now other }
        ensures pass { IsBoardPass self.now pass.new }
        ensures union { actor pass.new ≡ joined (actor pass.old) (actor other) }
        ensures knows { KnowsStill (knows pass.old) (knows pass.new) }
        ensures learns { KnowsStill (knows other) (knows pass.new) }
    {
        let BoardPass {
            pass: seat,
            mut note,
        } = other;
        self.lanes.join(&mut pass.pass, seat);
        if self.head.get_as(&mut note).is_some() {
            pass.note.compare(note.again());
            pass.note = note;
        }
    }

    /// Files the packet, or hands it back where its place is taken.
    pub fn file(&self, pass: &mut BoardPass, packet: Packet) -> Put<Packet>
        requires pass { IsBoardPass self.now pass.old }
        requires unit { packet.unit < unit_count self.now }
        ensures pass { IsBoardPass self.now pass.new }
        ensures share { SameShare (actor pass.old) (actor pass.new) }
        ensures knows { knows pass.new ≡ knows pass.old }
        ensures answer { Answers packets (actor pass.old) packet (actor pass.new) result }
        ensures exact { PutExactly packets (unit_count self.now) (actor pass.old) packet result }
        ensures choice { IsAlone (actor pass.old) → IsChoice packets (actor pass.old) }
    {
        self.lanes.put(&mut pass.pass, packet)
    }

    /// The header that was read first. None only where the pass knows none.
    pub fn header<'a>(&'a self, pass: &mut BoardPass) -> Option<&'a HeadRead>
        requires pass { IsBoardPass self.now pass.old }
        ensures pass { IsBoardPass self.now pass.new }
        ensures same { actor pass.new ≡ actor pass.old }
        ensures shown { MatchOption result ((knows pass.old ≡ None) × (knows pass.new ≡ None)) (λ r. (knows pass.new ≡ Some r.now) × Agrees (knows pass.old) r.now) }
    {
        self.head.get_as(&mut pass.note)
    }

    /// Ends the board. All passes were joined into this one.
    pub fn close(self, pass: BoardPass) -> ClosedBoard
        requires pass { IsBoardPass self pass }
        requires alone { IsAlone (actor pass) }
        ensures last { (result.actor ≡ actor pass) × (result.count ≡ unit_count self) }
        ensures done { IsDone packets (actor pass) }
    {
        let Board { lanes, head, units } = self;
        let BoardPass { pass, note } = pass;
        drop(head);
        drop(note);
        ClosedBoard {
            closed: lanes.close(pass),
            units,
        }
    }
}
