// An activity scans for slices and stripes.
ghost use Rattle.std.specs.Prelude.{◌≡◌, ◌<◌, ◌≤◌, All, IfSome, Some};
ghost use Rattle.xs_params.specs.Accepted.{IsAccepted};
ghost use Rattle.xs_params.specs.Geometry.{slice_count};
ghost use Rattle.xs_lanes.specs.Knowing.{SameShare};
ghost use Rattle.xs_board.specs.Passes.{IsBoardPass, actor, knows, unit_count};
ghost use Rattle.xs_board.specs.Answers.{FilesNothing};
ghost use Rattle.xs_handover.specs.Passes.{IsHandPass, stripe_count};
ghost use Rattle.xs_recv.specs.Activities.{HasHand, KnowsHeader};
ghost use Rattle.xs_recv.specs.Filing.{HasRun};

use crate::activity::{Activity, Role};
use crate::exchange::Exchange;
use crate::head::header_of;
use crate::worker::{SCANS, Worker};
use xs_board::{Board, HeadRead};
use xs_geometry::Geometry;
use xs_io::Gate;
use xs_params::Header;

impl Activity {
    // One look at a slice, where the board has its unit and the worker does not know it to be claimed. False where the worker ends.
    fn look_slice<G: Gate>(
        &mut self,
        exchange: &Exchange,
        header: &Header,
        slice: u32,
        worker: &mut Worker,
        gate: &G,
    ) -> bool
        requires pass { IsBoardPass exchange.now.board self.old.pass }
        requires hand { IsHandPass exchange.now.handover self.old.hand }
        requires known { KnowsHeader (knows self.old.pass) header.now }
        requires accepted { IsAccepted header.now }
        requires stripes { slice_count header.now ≤ stripe_count exchange.now.handover }
        ensures pass { IsBoardPass exchange.now.board self.new.pass }
        ensures share { SameShare (actor self.old.pass) (actor self.new.pass) }
        ensures files { FilesNothing (actor self.old.pass) (actor self.new.pass) }
        ensures knows { knows self.new.pass ≡ knows self.old.pass }
        ensures hand { HasHand exchange.now.handover self.old.hand self.new.hand }
    {
        if worker.is_done(slice) || !exchange.has_unit(header, slice) {
            return true;
        }
        let tried = self.try_slice(exchange, Some(header), slice);
        worker.notes(slice, tried, gate)
    }

    // One look at the stripe of the slice before, where there is one and the worker does not know it to be claimed. False where
    // memory was wanting.
    fn look_stripe(
        &mut self,
        exchange: &Exchange,
        header: &Header,
        slice: u32,
        worker: &mut Worker,
    ) -> bool
        requires hand { IsHandPass exchange.now.handover self.old.hand }
        requires known { KnowsHeader (knows self.old.pass) header.now }
        requires accepted { IsAccepted header.now }
        requires slice { slice ≤ slice_count header.now }
        requires stripes { slice_count header.now ≤ stripe_count exchange.now.handover }
        ensures pass { self.new.pass ≡ self.old.pass }
        ensures hand { HasHand exchange.now.handover self.old.hand self.new.hand }
    {
        if slice == 0 || worker.is_made(slice - 1) {
            return true;
        }
        let tried = self.try_stripe(exchange, header, slice - 1);
        worker.notes_stripe(slice - 1, tried)
    }

    // One look at each slice of the header and at each stripe, a stripe right after the slice below it, by whose rows it may have
    // become whole. Nothing where there are more slices than stripes. False where the worker ends.
    fn scan_slices<G: Gate>(
        &mut self,
        exchange: &Exchange,
        header: &Header,
        worker: &mut Worker,
        gate: &G,
    ) -> bool
        requires pass { IsBoardPass exchange.now.board self.old.pass }
        requires hand { IsHandPass exchange.now.handover self.old.hand }
        requires known { KnowsHeader (knows self.old.pass) header.now }
        requires accepted { IsAccepted header.now }
        ensures pass { IsBoardPass exchange.now.board self.new.pass }
        ensures share { SameShare (actor self.old.pass) (actor self.new.pass) }
        ensures files { FilesNothing (actor self.old.pass) (actor self.new.pass) }
        ensures hand { HasHand exchange.now.handover self.old.hand self.new.hand }
    {
        let slices = Geometry::of(header).slices();
        if slices > exchange.stripes {
            return true;
        }
        'scanning: for slice in 0..=slices {
            if !self.look_slice(exchange, header, slice, worker, gate) {
                return false;
            }
            if !self.look_stripe(exchange, header, slice, worker) {
                return false;
            }
        }
        true
    }

    // The header that is shown.
    fn shown<'a>(&mut self, board: &'a Board) -> Option<&'a HeadRead>
        requires pass { IsBoardPass board.now self.old.pass }
        ensures pass { IsBoardPass board.now self.new.pass }
        ensures same { actor self.new.pass ≡ actor self.old.pass }
        ensures hand { self.new.hand ≡ self.old.hand }
        ensures shown { IfSome result (λ r. knows self.new.pass ≡ Some r.now) }
    {
        board.header(&mut self.pass)
    }

    // One look at the header unit, or where a header is known, at its slices, unless nothing can be claimed any more. False where
    // the worker ends.
    fn scan<G: Gate>(&mut self, exchange: &Exchange, worker: &mut Worker, gate: &G) -> bool
        requires pass { IsBoardPass exchange.now.board self.old.pass }
        requires hand { IsHandPass exchange.now.handover self.old.hand }
        ensures pass { IsBoardPass exchange.now.board self.new.pass }
        ensures share { SameShare (actor self.old.pass) (actor self.new.pass) }
        ensures files { FilesNothing (actor self.old.pass) (actor self.new.pass) }
        ensures hand { HasHand exchange.now.handover self.old.hand self.new.hand }
    {
        if worker.is_over() {
            return true;
        }
        let Some(head) = self.shown(&exchange.board) else {
            return worker.goes_on(self.try_header(exchange));
        };
        match header_of(head) {
            Some(header) => self.scan_slices(exchange, header, worker, gate),
            None => true,
        }
    }

    // Scans until the gate, or want of memory, ends it.
    fn work<G: Gate>(&mut self, exchange: &Exchange, number: u32, gate: &G)
        requires pass { IsBoardPass exchange.now.board self.old.pass }
        requires hand { IsHandPass exchange.now.handover self.old.hand }
        ensures pass { IsBoardPass exchange.now.board self.new.pass }
        ensures share { SameShare (actor self.old.pass) (actor self.new.pass) }
        ensures files { FilesNothing (actor self.old.pass) (actor self.new.pass) }
        ensures hand { HasHand exchange.now.handover self.old.hand self.new.hand }
    {
        let mut worker = Worker::new(number);
        'working: for _ in 0..SCANS {
            worker.begin();
            if !self.scan(exchange, &mut worker, gate) || !worker.rests(gate) {
                break;
            }
        }
    }

    // Files its part, and works.
    pub(crate) fn run<G: Gate>(&mut self, exchange: &Exchange, gate: &G)
        requires pass { IsBoardPass exchange.now.board self.old.pass }
        requires hand { IsHandPass exchange.now.handover self.old.hand }
        requires units { All (λ p. p.unit < unit_count exchange.now.board) self.old.part }
        ensures { HasRun exchange.now self.old self.new }
    {
        let role = self.role;
        self.feed(&exchange.board);
        if let Role::Worker(number) = role {
            self.work(exchange, number, gate);
        }
    }
}
