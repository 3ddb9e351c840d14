// What a worker counts.
use crate::claim::Tried;
use std::thread;
use xs_io::Gate;

// After so many scans that claimed nothing a worker ends.
const TURNS: u32 = 4096;

// So many scans are enough: each but those 4096 claims the header unit, the unit of a slice or a stripe.
pub(crate) const SCANS: u32 = 8192;

// A picture has at most so many slices that are sent.
const SLICES: usize = 2047;

// The number of a worker, how many of its scans claimed nothing, how many slices it got, whether its scan claimed nothing so
// far, and met a unit or a stripe for which others are needed, whether nothing can be claimed any more, and which slices and
// which stripes it knows to be claimed.
#[derive(Drop)]
pub(crate) struct Worker {
    number: u32,
    turn: u32,
    won: u32,
    idle: bool,
    waits: bool,
    over: bool,
    done: [bool; SLICES],
    made: [bool; SLICES],
}

impl Worker {
    pub(crate) fn new(number: u32) -> Worker {
        Worker {
            number,
            turn: 0,
            won: 0,
            idle: true,
            waits: false,
            over: false,
            done: [false; SLICES],
            made: [false; SLICES],
        }
    }

    // A scan begins.
    pub(crate) fn begin(&mut self) {
        self.idle = true;
        self.waits = false;
    }

    // Whether a scan claimed nothing and met nothing for which others are needed. No later scan can claim anything then.
    pub(crate) fn is_over(&self) -> bool {
        self.over
    }

    // Whether the slice is known to be claimed.
    pub(crate) fn is_done(&self, slice: u32) -> bool {
        (slice as usize) < SLICES && self.done[slice as usize]
    }

    // From now on the slice is known to be claimed.
    fn mark(&mut self, slice: u32) {
        if (slice as usize) < SLICES {
            self.done[slice as usize] = true;
        }
    }

    // Whether the stripe of the slice is known to be claimed.
    pub(crate) fn is_made(&self, slice: u32) -> bool {
        (slice as usize) < SLICES && self.made[slice as usize]
    }

    // From now on the stripe of the slice is known to be claimed.
    fn mark_made(&mut self, slice: u32) {
        if (slice as usize) < SLICES {
            self.made[slice as usize] = true;
        }
    }

    // Notes what became of the claim of the header unit. False where memory was wanting.
    pub(crate) fn goes_on(&mut self, tried: Tried) -> bool {
        match tried {
            Tried::Got => {
                self.idle = false;
                true
            }
            Tried::NotWhole | Tried::Gone => {
                self.waits = true;
                true
            }
            Tried::Starved => false,
        }
    }

    // Notes what became of the claim of a slice, and where it was got, asks the gate. False where the worker ends.
    pub(crate) fn notes<G: Gate>(&mut self, slice: u32, tried: Tried, gate: &G) -> bool {
        match tried {
            Tried::Got => {
                self.mark(slice);
                self.idle = false;
                self.won = self.won.saturating_add(1);
                gate.pass(self.number, self.turn, self.won)
            }
            Tried::Gone => {
                self.mark(slice);
                true
            }
            Tried::NotWhole => {
                self.waits = true;
                true
            }
            Tried::Starved => false,
        }
    }

    // Notes what became of the claim of a stripe. False where memory was wanting.
    pub(crate) fn notes_stripe(&mut self, slice: u32, tried: Tried) -> bool {
        match tried {
            Tried::Got => {
                self.mark_made(slice);
                self.idle = false;
                true
            }
            Tried::Gone => {
                self.mark_made(slice);
                true
            }
            Tried::NotWhole => {
                self.waits = true;
                true
            }
            Tried::Starved => false,
        }
    }

    // Ends a scan: where it claimed nothing, asks the gate, and where it needs others, leaves the processor to them. False where
    // the worker ends.
    pub(crate) fn rests<G: Gate>(&mut self, gate: &G) -> bool {
        if !self.idle {
            return true;
        }
        self.over = !self.waits;
        self.turn = self.turn.saturating_add(1);
        if !gate.pass(self.number, self.turn, self.won) {
            return false;
        }
        if self.waits {
            thread::yield_now();
        }
        self.turn < TURNS
    }
}
