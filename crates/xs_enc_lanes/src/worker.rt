// What a coder counts.
use crate::claim::Tried;
use xs_io::Gate;

// After so many scans that claimed nothing a coder ends.
const TURNS: u32 = 4096;

// So many scans are enough: each of the others claims a slice.
pub(crate) const SCANS: u32 = 6144;

// A picture has at most so many slices.
const SLICES: usize = 2047;

// A scan looks so often at most whether a slice became whole.
const LOOKS: u32 = 256;

// The number of a coder, how many of its scans claimed nothing, how many slices it got, whether its scan claimed nothing so far, and
// met a slice that is not whole yet, and which slices it knows to be claimed.
#[derive(Drop)]
pub(crate) struct Worker {
    number: u32,
    turn: u32,
    won: u32,
    idle: bool,
    waits: bool,
    done: [bool; SLICES],
}

impl Worker {
    pub(crate) fn new(number: u32) -> Worker {
        Worker {
            number,
            turn: 0,
            won: 0,
            idle: true,
            waits: false,
            done: [false; SLICES],
        }
    }

    // A scan begins.
    pub(crate) fn begin(&mut self) {
        self.idle = true;
        self.waits = false;
    }

    // Whether the slice is known to be claimed.
    pub(crate) fn is_done(&self, slice: u32) -> bool {
        (slice as usize) < SLICES && self.done[slice as usize]
    }

    // The slice is known to be claimed.
    fn mark(&mut self, slice: u32) {
        if (slice as usize) < SLICES {
            self.done[slice as usize] = true;
        }
    }

    // Notes what became of the claim of a slice, and where it was got, asks the gate. False where the coder ends.
    pub(crate) fn notes<G: Gate>(&mut self, slice: u32, tried: Tried, gate: &G) -> bool {
        match tried {
            Tried::Got => {
                self.mark(slice);
                self.idle = false;
                self.won = self.won.saturating_add(1);
                gate.pass(self.number, self.turn, self.won)
            }
            Tried::Gone => {
                self.mark(slice);
                true
            }
            Tried::NotWhole => {
                self.waits = true;
                true
            }
            Tried::Starved => false,
        }
    }

    // Whether the scan met a slice that is not whole yet.
    pub(crate) fn waits(&self) -> bool {
        self.waits
    }

    // How often the scan looks whether that slice became whole: more often the more scans claimed nothing, and not at all where this
    // one claimed something.
    pub(crate) fn looks(&self) -> u32 {
        if self.idle { self.turn.min(LOOKS) } else { 0 }
    }

    // Ends a scan: where it claimed nothing, asks the gate. False where the coder ends.
    pub(crate) fn ends<G: Gate>(&mut self, gate: &G) -> bool {
        if !self.idle {
            return true;
        }
        self.turn = self.turn.saturating_add(1);
        gate.pass(self.number, self.turn, self.won) && self.turn < TURNS
    }
}
