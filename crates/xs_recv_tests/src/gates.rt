// Gates that count, and that send workers away.
use std::sync::atomic::AtomicU32;
use std::sync::atomic::Ordering::SeqCst;
use xs_io::Gate;

/// Answers every worker the same, and counts how often it is asked.
#[derive(Drop)]
pub struct CountingGate {
    answer: bool,
    calls: AtomicU32,
}

impl CountingGate {
    /// A gate that answers this, and was not asked.
    pub fn new(answer: bool) -> CountingGate {
        CountingGate {
            answer,
            calls: AtomicU32::new(0),
        }
    }

    /// How often it was asked.
    pub fn calls(&self) -> u32 {
        self.calls.load(SeqCst)
    }
}

impl Gate for CountingGate {
    fn pass(&self, _worker: u32, _turn: u32, _won: u32) -> bool {
        self.calls.fetch_add(1, SeqCst);
        self.answer
    }
}

/// Sends a worker away after so many scans that claimed nothing, or with more than so many slices.
#[derive(Clone, Copy)]
pub struct Patience {
    pub turns: u32,
    pub slices: u32,
}

impl Gate for Patience {
    fn pass(&self, _worker: u32, turn: u32, won: u32) -> bool {
        turn < self.turns && won <= self.slices
    }
}
