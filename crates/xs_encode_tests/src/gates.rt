// A gate that counts.
use std::sync::atomic::AtomicU32;
use std::sync::atomic::Ordering::SeqCst;
use xs_io::Gate;

/// Answers every worker the same, and counts how often it is asked.
#[derive(Drop)]
pub struct CountingGate {
    answer: bool,
    calls: AtomicU32,
}

impl CountingGate {
    /// A gate that answers this, and was not asked.
    pub fn new(answer: bool) -> CountingGate {
        CountingGate {
            answer,
            calls: AtomicU32::new(0),
        }
    }

    /// How often it was asked.
    pub fn calls(&self) -> u32 {
        self.calls.load(SeqCst)
    }
}

impl Gate for CountingGate {
    fn pass(&self, _worker: u32, _turn: u32, _won: u32) -> bool {
        self.calls.fetch_add(1, SeqCst);
        self.answer
    }
}
