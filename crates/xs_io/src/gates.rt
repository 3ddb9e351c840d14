// Who is asked whether a worker goes on.
ghost use Rattle.std.specs.Prelude.{◌≡◌, ◌<◌, ◌≤◌, ◌^◌, true, false};

use std::hint;
use std::sync::atomic::AtomicU32;
use std::sync::atomic::Ordering::SeqCst;

/// Answers whether a worker goes on with its scan. The answer changes who does the work, and never the result.
pub trait Gate: Sync {
    /// `won` is the number of slices that this worker has got so far, `turn` the number of its scans that claimed nothing.
    fn pass(&self, worker: u32, turn: u32, won: u32) -> bool;
}

/// Lets every worker go on.
#[derive(Clone, Copy)]
pub struct OpenGate;

impl Gate for OpenGate {
    fn pass(&self, _worker: u32, _turn: u32, _won: u32) -> bool
        ensures open { result ≡ true }
    {
        true
    }
}

/// Ends every worker's scan at its first pass.
#[derive(Clone, Copy)]
pub struct StopGate;

impl Gate for StopGate {
    fn pass(&self, _worker: u32, _turn: u32, _won: u32) -> bool
        ensures stop { result ≡ false }
    {
        false
    }
}

/// For tests: lets workers that won a slice go on once each party has won one. It has a flag for each of 1 to 16 parties.
#[derive(Drop)]
pub struct TurnstileGate {
    parties: u32,
    flags: AtomicU32,
    met: AtomicU32,
    ghost few: { (0 < parties) × (parties ≤ 16) },
}

const MEETING_LOOKS: u32 = 100_000_000;

const IDLE_LOOKS: u32 = 25_000;

// The flag of a worker: one bit for each.
fn flag_of(worker: u32) -> u32
    requires { worker ≤ 16 }
    ensures { result ≡ 2 ^ worker }
{
    1 << worker
}

impl TurnstileGate {
    ghost use Rattle.xs_io.specs.Gates.{turnstile_parties};

    pub fn new(parties: u32) -> TurnstileGate
        requires few { (0 < parties) × (parties ≤ 16) }
        ensures parties { turnstile_parties result ≡ parties }
    {
        TurnstileGate {
            parties,
            flags: AtomicU32::new(0),
            met: AtomicU32::new(0),
        }
    }

    /// How many workers saw all flags at their first pass with a slice.
    pub fn met(&self) -> u32 {
        self.met.load(SeqCst)
    }

    // Sets the worker's flag, and answers whether it was set before.
    fn set(&self, worker: u32) -> bool
        requires { worker < 16 }
    {
        let flag = flag_of(worker);
        self.flags.fetch_or(flag, SeqCst) & flag != 0
    }

    fn all_set(&self) -> bool {
        self.flags.load(SeqCst) == flag_of(self.parties) - 1
    }

    fn look(&self, times: u32) -> bool {
        for _ in 0..times {
            if self.all_set() {
                return true;
            }
            hint::spin_loop();
        }
        false
    }
}

impl Gate for TurnstileGate {
    ghost use Rattle.xs_io.specs.Gates.{turnstile_parties};

    fn pass(&self, worker: u32, _turn: u32, won: u32) -> bool
        ensures outside { turnstile_parties self.now ≤ worker → result ≡ false }
        ensures idle { worker < turnstile_parties self.now → won ≡ 0 → result ≡ true }
    {
        if worker >= self.parties {
            return false;
        }
        if won == 0 {
            self.look(IDLE_LOOKS);
            return true;
        }
        if self.set(worker) {
            return self.all_set();
        }
        let all = self.look(MEETING_LOOKS);
        if all {
            self.met.fetch_add(1, SeqCst);
        }
        all
    }
}
