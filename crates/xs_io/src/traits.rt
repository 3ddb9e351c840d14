// Where bytes come from and where they go to, each with a count of its faults.
ghost use Rattle.std.specs.Prelude.{◌≡◌, ◌<◌, ◌≤◌, ℕ, List, length, Option, IfOk};
ghost use Rattle.std.specs.Io.{ReadsAtMost};
ghost use Rattle.std.specs.Io.KnownBytes.{ReadConsumes, WriteAppends};
ghost use Rattle.xs_io.specs.Causes.{HasCause, HasSinkCause};

use crate::lists::Memory;
use thiserror::Error;

/// The device failed.
#[derive(Clone, Copy, Debug)]
pub struct Failed;

/// Why a sink took nothing.
#[derive(Debug, Drop, Error)]
pub enum SinkFault {
    #[error("the output failed")]
    Failed,
    #[error("out of memory")]
    Memory,
}

/// Why bytes were not taken whole.
#[derive(Debug, Drop, Error)]
pub enum TakeFault {
    #[error("the input failed")]
    Failed,
    #[error("the input is over its limit")]
    Limit,
    #[error("out of memory")]
    Memory,
}

impl From<Memory> for SinkFault {
    ghost use Rattle.xs_io.specs.declared.traits.SinkFault.TheVariants.{Memory};

    ghost from_gives = { λ _ fault. fault ≡ Memory };

    fn from(_memory: Memory) -> SinkFault {
        SinkFault::Memory
    }
}

impl From<Memory> for TakeFault {
    ghost use Rattle.xs_io.specs.declared.traits.TakeFault.TheVariants.{Memory};

    ghost from_gives = { λ _ fault. fault ≡ Memory };

    fn from(_memory: Memory) -> TakeFault {
        TakeFault::Memory
    }
}

impl From<Failed> for TakeFault {
    ghost use Rattle.xs_io.specs.declared.traits.TakeFault.TheVariants.{Failed};

    ghost from_gives = { λ _ fault. fault ≡ Failed };

    fn from(_failed: Failed) -> TakeFault {
        TakeFault::Failed
    }
}

/// Where bytes come from.
pub trait Source {
    // The bytes that are left, where it tells them.
    ghost left: { Self → Option (List ℕ) };

    // A count of faults that never falls.
    ghost faults: { Self → ℕ };

    /// Takes some bytes, at most as many as `into` has room for, and none only at the end.
    fn take(&mut self, into: &mut [u8]) -> Result<usize, Failed>
        requires room { 0 < length into.old }
        ensures bound { ReadsAtMost result into.new }
        ensures bytes { ReadConsumes (left self.old) (left self.new) result into.new }
        ensures cause { HasCause (faults self.old) (faults self.new) result };
}

/// Where bytes go to.
pub trait Sink {
    // The bytes that it holds, where it tells them.
    ghost held: { Self → Option (List ℕ) };

    // A count of faults that never falls.
    ghost faults: { Self → ℕ };

    /// Takes some bytes of the piece, at least one, and appends them.
    fn give(&mut self, piece: &[u8]) -> Result<usize, SinkFault>
        requires some { 0 < length piece.now }
        ensures bound { IfOk result (λ count. (0 < count) × (count ≤ length piece.now)) }
        ensures bytes { WriteAppends (held self.old) (held self.new) result piece.now }
        ensures cause { HasSinkCause (faults self.old) (faults self.new) result };
}
