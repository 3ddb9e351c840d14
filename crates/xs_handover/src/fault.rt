// Why nothing was handed over.
ghost use Rattle.std.specs.Prelude.{◌≡◌};

use thiserror::Error;
use xs_faults::SliceFault;
use xs_io::Memory;

/// Why nothing was handed over.
#[derive(Debug, Drop, Error)]
pub enum HandFault {
    /// The bytes are not what is sent of the slice; their first fault, which is never want of memory.
    #[error("the slice has a fault")]
    Slice(SliceFault),
    #[error("memory is wanting")]
    Memory,
}

impl From<Memory> for HandFault {
    ghost use Rattle.xs_handover.specs.declared.fault.HandFault.TheVariants.{Memory};

    ghost from_gives = { λ _ fault. fault ≡ Memory };

    fn from(_memory: Memory) -> HandFault {
        HandFault::Memory
    }
}
