// What is received of a picture.
ghost use Rattle.std.specs.Prelude.{◌≡◌};

use xs_board::ClosedBoard;
use xs_faults::{HeadFault, SliceFault};
use xs_handover::ClosedHandover;
use xs_io::{Memory, Numbers};
use xs_params::Planes;

/// What is wrong with a picture whose units are whole.
#[derive(Clone, Copy, Debug, PartialEq, Eq)]
pub enum Damage {
    /// The header unit is no header; its first fault.
    Head(HeadFault),
    /// The least slice whose unit is no slice, and its first fault.
    Slice { slice: u32, fault: SliceFault },
    /// The length that the header states is not that of the codestream.
    Lcod { stated: u32, length: u32 },
}

/// What is received of a picture: the first of these that is not ruled out, but for the picture itself, which comes last.
#[derive(Debug, Drop)]
pub enum Received {
    /// The picture.
    Picture(Planes),
    /// What is not whole: the header unit, or else all slices that are not, ascending.
    Missing { header: bool, slices: Numbers },
    /// What is wrong.
    Damaged(Damage),
}

/// What is received of a picture, the board on which its packets were filed, and the handover of which its stripes were made.
#[derive(Drop)]
pub struct Reception {
    pub received: Received,
    pub board: ClosedBoard,
    pub stripes: ClosedHandover,
}

// Why no picture is given: what is received in its place, or want of memory.
#[derive(Drop)]
pub(crate) enum Stop {
    Answer(Received),
    Memory,
}

impl From<Memory> for Stop {
    ghost use Rattle.std.specs.Prelude.{◌≡◌};
    ghost use Rattle.xs_recv.specs.declared.received.Stop.TheVariants as stop;

    ghost from_gives = { λ _ result. result ≡ stop.Memory };

    fn from(_memory: Memory) -> Stop {
        Stop::Memory
    }
}

// The answer that a picture is damaged.
pub(crate) fn damaged(damage: Damage) -> Stop
    ensures { result ≡ Stop.Answer (Received.Damaged damage) }
{
    Stop::Answer(Received::Damaged(damage))
}
