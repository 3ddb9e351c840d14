// Why a run stops, and its status.
ghost use Rattle.std.specs.Prelude.{◌≡◌, ℕ};
ghost use Rattle.xs_endings.specs.Said.{note_status};

use xs_io::{Memory, SinkFault};
use xs_notes::Note;

/// Why a run stops before all is said.
#[derive(Clone, Copy)]
pub enum Stop {
    /// All is said but this note, which is the only one.
    Told(Note),
    /// The input failed.
    ReadFault,
    /// The output or the notes failed.
    WriteFault,
    /// Memory was wanting.
    Memory,
}

impl From<Memory> for Stop {
    ghost use Rattle.xs_endings.specs.declared.stop.Stop.TheVariants.{Memory};

    ghost from_gives = { λ _ why. why ≡ Memory };

    fn from(_memory: Memory) -> Stop {
        Stop::Memory
    }
}

impl From<SinkFault> for Stop {
    ghost use Rattle.xs_endings.specs.Steps.{stop_of_sink};

    ghost from_gives = { λ fault why. why ≡ stop_of_sink fault };

    fn from(fault: SinkFault) -> Stop {
        match fault {
            SinkFault::Failed => Stop::WriteFault,
            SinkFault::Memory => Stop::Memory,
        }
    }
}

/// The status that a note stands for, 'Notes'.
pub fn note_status(note: &Note) -> u8
    ensures { result ≡ note_status note.now }
{
    match note {
        Note::Words { .. } => 1,
        Note::Setting(_) => 2,
        Note::InputCut { .. }
        | Note::InputSample { .. }
        | Note::InputLimit { .. }
        | Note::InputPictures { .. }
        | Note::InputMagic { .. }
        | Note::InputLink { .. } => 3,
        Note::Budget { .. } => 4,
        Note::MissingHeader { .. } | Note::MissingSlice { .. } => 5,
        Note::DamagedHeader { .. } | Note::DamagedSlice { .. } | Note::DamagedLength { .. } => 6,
        Note::Stepped { .. } => 0,
        Note::ReadFault => 7,
    }
}
