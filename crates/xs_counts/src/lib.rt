//! The bit-plane counts of a line of a band: how they are written as bits, and read back (docs/FORMAT.md, 'Bit-plane counts').
#![tactic(auto)]

mod flags;
mod ones;
mod predictor;
mod read;
mod write;

pub use flags::Flags;
pub use ones::{count_for, ones_for};
pub use predictor::Predictor;
pub use read::{read_counts, read_counts_into, read_flags, read_raw, read_raw_into};
pub use write::{mode_bits, write_counts, write_flags};
pub use xs_faults::CountFault;
