//! How a run ends: what is said, what stands where a device fails or memory is wanting, and the last note.
#![tactic(auto)]

mod giving;
mod stop;

pub use giving::{close, give, tell};
pub use stop::{Stop, note_status};
