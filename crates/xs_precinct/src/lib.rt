//! A precinct of a slice, read from its bytes.
#![tactic(auto)]

mod read;

pub use read::{Above, read_precinct};
pub use xs_faults::{Part, PrecinctFault};
