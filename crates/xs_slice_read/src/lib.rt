//! One slice of a codestream, read from its bytes.
#![tactic(auto)]

mod slice;
mod unit;

pub use slice::{read_front, read_slice};
pub use unit::read_unit;
pub use xs_faults::{Part, PrecinctFault, SliceFault};
