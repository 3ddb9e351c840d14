//! Samples: raw pictures, and the numbers that the transforms work on.
#![tactic(auto)]

mod raw;
mod rows;
mod scaling;

pub use raw::{SampleFault, raw_size, read_picture, read_rows, write_picture, write_rows};
pub use rows::RowRange;
pub use scaling::{scale_in, scale_out};
