//! The sizes of a slice at a candidate, counted without writing.
#![tactic(auto)]

mod bands;
mod counts;
mod cuts;
mod lengths;
mod line;
mod measure;
mod modes;
mod packets;
mod precincts;
mod signs;
mod steps;

pub use counts::{SizeScratch, SliceCounts};
pub use cuts::cuts_of;
pub use measure::{precinct_bytes, precinct_modes, slice_fits, slice_size};
pub use packets::{Coding, Measured};
pub use steps::{Change, change_of, slice_step};
