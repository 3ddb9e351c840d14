//! Bits, written and read, the most significant of each number first; and the counts of code groups.
#![tactic(auto)]

mod counts;
mod numbers;
mod reader;
mod window;
mod writer;

pub use counts::Counts;
pub use reader::{BitReader, Ended};
pub use writer::BitWriter;
