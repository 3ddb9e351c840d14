//! The numbers of a line of a band: how their planes and signs are written as bits, and read back.
#![tactic(auto)]

mod read;
mod sizes;
mod tables;
mod write;

pub use read::{read_data, read_signs};
pub use sizes::{data_bits, sign_bits};
pub use write::{write_data, write_signs};
