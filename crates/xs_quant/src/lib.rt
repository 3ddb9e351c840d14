//! The two quantisers, and a coefficient's rounding.
#![tactic(auto)]

mod dead_zone;
mod folding;
mod groups;
mod rows;
mod uniform;

pub use folding::fold;
pub use groups::{dequantise, quantise};
pub use rows::{Raise, fold_row, raise_row};
