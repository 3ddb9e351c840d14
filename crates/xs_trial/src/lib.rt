//! A picture, and an order of packets, made of a number: the same number always gives the same.
#![tactic(auto)]

mod comparison;
mod generator;
mod order;
mod picture;

pub use comparison::{Comparison, compare};
pub use order::shuffle;
pub use picture::trial_picture;
