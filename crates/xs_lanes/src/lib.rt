//! Lanes of 512 places each, which threads file values into. No call waits: each step is one atomic operation.
#![tactic(auto)]

mod claim;
mod closed;
mod lanes;
mod laws;
mod put;
mod table;
mod words;

pub use claim::Claim;
pub use closed::Closed;
pub use lanes::Put;
pub use laws::{each_step_is_an_event, shares_join, whole_is_stored};
pub use table::{Known, Lanes, Pass};
pub use xs_io::Placed;
pub use xs_lane_core::PLACES;
