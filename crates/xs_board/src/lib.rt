//! The board of a picture: threads file its packets there, and claim whole units of them.
#![tactic(auto)]

mod board;
mod calls;
mod claim;
mod claims;
mod closed;
mod head;
mod reading;
mod units;

pub use board::{Board, BoardPass};
pub use claim::{Claimed, SliceClaim};
pub use closed::ClosedBoard;
pub use head::HeadRead;
pub use reading::Reading;
