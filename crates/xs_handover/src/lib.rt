//! The handover of a picture: threads hand the rows of decoded slices to the stripes that need them, and synthesise whole
//! stripes of them.
#![tactic(auto)]

mod block;
mod blocks;
mod calls;
mod claim;
mod claims;
mod closed;
mod fault;
mod hand;
mod handover;
mod header;
mod piece;
mod pieces;
mod reading;
mod synthesis;

pub use block::RowBlock;
pub use claim::StripeClaim;
pub use closed::ClosedHandover;
pub use fault::HandFault;
pub use handover::{HandPass, Handover};
