//! A precinct as bytes.
mod line;
mod modes;
mod packet;
mod precinct;
mod row;
mod slice;

pub use modes::modes_at;
pub use precinct::{FilledPrecinct, Scratch, write_filled_precinct, write_precinct};
pub use slice::SliceAt;
