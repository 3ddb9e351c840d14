//! A component is joined row by row of its bands.
//!
//! A `Joiner` gives the lines of a component from the top. For each line it asks for the rows of the bands that this line
//! makes necessary, and it keeps what the next lines need of them, so that no row is asked for twice. A level that is split
//! down keeps three rows and a spare one; nothing is allocated after the start.
//!
//! How great the numbers may be: entries of the bands are below 2^23, that is 4 units of 2^21. A level that is split across
//! adds less than 6 units to the rows that it takes, and one that is split down too less than 21. So five levels with two of
//! them down stay below 64 units, 2^27, and each step takes what it needs in 32 bits.
#![tactic(auto)]

mod columns;
mod joiner;
mod level;
mod row;
mod source;

ghost use Rattle.xs_joiner.specs.Near.{RowsNear};

pub use columns::Columns;
pub use joiner::{JoinShape, Joiner};
pub use level::{Level, LevelShape};
pub use row::Row;
pub use source::{Band, BandRows};

/// A stripe of lines looks no further than the first rows below it.
pub fn rows_near()
    ensures { RowsNear }
{}
