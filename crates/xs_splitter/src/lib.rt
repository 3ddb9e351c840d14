//! A component is split row by row into its bands.
#![tactic(auto)]

mod columns;
mod level;
mod row;
mod splitter;

ghost use Rattle.xs_splitter.specs.Shown.{BandsShown};

pub use columns::Columns;
pub use level::{Level, LevelShape};
pub use row::Row;
pub use splitter::{SplitShape, Splitter};

/// The rows that are known are the first rows of the bands of the whole plane.
pub fn bands_shown()
    ensures { BandsShown }
{}
