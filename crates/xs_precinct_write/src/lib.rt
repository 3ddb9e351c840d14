//! A precinct of a slice as bytes: docs/FORMAT.md, 'Slice, precinct and packet'.
#![tactic(auto)]

mod write;

pub use write::{
    FilledPrecinct, Scratch, SliceAt, modes_at, write_filled_precinct, write_precinct,
};
