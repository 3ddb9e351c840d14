//! The shared types: what a header of a codestream says, what an encoder is asked for, pictures, and codestreams in pieces.
#![tactic(auto)]

mod check;
mod header;
pub mod markers;
mod planes;
mod raw;
mod settings;
mod stream;

pub use check::{Checked, boxes_told};
pub use header::{Header, Weights, default_weights};
pub use planes::{Planes, component_width, rows_apart};
pub use settings::{Field, Mode, Setting, Settings};
pub use stream::Stream;
pub use xs_layout::{Candidate, Format, Quant, Shape, Weight, limits};
