//! The picture lines of a slice, from its coefficients and the rows beside it.
//!
//! `Lines` gives the lines of all components from the top, or from a slice on: each row of coefficients is asked for once,
//! raised to full precision, and joined by a `Joiner` of its component; colour is turned back and samples are scaled line
//! by line. It takes all its memory at the start.
//!
//! The lines of a slice need its own rows, of each band that is high down the last row above them, and of each band the first
//! row below them. So a slice hands an `Edge` to each of its neighbours, and `synthesise_stripe` makes the lines of a slice
//! from its rows and two edges. Lines are mirrored at the first and the last line of the picture alone.
#![tactic(auto)]

mod colours;
mod edges;
mod lines;
mod near;
mod place;
mod raised;
mod row_list;
mod sample_list;
mod source;
mod stripe;
mod write;

pub use edges::{Edge, edges_of, slice_edges};
pub use lines::Lines;
pub use source::CoefficientRows;
pub use stripe::{Stripe, synthesise_stripe};
