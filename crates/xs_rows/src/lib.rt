//! The transforms on single rows of 32-bit numbers.
//!
//! How great the numbers may be: a step takes entries below 2^29, so that two of them and 2 fit with the third. A sample
//! and a colour difference are below 2^20, and each step that takes a picture apart at most doubles them, so that seven
//! stay below 2^27. On the way back the numbers are sums of what lies below 2^23 in the bands, and stay below 2^27.
#![tactic(auto)]

mod kernels;
mod lifting;
mod lines;
mod scaling;

pub use kernels::{
    predict_forward_row, predict_inverse_row, update_forward_row, update_inverse_row,
};
pub use lines::{join_row, split_row};
pub use scaling::{raise_row, scale_row_in, scale_row_out};
