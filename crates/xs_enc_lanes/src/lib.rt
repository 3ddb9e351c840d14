//! The encoder on several threads. A thread for each component transforms it and files its rows slice by slice in lanes; coders
//! claim the slices that are whole there. The codestream is that of one thread.
#![tactic(auto)]

mod activity;
mod answer;
mod claim;
mod code;
mod encoder;
mod file;
mod gather;
mod lines;
mod put;
mod rows;
mod short;
mod sweep;
mod team;
mod transform;
mod work;
mod worker;

pub use encoder::{Encoded, encode_threaded};
pub use rows::ComponentRows;
