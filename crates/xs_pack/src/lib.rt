//! The RTP packets of a codestream: in any order, and each as often as one likes, their offers give its units back.
#![tactic(auto)]

mod laws;
mod packing;

pub use laws::{datagram_is_offer, offers_are_sent, pieces_join, units_come_back};
pub use packing::{Datagrams, pack};
