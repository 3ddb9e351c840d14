//! What is received of a picture whose packets came in any order, each as often as one likes: the picture, or what is
//! missing, or what is damaged.
#![tactic(auto)]

mod activity;
mod answer;
mod claim;
mod exchange;
mod feed;
mod feeds;
mod finishing;
mod gather;
mod head;
mod laws;
mod picture;
mod received;
mod receiver;
mod slices;
mod start;
mod stripe;
mod stripes;
mod sweep;
mod team;
mod work;
mod worker;

pub use laws::{
    answer_exists, answer_of_set, offers_are_dealt, offers_are_in_capture, one_answer,
    sent_is_received,
};
pub use received::{Damage, Received, Reception};
pub use receiver::receive_picture;
