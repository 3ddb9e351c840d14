//! Captures of RTP packets, the offers in them, and what is selected of offers: bytes are one list of whole frames, or are cut
//! at one place.
#![tactic(auto)]

mod frames;
mod laws;
mod offers;
mod parts;
mod pictures;
mod units;

pub use frames::{FrameFault, read_frame, write_frame};
pub use laws::{
    cut_or_whole, frame_is_read, frames_are_one, one_end, one_selection, selection_exists,
    selection_of_set, timestamps_exist,
};
pub use offers::offer;
pub use parts::Parts;
pub use pictures::{SortFault, Sorted, sort_pictures};
pub use units::Packet;
