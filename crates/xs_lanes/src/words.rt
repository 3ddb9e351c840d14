// Where the words and slots of a lane stand in the table.
ghost use Rattle.std.specs.Prelude.{◌≡◌, ◌<◌};
ghost use Rattle.xs_lane_core.specs.Places.{places};
ghost use Rattle.xs_lanes.specs.Filing.{lane_word, slot_at};

use xs_lane_core::PLACES;

// The words of a lane: eight of the places that are taken, eight of those that are home, and three more.
pub const LANE_WORDS: usize = 19;

pub const HOME: usize = 8;

pub const SUMMARY: usize = 16;

pub const CLAIMED: usize = 17;

pub const DRAWN: usize = 18;

pub fn lane_word(lane: u32, word: usize) -> usize
    requires { word < 19 }
    ensures { result ≡ lane_word lane word }
{
    LANE_WORDS * lane as usize + word
}

pub fn slot_at(lane: u32, place: usize) -> usize
    requires { place < places }
    ensures { result ≡ slot_at lane place }
{
    PLACES * lane as usize + place
}
