// One lane, and what each event changes in it.
ghost use Rattle.std.specs.Prelude.{◌≡◌, ◌<◌, None, ◌&&◌, nat_eq, not, slice_index, slice_index_or};
ghost use Rattle.xs_lane_core.specs.Places.{has, own_bit, places, set_words, word_of, words_above, every_word};
ghost use Rattle.xs_lane_core.specs.declared.values.Numbered.{Numbered};
ghost use Rattle.xs_lane_core.specs.Machine.{Lane, empty_lane, with_taken, with_home, with_summary, with_claim, with_value, owed, home_bits};

use crate::values::Numbered;
use std::marker::Model;

/// How many places a lane has.
pub const PLACES: usize = 512;

/// The summary of a lane that is whole: each of its words is full, or past the place that closes it.
pub const EVERY_WORD: u64 = 255;

// The places of a lane in words of 64.
const WORDS: usize = 8;

const LAST_PLACE: u32 = 511;

const FULL: u64 = u64::MAX;

#[derive(Drop)]
pub struct LaneState {
    taken: [u64; WORDS],
    home: [u64; WORDS],
    summary: u64,
    claimed: bool,
    values: [Option<Numbered>; PLACES],
}

impl Model for LaneState {
    ghost Value = { Lane Numbered };

    ghost view = { λ s. record { taken = s.taken; home = s.home; summary = s.summary; claimed = s.claimed; values = s.values } };
}

/// The bit of a place in its word.
pub fn own_bit(place: u32) -> u64
    requires { place < places }
    ensures { result ≡ own_bit place }
{
    1 << (place % 64)
}

/// The word of a place.
pub fn word_of(place: u32) -> u32
    requires { place < places }
    ensures word { result ≡ word_of place }
    ensures low { result < set_words }
{
    place / 64
}

// The words above this one.
fn words_above(word: u32) -> u64
    requires { word < set_words }
    ensures { result ≡ words_above word }
{
    256 - (1 << (word + 1))
}

/// The places that a value brings home in its word.
pub fn home_bits(closes: bool, place: u32) -> u64
    requires { place < places }
    ensures { result ≡ home_bits closes place }
{
    if closes {
        FULL << (place % 64)
    } else if place == LAST_PLACE {
        0
    } else {
        own_bit(place)
    }
}

/// The words that are owed to the summary where a value comes home in this word.
pub fn owed(closes: bool, word: u32, before: u64, after: u64) -> u64
    requires { word < set_words }
    ensures { result ≡ owed closes word before after }
{
    let above = if closes { words_above(word) } else { 0 };
    let own = if before != FULL && after == FULL {
        1 << word
    } else {
        0
    };
    above | own
}

/// Whether these words join the last ones that a summary wants.
pub fn makes_whole(before: u64, after: u64) -> bool
    ensures { result ≡ (not (nat_eq before every_word) && nat_eq after every_word) }
{
    before != EVERY_WORD && after == EVERY_WORD
}

impl LaneState {
    pub fn empty() -> LaneState
        ensures { result ≡ empty_lane }
    {
        LaneState {
            taken: [0; WORDS],
            home: [0; WORDS],
            summary: 0,
            claimed: false,
            values: [None; PLACES],
        }
    }

    pub fn is_taken(&self, place: u32) -> bool
        requires { place < places }
        ensures { result ≡ not (nat_eq (has self.now.taken place) 0) }
    {
        self.taken[word_of(place) as usize] & own_bit(place) != 0
    }

    pub fn take(&mut self, place: u32)
        requires { place < places }
        ensures { self.new ≡ with_taken self.old place }
    {
        self.taken[word_of(place) as usize] |= own_bit(place);
    }

    pub fn home(&self, word: u32) -> u64
        requires { word < set_words }
        ensures { result ≡ slice_index self.now.home word }
    {
        self.home[word as usize]
    }

    pub fn bring(&mut self, word: u32, more: u64)
        requires { word < set_words }
        ensures { self.new ≡ with_home self.old word more }
    {
        self.home[word as usize] |= more;
    }

    pub fn summary(&self) -> u64
        ensures { result ≡ self.now.summary }
    {
        self.summary
    }

    pub fn sum(&mut self, more: u64)
        ensures { self.new ≡ with_summary self.old more }
    {
        self.summary |= more;
    }

    pub fn is_claimed(&self) -> bool
        ensures { result ≡ self.now.claimed }
    {
        self.claimed
    }

    pub fn claim(&mut self)
        ensures { self.new ≡ with_claim self.old }
    {
        self.claimed = true;
    }

    pub fn value(&self, place: u32) -> Option<Numbered>
        requires { place < places }
        ensures { result ≡ slice_index_or self.now.values place None }
    {
        self.values[place as usize]
    }

    pub fn set_value(&mut self, place: u32, value: Option<Numbered>)
        requires { place < places }
        ensures { self.new ≡ with_value self.old place value }
    {
        self.values[place as usize] = value;
    }
}
