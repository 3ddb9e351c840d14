// The end of the lanes: one pass has the whole share, so no thread files or claims any more.
ghost use Rattle.std.specs.Prelude.{◌≡◌, ◌<◌, ◌*◌, nat_lt, MatchBool};
ghost use Rattle.std.specs.Mem.Slots.{slots_len, IsFull};
ghost use Rattle.xs_lane_core.specs.Places.{places};
ghost use Rattle.xs_lane_core.specs.Sound.{IsAlone};
ghost use Rattle.xs_lanes.specs.Filing.{placing};
ghost use Rattle.xs_lanes.specs.Knowing.{IsWhole, stored_at};
ghost use Rattle.xs_lanes.specs.Claiming.{got_in};
ghost use Rattle.xs_lanes.specs.Settled.{IsDone};
ghost use Rattle.xs_lanes.specs.Passes.{IsPassOf, view, lane_count};

use crate::table::{Lanes, Pass};
use crate::words::{CLAIMED, SUMMARY, lane_word};
use std::alloc::Global;
use std::marker::Model;
use std::snapshot::Snapshot;
use xs_io::Placed;
use xs_lane_core::{EVERY_WORD, own_bit, word_of};

/// Lanes that no thread shares any more. Contracts see how many they are, and in `actor` what all passes stored, repeated,
/// got, found gone and saw.
pub struct Closed<T: Placed + Send + Drop> {
    table: atomic_table::Closed<Option<T>, Global>,
    count: u32,
    last: Snapshot<Pass<T>>,
    ghost words_full: { (slots_len table.words ≡ 19 * count) × IsFull table.words },
    ghost slots_full: { (slots_len table.slots ≡ 512 * count) × IsFull table.slots },
}

impl<T: Placed + Send + Drop> Model for Closed<T> {
    ghost use Rattle.std.specs.Mem.Slots.{slots_items};
    ghost use Rattle.xs_lanes.specs.Filing.{placing};
    ghost use Rattle.xs_lanes.specs.Settled.{ClosedLanes, IsEnd};

    ghost Value = { ClosedLanes T };

    ghost view = { λ s. record { count = s.count; actor = s.last.value.me.0 } };

    ghost invariant = { λ s. IsEnd (placing T.lane_of T.slot_of T.closes_of) (slots_items s.table.words) s.last.value.me.0 };
}

impl<T: Placed + Send + Drop> Lanes<T> {
    /// Ends the lanes. All passes were joined into this one.
    pub fn close(self, pass: Pass<T>) -> Closed<T>
        requires pass { IsPassOf self pass }
        requires alone { IsAlone (view pass) }
        ensures last { (result.actor ≡ view pass) × (result.count ≡ lane_count self) }
        ensures done { IsDone (placing T.lane_of T.slot_of T.closes_of) (view pass) }
    {
        let Lanes { table, count } = self;
        let last = Snapshot::of(&pass);
        Closed {
            table: table.close_with(pass),
            count,
            last,
        }
    }
}

impl<T: Placed + Send + Drop> Closed<T> {
    /// Whether some place of the lane closes it, and all places below are stored.
    pub fn whole(&self, lane: u32) -> bool
        requires lane { lane < self.now.count }
        ensures whole { MatchBool result (IsWhole (placing T.lane_of T.slot_of T.closes_of) lane self.now.actor) (¬ IsWhole (placing T.lane_of T.slot_of T.closes_of) lane self.now.actor) }
        ensures done { IsDone (placing T.lane_of T.slot_of T.closes_of) self.now.actor }
    {
        self.table.word(lane_word(lane, SUMMARY)) == EVERY_WORD
    }

    /// Whether the lane was claimed.
    pub fn claimed(&self, lane: u32) -> bool
        requires lane { lane < self.now.count }
        ensures { result ≡ nat_lt 0 (got_in (placing T.lane_of T.slot_of T.closes_of) lane self.now.actor) }
    {
        self.table.word(lane_word(lane, CLAIMED)) != 0
    }

    /// Whether a value was stored at the place, also where it was claimed since.
    pub fn held(&self, lane: u32, place: u32) -> bool
        requires lane { lane < self.now.count }
        requires place { place < places }
        ensures { result ≡ nat_lt 0 (stored_at (placing T.lane_of T.slot_of T.closes_of) lane place self.now.actor) }
    {
        let bit = own_bit(place);
        self.table.word(lane_word(lane, word_of(place) as usize)) & bit != 0
    }
}

impl<T: Placed + Send + Drop> Drop for Closed<T> {
    fn drop(self) {
        let Closed {
            mut table,
            count: _,
            last: _,
        } = self;
        let mut slot = 0;
        'emptying: while slot < table.slot_count() {
            drop(table.take(slot));
            slot += 1;
        }
        table.free();
    }
}
