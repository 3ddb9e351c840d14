// The steps of a put, and a look.
ghost use Rattle.std.specs.Prelude.{◌≡◌, ◌<◌, ◌∷◌, [], MatchBool, None};
ghost use Rattle.xs_lane_core.specs.Places.{places};
ghost use Rattle.xs_lane_core.specs.Machine.{repeats, sees};
ghost use Rattle.xs_lane_core.specs.Sound.{IsAlone};
ghost use Rattle.xs_lanes.specs.Filing.{placing, slot_at};
ghost use Rattle.xs_lanes.specs.Knowing.{SameShare, IsChoice, FindsSummary, stored_at};
ghost use Rattle.xs_lanes.specs.Plays.{stand_seen};
ghost use Rattle.xs_lanes.specs.Passes.{IsPassOf, view, lane_count};
ghost use Rattle.xs_lanes.specs.Answers.{Answers, HasTaken, Holds, HasBrought, IsOwing, HasJoined};
ghost use Rattle.xs_lanes.specs.Exact.{PutExactly, LookExactly};

use crate::lanes::Put;
use crate::table::{Home, Lanes, Look, Pass, Sum, Take};
use crate::words::{HOME, SUMMARY, lane_word, slot_at};
use xs_io::Placed;
use xs_lane_core::{home_bits, makes_whole, owed, own_bit, word_of};

impl<T: Placed + Send + Drop> Lanes<T> {
    // Takes the value's place, or finds that it is taken.
    fn take(&self, pass: &mut Pass<T>, value: &T) -> bool
        requires pass { IsPassOf self.now pass.old }
        requires lane { T.lane_of value.now < lane_count self.now }
        requires slot { T.slot_of value.now < places }
        ensures same { (pass.new.table_id ≡ pass.old.table_id) × (pass.new.id ≡ pass.old.id) }
        ensures choice { IsAlone (view pass.old) → IsChoice (placing T.lane_of T.slot_of T.closes_of) (view pass.old) }
        ensures taken { MatchBool result
            (HasTaken (placing T.lane_of T.slot_of T.closes_of) (view pass.old) (view pass.new) (T.lane_of value.now) (T.slot_of value.now) × (pass.new.me.1 ≡ (slot_at (T.lane_of value.now) (T.slot_of value.now), None) ∷ []))
            ((view pass.new ≡ repeats (T.lane_of value.now) (T.slot_of value.now) (view pass.old)) × (pass.new.me.1 ≡ [])
            × (IsAlone (view pass.old) → stored_at (placing T.lane_of T.slot_of T.closes_of) (T.lane_of value.now) (T.slot_of value.now) (view pass.old) ≡ 1)) }
    {
        let place = value.slot();
        let bit = own_bit(place);
        let word = lane_word(value.lane(), word_of(place) as usize);
        let found = self.table.shared.fetch_or::<Take>(pass, word, bit);
        found & bit == 0
    }

    // Moves the value into its slot, and brings its places home. Answers the words that are owed to the summary.
    fn bring(&self, pass: &mut Pass<T>, value: T) -> u64
        requires pass { pass.old.table_id ≡ self.now.table.shared.table_id }
        requires held { Holds (placing T.lane_of T.slot_of T.closes_of) (view pass.old) (T.lane_of value) (T.slot_of value) }
        requires out { pass.old.me.1 ≡ (slot_at (T.lane_of value) (T.slot_of value), None) ∷ [] }
        requires lane { T.lane_of value < lane_count self.now }
        requires slot { T.slot_of value < places }
        ensures same { (pass.new.table_id ≡ pass.old.table_id) × (pass.new.me.1 ≡ []) }
        ensures brought { HasBrought (placing T.lane_of T.slot_of T.closes_of) (view pass.old) value (view pass.new) result }
    {
        let (lane, place, closes) = (value.lane(), value.slot(), value.closes());
        let set_word = word_of(place);
        let more = home_bits(closes, place);
        let slot = slot_at(lane, place as usize);
        let word = lane_word(lane, HOME + set_word as usize);
        drop(self.table.shared.exchange(pass, slot, Some(value)));
        let before = self.table.shared.fetch_or::<Home>(pass, word, more);
        owed(closes, set_word, before, before | more)
    }

    // Adds the words that are owed to the lane's summary. Answers whether the lane is whole by them.
    fn sum(&self, pass: &mut Pass<T>, lane: u32, words: u64) -> bool
        requires pass { (pass.old.table_id ≡ self.now.table.shared.table_id) × (pass.old.me.1 ≡ []) }
        requires owes { IsOwing lane words (view pass.old) }
        requires lane { lane < lane_count self.now }
        ensures same { (pass.new.table_id ≡ pass.old.table_id) × (pass.new.me.1 ≡ []) }
        ensures summed { HasJoined (placing T.lane_of T.slot_of T.closes_of) (view pass.old) lane words (view pass.new) result }
    {
        let before = self
            .table
            .shared
            .fetch_or::<Sum>(pass, lane_word(lane, SUMMARY), words);
        makes_whole(before, before | words)
    }

    /// Files the value, or hands it back where its place is taken.
    pub fn put(&self, pass: &mut Pass<T>, value: T) -> Put<T>
        requires pass { IsPassOf self.now pass.old }
        requires lane { T.lane_of value < lane_count self.now }
        requires slot { T.slot_of value < places }
        ensures pass { IsPassOf self.now pass.new }
        ensures share { SameShare (view pass.old) (view pass.new) }
        ensures answer { Answers (placing T.lane_of T.slot_of T.closes_of) (view pass.old) value (view pass.new) result }
        ensures exact { PutExactly (placing T.lane_of T.slot_of T.closes_of) (lane_count self.now) (view pass.old) value result }
        ensures choice { IsAlone (view pass.old) → IsChoice (placing T.lane_of T.slot_of T.closes_of) (view pass.old) }
    {
        if !self.take(pass, &value) {
            return Put::Repeat(value);
        }
        let lane = value.lane();
        let words = self.bring(pass, value);
        if words == 0 {
            return Put::Stored;
        }
        if self.sum(pass, lane, words) {
            Put::Made
        } else {
            Put::Stored
        }
    }

    /// The summary of the lane: bit w is set where the places 64 * w to 64 * w + 63 are full, or past the one that closes
    /// the lane. The lane is whole where it is 255.
    pub fn look(&self, pass: &mut Pass<T>, lane: u32) -> u64
        requires pass { IsPassOf self.now pass.old }
        requires lane { lane < lane_count self.now }
        ensures pass { IsPassOf self.now pass.new }
        ensures share { SameShare (view pass.old) (view pass.new) }
        ensures seen { view pass.new ≡ sees (stand_seen lane result) lane result (view pass.old) }
        ensures found { FindsSummary (placing T.lane_of T.slot_of T.closes_of) (view pass.old) lane result }
        ensures exact { LookExactly (placing T.lane_of T.slot_of T.closes_of) (lane_count self.now) (view pass.old) lane result }
        ensures choice { IsAlone (view pass.old) → IsChoice (placing T.lane_of T.slot_of T.closes_of) (view pass.old) }
    {
        self.table
            .shared
            .load::<Look>(pass, lane_word(lane, SUMMARY))
    }
}
