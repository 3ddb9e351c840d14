// The steps of a claim.
ghost use Rattle.std.specs.Prelude.{◌≡◌, ◌<◌, ℕ, ◌∷◌, ◌++◌, [], length, MatchBool, None};
ghost use Rattle.std.specs.List.{Contains};
ghost use Rattle.xs_lane_core.specs.declared.values.Stand.TheVariants.{Idle, Saw, Pulling};
ghost use Rattle.xs_lane_core.specs.Machine.{stands, finds_gone};
ghost use Rattle.xs_lane_core.specs.Places.{places};
ghost use Rattle.xs_lane_core.specs.Sound.{IsAlone};
ghost use Rattle.xs_lanes.specs.Filing.{placing, slot_at};
ghost use Rattle.xs_lanes.specs.Knowing.{SameShare, IsChoice};
ghost use Rattle.xs_lanes.specs.Claiming.{got_in, gets_all, IsActor, IsRun, IsClaimOf, IsPulling, HasDrawn, OwesSlot};
ghost use Rattle.xs_lanes.specs.Passes.{IsPassOf, view, lane_count};
ghost use Rattle.xs_lanes.specs.Claimed.{ClaimAnswers, ClaimExactly};

use crate::table::{GiveBack, Lanes, Pass, Pull, Win};
use crate::words::{CLAIMED, DRAWN, lane_word, slot_at};
use arrayvec::ArrayVec;
use xs_io::Placed;
use xs_lane_core::{EVERY_WORD, PLACES};

/// What became of a claim.
#[derive(Clone, Copy, PartialEq, Eq)]
pub enum Claim {
    /// The lane's values are the caller's.
    Got,
    /// The summary has only these words.
    NotWhole(u64),
    /// The lane was claimed before.
    Gone,
}

// Puts the value at the end.
fn keep<T: Drop, A>(into: &mut ArrayVec<T, PLACES, A>, value: T)
    requires { length into.old.items < places }
    ensures { into.new.items ≡ into.old.items ++ value ∷ [] }
{
    into.push(value);
}

impl<T: Placed + Send + Drop> Lanes<T> {
    // Claims a lane that this pass saw whole, or finds it claimed.
    fn win(&self, pass: &mut Pass<T>, lane: u32) -> bool
        requires pass { (pass.old.table_id ≡ self.now.table.shared.table_id) × (pass.old.me.1 ≡ []) }
        requires saw { (view pass.old).stand ≡ Saw lane }
        requires lane { lane < lane_count self.now }
        ensures same { (pass.new.table_id ≡ pass.old.table_id) × (pass.new.me.1 ≡ []) }
        ensures won { MatchBool result
            ((view pass.new ≡ stands (Pulling lane 0) (view pass.old)) × (got_in (placing T.lane_of T.slot_of T.closes_of) lane (view pass.old) ≡ 0) × ¬ Contains (view pass.old).gone lane)
            ((view pass.new ≡ finds_gone lane (view pass.old)) × (IsAlone (view pass.old) → 0 < got_in (placing T.lane_of T.slot_of T.closes_of) lane (view pass.old))) }
    {
        let word = lane_word(lane, CLAIMED);
        let found = self.table.shared.swap::<Win>(pass, word, 1);
        found == 0
    }

    // Draws the next value of a lane that this pass has claimed, and moves it out of its slot.
    fn draw(&self, pass: &mut Pass<T>, lane: u32) -> T
        requires pass { (pass.old.table_id ≡ self.now.table.shared.table_id) × (pass.old.me.1 ≡ []) }
        requires pulling { IsPulling (placing T.lane_of T.slot_of T.closes_of) lane (view pass.old) }
        requires lane { lane < lane_count self.now }
        ensures same { pass.new.table_id ≡ pass.old.table_id }
        ensures drawn { (j : ℕ) → (view pass.old).stand ≡ Pulling lane j
            → HasDrawn (placing T.lane_of T.slot_of T.closes_of) (view pass.old) lane j result (view pass.new) × (pass.new.me.1 ≡ (slot_at lane j, None) ∷ []) }
    {
        let word = lane_word(lane, DRAWN);
        let place = self.table.shared.fetch_add::<Pull>(pass, word, 1);
        let slot = slot_at(lane, place as usize);
        match self.table.shared.exchange(pass, slot, None) {
            Some(value) => value,
            None => unreachable!(),
        }
    }

    // Brings the slot of the value that was drawn home, empty. The word is loaded for this alone.
    fn give_back(&self, pass: &mut Pass<T>, lane: u32)
        requires pass { pass.old.table_id ≡ self.now.table.shared.table_id }
        requires owes { OwesSlot (placing T.lane_of T.slot_of T.closes_of) lane pass.old.me }
        requires lane { lane < lane_count self.now }
        ensures same { (pass.new.table_id ≡ pass.old.table_id) × (pass.new.me ≡ (view pass.old, [])) }
        ensures actor { IsActor (placing T.lane_of T.slot_of T.closes_of) (view pass.new) }
    {
        self.table
            .shared
            .load::<GiveBack>(pass, lane_word(lane, DRAWN));
    }

    // The next value of a lane that this pass has claimed.
    fn pull(&self, pass: &mut Pass<T>, lane: u32) -> T
        requires pass { (pass.old.table_id ≡ self.now.table.shared.table_id) × (pass.old.me.1 ≡ []) }
        requires pulling { IsPulling (placing T.lane_of T.slot_of T.closes_of) lane (view pass.old) }
        requires lane { lane < lane_count self.now }
        ensures same { (pass.new.table_id ≡ pass.old.table_id) × (pass.new.me.1 ≡ []) }
        ensures drawn { (j : ℕ) → (view pass.old).stand ≡ Pulling lane j → HasDrawn (placing T.lane_of T.slot_of T.closes_of) (view pass.old) lane j result (view pass.new) }
        ensures actor { IsActor (placing T.lane_of T.slot_of T.closes_of) (view pass.new) }
    {
        let value = self.draw(pass, lane);
        self.give_back(pass, lane);
        value
    }

    // All values of a lane that this pass has just claimed.
    fn pull_all<A>(&self, pass: &mut Pass<T>, lane: u32, into: &mut ArrayVec<T, PLACES, A>)
        requires pass { (pass.old.table_id ≡ self.now.table.shared.table_id) × (pass.old.me.1 ≡ []) }
        requires pulling { (view pass.old).stand ≡ Pulling lane 0 }
        requires lane { lane < lane_count self.now }
        requires empty { into.old.items ≡ [] }
        ensures same { (pass.new.table_id ≡ pass.old.table_id) × (pass.new.me.1 ≡ []) }
        ensures run { IsRun (placing T.lane_of T.slot_of T.closes_of) lane 0 into.new.items }
        ensures got { view pass.new ≡ gets_all into.new.items Idle (view pass.old) }
        ensures stored { IsClaimOf (placing T.lane_of T.slot_of T.closes_of) lane into.new.items (view pass.new) }
    {
        'pulling: loop {
            let value = self.pull(pass, lane);
            let closes = value.closes();
            keep(into, value);
            if closes {
                break;
            }
        }
    }

    /// Claims the lane, where it is whole and nobody has claimed it, and takes its values out, in the order of their
    /// places up to the one that closes the lane.
    pub fn claim<A>(
        &self,
        pass: &mut Pass<T>,
        lane: u32,
        into: &mut ArrayVec<T, PLACES, A>,
    ) -> Claim
        requires pass { IsPassOf self.now pass.old }
        requires lane { lane < lane_count self.now }
        requires empty { into.old.items ≡ [] }
        ensures pass { IsPassOf self.now pass.new }
        ensures share { SameShare (view pass.old) (view pass.new) }
        ensures answer { ClaimAnswers (placing T.lane_of T.slot_of T.closes_of) (view pass.old) lane result into.new.items (view pass.new) }
        ensures exact { ClaimExactly (placing T.lane_of T.slot_of T.closes_of) (lane_count self.now) (view pass.old) lane result into.new.items }
        ensures choice { IsAlone (view pass.old) → IsChoice (placing T.lane_of T.slot_of T.closes_of) (view pass.old) }
    {
        let found = self.look(pass, lane);
        if found != EVERY_WORD {
            return Claim::NotWhole(found);
        }
        if !self.win(pass, lane) {
            return Claim::Gone;
        }
        self.pull_all(pass, lane, into);
        Claim::Got
    }
}
