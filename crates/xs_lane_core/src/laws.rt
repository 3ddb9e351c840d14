//! What holds of the lane machine, as functions that do nothing: each contract is a law.
ghost use Rattle.std.specs.Prelude.{◌≡◌, ◌<◌, ◌≤◌, ◌↔◌, ◌⊎◌, ℕ, false, List, Some, slice_get};
ghost use Rattle.std.specs.Int.{bit_at};
ghost use Rattle.std.specs.List.{Contains};
ghost use Rattle.xs_lane_core.specs.Places.{places, has, set_words, HasEvery};
ghost use Rattle.xs_lane_core.specs.declared.values.Numbered.{Numbered};
ghost use Rattle.xs_lane_core.specs.declared.values.Event.{Event};
ghost use Rattle.xs_lane_core.specs.declared.values.Outcome.TheVariants.{Refused};
ghost use Rattle.xs_lane_core.specs.declared.values.Stand.TheVariants.{Laid, Pulling};
ghost use Rattle.xs_lane_core.specs.Machine.{Placing, Machine, start, lane_at, actor_at, value_at};
ghost use Rattle.xs_lane_core.specs.Steps.{takes, puts, homes, sums, looks, claims, pulls, splits, joins};
ghost use Rattle.xs_lane_core.specs.Sound.{IsSound, IsLeastClosing, over_stored, over_got, at};
ghost use Rattle.xs_lane_core.specs.LaneStep.{numbered, lane_step, run, answers, allows};
ghost use Rattle.xs_lane_core.specs.Claim.{IsStored, ClaimGives, ComesHome, IsFilled, IsSummed};
ghost use Rattle.xs_lane_core.specs.Offered.{IsOffered};
ghost use Rattle.xs_lane_core.specs.Stories.{one_place, one_place_answers, closing_first, closing_first_answers};

/// Each of the nine events keeps the machine sound, whatever its values are.
pub fn each_event_keeps_sound<V>()
    ensures take { (k : Placing V) (m : Machine V) (a : ℕ) (v : V) → IsSound k m → IsSound k (takes k m a v).0 }
    ensures put { (k : Placing V) (m : Machine V) (a : ℕ) → IsSound k m → IsSound k (puts k m a).0 }
    ensures home { (k : Placing V) (m : Machine V) (a : ℕ) → IsSound k m → IsSound k (homes k m a).0 }
    ensures sum { (k : Placing V) (m : Machine V) (a : ℕ) → IsSound k m → IsSound k (sums m a).0 }
    ensures look { (k : Placing V) (m : Machine V) (a l : ℕ) → IsSound k m → IsSound k (looks m a l).0 }
    ensures claim { (k : Placing V) (m : Machine V) (a : ℕ) → IsSound k m → IsSound k (claims m a).0 }
    ensures pull { (k : Placing V) (m : Machine V) (a : ℕ) → IsSound k m → IsSound k (pulls k m a).0 }
    ensures split { (k : Placing V) (m : Machine V) (a : ℕ) → IsSound k m → IsSound k (splits m a).0 }
    ensures join { (k : Placing V) (m : Machine V) (a b : ℕ) → IsSound k m → IsSound k (joins m a b).0 }
{}

/// After every list of events from the first state on the machine is sound.
pub fn every_run_is_sound()
    ensures { (lanes : ℕ) (events : List Event) → IsSound numbered (run (start lanes) events) }
{}

/// What lies at a place is the one value that was laid there, or stored and not got.
pub fn each_place_has_one_value<V>()
    ensures laid { (k : Placing V) (m : Machine V) (a : ℕ) (v : V) → IsSound k m → (actor_at m a).stand ≡ Laid v → value_at m (k.lane v) (k.place v) ≡ Some v }
    ensures stored { (k : Placing V) (m : Machine V) (v : V) → IsSound k m → IsStored k m v → over_got (at k (k.lane v) (k.place v)) m ≡ 0
        → value_at m (k.lane v) (k.place v) ≡ Some v }
    ensures no_other { (k : Placing V) (m : Machine V) (l p : ℕ) (v : V) → IsSound k m → value_at m l p ≡ Some v
        → ((a : ℕ) × ((actor_at m a).stand ≡ Laid v)) ⊎ (IsStored k m v × (over_got (at k l p) m ≡ 0)) }
    ensures one { (k : Placing V) (m : Machine V) (u v : V) → IsSound k m → IsStored k m u → IsStored k m v → k.lane u ≡ k.lane v → k.place u ≡ k.place v → u ≡ v }
    ensures got { (k : Placing V) (m : Machine V) (a : ℕ) (v : V) → IsSound k m → Contains (actor_at m a).got v → IsStored k m v }
{}

/// After every list of events only values are stored that one of these events offered.
pub fn only_offered_values_are_stored()
    ensures { (lanes : ℕ) (events : List Event) (v : Numbered) → IsStored numbered (run (start lanes) events) v → IsOffered events v }
{}

/// A place is home exactly where it is stored and not the last one, or a stored value closes its lane at it or before it
/// in the same word.
pub fn home_is_what_is_stored<V>()
    ensures { (k : Placing V) (m : Machine V) (l p : ℕ) → IsSound k m → p < places → (has (lane_at m l).home p ≡ 1) ↔ ComesHome k m l p }
{}

/// A summary has only words that are full, or past the word of a stored closing value; and each such word is there or is
/// owed.
pub fn summary_is_what_is_full<V>()
    ensures only { (k : Placing V) (m : Machine V) (l w : ℕ) → IsSound k m → bit_at (lane_at m l).summary w ≡ 1 → IsFilled k m l w }
    ensures each { (k : Placing V) (m : Machine V) (l w : ℕ) → IsSound k m → w < set_words → IsFilled k m l w → IsSummed k m l w }
{}

/// Where the summary of a lane has all words, it has a least closing place, and all places up to it are stored.
pub fn whole_lane_is_stored<V>()
    ensures { (k : Placing V) (m : Machine V) (l : ℕ) → IsSound k m → HasEvery (lane_at m l).summary
        → (c : ℕ) × (c < places) × IsLeastClosing k m l c × ((p : ℕ) → p ≤ c → 0 < over_stored (at k l p) m) }
{}

/// A claim of a lane that is whole gives one list of values.
pub fn claim_gives_one_list<V>()
    ensures some { (k : Placing V) (m : Machine V) (l : ℕ) → IsSound k m → HasEvery (lane_at m l).summary → (vs : List V) × ClaimGives k m l vs }
    ensures one { (k : Placing V) (m : Machine V) (l : ℕ) (vs ws : List V) → IsSound k m → ClaimGives k m l vs → ClaimGives k m l ws → vs ≡ ws }
    ensures pulled { (k : Placing V) (m : Machine V) (a l j : ℕ) (vs : List V) → IsSound k m → ClaimGives k m l vs → (actor_at m a).stand ≡ Pulling l j
        → (v : V) × (value_at m l j ≡ Some v) × (slice_get vs j ≡ Some v) }
{}

/// No later step changes which values a claim gives.
pub fn later_steps_change_no_claim()
    ensures { (m : Machine Numbered) (events : List Event) (l : ℕ) (vs : List Numbered) → ClaimGives numbered m l vs → ClaimGives numbered (run m events) l vs }
{}

/// A refused event changes nothing.
pub fn refused_event_changes_nothing()
    ensures { (m : Machine Numbered) (event : Event) → (lane_step m event).1 ≡ Refused → (lane_step m event).0 ≡ m }
{}

/// An event is refused exactly where its actor does not stand so, or an actor, lane or place is not there.
pub fn refused_exactly_where_not_allowed()
    ensures { (m : Machine Numbered) (event : Event) → IsSound numbered m → ((lane_step m event).1 ≡ Refused) ↔ (allows m event ≡ false) }
{}

/// Two actors at one place: the first is stored, the second is given back its value. A closing value makes the lane
/// whole, the first claim gets its values in order, and the second finds it gone.
pub fn two_actors_at_one_place()
    ensures { answers (start 2) one_place ≡ one_place_answers }
{}

/// A closing value at place 1 of an empty lane brings all words but the first into the summary.
pub fn closing_value_comes_first()
    ensures { answers (start 1) closing_first ≡ closing_first_answers }
{}
