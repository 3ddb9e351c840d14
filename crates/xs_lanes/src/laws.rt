//! What each step does to the lanes, as functions that do nothing: each contract is a law.
ghost use Rattle.std.specs.Prelude.{◌≡◌, ◌<◌, ◌↔◌, ℕ, suc, ◌+◌, List, length};
ghost use Rattle.std.specs.List.{Contains};
ghost use Rattle.xs_lane_core.specs.Places.{set_words, every_word};
ghost use Rattle.xs_lane_core.specs.Machine.{Placing, Actor, halves, copied, joined};
ghost use Rattle.xs_lane_core.specs.Sound.{IsAlone, FillsWord};
ghost use Rattle.xs_lanes.specs.Knowing.{IsWhole, FindsSummary};
ghost use Rattle.xs_lanes.specs.Settled.{IsDone};
ghost use Rattle.xs_lanes.specs.Gathering.{HasPart, HasRest, HavePartsInTurn, gathered};
ghost use Rattle.xs_lanes.specs.Events.{TakesAsEvent, ComesHomeAsEvent, SumsAsEvent, LooksAsEvent, ClaimsAsEvent, PullsAsEvent, SplitsAsEvent, JoinsAsEvent};

/// Each kind of step changes what the words and slots show as the event of its name changes the lane machine, and the
/// machine stays sound.
pub fn each_step_is_an_event<T>()
    ensures take { (k : Placing T) → TakesAsEvent k }
    ensures home { (k : Placing T) → ComesHomeAsEvent k }
    ensures sum { (k : Placing T) → SumsAsEvent k }
    ensures look { (k : Placing T) → LooksAsEvent k }
    ensures claim { (k : Placing T) → ClaimsAsEvent k }
    ensures pull { (k : Placing T) → PullsAsEvent k }
    ensures split { (k : Placing T) → SplitsAsEvent k }
    ensures join { (k : Placing T) → JoinsAsEvent k }
{}

/// A lane is whole exactly where some place closes it and all places below are stored: by the words that the stored values
/// of a pass fill, by the summary that a pass with the whole share finds, and by one that was seen.
pub fn whole_is_stored<T>()
    ensures filled { (k : Placing T) (l : ℕ) (v : Actor T) → ((w : ℕ) → w < set_words → FillsWord k l w v.stored) ↔ IsWhole k l v }
    ensures found { (k : Placing T) (l summary : ℕ) (v : Actor T) → IsAlone v → FindsSummary k v l summary → (summary ≡ every_word) ↔ IsWhole k l v }
    ensures seen { (k : Placing T) (l : ℕ) (v : Actor T) → IsDone k v → Contains v.seen (l, every_word) → IsWhole k l v }
{}

/// Passes that were split off one after the other have one half, one quarter and so on of the share. Joined from the last
/// to the first they have the whole.
pub fn shares_join<T>()
    ensures split { (i : ℕ) (v : Actor T) → HasPart i v → HasPart (i + 1) (halves v) × HasPart (i + 1) (copied v) }
    ensures first { (n : ℕ) (v : Actor T) → HasPart n v → HasRest n n v }
    ensures join { (n k : ℕ) (v w : Actor T) → HasRest n (suc k) v → HasPart (suc k) w → HasRest n k (joined v w) }
    ensures whole { (n : ℕ) (v : Actor T) → HasRest n 0 v → IsAlone v }
    ensures gathered { (v : Actor T) (ws : List (Actor T)) → HasPart (length ws) v → HavePartsInTurn ws → IsAlone (gathered v ws) }
{}
