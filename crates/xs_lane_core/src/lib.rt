//! The lane machine: actors file values at the places of lanes, and each whole lane is claimed once.
#![tactic(auto)]

mod actor;
mod growing;
mod lane;
mod laws;
mod machine;
mod share;
mod state;
mod values;

pub use lane::{EVERY_WORD, PLACES, home_bits, makes_whole, owed, own_bit, word_of};
pub use laws::{
    claim_gives_one_list, closing_value_comes_first, each_event_keeps_sound,
    each_place_has_one_value, every_run_is_sound, home_is_what_is_stored,
    later_steps_change_no_claim, only_offered_values_are_stored, refused_event_changes_nothing,
    refused_exactly_where_not_allowed, summary_is_what_is_full, two_actors_at_one_place,
    whole_lane_is_stored,
};
pub use machine::Core;
pub use values::{Event, Numbered, Outcome};
