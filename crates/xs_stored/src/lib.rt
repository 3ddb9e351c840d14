//! The packets of a picture that were stored in lanes are a selection of its offers.
#![tactic(auto)]

ghost use Rattle.xs_stored.specs.Laws.{CopiesHaveBytes, NothingIsPast, StoredIsSelection, WholeLanesAreUnits};

/// What is stored is a selection of what was offered.
#[tactic(auto, using(crate::proofs::Selected::stored_is_selection))]
pub fn stored_is_selection()
    ensures { StoredIsSelection }
{}

/// A lane is whole exactly where its unit is.
pub fn whole_lanes_are_units()
    ensures { WholeLanesAreUnits }
{}

/// A unit past the last one is not whole, and no place past the last one holds a packet.
#[tactic(auto, using(crate::proofs::WholeUnits::nothing_is_past))]
pub fn nothing_is_past()
    ensures { NothingIsPast }
{}

/// A copy of a unit's packets that were got has the bytes of the unit.
#[tactic(auto, using(crate::proofs::Copies::copies_have_bytes))]
pub fn copies_have_bytes()
    ensures { CopiesHaveBytes }
{}
