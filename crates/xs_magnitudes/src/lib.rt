//! How great the coefficients are that a slice spells.
#![tactic(auto)]

ghost use Rattle.xs_magnitudes.specs.Small.{SpelledSmall, UnitSmall};

/// The coefficients that a slice spells have no more bits than the fifteen planes of a code group.
pub fn spelled_small()
    ensures { SpelledSmall }
{}

/// So have those of what is sent of a slice.
pub fn unit_small()
    ensures { UnitSmall }
{}
