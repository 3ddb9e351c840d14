//! The encoding of a picture: which coefficients are sent, at which candidate, in which bytes. Definitions, and laws that
//! hold of them.
#![tactic(auto)]

ghost use Rattle.xs_rate.specs.Choice.{BodiesFit, ChooseAlike, ChosenByMagnitudes, ChosenFits, CoarsestCutsAll, OneBandSteps, SlicesFilled};
ghost use Rattle.xs_rate.specs.Encoded.{EncodedInGrammar, FirstOver, LengthFits};
ghost use Rattle.xs_rate.specs.Laws.{AllCutFits, PacketsAreNarrow, SmallRows};
ghost use Rattle.xs_rate.specs.Modes.{FewestIsFirst};

/// The coefficients of every picture are small.
pub fn small_rows()
    ensures { SmallRows }
{}

/// A packet of a picture has at most 6157 code groups.
pub fn narrow_packets()
    ensures { PacketsAreNarrow }
{}

/// Where every plane is cut off each length in a slice has room in its field, however many columns there are.
#[tactic(auto, using(crate::proofs::AllCut::all_cut_fits))]
pub fn all_cut_fits()
    ensures { AllCutFits }
{}

/// The length of a codestream whose slices are within their shares has room in its field.
#[tactic(auto, using(crate::proofs::Fits::length_fits))]
pub fn length_fits()
    ensures { LengthFits }
{}

/// A picture is refused exactly where a slice is over its share, by the first such slice, and else it has an encoding.
#[tactic(auto, using(crate::proofs::FirstOver::first_over_law))]
pub fn first_over()
    ensures { FirstOver }
{}

/// What is given for a picture is in the grammar, and each of its slices is within the share, or has exactly the share where
/// slices are filled.
pub fn encoded_in_grammar()
    ensures { EncodedInGrammar }
{}

/// The mode of a band in a precinct is the first with the fewest bits.
#[tactic(auto, using(crate::proofs::Fewest::fewest_is_first))]
pub fn fewest_is_first()
    ensures { FewestIsFirst }
{}

/// A slice that is filled has its share exactly, and one that is not is the slice at its candidate.
pub fn slices_filled()
    ensures { SlicesFilled }
{}

/// Headers that code alike choose alike, and have the same sizes.
pub fn choose_alike()
    ensures { ChooseAlike }
{}

/// The choice and the sizes are those of the magnitudes.
pub fn chosen_by_magnitudes()
    ensures { ChosenByMagnitudes }
{}

/// From one candidate to the next the truncation changes of no band but that whose priority is the next refinement.
#[tactic(auto, using(crate::proofs::Steps::one_band_steps))]
pub fn one_band_steps()
    ensures { OneBandSteps }
{}

/// At the coarsest candidate every plane is cut off.
pub fn coarsest_cuts_all()
    ensures { CoarsestCutsAll }
{}

/// Each length in a slice has room in its field at the candidate that is chosen for it.
pub fn chosen_fits()
    ensures { ChosenFits }
{}

/// The packets of a precinct have few bytes, whatever the candidate and the modes.
pub fn bodies_fit()
    ensures { BodiesFit }
{}
