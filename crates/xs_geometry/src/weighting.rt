//! How finely a band is quantised.
ghost use Rattle.std.specs.Prelude.{◌≡◌};
ghost use Rattle.xs_layout.specs.Weighting.{truncation_of};

use xs_params::Weight;

/// The truncation of a band in a precinct with this quantisation and refinement.
pub fn truncation(q: u8, r: u8, weight: Weight) -> u8
    ensures { result ≡ truncation_of q r weight }
{
    let refined = u8::from(weight.priority < r);
    q.saturating_sub(weight.gain)
        .saturating_sub(refined)
        .min(15)
}
