//! The default weights of a picture's bands, and the candidates of a slice in their order: docs/FORMAT.md, 'Rate choice'.
#![tactic(auto)]

ghost use Rattle.std.specs.Prelude.{◌≡◌, ◌-◌, ◌≤◌, length, slice_index_or, All};
ghost use Rattle.std.specs.List.{slice_get};
ghost use Rattle.xs_layout.specs.Candidates.{candidates_of, finest, greatest_gain as most_gain};
ghost use Rattle.xs_layout.specs.declared.Weight.{Weight};

use xs_layout::Candidate;
use xs_params::Weights;
pub use xs_params::default_weights;

/// The candidate with this number, from the finest to the coarsest; none exactly past the list.
pub fn candidate(weights: &Weights, number: u32) -> Option<Candidate>
    requires few { length weights.now ≤ 30 }
    requires gains { All (λ (weight : Weight). weight.gain ≤ 15) weights.now }
    ensures { result ≡ slice_get (candidates_of (length weights.now) weights.now) number }
{
    let bands = weights.as_slice().len() as u32;
    if number == 0 {
        return Some(Candidate { q: 0, r: 0 });
    }
    let at = number - 1;
    if bands == 0 || at / bands >= 15 + greatest_gain(weights) {
        return None;
    }
    Some(Candidate {
        q: (1 + at / bands) as u8,
        r: (bands - 1 - at % bands) as u8,
    })
}

/// How many candidates there are.
pub fn candidate_count(weights: &Weights) -> u32
    requires few { length weights.now ≤ 30 }
    requires gains { All (λ (weight : Weight). weight.gain ≤ 15) weights.now }
    ensures count { result ≡ length (candidates_of (length weights.now) weights.now) }
    ensures few { result ≤ 901 }
{
    1 + (15 + greatest_gain(weights)) * weights.as_slice().len() as u32
}

/// The last candidate.
pub fn coarsest(weights: &Weights) -> Candidate
    requires some { 1 ≤ length weights.now }
    requires gains { All (λ (weight : Weight). weight.gain ≤ 15) weights.now }
    ensures { result ≡ slice_index_or (candidates_of (length weights.now) weights.now) (length (candidates_of (length weights.now) weights.now) - 1) finest }
{
    Candidate {
        q: (15 + greatest_gain(weights)) as u8,
        r: 0,
    }
}

// The greatest gain.
fn greatest_gain(weights: &Weights) -> u32
    requires gains { All (λ (weight : Weight). weight.gain ≤ 15) weights.now }
    ensures greatest { result ≡ most_gain weights.now }
    ensures few { result ≤ 15 }
{
    let items = weights.as_slice();
    let mut most = 0;
    'weights: for band in 0..items.len() {
        most = most.max(u32::from(items[band].gain));
    }
    most
}
