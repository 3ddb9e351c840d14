//! The truncations of the bands: docs/FORMAT.md, 'Truncation, data and signs'.
ghost use Rattle.std.specs.Prelude.{◌≤◌, length, All};
ghost use Rattle.xs_sizes.specs.Measured.{AreCutsOf};

use xs_geometry::truncation;
use xs_layout::Candidate;
use xs_params::Weights;

/// The truncation of each band at a candidate; 0 past the last band.
pub fn cuts_of(weights: &Weights, candidate: Candidate) -> [u8; 30]
    requires few { length weights.now ≤ 30 }
    ensures cuts { AreCutsOf weights.now candidate result }
    ensures few { All (λ t. t ≤ 15) result }
{
    let items = weights.as_slice();
    let mut cuts = [0; 30];
    'bands: for band in 0..items.len() {
        cuts[band] = truncation(candidate.q, candidate.r, items[band]);
    }
    cuts
}
