//! The candidate of a slice: docs/FORMAT.md, 'Rate choice'.
ghost use Rattle.std.specs.Prelude.{◌≡◌, ◌<◌, ◌≤◌, length, find, All, List};
ghost use Rattle.xs_layout.specs.declared.Weight.{Weight};
ghost use Rattle.xs_params.specs.Geometry.{bands_of, coding_header, slice_count};
ghost use Rattle.xs_geometry.specs.SliceLines.{BandLines, rows_held};
ghost use Rattle.xs_rate.specs.Choice.{choice_of};
ghost use Rattle.xs_rate.specs.Chosen.{candidates, fits_at};
ghost use Rattle.xs_sizes.specs.Measured.{AreKept, IsCoding, header_in};

use xs_faults::Budget;
use xs_geometry::Geometry;
use xs_layout::{Candidate, Quant};
use xs_params::Weights;
use xs_sizes::{Coding, SliceCounts, change_of, cuts_of, slice_fits, slice_size, slice_step};
use xs_weights::{candidate, candidate_count, coarsest};

/// The first candidate at which the slice is within its share and each length has room in its field; or, exactly where the
/// slice is over its share at the coarsest, the bytes that it then has. At the coarsest each length has room. Takes no memory.
// Never inlined, so that bench/functions.sh counts it under its own name.
#[inline(never)]
pub fn choose(
    geometry: &Geometry,
    slice: u32,
    weights: &Weights,
    signs_apart: bool,
    quant: Quant,
    counts: &SliceCounts,
    share: u32,
) -> Result<Candidate, Budget>
    requires slice { slice < slice_count geometry.now }
    requires kept { (bands : List BandLines) × AreKept geometry.now counts.now signs_apart slice bands }
    requires weights { length weights.now ≡ bands_of geometry.now }
    requires gains { All (λ (weight : Weight). weight.gain ≤ 15) weights.now }
    ensures { (bands : List BandLines) → AreKept geometry.now counts.now signs_apart slice bands → result ≡ choice_of (coding_header geometry.now weights.now signs_apart quant) (rows_held bands) share slice }
{
    let coding = Coding {
        geometry,
        counts,
        signs_apart,
        quant,
    };
    let _bands = geometry.bands();
    let last = coarsest(weights);
    let share_bytes = u64::from(share);
    let size = slice_size(&coding, slice, &cuts_of(weights, last));
    if size > share_bytes {
        return Err(Budget { slice, size, share });
    }
    Ok(first_fitting(&coding, slice, weights, share_bytes).unwrap_or(last))
}

// The first candidate at which the slice fits. Its bytes are those at the candidate before and what the step changes; where they are
// within the share, it is asked whether each length has room in its field.
fn first_fitting(coding: &Coding, slice: u32, weights: &Weights, share: u64) -> Option<Candidate>
    requires slice { slice < slice_count coding.now.geometry.now }
    requires coding { (bands : List BandLines) × IsCoding slice bands coding.now }
    requires weights { length weights.now ≡ bands_of coding.now.geometry.now }
    requires few { length weights.now ≤ 30 }
    requires gains { All (λ (weight : Weight). weight.gain ≤ 15) weights.now }
    ensures { (bands : List BandLines) → IsCoding slice bands coding.now → result ≡ find (fits_at (header_in coding.now weights.now) (rows_held bands) share slice) (candidates (header_in coding.now weights.now)) }
{
    let mut seen = cuts_of(weights, Candidate { q: 0, r: 0 });
    let mut size = slice_size(coding, slice, &seen);
    'list: for number in 0..candidate_count(weights) {
        let next = candidate(weights, number).unwrap();
        let cuts = cuts_of(weights, next);
        size = slice_step(coding, slice, &change_of(&seen, &cuts), size);
        seen = cuts;
        if size <= share && slice_fits(coding, slice, &cuts, share) {
            return Some(next);
        }
    }
    None
}
