//! The bytes of precincts and slices, counted without writing.
ghost use Rattle.std.specs.Prelude.{◌≡◌, ◌&&◌, ℕ, ◌+◌, ◌-◌, ◌*◌, ◌<◌, min, ◌≤◌, ◌^◌, List, All, length, slice_index_or};
ghost use Rattle.std.specs.List.{Contains};
ghost use Rattle.xs_layout.specs.declared.Candidate.{Candidate};
ghost use Rattle.xs_layout.specs.declared.Weight.{Weight};
ghost use Rattle.xs_params.specs.Geometry.{bands_of, coding_header, precinct_count, precincts_of, slice_count};
ghost use Rattle.xs_geometry.specs.SliceLines.{BandLines, rows_held};
ghost use Rattle.xs_rate.specs.Choice.{precinct_fits_at, precinct_size_at};
ghost use Rattle.xs_rate.specs.Chosen.{fits_at, size_at};
ghost use Rattle.xs_sizes.specs.Measured.{AreKept, AreModesAt, IsCodedAt, IsCoding, header_in};
ghost use Rattle.xs_sizes.specs.Packed.{packets_fit_at, packets_size_at};

use crate::counts::SliceCounts;
use crate::cuts::cuts_of;
use crate::packets::{Coding, Measured, mode_of, packet_size};
use crate::precincts::PrecinctCounts;
use xs_geometry::Geometry;
use xs_layout::{Candidate, Quant};
use xs_params::Weights;

/// The bytes of a slice's header: docs/FORMAT.md, 'Slice, precinct and packet'.
const SLICE_HEAD: u64 = 6;

/// What a precinct would have at this candidate, without writing it.
pub fn precinct_bytes(
    geometry: &Geometry,
    precinct: u32,
    weights: &Weights,
    signs_apart: bool,
    quant: Quant,
    counts: &SliceCounts,
    candidate: Candidate,
) -> Measured
    requires kept { (slice : ℕ) × (bands : List BandLines) × AreKept geometry.now counts.now signs_apart slice bands × Contains (precincts_of geometry.now slice) precinct }
    requires precinct { precinct < precinct_count geometry.now }
    requires weights { length weights.now ≡ bands_of geometry.now }
    ensures bytes { (slice : ℕ) (bands : List BandLines) → AreKept geometry.now counts.now signs_apart slice bands → Contains (precincts_of geometry.now slice) precinct → result.bytes ≡ precinct_size_at (coding_header geometry.now weights.now signs_apart quant) (rows_held bands) candidate precinct }
    ensures fits { (slice : ℕ) (bands : List BandLines) → AreKept geometry.now counts.now signs_apart slice bands → Contains (precincts_of geometry.now slice) precinct → result.fits_fields ≡ precinct_fits_at (coding_header geometry.now weights.now signs_apart quant) (rows_held bands) candidate precinct }
{
    let coding = Coding {
        geometry,
        counts,
        signs_apart,
        quant,
    };
    let _bands = geometry.bands();
    precinct_size(&coding, precinct, &cuts_of(weights, candidate))
}

// The packets of a precinct, with these truncations of the bands.
fn packets_size(coding: &Coding, precinct: u32, cuts: &[u8; 30]) -> Measured
    requires coding { (slice : ℕ) × (bands : List BandLines) × IsCoding slice bands coding.now × Contains (precincts_of coding.now.geometry.now slice) precinct }
    requires cuts { All (λ t. t ≤ 15) cuts.now }
    ensures bytes { (slice : ℕ) (bands : List BandLines) (weights : List Weight) (candidate : Candidate) → IsCodedAt slice bands weights candidate coding.now cuts.now → Contains (precincts_of coding.now.geometry.now slice) precinct → result.bytes ≡ packets_size_at (header_in coding.now weights) (rows_held bands) candidate precinct }
    ensures fits { (slice : ℕ) (bands : List BandLines) (weights : List Weight) (candidate : Candidate) → IsCodedAt slice bands weights candidate coding.now cuts.now → Contains (precincts_of coding.now.geometry.now slice) precinct → result.fits_fields ≡ packets_fit_at (header_in coding.now weights) (rows_held bands) candidate precinct }
    ensures few { result.bytes ≤ 2 ^ 41 }
{
    let _bands = coding.geometry.bands();
    let kept = kept_of(coding.counts, precinct);
    let mut bytes = 0;
    let mut fits_fields = true;
    'packets: for number in 0..kept.packets.len() {
        let packet = packet_size(coding, kept, kept.packets[number], cuts);
        bytes += packet.bytes;
        fits_fields = both(fits_fields, packet.fits_fields);
    }
    Measured { bytes, fits_fields }
}

// Whether both hold.
fn both(one: bool, other: bool) -> bool
    ensures { result ≡ (one && other) }
{
    one && other
}

/// What is kept of a precinct.
pub fn kept_of(counts: &SliceCounts, precinct: u32) -> &PrecinctCounts
    requires from { counts.now.first ≤ precinct }
    requires there { precinct < counts.now.first + length counts.now.precincts.items }
    ensures { (none : PrecinctCounts) → result.now ≡ slice_index_or counts.now.precincts.items (precinct - counts.now.first) none }
{
    &counts.precincts[(precinct - counts.first) as usize]
}

/// The size of a precinct, with these truncations of the bands. Slice, precinct and packet: Lprc, Q, R, D.
pub fn precinct_size(coding: &Coding, precinct: u32, cuts: &[u8; 30]) -> Measured
    requires coding { (slice : ℕ) × (bands : List BandLines) × IsCoding slice bands coding.now × Contains (precincts_of coding.now.geometry.now slice) precinct }
    requires cuts { All (λ t. t ≤ 15) cuts.now }
    ensures bytes { (slice : ℕ) (bands : List BandLines) (weights : List Weight) (candidate : Candidate) → IsCodedAt slice bands weights candidate coding.now cuts.now → Contains (precincts_of coding.now.geometry.now slice) precinct → result.bytes ≡ precinct_size_at (header_in coding.now weights) (rows_held bands) candidate precinct }
    ensures fits { (slice : ℕ) (bands : List BandLines) (weights : List Weight) (candidate : Candidate) → IsCodedAt slice bands weights candidate coding.now cuts.now → Contains (precincts_of coding.now.geometry.now slice) precinct → result.fits_fields ≡ precinct_fits_at (header_in coding.now weights) (rows_held bands) candidate precinct }
    ensures few { result.bytes ≤ 2 ^ 42 }
{
    let bands = coding.geometry.bands();
    let packets = packets_size(coding, precinct, cuts);
    Measured {
        bytes: u64::from((40 + 2 * bands + 7) / 8) + packets.bytes,
        fits_fields: both(packets.fits_fields, packets.bytes < 1 << 24),
    }
}

/// The modes of the bands in a precinct, with these truncations of the bands; 0 past the last band.
pub fn precinct_modes(coding: &Coding, precinct: u32, cuts: &[u8; 30]) -> [u8; 30]
    requires coding { (slice : ℕ) × (bands : List BandLines) × IsCoding slice bands coding.now × Contains (precincts_of coding.now.geometry.now slice) precinct }
    requires cuts { All (λ t. t ≤ 15) cuts.now }
    ensures { (slice : ℕ) (bands : List BandLines) (weights : List Weight) (candidate : Candidate) → IsCodedAt slice bands weights candidate coding.now cuts.now → Contains (precincts_of coding.now.geometry.now slice) precinct → AreModesAt (header_in coding.now weights) (rows_held bands) candidate precinct result }
{
    let kept = kept_of(coding.counts, precinct);
    let mut modes = [0; 30];
    'bands: for band in 0..coding.geometry.bands() {
        modes[band as usize] = mode_of(kept, band, cuts[band as usize]);
    }
    modes
}

/// The first precinct of a slice, and one past the last.
pub fn precincts_in(geometry: &Geometry, slice: u32) -> (u32, u32)
    requires { slice < slice_count geometry.now }
    ensures first { result.0 ≡ slice * geometry.now.hsl }
    ensures end { result.1 ≡ min ((slice + 1) * geometry.now.hsl) (precinct_count geometry.now) }
    ensures few { result.1 ≤ 8192 }
{
    let _most = geometry.precincts();
    geometry.slice_precincts(slice)
}

/// The bytes of a slice, with these truncations of the bands.
pub fn slice_size(coding: &Coding, slice: u32, cuts: &[u8; 30]) -> u64
    requires slice { slice < slice_count coding.now.geometry.now }
    requires coding { (bands : List BandLines) × IsCoding slice bands coding.now }
    requires cuts { All (λ t. t ≤ 15) cuts.now }
    ensures size { (bands : List BandLines) (weights : List Weight) (candidate : Candidate) → IsCodedAt slice bands weights candidate coding.now cuts.now → result ≡ size_at (header_in coding.now weights) (rows_held bands) slice candidate }
    ensures few { result ≤ 2 ^ 56 }
{
    let (first, end) = precincts_in(coding.geometry, slice);
    let mut bytes = SLICE_HEAD;
    'precincts: for precinct in first..end {
        bytes += precinct_size(coding, precinct, cuts).bytes;
    }
    bytes
}

/// Whether a slice with these truncations of the bands is within its share, and each length in it has room in its field.
pub fn slice_fits(coding: &Coding, slice: u32, cuts: &[u8; 30], share: u64) -> bool
    requires slice { slice < slice_count coding.now.geometry.now }
    requires coding { (bands : List BandLines) × IsCoding slice bands coding.now }
    requires cuts { All (λ t. t ≤ 15) cuts.now }
    ensures { (bands : List BandLines) (weights : List Weight) (candidate : Candidate) → IsCodedAt slice bands weights candidate coding.now cuts.now → result ≡ fits_at (header_in coding.now weights) (rows_held bands) share slice candidate }
{
    let (first, end) = precincts_in(coding.geometry, slice);
    let mut bytes = SLICE_HEAD;
    'precincts: for precinct in first..end {
        let measured = precinct_size(coding, precinct, cuts);
        bytes += measured.bytes;
        if !both(measured.fits_fields, bytes <= share) {
            return false;
        }
    }
    bytes <= share
}
