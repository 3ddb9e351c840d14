//! What is kept of a slice's coefficients to count its sizes.
ghost use Rattle.std.specs.Prelude.{◌≡◌, ℕ, ◌<◌, ◌++◌, ◌∷◌, [], true, IfOk, OnOk};
ghost use Rattle.xs_params.specs.Geometry.{slice_count};
ghost use Rattle.xs_geometry.specs.SliceLines.{AreLinesOf, rows_held};
ghost use Rattle.xs_rate.specs.Laws.{AreSmall};
ghost use Rattle.xs_sizes.specs.Lengths.{AreLengths};
ghost use Rattle.xs_sizes.specs.Counted.{AreBandsCounted, AreCountsOf};

use crate::bands::{BandCounts, Counting, LineScratch, count_band};
use crate::lengths::length_table;
use crate::line::LineSizes;
use crate::precincts::{PrecinctCounts, keep_precincts};
use std::alloc::Global;
use xs_geometry::{Geometry, SliceRows};
use xs_io::Memory;

/// What the counts and magnitudes of a slice's coefficients give at each truncation, so that the sizes of a candidate are
/// sums of numbers that are there: the sizes of the bands' lines, and from the slice's first precinct on the packets of each
/// precinct and the modes of its bands. Signs apart are counted only where they are wanted.
#[derive(Drop)]
pub struct SliceCounts {
    pub signs: bool,
    pub first: u32,
    pub bands: Vec<BandCounts>,
    pub precincts: Vec<PrecinctCounts>,
}

impl SliceCounts {
    /// The counts of the rows of a slice, for each quantiser and place of the signs.
    pub fn of(alloc: Global, geometry: &Geometry, rows: &SliceRows) -> Result<SliceCounts, Memory>
        requires lines { (slice : ℕ) × (slice < slice_count geometry.now) × AreLinesOf geometry.now slice rows.now }
        requires small { AreSmall (rows_held rows.now) }
        ensures counted { IfOk result (AreCountsOf geometry.now rows.now) }
        ensures signs { IfOk result (λ counts. counts.signs ≡ true) }
    {
        let mut scratch = SizeScratch::new(alloc)?;
        scratch.count(alloc, geometry, rows, true)
    }
}

/// Room in which the slices of a picture are counted one after the other: the bits of counts by their planes, the planes of a
/// line, and the lists of counts that are no longer needed.
#[derive(Drop)]
pub struct SizeScratch {
    pub table: Vec<[u8; 16]>,
    pub line: LineScratch,
    pub bands: Vec<BandCounts>,
    pub precincts: Vec<PrecinctCounts>,
}

impl SizeScratch {
    /// Room that grows with the slices.
    pub fn new(alloc: Global) -> Result<SizeScratch, Memory>
        ensures table { IfOk result (λ scratch. AreLengths scratch.table.items) }
    {
        Ok(SizeScratch {
            table: length_table(alloc)?,
            line: LineScratch::new(alloc),
            bands: Vec::new(alloc),
            precincts: Vec::new(alloc),
        })
    }

    /// The counts of the rows of a slice; without signs, for those that stand among the data alone.
    // Never inlined, so that bench/functions.sh counts it under its own name.
    #[inline(never)]
    pub fn count(
        &mut self,
        alloc: Global,
        geometry: &Geometry,
        rows: &SliceRows,
        signs: bool,
    ) -> Result<SliceCounts, Memory>
        requires table { AreLengths self.old.table.items }
        requires lines { (slice : ℕ) × (slice < slice_count geometry.now) × AreLinesOf geometry.now slice rows.now }
        requires small { AreSmall (rows_held rows.now) }
        ensures counted { IfOk result (AreCountsOf geometry.now rows.now) }
        ensures signs { IfOk result (λ counts. counts.signs ≡ signs) }
        ensures table { self.new.table ≡ self.old.table }
    {
        let counting = Counting {
            geometry,
            rows,
            table: self.table.as_slice(),
            signs,
        };
        let bands = count_bands(alloc, &counting, &mut self.line, &mut self.bands)?;
        let (first, end) = rows.lines(0);
        let precincts = keep_precincts(
            alloc,
            &counting,
            bands.as_slice(),
            (first, end),
            &mut self.precincts,
        )?;
        Ok(SliceCounts {
            signs,
            first,
            bands,
            precincts,
        })
    }

    /// Takes the lists of counts that are no longer needed.
    pub fn keep(&mut self, counts: SliceCounts)
        ensures table { self.new.table ≡ self.old.table }
    {
        self.bands = counts.bands;
        self.precincts = counts.precincts;
    }
}

// The sizes of the lines of all bands, in lists that are there where there are some.
fn count_bands(
    alloc: Global,
    counting: &Counting,
    scratch: &mut LineScratch,
    spare: &mut Vec<BandCounts>,
) -> Result<Vec<BandCounts>, Memory>
    requires lines { (slice : ℕ) × AreLinesOf counting.now.geometry.now slice counting.now.rows.now }
    requires table { AreLengths counting.now.table.now }
    requires small { AreSmall (rows_held counting.now.rows.now) }
    ensures { IfOk result (λ bands. AreBandsCounted counting.now.geometry.now counting.now.rows.now counting.now.signs bands.items) }
{
    let mut bands = Vec::new(alloc);
    'bands: for band in 0..counting.geometry.bands() {
        let room = empty_lines(alloc, spare);
        let counts = count_band(counting, band, scratch, room)?;
        push_band(&mut bands, counts)?;
    }
    Ok(bands)
}

// The list of a band that is no longer needed, or a new one, with nothing in it.
fn empty_lines(alloc: Global, spare: &mut Vec<BandCounts>) -> Vec<LineSizes>
    ensures { result.items ≡ [] }
{
    match spare.pop() {
        Some(counts) => {
            let mut lines = counts.lines;
            lines.clear();
            lines
        }
        None => Vec::new(alloc),
    }
}

// Appends the sizes of a band.
fn push_band(bands: &mut Vec<BandCounts>, counts: BandCounts) -> Result<(), Memory>
    ensures { OnOk result (bands.new.items ≡ bands.old.items ++ counts ∷ []) }
{
    bands.push(counts).map_err(|_| Memory)
}
