// A component is transformed from the top, and the rows of a slice are taken as soon as they are known.
ghost use Rattle.std.specs.Prelude.{◌≡◌, ℕ, ◌+◌, ◌-◌, ◌*◌, ◌^◌, ◌<◌, ◌≤◌, ◌⊎◌, ◌++◌, ◌∷◌, [], min, true, false, length, IfOk, OnOk};
ghost use Rattle.xs_layout.specs.Geometry.{components_of};
ghost use Rattle.xs_params.specs.Accepted.{IsAccepted};
ghost use Rattle.xs_params.specs.Geometry.{band_component, bands_of, geometry_of, slice_count};
ghost use Rattle.xs_geometry.specs.SliceLines.{first_line_of, end_line_of};
ghost use Rattle.xs_rate.specs.Coefficients.{rows_of_picture};
ghost use Rattle.xs_picture.specs.Analysed.{IsGiven};
ghost use Rattle.xs_enc_lanes.specs.Rows.{CarriesRows, component_in, slice_of};
ghost use Rattle.xs_enc_lanes.specs.Transformed.{AreBandRows, AreFoldedBands, FitLines, HasReached, IsComponentOf, IsUnderWay, KeepsFrom, KnowsBand, KnowsSlice, rows_for};

use crate::lines::LineRows;
use crate::rows::{CoefRow, ComponentRows, SliceBandRows};
use std::alloc::Global;
use xs_geometry::Geometry;
use xs_io::Memory;
use xs_params::Header;
use xs_picture::{Component, band_row, component_splitter};
use xs_splitter::Splitter;

// A component, what became of its first rows, the rows in which its lines are made, and one in which those of bands are folded;
// the first row of the lowest band that is kept, how many rows were taken, and whether that is all.
#[derive(Drop)]
pub(crate) struct Transform<'a> {
    component: Component<'a>,
    splitter: Splitter,
    rows: LineRows,
    scratch: Vec<i32>,
    kept: u32,
    taken: u32,
    done: bool,
}

// So many times 2 to a power.
fn times_power(number: u32, power: u8) -> u32
    requires number { number < 2 ^ 20 }
    requires power { power ≤ 2 }
    ensures { result ≡ number * 2 ^ power }
{
    number << power
}

// How many rows of each component the rows of the first slices hang on, up to this one; the rows that the picture has are enough
// where they are fewer.
pub(crate) fn rows_for(header: &Header, slice: u32) -> u32
    requires accepted { IsAccepted header.now }
    requires there { slice < slice_count header.now }
    ensures { result ≡ rows_for header.now slice }
{
    let (first, _) = Geometry::of(header).slice_precincts(slice);
    let end = first + u32::from(header.hsl);
    times_power(end + 1, header.nly) - 1
}

// The first line of a band in a slice, and one past the last.
fn slice_lines(header: &Header, slice: u32, band: u32) -> (u32, u32)
    requires accepted { IsAccepted header.now }
    requires there { slice < slice_count header.now }
    requires band { band < bands_of header.now }
    ensures first { result.0 ≡ first_line_of header.now slice band }
    ensures end { result.1 ≡ end_line_of header.now slice band }
    ensures order { result.0 ≤ result.1 }
{
    let geometry = Geometry::of(header);
    let (first, _) = geometry.slice_precincts(slice);
    let next = first + u32::from(header.hsl);
    let height = geometry.band_height(band);
    let deeper = header.nly - geometry.kind(band).down;
    (
        times_power(first, deeper).min(height),
        times_power(next, deeper).min(height),
    )
}

// Some lines are split.
fn push_rows(
    alloc: Global,
    component: Component<'_>,
    lines: (u32, u32),
    splitter: &mut Splitter,
    rows: &mut LineRows,
) -> Result<(), Memory>
    requires component { IsComponentOf component }
    requires lines { (lines.0 ≤ lines.1) × (lines.1 ≤ component.header.now.shape.height) }
    requires fit { FitLines component rows.old }
    requires first { (from : ℕ) × IsGiven component.header.now component.picture.now component.number from lines.0 splitter.old }
    ensures given { (from : ℕ) → IsGiven component.entry.header.now component.entry.picture.now component.entry.number from lines.0 splitter.old → IfOk result (λ _. IsGiven component.entry.header.now component.entry.picture.now component.entry.number from lines.1 splitter.new) }
    ensures fit { FitLines component.entry rows.new }
{
    'lines: for line in lines.0..lines.1 {
        rows.fill(component, line);
        splitter.push(alloc, rows.numbers(component.number))?;
    }
    Ok(())
}

impl<'a> Transform<'a> {
    // Before the first row.
    pub(crate) fn new(alloc: Global, component: Component<'a>) -> Result<Transform<'a>, Memory>
        requires component { IsComponentOf component }
        ensures state { IfOk result (IsUnderWay component.entry) }
        ensures kept { IfOk result (KeepsFrom 0) }
    {
        let splitter = component_splitter(alloc, component.header, component.number)?;
        let rows = LineRows::of(alloc, component)?;
        Ok(Transform {
            component,
            splitter,
            rows,
            scratch: Vec::new(alloc),
            kept: 0,
            taken: 0,
            done: false,
        })
    }

    // Takes rows until there are so many of them, or no more.
    pub(crate) fn advance(&mut self, alloc: Global, rows: u32) -> Result<(), Memory>
        requires state { IsUnderWay self.old.component self.old }
        ensures state { IfOk result (λ _. IsUnderWay self.old.component self.new) }
        ensures reached { IfOk result (λ _. HasReached rows self.new) }
        ensures kept { (slice : ℕ) → KeepsFrom slice self.old → KeepsFrom slice self.new }
    {
        if self.done {
            return Ok(());
        }
        let height = self.component.header.shape.height;
        let end = rows.min(height).max(self.taken);
        push_rows(
            alloc,
            self.component,
            (self.taken, end),
            &mut self.splitter,
            &mut self.rows,
        )?;
        self.taken = end;
        if end == height {
            self.splitter.finish(alloc)?;
            self.done = true;
        }
        Ok(())
    }

    // The rows of a slice.
    pub(crate) fn slice(&mut self, alloc: Global, slice: u32) -> Result<ComponentRows, Memory>
        requires state { IsUnderWay self.old.component self.old }
        requires there { slice < slice_count self.old.component.header.now }
        requires reached { HasReached (rows_for self.old.component.header.now slice) self.old }
        requires kept { KeepsFrom slice self.old }
        ensures state { IsUnderWay self.old.component self.new }
        ensures kept { KeepsFrom slice self.new }
        ensures carries { IfOk result (CarriesRows self.old.component.header.now (rows_of_picture self.old.component.header.now self.old.component.picture.now)) }
        ensures slice { IfOk result (λ v. slice_of v ≡ slice) }
        ensures component { IfOk result (λ v. component_in v ≡ self.old.component.number) }
    {
        let header = self.component.header;
        let number = self.component.number;
        let components = header.shape.format.components();
        let bands = folded_bands(&mut self.scratch, &self.splitter, header, (slice, number))?;
        ComponentRows::new(alloc, (slice, number), number + 1 == components, bands)
    }

    // Gives up the rows of a slice.
    pub(crate) fn forget(&mut self, slice: u32)
        requires state { IsUnderWay self.old.component self.old }
        requires there { slice < slice_count self.old.component.header.now }
        requires kept { KeepsFrom slice self.old }
        ensures state { IsUnderWay self.old.component self.new }
        ensures kept { KeepsFrom (slice + 1) self.new }
    {
        let header = self.component.header;
        let (first, _) = Geometry::of(header).slice_precincts(slice);
        let end = first + u32::from(header.hsl);
        self.splitter.forget(self.kept, end);
        self.kept = end;
    }
}

fn add_band(bands: &mut Vec<SliceBandRows>, rows: SliceBandRows) -> Result<(), Memory>
    ensures { OnOk result (bands.new.items ≡ bands.old.items ++ rows ∷ []) }
{
    bands.push(rows).map_err(|_| Memory)
}

// The rows of all bands of a component in a slice, by slice and component.
fn folded_bands(
    scratch: &mut Vec<i32>,
    splitter: &Splitter,
    header: &Header,
    place: (u32, u32),
) -> Result<Vec<SliceBandRows>, Memory>
    requires accepted { IsAccepted header.now }
    requires slice { place.0 < slice_count header.now }
    requires component { place.1 < components_of header.now.shape.format }
    requires known { KnowsSlice header.now place.0 place.1 splitter.now }
    ensures { IfOk result (λ bands. AreFoldedBands header.now place.0 place.1 splitter.now bands.items) }
{
    let geometry = Geometry::of(header);
    let components = header.shape.format.components();
    let mut bands = Vec::new(*scratch.allocator());
    'bands: for number in 0..geometry.bands() / components {
        let band = number * components + place.1;
        let rows = folded_band(scratch, splitter, header, (place.0, band))?;
        add_band(&mut bands, rows)?;
    }
    Ok(bands)
}

// The rows of a band in a slice, by slice and band.
fn folded_band(
    scratch: &mut Vec<i32>,
    splitter: &Splitter,
    header: &Header,
    place: (u32, u32),
) -> Result<SliceBandRows, Memory>
    requires accepted { IsAccepted header.now }
    requires slice { place.0 < slice_count header.now }
    requires band { place.1 < bands_of header.now }
    requires known { KnowsBand header.now place.0 place.1 splitter.now }
    ensures { IfOk result (AreBandRows header.now place.0 place.1 splitter.now) }
{
    let kind = Geometry::of(header).kind(place.1);
    let (first, end) = slice_lines(header, place.0, place.1);
    let mut rows = SliceBandRows::new(*scratch.allocator());
    'lines: for line in first..end {
        let numbers = band_row(splitter, kind, line as usize);
        let row = CoefRow::folded(scratch, numbers, header.fq)?;
        rows.push(row)?;
    }
    Ok(rows)
}
