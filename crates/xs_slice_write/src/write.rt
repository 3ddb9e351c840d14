//! The bytes of a slice.
ghost use Rattle.std.specs.Prelude.{◌≡◌, ℕ, ◌+◌, ◌-◌, ◌<◌, ◌≤◌, ◌^◌, true, false, nat_eq, if◌then◌else◌, Err, IfOk, IfErr, All, List};
ghost use Rattle.std.specs.List.{Contains};
ghost use Rattle.xs_layout.specs.declared.Weight.{Weight};
ghost use Rattle.xs_params.specs.declared.header.Header.{Header};
ghost use Rattle.xs_params.specs.Accepted.{IsAccepted};
ghost use Rattle.xs_params.specs.Geometry.{precincts_of, slice_count};
ghost use Rattle.xs_geometry.specs.SliceLines.{AreLinesOf, BandLines, rows_held};
ghost use Rattle.xs_grammar.specs.Coded.{precinct_fits, slice_bytes};
ghost use Rattle.xs_grammar.specs.Slice.{slice_head};
ghost use Rattle.xs_rate.specs.Choice.{choice_of};
ghost use Rattle.xs_rate.specs.Chosen.{size_at};
ghost use Rattle.xs_rate.specs.Laws.{AreSmall};
ghost use Rattle.xs_sizes.specs.Counted.{AreCountsOf};
ghost use Rattle.xs_precinct_write.specs.Outgoing.{HaveRoom};
ghost use Rattle.xs_precinct_write.specs.Sent.{AreModesIn, HasPrecinct, IsSliceAt, content_in, modes_in};
ghost use Rattle.xs_slice_write.specs.Written.{IsRefusal, IsWrittenSlice, last_filler};
ghost use Rattle.xs_slice_write.specs.Coded.{AreKeptOf, HasSliceRoom, IsCountedSlice, IsPlan};

use crate::choice::choose;
use std::alloc::Global;
use xs_faults::{Budget, SliceRefusal};
use xs_geometry::{Geometry, SliceRows};
use xs_io::{Memory, Octets};
use xs_layout::Candidate;
use xs_params::Header;
use xs_precinct_write::{FilledPrecinct, Scratch, SliceAt, modes_at, write_filled_precinct};
use xs_sizes::{Coding, SizeScratch, SliceCounts, cuts_of, slice_size};

/// Room in which the slices of a picture are counted and written one after the other.
#[derive(Drop)]
pub struct SliceScratch {
    pub sizes: SizeScratch,
    pub lines: Scratch,
}

impl SliceScratch {
    /// Room for the slices of a header.
    pub fn of(alloc: Global, header: &Header) -> Result<SliceScratch, Memory>
        requires { IsAccepted header.now }
        ensures { IfOk result (HasSliceRoom header.now) }
    {
        Ok(SliceScratch {
            sizes: SizeScratch::new(alloc)?,
            lines: Scratch::of(alloc, &Geometry::of(header))?,
        })
    }
}

/// The rows of a slice, its share in bytes, and whether it is filled up to that.
#[derive(Clone, Copy)]
pub struct WantedSlice<'a> {
    pub rows: &'a SliceRows,
    pub slice: u32,
    pub share: u32,
    pub fill: bool,
}

/// The counts of a slice's rows, beside its header and the geometry of that.
#[derive(Clone, Copy)]
struct CountedSlice<'a> {
    header: &'a Header,
    geometry: &'a Geometry,
    counts: &'a SliceCounts,
}

/// A slice, its candidate, and how many bytes of filler it has.
#[derive(Clone, Copy)]
struct Plan {
    slice: u32,
    candidate: Candidate,
    filler: u32,
}

/// The rows of a slice at the candidate of its plan, their counts, and the filler.
#[derive(Clone, Copy)]
struct PlannedSlice<'a> {
    at: SliceAt<'a>,
    counts: &'a SliceCounts,
    slice: u32,
    filler: u32,
}

/// The bytes of a slice at the candidate that is chosen for it; with `fill` up to its share. docs/FORMAT.md, 'Slice, precinct
/// and packet' and 'Rate choice'.
pub fn write_slice(
    alloc: Global,
    header: &Header,
    slice: u32,
    rows: &SliceRows,
    share: u32,
    fill: bool,
) -> Result<Octets, SliceRefusal>
    requires accepted { IsAccepted header.now }
    requires heads { header.now.long_heads ≡ false }
    requires slice { slice < slice_count header.now }
    requires lines { AreLinesOf header.now slice rows.now }
    requires gains { All (λ (weight : Weight). weight.gain ≤ 15) header.now.weights }
    requires small { AreSmall (rows_held rows.now) }
    requires share { fill ≡ true → share < 2 ^ 24 }
    ensures written { IfOk result (IsWrittenSlice header.now (rows_held rows.now) share fill slice) }
    ensures refused { IfErr result (IsRefusal header.now (rows_held rows.now) share slice) }
{
    let Ok(mut scratch) = SliceScratch::of(alloc, header) else {
        return Err(SliceRefusal::Memory);
    };
    let wanted = WantedSlice {
        rows,
        slice,
        share,
        fill,
    };
    write_slice_in(alloc, header, &wanted, &mut scratch)
}

/// The same in room that was made for the picture, which each answer leaves for another slice.
pub fn write_slice_in(
    alloc: Global,
    header: &Header,
    wanted: &WantedSlice,
    scratch: &mut SliceScratch,
) -> Result<Octets, SliceRefusal>
    requires accepted { IsAccepted header.now }
    requires heads { header.now.long_heads ≡ false }
    requires slice { wanted.now.slice < slice_count header.now }
    requires lines { AreLinesOf header.now wanted.now.slice wanted.now.rows.now }
    requires gains { All (λ (weight : Weight). weight.gain ≤ 15) header.now.weights }
    requires small { AreSmall (rows_held wanted.now.rows.now) }
    requires share { wanted.now.fill ≡ true → wanted.now.share < 2 ^ 24 }
    requires room { HasSliceRoom header.now scratch.old }
    ensures written { IfOk result (IsWrittenSlice header.now (rows_held wanted.now.rows.now) wanted.now.share wanted.now.fill wanted.now.slice) }
    ensures refused { IfErr result (IsRefusal header.now (rows_held wanted.now.rows.now) wanted.now.share wanted.now.slice) }
    ensures room { HasSliceRoom header.now scratch.new }
{
    let geometry = Geometry::of(header);
    let counted = scratch
        .sizes
        .count(alloc, &geometry, wanted.rows, header.signs_apart);
    let Ok(counts) = counted else {
        return Err(SliceRefusal::Memory);
    };
    let slice = CountedSlice {
        header,
        geometry: &geometry,
        counts: &counts,
    };
    let written = write_counted(alloc, &slice, wanted, &mut scratch.lines);
    scratch.sizes.keep(counts);
    written
}

// The bytes of a slice whose rows were counted.
fn write_counted(
    alloc: Global,
    counted: &CountedSlice,
    wanted: &WantedSlice,
    scratch: &mut Scratch,
) -> Result<Octets, SliceRefusal>
    requires counted { IsCountedSlice counted.now wanted.now }
    requires share { wanted.now.fill ≡ true → wanted.now.share < 2 ^ 24 }
    requires room { HaveRoom counted.now.header.now scratch.old.lines.items }
    ensures written { IfOk result (IsWrittenSlice counted.now.header.now (rows_held wanted.now.rows.now) wanted.now.share wanted.now.fill wanted.now.slice) }
    ensures refused { IfErr result (IsRefusal counted.now.header.now (rows_held wanted.now.rows.now) wanted.now.share wanted.now.slice) }
    ensures room { HaveRoom counted.now.header.now scratch.new.lines.items }
{
    let plan = match plan_slice(counted, wanted) {
        Ok(plan) => plan,
        Err(budget) => return Err(SliceRefusal::Budget(budget)),
    };
    let planned = PlannedSlice {
        at: SliceAt {
            header: counted.header,
            geometry: counted.geometry,
            rows: wanted.rows,
            candidate: plan.candidate,
        },
        counts: counted.counts,
        slice: plan.slice,
        filler: plan.filler,
    };
    match write_precincts(alloc, &planned, scratch) {
        Ok(bytes) => Ok(bytes),
        Err(Memory) => Err(SliceRefusal::Memory),
    }
}

// The candidate of a slice, and its filler: docs/FORMAT.md, 'Rate choice'.
fn plan_slice(counted: &CountedSlice, wanted: &WantedSlice) -> Result<Plan, Budget>
    requires kept { (bands : List BandLines) × AreKeptOf counted.now.header.now wanted.now.slice bands counted.now.geometry.now counted.now.counts.now }
    requires slice { wanted.now.slice < slice_count counted.now.header.now }
    requires gains { All (λ (weight : Weight). weight.gain ≤ 15) counted.now.header.now.weights }
    ensures planned { (bands : List BandLines) → AreKeptOf counted.now.header.now wanted.now.slice bands counted.now.geometry.now counted.now.counts.now → IfOk result (IsPlan counted.now.header.now (rows_held bands) wanted.now.share wanted.now.fill wanted.now.slice) }
    ensures refused { (bands : List BandLines) → AreKeptOf counted.now.header.now wanted.now.slice bands counted.now.geometry.now counted.now.counts.now → IfErr result (λ budget. choice_of counted.now.header.now (rows_held bands) wanted.now.share wanted.now.slice ≡ Err budget) }
{
    let candidate = match chosen(counted, wanted) {
        Ok(candidate) => candidate,
        Err(budget) => return Err(budget),
    };
    let plain = Plan {
        slice: wanted.slice,
        candidate,
        filler: 0,
    };
    if !wanted.fill {
        return Ok(plain);
    }
    let size = size_of(counted, plain);
    Ok(Plan {
        slice: wanted.slice,
        candidate,
        filler: rest_of(wanted.share, size),
    })
}

// What a size leaves of a share.
fn rest_of(share: u32, size: u64) -> u32
    ensures { result ≡ share - size }
{
    u64::from(share).saturating_sub(size) as u32
}

// The candidate of a slice.
fn chosen(counted: &CountedSlice, wanted: &WantedSlice) -> Result<Candidate, Budget>
    requires kept { (bands : List BandLines) × AreKeptOf counted.now.header.now wanted.now.slice bands counted.now.geometry.now counted.now.counts.now }
    requires slice { wanted.now.slice < slice_count counted.now.header.now }
    requires gains { All (λ (weight : Weight). weight.gain ≤ 15) counted.now.header.now.weights }
    ensures { (bands : List BandLines) → AreKeptOf counted.now.header.now wanted.now.slice bands counted.now.geometry.now counted.now.counts.now → result ≡ choice_of counted.now.header.now (rows_held bands) wanted.now.share wanted.now.slice }
{
    let header = counted.header;
    choose(
        counted.geometry,
        wanted.slice,
        &header.weights,
        header.signs_apart,
        header.quant,
        counted.counts,
        wanted.share,
    )
}

// The bytes of a slice at a candidate, without filler.
fn size_of(counted: &CountedSlice, plan: Plan) -> u64
    requires kept { (bands : List BandLines) × AreKeptOf counted.now.header.now plan.slice bands counted.now.geometry.now counted.now.counts.now }
    requires slice { plan.slice < slice_count counted.now.header.now }
    ensures { (bands : List BandLines) → AreKeptOf counted.now.header.now plan.slice bands counted.now.geometry.now counted.now.counts.now → result ≡ size_at counted.now.header.now (rows_held bands) plan.slice plan.candidate }
{
    let header = counted.header;
    let coding = Coding {
        geometry: counted.geometry,
        counts: counted.counts,
        signs_apart: header.signs_apart,
        quant: header.quant,
    };
    let _bands = counted.geometry.bands();
    slice_size(
        &coding,
        plan.slice,
        &cuts_of(&header.weights, plan.candidate),
    )
}

// The header of a slice and its precincts, the last of them with its filler.
fn write_precincts(
    alloc: Global,
    planned: &PlannedSlice,
    scratch: &mut Scratch,
) -> Result<Octets, Memory>
    requires rows { IsSliceAt planned.now.slice planned.now.at }
    requires slice { planned.now.slice < slice_count planned.now.at.header.now }
    requires counts { AreCountsOf planned.now.at.geometry.now planned.now.at.rows.now planned.now.counts.now }
    requires signs { planned.now.at.header.now.signs_apart ≡ true → planned.now.counts.now.signs ≡ true }
    requires fits { (precinct : ℕ) → Contains (precincts_of planned.now.at.header.now planned.now.slice) precinct → precinct_fits planned.now.at.header.now (content_in planned.now.at) (modes_in planned.now.at) (last_filler planned.now.at.header.now planned.now.slice planned.now.filler) precinct ≡ true }
    requires room { HaveRoom planned.now.at.header.now scratch.old.lines.items }
    ensures whole { IfOk result (λ bytes. bytes ≡ slice_bytes planned.now.at.header.now (content_in planned.now.at) (modes_in planned.now.at) (last_filler planned.now.at.header.now planned.now.slice planned.now.filler) planned.now.slice) }
    ensures room { HaveRoom planned.now.at.header.now scratch.new.lines.items }
{
    let (first, end) = planned.at.geometry.slice_precincts(planned.slice);
    let mut out = head_of(alloc, planned.slice)?;
    'precincts: for precinct in first..end {
        let wanted = filled_at(planned, precinct, end);
        write_filled_precinct(alloc, &planned.at, wanted, scratch, &mut out)?;
    }
    Ok(out)
}

// A precinct before this end, with its modes, and with filler if it is the last.
fn filled_at(planned: &PlannedSlice, precinct: u32, end: u32) -> FilledPrecinct
    requires inside { precinct < end }
    requires precinct { HasPrecinct planned.now.at precinct }
    requires counts { AreCountsOf planned.now.at.geometry.now planned.now.at.rows.now planned.now.counts.now }
    requires signs { planned.now.at.header.now.signs_apart ≡ true → planned.now.counts.now.signs ≡ true }
    ensures precinct { result.precinct ≡ precinct }
    ensures modes { AreModesIn planned.now.at result.precinct result.modes }
    ensures filler { result.filler ≡ (if nat_eq (precinct + 1) end then planned.now.filler else 0) }
{
    FilledPrecinct {
        precinct,
        modes: modes_at(&planned.at, planned.counts, precinct),
        filler: if precinct + 1 == end {
            planned.filler
        } else {
            0
        },
    }
}

// The header of a slice. Slice, precinct and packet: the code, its length, the index.
fn head_of(alloc: Global, slice: u32) -> Result<Octets, Memory>
    requires { slice < 2 ^ 16 }
    ensures { IfOk result (λ head. head ≡ slice_head slice) }
{
    let [high, low] = (slice as u16).to_be_bytes();
    Octets::from_slice(alloc, &[0xff, 0x20, 0, 4, high, low])
}
