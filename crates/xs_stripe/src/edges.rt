//! The rows that a slice hands to its neighbours.
ghost use Rattle.std.specs.Prelude.{◌≡◌, ◌<◌, ℕ, [], length, map, IfOk, MatchOption};
ghost use Rattle.xs_params.specs.Accepted.{IsAccepted, IsGeometry};
ghost use Rattle.xs_params.specs.Geometry.{bands_of, slice_count};
ghost use Rattle.xs_geometry.specs.SliceLines.{AreLinesOf, ShowRows};
ghost use Rattle.xs_rate.specs.Coefficients.{Rows};
ghost use Rattle.xs_lists.specs.Spelling.{upto};
ghost use Rattle.xs_stripe.specs.Edges.{AreSmallRows, IsDownEdge, IsUpEdge, ShowsDown, ShowsUp, edge_row, first_row, last_high_row, last_row};

use crate::row_list::RowList;
use std::alloc::Global;
use std::marker::Model;
use xs_geometry::{Geometry, SliceRows};
use xs_io::Memory;
use xs_params::Header;

/// Rows of a slice, at most one of each band.
#[derive(Drop)]
pub struct Edge {
    slice: u32,
    rows: RowList,
}

impl Model for Edge {
    ghost use Rattle.xs_stripe.specs.Edges.{EdgeRows};

    ghost Value = { EdgeRows };

    ghost view = { λ s. record { slice = s.slice; rows = s.rows } };
}

impl Edge {
    /// The slice that has the rows.
    pub fn slice(&self) -> u32
        ensures { result ≡ self.now.slice }
    {
        self.slice
    }

    // The row of a band, without numbers where there is none.
    pub(crate) fn numbers(&self, band: u32) -> &[i32]
        ensures { result.now ≡ edge_row self.now band }
    {
        self.rows.find(band as usize)
    }

    /// The row of a band, if there is one.
    pub fn row(&self, band: u32) -> Option<&[i32]>
        requires { band < length self.now.rows }
        ensures { MatchOption result (edge_row self.now band ≡ []) (λ row. (row.now ≡ edge_row self.now band) × (0 < length row.now)) }
    {
        let row = self.numbers(band);
        if row.is_empty() { None } else { Some(row) }
    }
}

/// The edge that goes up, which is the first row of each band that has one in the slice, and the edge that goes down, which is
/// the last row of each band that is high down and has one.
pub fn edges_of(
    alloc: Global,
    geometry: &Geometry,
    body: &SliceRows,
) -> Result<(Edge, Edge), Memory>
    requires slice { (slice : ℕ) × (slice < slice_count geometry.now) × AreLinesOf geometry.now slice body.now }
    requires small { AreSmallRows body.now }
    ensures up { IfOk result (λ edges. (slice : ℕ) → slice < slice_count geometry.now → AreLinesOf geometry.now slice body.now → IsUpEdge geometry.now slice edges.0) }
    ensures down { IfOk result (λ edges. (slice : ℕ) → slice < slice_count geometry.now → AreLinesOf geometry.now slice body.now → IsDownEdge geometry.now slice edges.1) }
    ensures shows_up { IfOk result (λ edges. (slice : ℕ) (rows : Rows) → AreLinesOf geometry.now slice body.now → ShowRows geometry.now rows body.now → ShowsUp geometry.now slice edges.0 rows) }
    ensures shows_down { IfOk result (λ edges. (slice : ℕ) (rows : Rows) → AreLinesOf geometry.now slice body.now → ShowRows geometry.now rows body.now → ShowsDown geometry.now slice edges.1 rows) }
{
    let slice = slice_of(geometry, body);
    let up = up_rows(alloc, geometry, body)?;
    let down = down_rows(alloc, geometry, body)?;
    Ok((Edge { slice, rows: up }, Edge { slice, rows: down }))
}

/// The same of the slice with this number, by the header of its picture.
pub fn slice_edges(
    alloc: Global,
    header: &Header,
    slice: u32,
    body: &SliceRows,
) -> Result<(Edge, Edge), Memory>
    requires accepted { IsAccepted header.now }
    requires slice { slice < slice_count header.now }
    requires lines { AreLinesOf header.now slice body.now }
    requires small { AreSmallRows body.now }
    ensures up { IfOk result (λ edges. IsUpEdge header.now slice edges.0) }
    ensures down { IfOk result (λ edges. IsDownEdge header.now slice edges.1) }
    ensures shows_up { IfOk result (λ edges. (rows : Rows) → ShowRows header.now rows body.now → ShowsUp header.now slice edges.0 rows) }
    ensures shows_down { IfOk result (λ edges. (rows : Rows) → ShowRows header.now rows body.now → ShowsDown header.now slice edges.1 rows) }
{
    edges_of(alloc, &Geometry::of(header), body)
}

// The number of the slice that has these rows: the lowest band has a line in each precinct.
fn slice_of(geometry: &Geometry, body: &SliceRows) -> u32
    requires slice { (slice : ℕ) × (slice < slice_count geometry.now) × AreLinesOf geometry.now slice body.now }
    ensures { (slice : ℕ) → slice < slice_count geometry.now → AreLinesOf geometry.now slice body.now → result ≡ slice }
{
    known_geometry(geometry);
    let (first, _) = body.lines(0);
    let (_, each) = geometry.slice_precincts(0);
    first / each
}

// What the type of a geometry says of it.
fn known_geometry(geometry: &Geometry)
    ensures { IsGeometry geometry.now }
{
    geometry.bands();
}

// The first row of each band.
fn up_rows(alloc: Global, geometry: &Geometry, body: &SliceRows) -> Result<RowList, Memory>
    requires bands { length body.now ≡ bands_of geometry.now }
    ensures { IfOk result (λ rows. rows ≡ map (first_row body.now) (upto (bands_of geometry.now))) }
{
    let count = geometry.bands();
    let mut rows = RowList::new(alloc, count as usize, 0)?;
    'each: for band in 0..count {
        rows.push(first_row(body, band))?;
    }
    Ok(rows)
}

// The last row of each band that is high down.
fn down_rows(alloc: Global, geometry: &Geometry, body: &SliceRows) -> Result<RowList, Memory>
    requires bands { length body.now ≡ bands_of geometry.now }
    ensures { IfOk result (λ rows. rows ≡ map (last_high_row geometry.now body.now) (upto (bands_of geometry.now))) }
{
    let count = geometry.bands();
    let mut rows = RowList::new(alloc, count as usize, 0)?;
    'each: for band in 0..count {
        rows.push(last_high_row(geometry, body, band))?;
    }
    Ok(rows)
}

// The row of a band's first line, without numbers where there is none.
fn first_row(body: &SliceRows, band: u32) -> &[i32]
    requires { band < length body.now }
    ensures { result.now ≡ first_row body.now band }
{
    let (first, end) = body.lines(band);
    if first < end {
        body.row(band, first)
    } else {
        &[]
    }
}

// The row of a band's last line where the band is high down, and no numbers elsewhere.
fn last_high_row<'a>(geometry: &Geometry, body: &'a SliceRows, band: u32) -> &'a [i32]
    requires band { band < bands_of geometry.now }
    requires bands { length body.now ≡ bands_of geometry.now }
    ensures { result.now ≡ last_high_row geometry.now body.now band }
{
    if geometry.kind(band).high_down {
        last_row(body, band)
    } else {
        &[]
    }
}

// The row of a band's last line, without numbers where there is none.
fn last_row(body: &SliceRows, band: u32) -> &[i32]
    requires { band < length body.now }
    ensures { result.now ≡ last_row body.now band }
{
    let (first, end) = body.lines(band);
    if first < end {
        body.row(band, end - 1)
    } else {
        &[]
    }
}
