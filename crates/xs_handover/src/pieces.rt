// The pieces of which a stripe is synthesised.
ghost use Rattle.std.specs.Prelude.{◌≡◌, ◌+◌, ◌-◌, ◌<◌, None, MatchOption};
ghost use Rattle.xs_params.specs.Accepted.{IsAccepted};
ghost use Rattle.xs_params.specs.Geometry.{slice_count};
ghost use Rattle.xs_handover.specs.declared.piece.Piece.TheVariants.{Body, Up, Down};
ghost use Rattle.xs_handover.specs.Sources.{AreOf, ArePieces, HasAt, place_below, value_at};

use crate::block::RowBlock;
use xs_geometry::{Geometry, SliceRows};
use xs_params::Header;
use xs_stripe::Edge;

// A stripe's own rows, and the edges of the slices beside it.
#[derive(Clone, Copy)]
pub struct Pieces<'a> {
    pub above: Option<&'a Edge>,
    pub body: &'a SliceRows,
    pub below: Option<&'a Edge>,
}

// The block at a place of the list, if there is one.
fn block_at(values: &[RowBlock], place: usize) -> Option<&RowBlock>
    ensures { MatchOption result (value_at values.now place ≡ None) (λ value. value.now ≡ value_at values.now place) }
{
    if place < values.len() {
        Some(&values[place])
    } else {
        None
    }
}

// The stripe's own rows.
fn body_in<'a>(values: &'a [RowBlock], header: &Header, slice: u32) -> Option<&'a SliceRows>
    ensures { MatchOption result (¬ AreOf header.now slice values.now) (λ body. HasAt values.now 0 header.now slice (Body body.now)) }
{
    match block_at(values, 0) {
        Some(value) => value.body_of(header, slice),
        None => None,
    }
}

// The edge of the slice above.
fn above_in<'a>(values: &'a [RowBlock], header: &Header, slice: u32) -> Option<&'a Edge>
    requires some { 0 < slice }
    requires there { slice < slice_count header.now }
    ensures { MatchOption result (¬ AreOf header.now slice values.now) (λ edge. HasAt values.now 1 header.now (slice - 1) (Down edge.now)) }
{
    match block_at(values, 1) {
        Some(value) => value.down_of(header, slice - 1),
        None => None,
    }
}

// The place of the edge from below: the first stripe has none from above.
fn place_below(slice: u32) -> usize
    ensures { result ≡ place_below slice }
{
    if slice > 0 { 2 } else { 1 }
}

// The edge of the slice below.
fn below_in<'a>(values: &'a [RowBlock], header: &Header, slice: u32) -> Option<&'a Edge>
    requires more { slice + 1 < slice_count header.now }
    requires small { slice < 8192 }
    ensures { MatchOption result (¬ AreOf header.now slice values.now) (λ edge. HasAt values.now (place_below slice) header.now (slice + 1) (Up edge.now)) }
{
    match block_at(values, place_below(slice)) {
        Some(value) => value.up_of(header, slice + 1),
        None => None,
    }
}

// The pieces of a stripe among the blocks that were got of it, where they were handed by a header that cuts a picture as this
// one does.
pub fn pieces_of<'a>(values: &'a [RowBlock], header: &Header, slice: u32) -> Option<Pieces<'a>>
    requires accepted { IsAccepted header.now }
    requires there { slice < slice_count header.now }
    ensures { MatchOption result (¬ AreOf header.now slice values.now) (ArePieces header.now slice values.now) }
{
    let slices = Geometry::of(header).slices();
    let body = body_in(values, header, slice)?;
    let above = if slice > 0 {
        Some(above_in(values, header, slice)?)
    } else {
        None
    };
    let below = if slice + 1 < slices {
        Some(below_in(values, header, slice)?)
    } else {
        None
    };
    Some(Pieces { above, body, below })
}
