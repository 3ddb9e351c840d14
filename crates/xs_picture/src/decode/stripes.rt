//! Slices become lines of a picture as they are read.
ghost use Rattle.std.specs.Prelude.{◌≡◌, ◌+◌, ◌-◌, ◌*◌, ◌<◌, IfOk, IfSome, MatchOption};
ghost use Rattle.xs_params.specs.Accepted.{IsAccepted};
ghost use Rattle.xs_params.specs.Geometry.{slice_count};
ghost use Rattle.xs_params.specs.Picture.{IsPicture};
ghost use Rattle.xs_params.specs.Rows.{Rows};
ghost use Rattle.xs_geometry.specs.SliceLines.{AreLinesOf, ShowRows};
ghost use Rattle.xs_decoding.specs.Decoded.{IsPictureOf};
ghost use Rattle.xs_stripe.specs.Edges.{AreSmallRows, IsUpEdge, ShowsDown, ShowsUp};
ghost use Rattle.xs_stripe.specs.Stripe.{IsStripeOf, line_of};
ghost use Rattle.xs_picture.specs.Growing.{AreLinesBefore, HoldsRows, IsEdgeAbove, IsGrowing, IsWaiting, ShowsWaiting, next_slice};

use std::alloc::Global;
use xs_geometry::SliceRows;
use xs_io::Memory;
use xs_params::{Header, Planes};
use xs_stripe::{Edge, Stripe, slice_edges, synthesise_stripe};

/// A slice whose lines wait for the first rows of the next one: its rows, the edge that the slice before hands it, and the edge
/// that it hands the next.
#[derive(Drop)]
pub struct Waiting {
    slice: u32,
    above: Option<Edge>,
    body: SliceRows,
    down: Edge,
}

impl Waiting {
    // Its lines, of the edge that the slice after hands it.
    fn stripe(&self, alloc: Global, header: &Header, below: Option<&Edge>) -> Result<Stripe, Memory>
        requires accepted { IsAccepted header.now }
        requires waiting { IsWaiting header.now self.now }
        requires below { MatchOption below (self.now.slice + 1 ≡ slice_count header.now) (λ edge. (self.now.slice + 1 < slice_count header.now) × IsUpEdge header.now (self.now.slice + 1) edge.now) }
        ensures { (coefficients : Rows) → ShowsWaiting header.now coefficients self.now → IfSome below.entry (λ edge. ShowsUp header.now (self.now.slice + 1) edge.now coefficients)
            → IfOk result (λ stripe. IsStripeOf header.now self.now.slice stripe coefficients) }
    {
        let above = self.above.as_ref();
        synthesise_stripe(alloc, header, self.slice, above, &self.body, below)
    }
}

/// A picture that has the lines of all slices that were read but the last, which waits.
#[derive(Drop)]
pub struct GrowingPicture {
    header: Header,
    picture: Planes,
    waiting: Option<Waiting>,
}

impl GrowingPicture {
    /// Before the first slice.
    pub fn new(alloc: Global, header: Header) -> Result<GrowingPicture, Memory>
        requires accepted { IsAccepted header }
        ensures header { IfOk result (λ growing. growing.header ≡ header) }
        ensures state { IfOk result IsGrowing }
        ensures next { IfOk result (λ growing. next_slice growing.waiting ≡ 0) }
        ensures holds { (coefficients : Rows) → IfOk result (HoldsRows coefficients) }
    {
        let picture = Planes::blank(alloc, header.shape)?;
        Ok(GrowingPicture {
            header,
            picture,
            waiting: None,
        })
    }

    /// The header of the picture.
    pub fn header(&self) -> &Header
        ensures { result.now ≡ self.now.header }
    {
        &self.header
    }

    /// Takes the rows of the next slice, and makes the lines of the slice before.
    pub fn push(&mut self, alloc: Global, slice: u32, body: SliceRows) -> Result<(), Memory>
        requires state { IsGrowing self.old }
        requires next { slice ≡ next_slice self.old.waiting }
        requires there { slice < slice_count self.old.header }
        requires lines { AreLinesOf self.old.header slice body }
        requires small { AreSmallRows body }
        requires held { (coefficients : Rows) × HoldsRows coefficients self.old × ShowRows self.old.header coefficients body }
        ensures header { self.new.header ≡ self.old.header }
        ensures state { IfOk result (λ _. IsGrowing self.new) }
        ensures next { IfOk result (λ _. next_slice self.new.waiting ≡ slice + 1) }
        ensures holds { (coefficients : Rows) → HoldsRows coefficients self.old → ShowRows self.old.header coefficients body → IfOk result (λ _. HoldsRows coefficients self.new) }
    {
        let (up, down) = slice_edges(alloc, &self.header, slice, &body)?;
        let above = self.release(alloc, Some(&up))?;
        self.waiting = Some(Waiting {
            slice,
            above,
            body,
            down,
        });
        Ok(())
    }

    // Makes the lines of the slice that waits, if there is one, of the edge that the next slice hands it. The answer is the edge
    // that it hands the next.
    fn release(&mut self, alloc: Global, below: Option<&Edge>) -> Result<Option<Edge>, Memory>
        requires state { IsGrowing self.old }
        requires below { MatchOption below (next_slice self.old.waiting ≡ slice_count self.old.header) (λ edge. (next_slice self.old.waiting < slice_count self.old.header) × IsUpEdge self.old.header (next_slice self.old.waiting) edge.now) }
        requires held { (coefficients : Rows) × HoldsRows coefficients self.old × IfSome below (λ edge. ShowsUp self.old.header (next_slice self.old.waiting) edge.now coefficients) }
        ensures header { self.new.header ≡ self.old.header }
        ensures shape { self.new.picture.shape ≡ self.old.picture.shape }
        ensures above { IfOk result (IsEdgeAbove self.old.header (next_slice self.old.waiting)) }
        ensures shown { (coefficients : Rows) → HoldsRows coefficients self.old → IfOk result (λ above. IfSome above (λ edge. ShowsDown self.old.header (next_slice self.old.waiting - 1) edge coefficients)) }
        ensures lines { (coefficients : Rows) → HoldsRows coefficients self.old → IfSome below.entry (λ edge. ShowsUp self.old.header (next_slice self.old.waiting) edge.now coefficients)
            → IfOk result (λ _. AreLinesBefore self.old.header coefficients self.new.picture (line_of self.old.header (next_slice self.old.waiting * self.old.header.hsl))) }
    {
        let Some(last) = self.waiting.take() else {
            return Ok(None);
        };
        let stripe = last.stripe(alloc, &self.header, below)?;
        stripe.write_to(&mut self.picture);
        Ok(Some(last.down))
    }

    /// The picture, after the last slice.
    pub fn finish(mut self, alloc: Global) -> Result<Planes, Memory>
        requires state { IsGrowing self }
        requires all { next_slice self.waiting ≡ slice_count self.header }
        requires held { (coefficients : Rows) × HoldsRows coefficients self }
        ensures { (coefficients : Rows) → HoldsRows coefficients self → IfOk result (IsPictureOf self.header coefficients) }
    {
        self.release(alloc, None)?;
        known_picture(&self.picture);
        Ok(self.picture)
    }
}

// What the type of planes says of them.
fn known_picture(picture: &Planes)
    ensures { IsPicture picture.now }
{
    picture.shape();
}
