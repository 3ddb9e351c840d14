// Blocks of rows, and where they stand in the lanes.
ghost use Rattle.std.specs.Prelude.{◌≡◌, Some, IfOk, MatchOption};
ghost use Rattle.xs_handover.specs.declared.piece.Piece.TheVariants.{Body, Up, Down};
ghost use Rattle.xs_handover.specs.Blocks.{Carries, HasPiece, block_of, stripe_of, block_place, closes_stripe};
ghost use Rattle.xs_handover.specs.Decoded.{IsDecoded, IsDecodedIf};

use crate::header::have_same_layout;
use crate::piece::{Piece, SliceSource};
use std::alloc::Global;
use std::default::MadeWith;
use std::marker::Model;
use std::sync::Arc;
use xs_geometry::{Geometry, SliceRows};
use xs_io::{Memory, Placed};
use xs_params::Header;
use xs_stripe::Edge;

// The rows, and the slice of whose bytes they were read.
#[derive(Drop)]
struct Part {
    source: Arc<SliceSource>,
    piece: Piece,
}

impl Model for Part {
    ghost use Rattle.xs_handover.specs.Blocks.{Block, block_of};
    ghost use Rattle.xs_handover.specs.Decoded.{IsDecoded};

    ghost Value = { Block };

    ghost view = { λ p. block_of p.source.value p.piece };

    ghost invariant = { λ p. IsDecoded (block_of p.source.value p.piece) };
}

impl Part {
    fn lane(&self) -> u32
        ensures { result ≡ stripe_of (Some self.now) }
    {
        match &self.piece {
            Piece::Body(_) => self.source.slice,
            Piece::Up(_) => self.source.slice - 1,
            Piece::Down(_) => self.source.slice + 1,
        }
    }

    fn slot(&self) -> u32
        ensures { result ≡ block_place (Some self.now) }
    {
        match &self.piece {
            Piece::Body(_) => 0,
            Piece::Up(_) => { if self.source.slice > 1 { 2 } else { 1 } }
            Piece::Down(_) => 1,
        }
    }

    fn closes(&self) -> bool
        ensures { result ≡ closes_stripe (Some self.now) }
    {
        let slices = Geometry::of(&self.source.header).slices();
        match &self.piece {
            Piece::Body(_) => slices == 1,
            Piece::Up(_) => true,
            Piece::Down(_) => self.source.slice + 2 == slices,
        }
    }

    // The rows, where they are those of this slice, by a header that cuts a picture as this one does.
    fn piece_of(&self, header: &Header, slice: u32) -> Option<&Piece>
        ensures decoded { IsDecoded self.now }
        ensures piece { MatchOption result ((piece : _) → ¬ HasPiece header.now slice piece self.now) (λ piece. HasPiece header.now slice piece.now self.now) }
    {
        if self.source.slice != slice || !have_same_layout(&self.source.header, header) {
            return None;
        }
        Some(&self.piece)
    }
}

/// Rows of a slice that a stripe needs: its own rows, or the edge of a slice beside it. In the lanes its lane is the stripe.
/// The stripe's own rows have place 0, the edge from above the next place and the edge from below the next, as they are
/// there; the last one closes the lane. It has the header, the number and the bytes of the slice, and the rows are those that
/// these bytes give. No other crate makes one.
#[derive(Drop)]
pub struct RowBlock {
    part: Option<Box<Part>>,
}

impl Model for RowBlock {
    ghost use Rattle.std.specs.Option.{option_map};
    ghost use Rattle.xs_handover.specs.Blocks.{Carried};

    ghost Value = { Carried };

    ghost view = { λ b. option_map (λ p. p.value) b.part };
}

impl Placed for RowBlock {
    ghost use Rattle.xs_handover.specs.Blocks.{stripe_of, block_place, closes_stripe};

    ghost lane_of = { stripe_of };

    ghost slot_of = { block_place };

    ghost closes_of = { closes_stripe };

    fn lane(&self) -> u32 {
        match &self.part {
            Some(part) => part.lane(),
            None => u32::MAX,
        }
    }

    fn slot(&self) -> u32 {
        match &self.part {
            Some(part) => part.slot(),
            None => u32::MAX,
        }
    }

    fn closes(&self) -> bool {
        match &self.part {
            Some(part) => part.closes(),
            None => false,
        }
    }
}

// What a list of blocks holds at a place that has none.
#[derive(Clone, Copy)]
pub(crate) struct Blank;

impl MadeWith<Blank> for RowBlock {
    fn made_with(_blank: Blank) -> RowBlock {
        RowBlock { part: None }
    }
}

impl RowBlock {
    // The rows that were read of a slice.
    pub(crate) fn new(
        alloc: Global,
        source: Arc<SliceSource>,
        piece: Piece,
    ) -> Result<RowBlock, Memory>
        requires { IsDecoded (block_of source.value piece) }
        ensures { IfOk result (λ b. b ≡ Some (block_of source.value piece)) }
    {
        let part = Box::new(alloc, Part { source, piece }).map_err(|_| Memory)?;
        Ok(RowBlock { part: Some(part) })
    }

    // All rows of a slice, where it has them and its header cuts a picture as this one does.
    pub(crate) fn body_of(&self, header: &Header, slice: u32) -> Option<&SliceRows>
        ensures decoded { IsDecodedIf self.now }
        ensures body { MatchOption result ((body : _) → ¬ Carries header.now slice (Body body) self.now) (λ body. Carries header.now slice (Body body.now) self.now) }
    {
        let Some(part) = &self.part else {
            return None;
        };
        match part.piece_of(header, slice) {
            Some(Piece::Body(body)) => Some(body),
            Some(Piece::Up(_) | Piece::Down(_)) => None,
            None => None,
        }
    }

    // The same of the edge that goes up.
    pub(crate) fn up_of(&self, header: &Header, slice: u32) -> Option<&Edge>
        ensures decoded { IsDecodedIf self.now }
        ensures edge { MatchOption result ((edge : _) → ¬ Carries header.now slice (Up edge) self.now) (λ edge. Carries header.now slice (Up edge.now) self.now) }
    {
        let Some(part) = &self.part else {
            return None;
        };
        match part.piece_of(header, slice) {
            Some(Piece::Up(edge)) => Some(edge),
            Some(Piece::Body(_) | Piece::Down(_)) => None,
            None => None,
        }
    }

    // The same of the edge that goes down.
    pub(crate) fn down_of(&self, header: &Header, slice: u32) -> Option<&Edge>
        ensures decoded { IsDecodedIf self.now }
        ensures edge { MatchOption result ((edge : _) → ¬ Carries header.now slice (Down edge) self.now) (λ edge. Carries header.now slice (Down edge.now) self.now) }
    {
        let Some(part) = &self.part else {
            return None;
        };
        match part.piece_of(header, slice) {
            Some(Piece::Down(edge)) => Some(edge),
            Some(Piece::Body(_) | Piece::Up(_)) => None,
            None => None,
        }
    }
}
