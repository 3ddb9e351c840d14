//! The coefficients of a codestream.
ghost use Rattle.std.specs.Prelude.{◌≡◌, ◌<◌, ◌++◌, ◌∷◌, [], length, IfOk, OnErr, slice_index_or};

use std::alloc::Global;
use std::marker::Model;
use xs_geometry::SliceRows;
use xs_io::Memory;
use xs_params::Header;

/// A header, and the rows of coefficients of each slice.
#[derive(Drop)]
pub struct StreamCoefs {
    pub header: Header,
    slices: Vec<SliceRows>,
}

impl Model for StreamCoefs {
    ghost use Rattle.xs_picture.specs.Coefs.{Coefs};

    ghost Value = { Coefs };

    ghost view = { λ s. record { header = s.header; slices = s.slices.items } };
}

impl StreamCoefs {
    /// A header, and no slice yet.
    pub fn new(alloc: Global, header: Header) -> StreamCoefs
        ensures header { result.header ≡ header }
        ensures none { result.slices ≡ [] }
    {
        StreamCoefs {
            header,
            slices: Vec::new(alloc),
        }
    }

    /// Adds the next slice. Where memory is wanting nothing changes.
    pub fn push(&mut self, slice: SliceRows) -> Result<(), Memory>
        ensures header { self.new.header ≡ self.old.header }
        ensures added { IfOk result (λ _. self.new.slices ≡ self.old.slices ++ slice ∷ []) }
        ensures refused { OnErr result (self.new ≡ self.old) }
    {
        self.slices.push(slice).map_err(|_| Memory)
    }

    /// The header of all slices.
    pub fn header(&self) -> &Header
        ensures { result.now ≡ self.now.header }
    {
        &self.header
    }

    /// The rows of the slice with this number.
    pub fn slice(&self, number: u32) -> &SliceRows
        requires { number < length self.now.slices }
        ensures { result.now ≡ slice_index_or self.now.slices number [] }
    {
        &self.slices[number as usize]
    }
}
