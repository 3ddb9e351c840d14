// A codestream in pieces.
ghost use Rattle.std.specs.Prelude.{◌≡◌, ◌-◌, ◌<◌, ◌^◌, [], ◌∷◌, ◌++◌, if◌then◌else◌, is_ok, length, slice_index_or, IfOk};
ghost use Rattle.xs_params.specs.Stream.{stream_bytes};

use crate::markers::EOC;
use std::alloc::Global;
use std::marker::Model;
use xs_io::{Memory, Octets};

/// A codestream in pieces: its header and its slices, without the end marker.
#[derive(Debug, Drop)]
pub struct Stream {
    header: Octets,
    slices: Vec<Octets>,
}

impl Model for Stream {
    ghost use Rattle.std.specs.Prelude.{◌<◌, ◌^◌, length};
    ghost use Rattle.xs_params.specs.Stream.{Stream as Pieces};

    ghost Value = { Pieces };

    ghost view = { λ s. record { header = s.header; slices = s.slices.items } };

    ghost invariant = { λ s. length s.slices.items < 2 ^ 32 };
}

impl Stream {
    /// A codestream with no slices. It takes no memory.
    pub fn new(alloc: Global, header: Octets) -> Stream
        ensures header { result.header ≡ header }
        ensures empty { result.slices ≡ [] }
    {
        Stream {
            header,
            slices: Vec::new(alloc),
        }
    }

    /// The bytes of the header.
    pub fn header(&self) -> &Octets
        ensures header { result.now ≡ self.now.header }
    {
        &self.header
    }

    /// Appends a slice. Where it is refused, the slice is given up and the codestream is as before.
    pub fn push(&mut self, slice: Octets) -> Result<(), Memory>
        requires { length self.old.slices < 2 ^ 32 - 1 }
        ensures appended { self.new.slices ≡ (if is_ok result then self.old.slices ++ slice ∷ [] else self.old.slices) }
        ensures header { self.new.header ≡ self.old.header }
    {
        self.slices.push(slice).map_err(|_| Memory)
    }

    /// The number of slices.
    pub fn len(&self) -> u32
        ensures count { result ≡ length self.now.slices }
    {
        self.slices.len() as u32
    }

    pub fn slice(&self, number: u32) -> &Octets
        requires { number < length self.now.slices }
        ensures slice { result.now ≡ slice_index_or self.now.slices number [] }
    {
        &self.slices[number as usize]
    }

    /// The whole codestream: the pieces one after the other, and the end marker.
    pub fn bytes(&self, alloc: Global) -> Result<Octets, Memory>
        ensures joined { IfOk result (λ bytes. bytes ≡ stream_bytes self.now) }
    {
        let mut bytes = Octets::from_slice(alloc, self.header.as_slice())?;
        'joining: for slice in &self.slices {
            bytes.extend(slice.as_slice())?;
        }
        bytes.extend(&EOC)?;
        Ok(bytes)
    }
}
