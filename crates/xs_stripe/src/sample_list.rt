//! Rows of samples, one behind the other in one block of memory.
ghost use Rattle.std.specs.Prelude.{◌≡◌, ◌-◌, ◌<◌, ◌≤◌, ◌++◌, ◌∷◌, [], length, take, drop, slice_index_or, IfOk, OnErr};

use crate::place::{RowPlace, add_place};
use std::alloc::Global;
use std::marker::Model;
use xs_io::Memory;

/// Where each row stands, and the samples of all rows.
#[derive(Drop)]
pub struct SampleList {
    places: Vec<RowPlace>,
    samples: Vec<u16>,
}

impl Model for SampleList {
    ghost use Rattle.std.specs.Prelude.{List, ℕ, length};
    ghost use Rattle.xs_stripe.specs.Block.{StandIn, rows_at_places};

    ghost Value = { List (List ℕ) };

    ghost view = { λ s. rows_at_places s.places.items s.samples.items };

    ghost invariant = { λ s. StandIn (length s.samples.items) s.places.items };
}

impl SampleList {
    /// No rows, with memory for so many rows and samples.
    pub(crate) fn new(alloc: Global, rows: usize, samples: usize) -> Result<SampleList, Memory>
        ensures { IfOk result (λ list. list ≡ []) }
    {
        let places = Vec::with_capacity(alloc, rows).map_err(|_| Memory)?;
        let samples = Vec::with_capacity(alloc, samples).map_err(|_| Memory)?;
        Ok(SampleList { places, samples })
    }

    /// Adds a row behind the others.
    pub(crate) fn push(&mut self, row: &[u16]) -> Result<(), Memory>
        ensures { IfOk result (λ _. self.new ≡ self.old ++ row.now ∷ []) }
    {
        let start = self.samples.len();
        add_samples(&mut self.samples, row)?;
        let end = self.samples.len();
        add_place(&mut self.places, RowPlace { start, end })?;
        Ok(())
    }

    /// A row.
    pub(crate) fn row(&self, at: usize) -> &[u16]
        requires { at < length self.now }
        ensures { result.now ≡ slice_index_or self.now at [] }
    {
        part(self.samples.as_slice(), self.places[at])
    }
}

// The samples at a place.
fn part(samples: &[u16], place: RowPlace) -> &[u16]
    requires order { place.start ≤ place.end }
    requires inside { place.end ≤ length samples.now }
    ensures { result.now ≡ take (place.end - place.start) (drop place.start samples.now) }
{
    &samples[place.start..place.end]
}

fn add_samples(samples: &mut Vec<u16>, row: &[u16]) -> Result<(), Memory>
    ensures added { IfOk result (λ _. samples.new.items ≡ samples.old.items ++ row.now) }
    ensures refused { OnErr result (samples.new.items ≡ samples.old.items) }
{
    samples.extend_from_slice(row).map_err(|_| Memory)
}
