//! Rows of numbers, one behind the other in one block of memory.
ghost use Rattle.std.specs.Prelude.{◌≡◌, ◌-◌, ◌<◌, ◌≤◌, ◌++◌, ◌∷◌, [], length, take, drop, slice_index_or, IfOk, OnErr};

use crate::place::{RowPlace, add_place};
use std::alloc::Global;
use std::marker::Model;
use xs_io::Memory;

/// Where each row stands, and the numbers of all rows.
#[derive(Drop)]
pub struct RowList {
    places: Vec<RowPlace>,
    numbers: Vec<i32>,
}

impl Model for RowList {
    ghost use Rattle.std.specs.Prelude.{List, ℤ, length};
    ghost use Rattle.xs_stripe.specs.Block.{StandIn, rows_at_places};

    ghost Value = { List (List ℤ) };

    ghost view = { λ s. rows_at_places s.places.items s.numbers.items };

    ghost invariant = { λ s. StandIn (length s.numbers.items) s.places.items };
}

impl RowList {
    /// No rows, with memory for so many rows and numbers.
    pub(crate) fn new(alloc: Global, rows: usize, numbers: usize) -> Result<RowList, Memory>
        ensures { IfOk result (λ list. list ≡ []) }
    {
        let places = Vec::with_capacity(alloc, rows).map_err(|_| Memory)?;
        let numbers = Vec::with_capacity(alloc, numbers).map_err(|_| Memory)?;
        Ok(RowList { places, numbers })
    }

    /// Adds a row behind the others.
    pub(crate) fn push(&mut self, row: &[i32]) -> Result<(), Memory>
        ensures { IfOk result (λ _. self.new ≡ self.old ++ row.now ∷ []) }
    {
        let start = self.numbers.len();
        add_numbers(&mut self.numbers, row)?;
        let end = self.numbers.len();
        add_place(&mut self.places, RowPlace { start, end })?;
        Ok(())
    }

    /// A row.
    pub(crate) fn row(&self, at: usize) -> &[i32]
        requires { at < length self.now }
        ensures { result.now ≡ slice_index_or self.now at [] }
    {
        part(self.numbers.as_slice(), self.places[at])
    }

    /// A row, without numbers where there is none.
    pub(crate) fn find(&self, at: usize) -> &[i32]
        ensures { result.now ≡ slice_index_or self.now at [] }
    {
        if at < self.len() { self.row(at) } else { &[] }
    }

    // How many rows there are.
    fn len(&self) -> usize
        ensures { result ≡ length self.now }
    {
        self.places.len()
    }
}

// The numbers at a place.
fn part(numbers: &[i32], place: RowPlace) -> &[i32]
    requires order { place.start ≤ place.end }
    requires inside { place.end ≤ length numbers.now }
    ensures { result.now ≡ take (place.end - place.start) (drop place.start numbers.now) }
{
    &numbers[place.start..place.end]
}

fn add_numbers(numbers: &mut Vec<i32>, row: &[i32]) -> Result<(), Memory>
    ensures added { IfOk result (λ _. numbers.new.items ≡ numbers.old.items ++ row.now) }
    ensures refused { OnErr result (numbers.new.items ≡ numbers.old.items) }
{
    numbers.extend_from_slice(row).map_err(|_| Memory)
}
