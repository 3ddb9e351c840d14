//! A row of numbers that is kept.
ghost use Rattle.std.specs.Prelude.{◌≡◌, ℕ, ℤ, pos, ◌+◌, ◌*◌, ◌<◌, ◌≤◌, ◌^◌, ◌+ℤ◌, ◌-ℤ◌, length, IfOk};
ghost use Rattle.std.specs.Int.{int_shr};
ghost use Rattle.xs_signal.specs.Lines.{AllBelow, Shows, entries_of};
ghost use Rattle.xs_signal.specs.Wavelet.{low_count, high_count, inverse_line};
ghost use Rattle.xs_joiner.specs.Units.{IsFresh};

use crate::source::{Band, BandRows};
use std::alloc::Global;
use std::marker::Model;
use xs_io::Memory;
use xs_rows::{join_row, predict_inverse_row, update_inverse_row};

/// The numbers of a row, from the left.
#[derive(Drop)]
pub struct Row {
    numbers: Vec<i32>,
}

impl Model for Row {
    ghost use Rattle.std.specs.Prelude.{List, ℤ};

    ghost Value = { List ℤ };

    ghost view = { λ s. s.numbers.items };
}

impl Row {
    /// A row of zeros.
    pub(crate) fn zeros(alloc: Global, width: usize) -> Result<Row, Memory>
        ensures width { IfOk result (λ row. length row ≡ width) }
        ensures zeros { IfOk result (λ row. (k : ℕ) → entries_of row k ≡ pos 0) }
    {
        let numbers = Vec::from_elem(alloc, 0, width).map_err(|_| Memory)?;
        Ok(Row { numbers })
    }

    /// Its numbers.
    pub fn as_slice(&self) -> &[i32]
        ensures { result.now ≡ self.now }
    {
        self.numbers.as_slice()
    }

    // Becomes a row of a band.
    pub(crate) fn fill<S: BandRows>(&mut self, rows: &S, band: Band, row: u32)
        requires some { 0 < length self.old }
        requires known { IsFresh (length self.old) (S.rows rows.now band row) }
        ensures { self.new ≡ S.rows rows.now band row }
    {
        rows.fill(band, row, self.numbers.as_mut_slice());
    }

    // Becomes a copy of these numbers.
    pub(crate) fn copy_from(&mut self, numbers: &[i32])
        requires width { length numbers.now ≡ length self.old }
        ensures { self.new ≡ numbers.now }
    {
        self.numbers.as_mut_slice().copy_from_slice(numbers);
    }

    // A high-pass row becomes odd, between the even rows above and below.
    pub(crate) fn predict(&mut self, above: &Row, below: &Row)
        requires above_width { length above.now ≡ length self.old }
        requires below_width { length below.now ≡ length self.old }
        requires row { AllBelow (2 ^ 29) (entries_of self.old) }
        requires above { AllBelow (2 ^ 29) (entries_of above.now) }
        requires below { AllBelow (2 ^ 29) (entries_of below.now) }
        ensures width { length self.new ≡ length self.old }
        ensures entries { Shows self.new (λ k. entries_of self.old k +ℤ int_shr (entries_of above.now k +ℤ entries_of below.now k) 1) }
    {
        predict_inverse_row(
            self.numbers.as_mut_slice(),
            above.as_slice(),
            below.as_slice(),
        );
    }

    // A low-pass row becomes even, between the high-pass rows above and below.
    pub(crate) fn update(&mut self, above: &Row, below: &Row)
        requires above_width { length above.now ≡ length self.old }
        requires below_width { length below.now ≡ length self.old }
        requires row { AllBelow (2 ^ 29) (entries_of self.old) }
        requires above { AllBelow (2 ^ 29) (entries_of above.now) }
        requires below { AllBelow (2 ^ 29) (entries_of below.now) }
        ensures width { length self.new ≡ length self.old }
        ensures entries { Shows self.new (λ k. entries_of self.old k -ℤ int_shr (entries_of above.now k +ℤ entries_of below.now k +ℤ pos 2) 2) }
    {
        update_inverse_row(
            self.numbers.as_mut_slice(),
            above.as_slice(),
            below.as_slice(),
        );
    }

    // Becomes the row with this low and this high part.
    pub(crate) fn join(&mut self, low: &[i32], high: &[i32])
        requires two { 2 ≤ length self.old }
        requires lows { length low.now ≡ low_count (length self.old) }
        requires highs { length high.now ≡ high_count (length self.old) }
        requires low { AllBelow (2 ^ 28) (entries_of low.now) }
        requires high { AllBelow (2 ^ 28) (entries_of high.now) }
        ensures width { length self.new ≡ length self.old }
        ensures entries { Shows self.new (inverse_line (length self.old) (entries_of low.now) (entries_of high.now)) }
    {
        join_row(low, high, self.numbers.as_mut_slice());
    }
}
