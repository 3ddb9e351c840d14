//! A row of numbers that is kept.
ghost use Rattle.std.specs.Prelude.{◌≡◌, ℕ, ℤ, pos, ◌+◌, ◌*◌, ◌≤◌, ◌^◌, ◌+ℤ◌, ◌-ℤ◌, [], length, IfOk};
ghost use Rattle.std.specs.Int.{int_shr};
ghost use Rattle.xs_signal.specs.Lines.{AllBelow, Shows, entries_of};
ghost use Rattle.xs_splitter.specs.Parts.{AreParts};
ghost use Rattle.xs_splitter.specs.Level.{AreGivenUp};

use std::alloc::Global;
use std::marker::Model;
use xs_io::Memory;
use xs_rows::{predict_forward_row, split_row, update_forward_row};

/// The numbers of a row, from the left.
#[derive(Drop)]
pub struct Row {
    numbers: Vec<i32>,
}

impl Model for Row {
    ghost use Rattle.std.specs.Prelude.{List, ℤ};

    ghost Value = { List ℤ };

    ghost view = { λ s. s.numbers.items };
}

impl Row {
    /// A row with these numbers.
    pub fn copied(alloc: Global, numbers: &[i32]) -> Result<Row, Memory>
        ensures { IfOk result (λ row. row ≡ numbers.now) }
    {
        let mut copy = Vec::new(alloc);
        copy.extend_from_slice(numbers).map_err(|_| Memory)?;
        Ok(Row { numbers: copy })
    }

    /// A row of zeros.
    pub(crate) fn zeros(alloc: Global, width: usize) -> Result<Row, Memory>
        ensures width { IfOk result (λ row. length row ≡ width) }
        ensures zeros { IfOk result (λ row. (k : ℕ) → entries_of row k ≡ pos 0) }
    {
        let numbers = Vec::from_elem(alloc, 0, width).map_err(|_| Memory)?;
        Ok(Row { numbers })
    }

    // It becomes empty, and keeps no memory.
    fn clear(&mut self)
        ensures { self.new ≡ [] }
    {
        self.numbers = Vec::new(*self.numbers.allocator());
    }

    /// Its numbers.
    pub fn as_slice(&self) -> &[i32]
        ensures { result.now ≡ self.now }
    {
        self.numbers.as_slice()
    }

    // An odd row becomes high-pass, between the even rows above and below.
    pub(crate) fn predict(&mut self, above: &Row, below: &Row)
        requires above_width { length above.now ≡ length self.old }
        requires below_width { length below.now ≡ length self.old }
        requires row { AllBelow (2 ^ 29) (entries_of self.old) }
        requires above { AllBelow (2 ^ 29) (entries_of above.now) }
        requires below { AllBelow (2 ^ 29) (entries_of below.now) }
        ensures width { length self.new ≡ length self.old }
        ensures entries { Shows self.new (λ k. entries_of self.old k -ℤ int_shr (entries_of above.now k +ℤ entries_of below.now k) 1) }
    {
        predict_forward_row(
            self.numbers.as_mut_slice(),
            above.as_slice(),
            below.as_slice(),
        );
    }

    // An even row becomes low-pass, between the high-pass rows above and below.
    pub(crate) fn update(&mut self, above: &Row, below: &Row)
        requires above_width { length above.now ≡ length self.old }
        requires below_width { length below.now ≡ length self.old }
        requires row { AllBelow (2 ^ 29) (entries_of self.old) }
        requires above { AllBelow (2 ^ 29) (entries_of above.now) }
        requires below { AllBelow (2 ^ 29) (entries_of below.now) }
        ensures width { length self.new ≡ length self.old }
        ensures entries { Shows self.new (λ k. entries_of self.old k +ℤ int_shr (entries_of above.now k +ℤ entries_of below.now k +ℤ pos 2) 2) }
    {
        update_forward_row(
            self.numbers.as_mut_slice(),
            above.as_slice(),
            below.as_slice(),
        );
    }

    // Its low and its high part.
    pub(crate) fn split(&self, alloc: Global) -> Result<(Row, Row), Memory>
        requires two { 2 ≤ length self.now }
        requires small { AllBelow (2 ^ 28) (entries_of self.now) }
        ensures { IfOk result (λ parts. AreParts self.now parts.0 parts.1) }
    {
        let width = self.numbers.len();
        let mut low = Row::zeros(alloc, width - width / 2)?;
        let mut high = Row::zeros(alloc, width / 2)?;
        split_row(
            self.as_slice(),
            low.numbers.as_mut_slice(),
            high.numbers.as_mut_slice(),
        );
        Ok((low, high))
    }
}

// Rows of a list from one on up to another become empty. None moves.
pub(crate) fn give_up(rows: &mut Vec<Row>, first: usize, end: usize)
    ensures { AreGivenUp first end rows.old.items rows.new.items }
{
    'rows: for row in first..end.min(rows.len()) {
        rows[row].clear();
    }
}
