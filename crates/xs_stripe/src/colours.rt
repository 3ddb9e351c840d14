//! Red, green and blue of a line.
ghost use Rattle.std.specs.Prelude.{◌≡◌, ◌^◌, ℕ, pos, length, IfOk};
ghost use Rattle.xs_signal.specs.Lines.{AllBelow, Shows, entries_of};
ghost use Rattle.xs_signal.specs.Colour.{unrct};

use std::alloc::Global;
use xs_colour::unrct_rows;
use xs_io::Memory;

/// A row of each colour.
#[derive(Drop)]
pub struct ColourRows {
    red: Vec<i32>,
    green: Vec<i32>,
    blue: Vec<i32>,
}

impl ColourRows {
    ghost use Rattle.xs_stripe.specs.Colours.{HaveWidth, colour_row};

    // Rows of so many zeros.
    pub(crate) fn zeros(alloc: Global, width: usize) -> Result<ColourRows, Memory>
        ensures width { IfOk result (HaveWidth width) }
        ensures zeros { (component k : ℕ) → IfOk result (λ colours. entries_of (colour_row colours component) k ≡ pos 0) }
    {
        let red = zeros(alloc, width)?;
        let green = zeros(alloc, width)?;
        let blue = zeros(alloc, width)?;
        Ok(ColourRows { red, green, blue })
    }

    // The colours of a line of luma and both colour differences.
    pub(crate) fn turn_back(&mut self, luma: &[i32], first: &[i32], second: &[i32])
        requires width { HaveWidth (length luma.now) self.old }
        requires first_width { length first.now ≡ length luma.now }
        requires second_width { length second.now ≡ length luma.now }
        requires luma { AllBelow (2 ^ 27) (entries_of luma.now) }
        requires first { AllBelow (2 ^ 27) (entries_of first.now) }
        requires second { AllBelow (2 ^ 27) (entries_of second.now) }
        ensures width { HaveWidth (length luma.now) self.new }
        ensures red { Shows self.new.red.items (λ k. (unrct (entries_of luma.now k) (entries_of first.now k) (entries_of second.now k)).0) }
        ensures green { Shows self.new.green.items (λ k. (unrct (entries_of luma.now k) (entries_of first.now k) (entries_of second.now k)).1) }
        ensures blue { Shows self.new.blue.items (λ k. (unrct (entries_of luma.now k) (entries_of first.now k) (entries_of second.now k)).2) }
    {
        self.red.as_mut_slice().copy_from_slice(luma);
        self.green.as_mut_slice().copy_from_slice(first);
        self.blue.as_mut_slice().copy_from_slice(second);
        unrct_rows(
            self.red.as_mut_slice(),
            self.green.as_mut_slice(),
            self.blue.as_mut_slice(),
        );
    }

    // The row of a component.
    pub(crate) fn row(&self, component: u32) -> &[i32]
        ensures { result.now ≡ colour_row self.now component }
    {
        match component {
            0 => self.red.as_slice(),
            1 => self.green.as_slice(),
            _ => self.blue.as_slice(),
        }
    }
}

fn zeros(alloc: Global, width: usize) -> Result<Vec<i32>, Memory>
    ensures width { IfOk result (λ row. length row.items ≡ width) }
    ensures zeros { IfOk result (λ row. (k : ℕ) → entries_of row.items k ≡ pos 0) }
{
    Vec::from_elem(alloc, 0, width).map_err(|_| Memory)
}
