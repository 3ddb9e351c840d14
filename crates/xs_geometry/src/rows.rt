//! The coefficients of a slice.
ghost use Rattle.std.specs.Prelude.{◌≡◌, ◌+◌, ◌-◌, ◌<◌, ◌≤◌, length, take, drop, replicate, pos, IfOk, IsErr, ℕ};
ghost use Rattle.std.specs.Borrow.{sem};
ghost use Rattle.xs_params.specs.declared.header.Header.{Header};
ghost use Rattle.xs_params.specs.Geometry.{slice_count};
ghost use Rattle.xs_geometry.specs.SliceLines.{AreBlank, AreLinesOf, HasLine, lines_at, row_at};
ghost use Rattle.xs_geometry.specs.Written.{band_numbers, numbers_before, with_row};
ghost use Rattle.xs_geometry.specs.Lent.{LendsRow};

use crate::blocks::BlockTable;
use crate::geometry::Geometry;
use std::alloc::Global;
use std::marker::Model;
use xs_io::Memory;

/// For each band its lines in a slice, each a row of coefficients. A line is counted in the whole band.
/// The rows of all bands stand in one block of memory.
#[derive(Drop)]
pub struct SliceRows {
    table: BlockTable,
    numbers: Vec<i32>,
}

impl Model for SliceRows {
    ghost use Rattle.std.specs.Prelude.{◌≤◌, List, length};
    ghost use Rattle.xs_geometry.specs.SliceLines.{BandLines};
    ghost use Rattle.xs_geometry.specs.Blocks.{bands_cut, blocks_of, StandFrom};

    ghost Value = { List BandLines };

    ghost view = { λ s. bands_cut (blocks_of s.table) s.numbers.items };

    ghost invariant = { λ s. StandFrom 0 (blocks_of s.table) (length s.numbers.items) × (s.table.count ≤ 30) };
}

impl SliceRows {
    /// Rows of zeros.
    pub fn blank(alloc: Global, geometry: &Geometry, slice: u32) -> Result<SliceRows, Memory>
        requires { slice < slice_count geometry.now }
        ensures lines { IfOk result (λ rows. AreLinesOf geometry.now slice rows) }
        ensures zeros { IfOk result (λ rows. AreBlank rows) }
    {
        let mut rows = SliceRows {
            table: BlockTable::empty(),
            numbers: Vec::new(alloc),
        };
        rows.reset(geometry, slice)?;
        Ok(rows)
    }

    /// Rows of zeros in place of those that are there, in their memory where it is enough.
    pub fn reset(&mut self, geometry: &Geometry, slice: u32) -> Result<(), Memory>
        requires { slice < slice_count geometry.now }
        ensures lines { IfOk result (λ _. AreLinesOf geometry.now slice self.new) }
        ensures zeros { IfOk result (λ _. AreBlank self.new) }
        ensures refused { IsErr result → self.new ≡ self.old }
    {
        let table = BlockTable::of(geometry, slice);
        set_zeros(&mut self.numbers, table.numbers)?;
        self.table = table;
        Ok(())
    }

    /// The first line of a band, and one past the last.
    pub fn lines(&self, band: u32) -> (u32, u32)
        requires { band < length self.now }
        ensures first { result.0 ≡ (lines_at self.now band).first }
        ensures end { result.1 ≡ (lines_at self.now band).first + length (lines_at self.now band).rows }
        ensures most { result.1 ≤ 8192 }
    {
        let block = self.table.bands[band as usize];
        (block.first, block.first + block.lines)
    }

    pub fn row(&self, band: u32, line: u32) -> &[i32]
        requires { HasLine self.now band line }
        ensures { result.now ≡ row_at self.now band line }
    {
        let (start, end) = self.place(band, line);
        &self.numbers[start..end]
    }

    /// What is left behind the reference is written over the row.
    pub fn row_mut(&mut self, band: u32, line: u32) -> &mut [i32]
        requires { HasLine self.old band line }
        ensures* after { sem 𝓛 (LendsRow self.entry band line result) }
        ensures value { result.now ≡ row_at self.old band line }
    {
        let (start, end) = self.place(band, line);
        self.numbers.slice_mut(start..end)
    }

    /// Writes the row of a line.
    pub fn put_row(&mut self, band: u32, line: u32, values: &[i32])
        requires there { HasLine self.old band line }
        requires whole { length values.now ≡ length (row_at self.old band line) }
        ensures written { self.new ≡ with_row self.old band line values.now }
        ensures lines { (h : Header) (slice : ℕ) → AreLinesOf h slice self.old → AreLinesOf h slice self.new }
    {
        self.row_mut(band, line).copy_from_slice(values);
    }

    // The place of a row's first number among those of all rows, and one past the last.
    fn place(&self, band: u32, line: u32) -> (usize, usize)
        requires { HasLine self.now band line }
        ensures start { result.0 ≡ numbers_before self.now band line }
        ensures end { result.1 ≡ result.0 + length (row_at self.now band line) }
        ensures inside { result.1 ≤ length (band_numbers self.now) }
        ensures row { take (result.1 - result.0) (drop result.0 (band_numbers self.now)) ≡ row_at self.now band line }
    {
        self.table.bands[band as usize].row(line)
    }
}

// So many zeros in place of what is there.
fn set_zeros(numbers: &mut Vec<i32>, count: usize) -> Result<(), Memory>
    ensures zeros { IfOk result (λ _. numbers.new.items ≡ replicate count (pos 0)) }
    ensures refused { IsErr result → numbers.new.items ≡ numbers.old.items }
{
    let more = count.saturating_sub(numbers.len());
    numbers.reserve_exact(more).map_err(|_| Memory)?;
    numbers.clear();
    numbers.resize(count, 0).unwrap();
    Ok(())
}
