//! The rows of a slice, with drawn numbers.
ghost use Rattle.std.specs.Prelude.{◌≡◌, ◌<◌, ◌^◌, ◌++◌, ◌∷◌, [], length, unsigned_abs, IfOk, OnOk};
ghost use Rattle.xs_params.specs.Geometry.{slice_count};
ghost use Rattle.xs_geometry.specs.SliceLines.{AreLinesOf, rows_held};
ghost use Rattle.xs_signal.specs.Lines.{entries_of};
ghost use Rattle.xs_rate.specs.Laws.{AreSmall, IsSmallRow};
ghost use Rattle.xs_choice_bench.specs.Drawn.{AreSmallLines, KeepsLines};

use std::alloc::Global;
use xs_geometry::{Geometry, SliceRows};
use xs_io::Memory;

/// The rows of the first slice.
pub fn draw_rows(alloc: Global, geometry: &Geometry) -> Result<SliceRows, Memory>
    requires { 0 < slice_count geometry.now }
    ensures lines { IfOk result (AreLinesOf geometry.now 0) }
    ensures small { IfOk result (λ rows. AreSmall (rows_held rows)) }
{
    let mut rows = SliceRows::blank(alloc, geometry, 0)?;
    'bands: for band in 0..geometry.bands() {
        draw_band(alloc, &mut rows, band)?;
    }
    Ok(rows)
}

// Draws the rows of a band.
fn draw_band(alloc: Global, rows: &mut SliceRows, band: u32) -> Result<(), Memory>
    requires band { band < length rows.old }
    requires few { band < 30 }
    requires small { AreSmallLines rows.old }
    ensures lines { OnOk result (KeepsLines rows.old rows.new) }
    ensures small { OnOk result (AreSmallLines rows.new) }
{
    let (first, end) = rows.lines(band);
    'lines: for line in first..end {
        let width = rows.row(band, line).len();
        let row = draw_row(alloc, width, (band + 1) * 8192 + line)?;
        rows.put_row(band, line, row.as_slice());
    }
    Ok(())
}

// A row of so many numbers from a seed on.
fn draw_row(alloc: Global, width: usize, seed: u32) -> Result<Vec<i32>, Memory>
    ensures width { IfOk result (λ row. length row.items ≡ width) }
    ensures small { IfOk result (λ row. IsSmallRow (entries_of row.items)) }
{
    let mut row = Vec::new(alloc);
    let mut state = seed;
    'columns: while row.len() < width {
        state = state.wrapping_mul(1664525).wrapping_add(1013904223);
        push(&mut row, number_of(state))?;
    }
    Ok(row)
}

// Appends a number.
fn push(row: &mut Vec<i32>, number: i32) -> Result<(), Memory>
    ensures { OnOk result (row.new.items ≡ row.old.items ++ number ∷ []) }
{
    row.push(number).map_err(|_| Memory)
}

// A number by the high bits of a state: the small ones are more than the great ones.
fn number_of(state: u32) -> i32
    ensures { unsigned_abs result < 2 ^ 15 }
{
    let size = (state >> 16) % 1024;
    let kept = (state >> 26) % 8;
    let number = (size >> (2 + kept)) as i32;
    if state >= 1 << 31 { -number } else { number }
}
