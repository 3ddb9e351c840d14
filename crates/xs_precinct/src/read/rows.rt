// Lines as rows of coefficients.
ghost use Rattle.std.specs.Prelude.{◌≡◌, ◌≢◌, ℕ, ◌+◌, ◌<◌, ◌≤◌, ◌↔◌, false, length, slice_index_or};
ghost use Rattle.std.specs.List.{AllByRecursion};
ghost use Rattle.xs_params.specs.declared.header.Header.{Header};
ghost use Rattle.xs_spelling.specs.Sizes.{numbered};
ghost use Rattle.xs_planes.specs.Numbers.{AreNumbers};
ghost use Rattle.xs_geometry.specs.SliceLines.{AreLinesOf, HasLine, row_at};
ghost use Rattle.xs_precinct.specs.Bands.{HoldsNumbers, dequantised_row, no_band, row_of};

use crate::read::band::BandState;
use xs_bits::Counts;
use xs_geometry::SliceRows;
use xs_layout::Quant;
use xs_quant::{Raise, raise_row};

/// The line of the first of some bands.
#[derive(Clone, Copy)]
pub struct FirstRow {
    pub band: u32,
    pub line: u32,
}

/// Puts the coefficients of numbers into a row, which may be shorter.
pub fn dequantise_row(kind: Quant, counts: &Counts, t: u8, values: &[i32], row: &mut [i32])
    requires numbers { AreNumbers t counts.now values.now }
    requires short { length row.old ≤ length values.now }
    ensures { row.new ≡ dequantised_row kind (numbered t counts.now values.now) (length row.old) }
{
    let by = Raise { kind, t, fq: 0 };
    raise_row(by, counts.as_slice(), &values[..row.len()], row);
}

/// Puts the lines that bands have read into their rows. A row may be shorter than its line.
pub fn put_rows(kind: Quant, first: FirstRow, bands: &[BandState], rows: &mut SliceRows)
    requires few { first.band + length bands.now ≤ 64 }
    requires there { (k : ℕ) → k < length bands.now → HasLine rows.old (first.band + k) first.line }
    requires filled { AllByRecursion (HoldsNumbers false) bands.now }
    requires short { (k : ℕ) → k < length bands.now → length (row_at rows.old (first.band + k) first.line) ≤ length (slice_index_or bands.now k no_band).values }
    ensures kept { (h : Header) (slice : ℕ) → AreLinesOf h slice rows.old → AreLinesOf h slice rows.new }
    ensures same_lines { (band other : ℕ) → HasLine rows.new band other ↔ HasLine rows.old band other }
    ensures here { (k : ℕ) → k < length bands.now → row_at rows.new (first.band + k) first.line ≡ row_of kind (slice_index_or bands.now k no_band) (length (row_at rows.old (first.band + k) first.line)) }
    ensures elsewhere { (band other : ℕ) → HasLine rows.old band other → ((k : ℕ) → k < length bands.now → first.band + k ≡ band → other ≢ first.line) → row_at rows.new band other ≡ row_at rows.old band other }
{
    'bands: for k in 0..bands.len() {
        let row = rows.row_mut(first.band + k as u32, first.line);
        bands[k].put_row(kind, row);
    }
}
