//! The rows of a slice are folded from the rows of the bands of a picture.
ghost use Rattle.std.specs.Prelude.{◌≡◌, ℕ, ◌<◌, ◌≤◌, true, length, slice_index_or, [], IfOk};
ghost use Rattle.xs_params.specs.Accepted.{IsAccepted};
ghost use Rattle.xs_params.specs.Geometry.{slice_count};
ghost use Rattle.xs_signal.specs.Fold.{IsFraction};
ghost use Rattle.xs_geometry.specs.SliceLines.{AreLinesOf, HasLine, ShowRows, row_at};
ghost use Rattle.xs_geometry.specs.Written.{with_row};
ghost use Rattle.xs_picture.specs.Analysed.{ArePictureRows, IsBandFolded, folded_row, folded_rows, rows_of_kind};

use crate::encode::bands::PictureBands;
use xs_geometry::{BandKind, Geometry, SliceRows};
use xs_io::Memory;
use xs_params::Header;
use xs_quant::fold_row;

/// A band, and how many bits are rounded away.
#[derive(Clone, Copy)]
struct FoldedBand {
    kind: BandKind,
    number: u32,
    fraction: u8,
}

/// The rows of a slice, in place of those that are there.
pub fn fold_slice(
    bands: &PictureBands,
    header: &Header,
    slice: u32,
    rows: &mut SliceRows,
) -> Result<(), Memory>
    requires accepted { IsAccepted header.now }
    requires bands { ArePictureRows header.now bands.now }
    requires slice { slice < slice_count header.now }
    ensures lines { IfOk result (λ _. AreLinesOf header.now slice rows.new) }
    ensures shown { IfOk result (λ _. ShowRows header.now (folded_rows header.now bands.now) rows.new) }
{
    let geometry = Geometry::of(header);
    rows.reset(&geometry, slice)?;
    for number in 0..geometry.bands() {
        let band = FoldedBand {
            kind: geometry.kind(number),
            number,
            fraction: header.fq,
        };
        fold_band(bands, band, rows);
    }
    Ok(())
}

// The rows of a band.
fn fold_band(bands: &PictureBands, band: FoldedBand, rows: &mut SliceRows)
    requires band { band.number < length rows.old }
    requires fraction { IsFraction band.fraction }
    requires component { band.kind.component < length bands.now }
    requires across { band.kind.high_across ≡ true → 1 ≤ band.kind.across }
    requires down { band.kind.high_down ≡ true → 1 ≤ band.kind.down }
    requires there { (line : ℕ) → HasLine rows.old band.number line → line < length (rows_of_kind bands.now band.kind) }
    requires wide { (line : ℕ) → HasLine rows.old band.number line → length (slice_index_or (rows_of_kind bands.now band.kind) line []) ≡ length (row_at rows.old band.number line) }
    ensures { IsBandFolded band.fraction (rows_of_kind bands.now band.kind) band.number rows.old rows.new }
{
    let (first, end) = rows.lines(band.number);
    for line in first..end {
        let numbers = bands.row(band.kind, line);
        fold_line(numbers, (band.number, line), band.fraction, rows);
    }
}

// The row of a line.
fn fold_line(numbers: &[i32], place: (u32, u32), fraction: u8, rows: &mut SliceRows)
    requires there { HasLine rows.old place.0 place.1 }
    requires width { length numbers.now ≡ length (row_at rows.old place.0 place.1) }
    requires fraction { IsFraction fraction }
    ensures { rows.new ≡ with_row rows.old place.0 place.1 (folded_row fraction numbers.now) }
{
    fold_row(numbers, fraction, rows.row_mut(place.0, place.1));
}
