// The rows of values are put into those of a slice.
ghost use Rattle.std.specs.Prelude.{◌≡◌, ◌+◌, ◌/◌, ◌<◌, IfOk};
ghost use Rattle.xs_layout.specs.Geometry.{components_of};
ghost use Rattle.xs_params.specs.Accepted.{IsAccepted};
ghost use Rattle.xs_params.specs.Geometry.{band_component, bands_of, slice_count};
ghost use Rattle.xs_signal.specs.Lines.{entries_of};
ghost use Rattle.xs_geometry.specs.SliceLines.{AreLinesOf, HasLine};
ghost use Rattle.xs_rate.specs.Laws.{IsSmallRow};
ghost use Rattle.xs_enc_lanes.specs.Rows.{component_in};
ghost use Rattle.xs_enc_lanes.specs.Placed.{AreGathered, AreRowsPut, CarriesIn, EachSmall, IsOfBand, IsOfValue, IsRowPut};

use crate::rows::ComponentRows;
use crate::short::widen_row;
use xs_geometry::{Geometry, SliceRows};
use xs_io::Memory;
use xs_params::Header;

// A value that was got of a slice.
#[derive(Clone, Copy)]
struct GotValue<'a> {
    header: &'a Header,
    slice: u32,
    value: &'a ComponentRows,
}

// Puts the row at the place of a band's line, if it has the width.
fn put_row(rows: &mut SliceRows, place: (u32, u32), row: &[i16])
    requires there { HasLine rows.old place.0 place.1 }
    ensures { IsRowPut rows.old place.0 place.1 row.now rows.new }
{
    let (band, line) = place;
    if row.len() == rows.row(band, line).len() {
        widen_row(row, rows.row_mut(band, line));
    }
}

// Puts the rows of a band of the value's component.
fn put_band(got: &GotValue<'_>, band: u32, rows: &mut SliceRows)
    requires accepted { IsAccepted got.now.header.now }
    requires band { band < bands_of got.now.header.now }
    requires of { band_component got.now.header.now band ≡ component_in got.now.value.now }
    requires lines { AreLinesOf got.now.header.now got.now.slice rows.old }
    requires small { EachSmall rows.old }
    ensures { AreRowsPut got.now.header.now got.now.slice (CarriesIn got.now.header.now got.now.slice got.now.value.now) rows.old rows.new (IsOfBand band) }
{
    let number = band / got.header.shape.format.components();
    let (first, end) = rows.lines(band);
    'lines: for line in first..end {
        let row = got.value.row(number as usize, (line - first) as usize);
        put_row(rows, (band, line), row);
    }
}

// Puts all rows of a value.
fn put_value(got: &GotValue<'_>, rows: &mut SliceRows)
    requires accepted { IsAccepted got.now.header.now }
    requires lines { AreLinesOf got.now.header.now got.now.slice rows.old }
    requires small { EachSmall rows.old }
    ensures { AreRowsPut got.now.header.now got.now.slice (CarriesIn got.now.header.now got.now.slice got.now.value.now) rows.old rows.new (IsOfValue got.now.header.now got.now.value.now) }
{
    let components = got.header.shape.format.components();
    let component = got.value.component();
    'bands: for band in 0..Geometry::of(got.header).bands() {
        if band % components == component {
            put_band(got, band, rows);
        }
    }
}

// The rows of a slice, of the values that were got of it.
pub(crate) fn put_values(
    header: &Header,
    slice: u32,
    values: &[ComponentRows],
    rows: &mut SliceRows,
) -> Result<(), Memory>
    requires accepted { IsAccepted header.now }
    requires slice { slice < slice_count header.now }
    ensures { IfOk result (λ _. AreGathered header.now slice values.now rows.new) }
{
    rows.reset(&Geometry::of(header), slice)?;
    'values: for value in values {
        let got = GotValue {
            header,
            slice,
            value,
        };
        put_value(&got, rows);
    }
    Ok(())
}
