// Raw pictures: component after component, rows from the top, a sample in one byte, or in two with the low one first.
// docs/FORMAT.md, 'Samples, scaling and colour'.
ghost use Rattle.std.specs.Prelude.{◌≡◌, ◌≢◌, ◌+◌, ◌*◌, ◌^◌, ◌<◌, ◌≤◌, ℕ, List, None, Some, IfErr, IfOk, OnOk, length, replicate};
ghost use Rattle.std.specs.Int.{to_le_bytes, w16};
ghost use Rattle.std.specs.List.{flat_map};
ghost use Rattle.std.specs.Option.{option_map};
ghost use Rattle.xs_layout.specs.Geometry.{components_of};
ghost use Rattle.xs_layout.specs.Limits.{IsDepth};
ghost use Rattle.xs_params.specs.Picture.{AreSamples, IsPicture, IsRow, IsShape, over_sample, picture_of_raw, plane_first, put_at, raw_bytes, raw_size, row_first, sample_bytes, sample_size, width_of};
ghost use Rattle.xs_samples.specs.Raw.{HasRead, HasWritten};
ghost use Rattle.xs_samples.specs.Rows.{AreRows, AreRowsOf, IsReadOf, rows_bytes, rows_size};

use crate::rows::RowRange;
use std::alloc::Global;
use thiserror::Error;
use xs_io::{Memory, Octets};
use xs_params::{Planes, Shape, component_width};

/// Why bytes are no raw picture.
#[derive(Clone, Copy, Debug, PartialEq, Eq, Error)]
pub enum SampleFault {
    /// The first sample that has more bits than the depth: the place of its first byte.
    #[error("a sample has more bits than the depth")]
    Sample { place: u32 },
    /// Memory was wanting.
    #[error("out of memory")]
    Memory,
}

/// The bytes of a raw picture.
pub fn raw_size(shape: &Shape) -> usize
    requires { IsShape shape.now }
    ensures size { result ≡ raw_size shape.now }
    ensures few { result < 2 ^ 28 }
{
    samples_before(shape, shape.format.components()) * sample_size(shape.depth)
}

/// The picture that a raw picture holds.
pub fn read_picture(alloc: Global, shape: &Shape, bytes: &[u8]) -> Result<Planes, SampleFault>
    requires shape { IsShape shape.now }
    requires size { length bytes.now ≡ raw_size shape.now }
    ensures picture { IfOk result (λ planes. planes ≡ picture_of_raw shape.now bytes.now) }
    ensures within { OnOk result (over_sample (picture_of_raw shape.now bytes.now) ≡ None) }
    ensures refused { IfErr result (λ fault. fault ≢ SampleFault.Memory → option_map SampleFault.Sample (over_sample (picture_of_raw shape.now bytes.now)) ≡ Some fault) }
{
    let Ok(mut planes) = Planes::blank(alloc, *shape) else {
        return Err(SampleFault::Memory);
    };
    'components: for component in 0..shape.format.components() {
        read_plane(&mut planes, component, bytes)?;
    }
    known_picture(&planes);
    Ok(planes)
}

/// The raw picture of a picture.
pub fn write_picture(alloc: Global, planes: &Planes) -> Result<Octets, Memory>
    ensures { IfOk result (λ bytes. bytes ≡ raw_bytes planes.now) }
{
    let shape = planes.shape();
    let mut bytes = zeros(alloc, raw_size(shape))?;
    'components: for component in 0..shape.format.components() {
        write_plane(planes, component, bytes.as_mut_slice());
    }
    Ok(Octets::from(bytes))
}

/// Reads some rows from their raw bytes, or tells the place in the whole raw picture of the first sample that has more bits than
/// the depth.
pub fn read_rows(planes: &mut Planes, rows: RowRange, bytes: &[u8]) -> Result<(), u32>
    requires rows { AreRows planes.old.shape rows }
    requires component { rows.component < components_of planes.old.shape.format }
    requires size { length bytes.now ≡ rows_size planes.old.shape rows }
    ensures shape { planes.new.shape ≡ planes.old.shape }
    ensures read { (whole : List ℕ) → AreRowsOf planes.old.shape rows bytes.now whole → HasRead planes.old (row_first planes.old.shape rows.component rows.first) whole → IsReadOf planes.new (row_first planes.old.shape rows.component rows.end) result whole }
{
    let shape = *planes.shape();
    let sample = sample_size(shape.depth);
    let width = component_width(&shape, rows.component) as usize * sample;
    'rows: for row in rows.first..rows.end {
        known_picture(planes);
        let start = rows.row_start(&shape, row);
        if let Err(column) = planes.set_raw_row(rows.component, row, &bytes[start..start + width]) {
            let place = row_place(&shape, rows.component, row) + column * sample;
            return Err(place as u32);
        }
    }
    Ok(())
}

/// The raw bytes of some rows.
pub fn write_rows(alloc: Global, planes: &Planes, rows: RowRange) -> Result<Octets, Memory>
    requires rows { AreRows planes.now.shape rows }
    requires component { rows.component < components_of planes.now.shape.format }
    ensures { IfOk result (λ bytes. bytes ≡ rows_bytes planes.now rows) }
{
    let shape = planes.shape();
    let mut bytes = zeros(alloc, rows.size(shape))?;
    fill_rows(planes, rows, bytes.as_mut_slice());
    Ok(Octets::from(bytes))
}

/// Writes some rows one after the other.
fn fill_rows(planes: &Planes, rows: RowRange, bytes: &mut [u8])
    requires rows { AreRows planes.now.shape rows }
    requires component { rows.component < components_of planes.now.shape.format }
    requires size { length bytes.old ≡ rows_size planes.now.shape rows }
    ensures { bytes.new ≡ rows_bytes planes.now rows }
{
    let shape = planes.shape();
    'rows: for row in rows.first..rows.end {
        let start = rows.row_start(shape, row);
        put_row(bytes, start, shape.depth, planes.row(rows.component, row));
    }
}

/// Reads the rows of a component, or tells the first sample that has more bits than the depth.
fn read_plane(planes: &mut Planes, component: u32, bytes: &[u8]) -> Result<(), SampleFault>
    requires component { component < components_of planes.old.shape.format }
    requires size { length bytes.now ≡ raw_size planes.old.shape }
    requires before { HasRead planes.old (plane_first planes.old.shape component) bytes.now }
    ensures shape { planes.new.shape ≡ planes.old.shape }
    ensures read { OnOk result (HasRead planes.new (plane_first planes.old.shape (component + 1)) bytes.now) }
    ensures refused { IfErr result (λ fault. option_map SampleFault.Sample (over_sample (picture_of_raw planes.old.shape bytes.now)) ≡ Some fault) }
{
    let shape = *planes.shape();
    let sample = sample_size(shape.depth);
    let width = component_width(&shape, component) as usize * sample;
    'rows: for row in 0..shape.height {
        known_picture(planes);
        let start = row_place(&shape, component, row);
        if let Err(column) = planes.set_raw_row(component, row, &bytes[start..start + width]) {
            return Err(SampleFault::Sample {
                place: (start + column * sample) as u32,
            });
        }
    }
    Ok(())
}

/// Writes the rows of a component in their places.
fn write_plane(planes: &Planes, component: u32, bytes: &mut [u8])
    requires component { component < components_of planes.now.shape.format }
    requires size { length bytes.old ≡ raw_size planes.now.shape }
    requires before { HasWritten planes.now (plane_first planes.now.shape component) bytes.old }
    ensures size { length bytes.new ≡ length bytes.old }
    ensures written { HasWritten planes.now (plane_first planes.now.shape (component + 1)) bytes.new }
{
    let shape = planes.shape();
    'rows: for row in 0..shape.height {
        let start = row_place(shape, component, row);
        put_row(bytes, start, shape.depth, planes.row(component, row));
    }
}

// What is true of each picture.
fn known_picture(planes: &Planes)
    ensures { IsPicture planes.now }
{
    let _shape = planes.shape();
}

fn zeros(alloc: Global, count: usize) -> Result<Vec<u8>, Memory>
    ensures zeros { IfOk result (λ list. list.items ≡ replicate count 0) }
{
    vec![in alloc; 0; count].map_err(|_| Memory)
}

/// The bytes of a sample.
pub fn sample_size(depth: u8) -> usize
    ensures { result ≡ sample_size depth }
{
    if depth == 8 { 1 } else { 2 }
}

/// The samples of the components before one, or of all where it is their number.
fn samples_before(shape: &Shape, component: u32) -> usize
    requires shape { IsShape shape.now }
    requires component { component ≤ components_of shape.now.format }
    ensures count { result ≡ plane_first shape.now component }
    ensures few { result ≤ 3 * 2 ^ 24 }
{
    if component == 0 {
        return 0;
    }
    let luma = shape.width as usize;
    let chroma = component_width(shape, 1) as usize;
    (luma + (component as usize - 1) * chroma) * shape.height as usize
}

/// Where the first byte of a row lies.
pub fn row_place(shape: &Shape, component: u32, row: u32) -> usize
    requires shape { IsShape shape.now }
    requires row { IsRow shape.now component row }
    ensures place { result ≡ row_first shape.now component row * sample_size shape.now.depth }
    ensures end { result + width_of shape.now component * sample_size shape.now.depth ≤ raw_size shape.now }
    ensures few { raw_size shape.now < 2 ^ 28 }
{
    let width = component_width(shape, component) as usize;
    (samples_before(shape, component) + row as usize * width) * sample_size(shape.depth)
}

/// Writes the samples of a row from a place on.
fn put_row(bytes: &mut [u8], start: usize, depth: u8, row: &[u16])
    requires depth { IsDepth depth }
    requires small { AreSamples depth row.now }
    requires room { start + length row.now * sample_size depth ≤ length bytes.old }
    ensures { bytes.new ≡ put_at bytes.old start (flat_map (sample_bytes depth) row.now) }
{
    let end = start + row.len() * sample_size(depth);
    fill_row(&mut bytes[start..end], depth, row);
}

fn fill_row(bytes: &mut [u8], depth: u8, row: &[u16])
    requires depth { IsDepth depth }
    requires small { AreSamples depth row.now }
    requires size { length bytes.old ≡ length row.now * sample_size depth }
    ensures { bytes.new ≡ flat_map (sample_bytes depth) row.now }
{
    if depth == 8 {
        fill_bytes(bytes, row);
    } else {
        fill_pairs(bytes, row);
    }
}

fn fill_bytes(bytes: &mut [u8], row: &[u16])
    requires small { AreSamples 8 row.now }
    requires size { length bytes.old ≡ length row.now }
    ensures { bytes.new ≡ row.now }
{
    'filling: for column in 0..row.len() {
        bytes[column] = row[column] as u8;
    }
}

fn fill_pairs(bytes: &mut [u8], row: &[u16])
    requires { length bytes.old ≡ length row.now * 2 }
    ensures { bytes.new ≡ flat_map (to_le_bytes w16) row.now }
{
    'filling: for column in 0..row.len() {
        let pair = row[column].to_le_bytes();
        bytes[2 * column] = pair[0];
        bytes[2 * column + 1] = pair[1];
    }
}
