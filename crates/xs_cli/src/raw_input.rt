// Raw pictures are read, so many rows at once.
ghost use Rattle.std.specs.Prelude.{◌≡◌, ◌<◌, ◌≤◌, ℕ, List, length};
ghost use Rattle.xs_layout.specs.Geometry.{components_of};
ghost use Rattle.xs_params.specs.Picture.{IsShape, raw_size, row_first, sample_count};
ghost use Rattle.xs_samples.specs.Rows.{AreRows, AreRowsOf, IsReadOf, rows_size};
ghost use Rattle.xs_endings.specs.Ends.{IsLater, change_of};

use crate::input::read;
use std::alloc::Global;
use xs_endings::Stop;
use xs_io::Source;
use xs_params::{Planes, Shape};
use xs_samples::{RowRange, read_rows};

/// A raw picture in the input, or what stands there in its place.
#[derive(Drop)]
pub enum RawPicture {
    /// The input ends after so many bytes of the picture.
    Cut { length: u32 },
    /// The first sample that has more bits than the depth: the place of its first byte in the raw picture.
    Sample { place: u32 },
    Whole(Planes),
}

ghost use Rattle.xs_cli.specs.RawRead.{IsRawOf, IsRawRead};

/// Reads the raw picture that stands next, to its end also where a sample has more bits than the depth. Answers none where the
/// input has ended.
pub fn read_raw<R: Source>(
    alloc: Global,
    input: &mut R,
    shape: &Shape,
) -> Result<Option<RawPicture>, Stop>
    requires { IsShape shape.now }
    ensures read { IsRawRead shape.now (change_of (R.left input.old) (R.left input.new) (R.faults input.old) (R.faults input.new)) result }
    ensures later { IsLater (change_of (R.left input.old) (R.left input.new) (R.faults input.old) (R.faults input.new)) }
{
    let components = shape.format.components();
    let mut rows = RowRange::front(shape);
    let mut bytes = read(alloc, input, rows.size(shape))?;
    if bytes.as_slice().is_empty() {
        return Ok(None);
    }
    let mut planes = Planes::blank(alloc, *shape)?;
    let mut done = Ok(());
    'chunks: while bytes.as_slice().len() == rows.size(shape) {
        done = read_on(&mut planes, done, rows, bytes.as_slice());
        rows = rows.next(shape);
        if rows.component == components {
            return Ok(Some(picture_of(planes, done)));
        }
        bytes = read(alloc, input, rows.size(shape))?;
    }
    let length = rows.place(shape) + bytes.as_slice().len();
    Ok(Some(RawPicture::Cut {
        length: length as u32,
    }))
}

/// Reads rows, unless a sample before them had more bits than the depth.
fn read_on(
    planes: &mut Planes,
    done: Result<(), u32>,
    rows: RowRange,
    bytes: &[u8],
) -> Result<(), u32>
    requires rows { AreRows planes.old.shape rows }
    requires component { rows.component < components_of planes.old.shape.format }
    requires size { length bytes.now ≡ rows_size planes.old.shape rows }
    ensures shape { planes.new.shape ≡ planes.old.shape }
    ensures read { (whole : List ℕ) → AreRowsOf planes.old.shape rows bytes.now whole → IsReadOf planes.old (row_first planes.old.shape rows.component rows.first) done whole → IsReadOf planes.new (row_first planes.old.shape rows.component rows.end) result whole }
{
    match done {
        Ok(()) => read_rows(planes, rows, bytes),
        Err(place) => Err(place),
    }
}

/// What was read, when all of it is there.
fn picture_of(planes: Planes, done: Result<(), u32>) -> RawPicture
    ensures { (bytes : List ℕ) → 1 ≤ length bytes → length bytes ≡ raw_size planes.shape → IsReadOf planes (sample_count planes.shape) done bytes → IsRawOf planes.shape bytes result }
{
    let _shape = planes.shape();
    match done {
        Ok(()) => RawPicture::Whole(planes),
        Err(place) => RawPicture::Sample { place },
    }
}
