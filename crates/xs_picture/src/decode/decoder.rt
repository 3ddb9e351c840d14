//! The picture of a codestream.
ghost use Rattle.std.specs.Prelude.{◌≡◌, ◌≢◌, ◌+◌, ◌*◌, ◌<◌, ◌≤◌, ◌⊎◌, ◌^◌, ℕ, Some, length, IfOk, IfErr};
ghost use Rattle.xs_params.specs.Geometry.{slice_count};
ghost use Rattle.xs_params.specs.Picture.{IsPicture, IsPlace, IsRow, sample_at, width_of};
ghost use Rattle.xs_markers.specs.Read.{IsHeaderRead};
ghost use Rattle.xs_reading.specs.Stream.{slices_fault};
ghost use Rattle.xs_decoding.specs.Decoded.{IsPictureOf, decoded_sample};
ghost use Rattle.xs_rate.specs.Coefficients.{Rows};
ghost use Rattle.xs_stripe.specs.Lines.{AreLines, HoldRows};
ghost use Rattle.xs_picture.specs.Coefs.{AreCoefs, rows_of_slices};
ghost use Rattle.xs_picture.specs.Faults.{stream_fault};
ghost use Rattle.xs_picture.specs.Growing.{IsGrowing, IsGrownOf, next_slice};
ghost use Rattle.xs_picture.specs.StreamRead.{IsPictureRead};

use crate::decode::coefs::StreamCoefs;
use crate::decode::reader::{check_length, read_end, read_start, stream_fault_of_slice};
use crate::decode::rows::StreamRows;
use crate::decode::stripes::GrowingPicture;
use std::alloc::Global;
use xs_faults::StreamFault;
use xs_geometry::Geometry;
use xs_io::Memory;
use xs_params::{Header, Planes, component_width};
use xs_slice_read::read_front;
use xs_stripe::Lines;

/// The picture of the codestream at the front of the bytes, and how many bytes it has; or its first fault. The lines of a slice
/// are made when the slice after it is read, and of the coefficients those of two slices are kept.
pub fn decode_picture(alloc: Global, bytes: &[u8]) -> Result<(Planes, usize), StreamFault>
    requires few { length bytes.now < 2 ^ 32 }
    ensures read { IfOk result (λ read. IsPictureRead read.0 bytes.now read.1) }
    ensures refused { IfErr result (λ fault. fault ≢ StreamFault.Memory → stream_fault bytes.now ≡ Some fault) }
{
    let (header, start) = read_start(alloc, bytes)?;
    let (growing, place) = grow_picture(alloc, header, bytes, start)?;
    let end = read_end(bytes, place)?;
    check_length(growing.header(), end)?;
    let picture = growing.finish(alloc)?;
    Ok((picture, end))
}

// Reads the slices, which begin where the header ends, into a picture. The answer is the place where the last one ends.
fn grow_picture(
    alloc: Global,
    header: Header,
    bytes: &[u8],
    start: usize,
) -> Result<(GrowingPicture, usize), StreamFault>
    requires few { length bytes.now < 2 ^ 32 }
    requires headed { IsHeaderRead header bytes.now start }
    ensures header { IfOk result (λ read. read.0.header ≡ header) }
    ensures within { IfOk result (λ read. read.1 ≤ length bytes.now) }
    ensures state { IfOk result (λ read. IsGrowing read.0) }
    ensures all { IfOk result (λ read. next_slice read.0.waiting ≡ slice_count header) }
    ensures read { IfOk result (λ read. IsGrownOf header bytes.now start (slice_count header) read.0 read.1) }
    ensures refused { IfErr result (λ fault. fault ≢ StreamFault.Memory → slices_fault header bytes.now start ≡ Some fault) }
{
    let count = Geometry::of(&header).slices();
    let mut growing = GrowingPicture::new(alloc, header)?;
    let mut place = start;
    'slices: for slice in 0..count {
        let (rows, size) = match read_front(alloc, growing.header(), slice, &bytes[place..]) {
            Ok(read) => read,
            Err(fault) => return Err(stream_fault_of_slice(bytes, slice, fault)),
        };
        growing.push(alloc, slice, rows)?;
        place += size;
    }
    Ok((growing, place))
}

/// The picture of coefficients, whatever header they have. It is made line by line.
pub fn decode_coefs(alloc: Global, coefs: &StreamCoefs) -> Result<Planes, Memory>
    requires coefs { AreCoefs coefs.now }
    ensures decoded { IfOk result (IsPictureOf coefs.now.header (rows_of_slices coefs.now.header coefs.now.slices)) }
{
    let header = coefs.header();
    let mut picture = Planes::blank(alloc, header.shape)?;
    let mut samples = zeros(alloc, header.shape.width)?;
    let mut lines = Lines::new(alloc, header)?;
    let rows = StreamRows::of(coefs);
    'lines: for line in 0..header.shape.height {
        lines.step(&rows);
        put_line(&lines, line, samples.as_mut_slice(), &mut picture);
    }
    known_picture(&picture);
    Ok(picture)
}

// So many zeros.
fn zeros(alloc: Global, count: u32) -> Result<Vec<u16>, Memory>
    ensures { IfOk result (λ list. length list.items ≡ count) }
{
    vec![in alloc; 0; count as usize].map_err(|_| Memory)
}

// Writes the samples of the line that was made last, in each component, by a row that is filled again.
fn put_line(lines: &Lines<'_>, line: u32, samples: &mut [u16], picture: &mut Planes)
    requires state { AreLines lines.now }
    requires begun { 2 ^ lines.now.header.now.nly * lines.now.first ≤ line }
    requires last { lines.now.given ≡ line + 1 }
    requires line { line < picture.old.shape.height }
    requires shape { picture.old.shape ≡ lines.now.header.now.shape }
    requires width { length samples.old ≡ picture.old.shape.width }
    ensures shape { picture.new.shape ≡ picture.old.shape }
    ensures written { (coefficients : Rows) → HoldRows coefficients lines.now → (component column : ℕ) → IsPlace picture.old.shape component line column → sample_at picture.new component line column ≡ decoded_sample lines.now.header.now coefficients component line column }
    ensures others { (component row column : ℕ) → IsPlace picture.old.shape component row column → row ≢ line → sample_at picture.new component row column ≡ sample_at picture.old component row column }
{
    let shape = *picture.shape();
    'components: for component in 0..shape.format.components() {
        let width = component_width(&shape, component) as usize;
        put_row(lines, component, line, &mut samples[..width], picture);
    }
}

// Writes the samples of a component in that line.
fn put_row(lines: &Lines<'_>, component: u32, line: u32, samples: &mut [u16], picture: &mut Planes)
    requires state { AreLines lines.now }
    requires begun { 2 ^ lines.now.header.now.nly * lines.now.first ≤ line }
    requires last { lines.now.given ≡ line + 1 }
    requires row { IsRow picture.old.shape component line }
    requires shape { picture.old.shape ≡ lines.now.header.now.shape }
    requires width { length samples.old ≡ width_of picture.old.shape component }
    ensures shape { picture.new.shape ≡ picture.old.shape }
    ensures written { (coefficients : Rows) → HoldRows coefficients lines.now → (column : ℕ) → column < width_of picture.old.shape component → sample_at picture.new component line column ≡ decoded_sample lines.now.header.now coefficients component line column }
    ensures others { (other row column : ℕ) → IsPlace picture.old.shape other row column → (other ≢ component) ⊎ (row ≢ line) → sample_at picture.new other row column ≡ sample_at picture.old other row column }
{
    known_picture(picture);
    lines.write_samples(component, samples);
    picture.set_row(component, line, samples);
}

// What the type of planes says of them.
fn known_picture(picture: &Planes)
    ensures { IsPicture picture.now }
{
    picture.shape();
}
