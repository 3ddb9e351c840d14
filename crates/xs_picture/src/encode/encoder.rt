//! Whole pictures.
ghost use Rattle.std.specs.Prelude.{◌≡◌, ◌+◌, ◌≤◌, ◌++◌, ◌∷◌, [], IfOk, IfErr, OnOk, length, sum_by};
ghost use Rattle.xs_layout.specs.Limits.{header_room, most_slices, most_stream};
ghost use Rattle.xs_params.specs.Check.{AreInRange};
ghost use Rattle.xs_params.specs.Headers.{header_of};
ghost use Rattle.xs_rate.specs.Coefficients.{rows_of_picture};
ghost use Rattle.xs_rate.specs.Encoding.{encoding_of, stream_of};
ghost use Rattle.xs_picture.specs.Encoded.{AreSlicesOf, IsEncodingOrMemory, WhyUnwritten};

use crate::encode::analysis::analyse_picture;
use crate::encode::folding::fold_slice;
use std::alloc::Global;
use xs_faults::SliceRefusal;
use xs_geometry::{Geometry, SliceRows};
use xs_io::{Memory, Octets};
use xs_markers::write_header;
use xs_params::{Checked, Planes, Stream};
use xs_slice_write::{SliceScratch, WantedSlice, write_slice_in};

/// The codestream of a picture, each slice at the first candidate at which it is within its share, and filled up to it
/// where the settings say so; or the first slice that is over its share at the coarsest candidate, with that size.
pub fn encode_picture(
    alloc: Global,
    planes: &Planes,
    settings: &Checked,
) -> Result<Stream, SliceRefusal>
    requires shape { planes.now.shape ≡ settings.now.shape }
    ensures encoding { IsEncodingOrMemory (encoding_of settings.now planes.now) result }
{
    let slices = encode_slices(alloc, planes, settings)?;
    let stream = assemble_stream(alloc, settings, slices)?;
    Ok(stream)
}

// The slices of a picture, or the first that is over its share.
fn encode_slices(
    alloc: Global,
    planes: &Planes,
    settings: &Checked,
) -> Result<Vec<Octets>, SliceRefusal>
    requires shape { planes.now.shape ≡ settings.now.shape }
    ensures in_range { AreInRange settings.now }
    ensures slices { IfOk result (λ slices. AreSlicesOf (header_of settings.now) (rows_of_picture (header_of settings.now) planes.now) settings.now.share settings.now.fill slices.items) }
    ensures refused { IfErr result (WhyUnwritten (header_of settings.now) (rows_of_picture (header_of settings.now) planes.now) settings.now.share) }
{
    let asked = settings.settings();
    let (share, fill) = (asked.share, asked.fill);
    let header = settings.header(alloc)?;
    let bands = analyse_picture(alloc, planes, &header)?;
    let geometry = Geometry::of(&header);
    let mut rows = SliceRows::blank(alloc, &geometry, 0)?;
    let mut scratch = SliceScratch::of(alloc, &header)?;
    let mut slices = Vec::new(alloc);
    'slices: for slice in 0..geometry.slices() {
        fold_slice(&bands, &header, slice, &mut rows)?;
        let wanted = WantedSlice {
            rows: &rows,
            slice,
            share,
            fill,
        };
        let bytes = write_slice_in(alloc, &header, &wanted, &mut scratch)?;
        add(&mut slices, bytes)?;
    }
    Ok(slices)
}

// One more slice.
fn add(slices: &mut Vec<Octets>, slice: Octets) -> Result<(), Memory>
    ensures added { OnOk result (slices.new.items ≡ slices.old.items ++ slice ∷ []) }
{
    slices.push(slice).map_err(|_| Memory)
}

/// The codestream of all slices of a picture.
pub fn assemble_stream(
    alloc: Global,
    settings: &Checked,
    slices: Vec<Octets>,
) -> Result<Stream, Memory>
    requires few { length slices.items ≤ most_slices }
    requires room { sum_by length slices.items + header_room ≤ most_stream }
    ensures stream { IfOk result (λ stream. stream ≡ stream_of (header_of settings.now) slices.items) }
{
    let mut header = settings.header(alloc)?;
    let size = write_header(alloc, &header)?.len() as u32;
    header.lcod = size + total_bytes(slices.as_slice()) + 2;
    let mut stream = Stream::new(alloc, write_header(alloc, &header)?);
    'joining: for slice in slices {
        stream.push(slice)?;
    }
    Ok(stream)
}

// The bytes of some slices together.
fn total_bytes(slices: &[Octets]) -> u32
    requires room { sum_by length slices.now + header_room ≤ most_stream }
    ensures sum { result ≡ sum_by length slices.now }
{
    let mut total = 0;
    for slice in slices {
        total += slice.len() as u32;
    }
    total
}
