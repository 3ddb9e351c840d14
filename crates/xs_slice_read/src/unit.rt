//! What is sent of a slice: the slice, and after the last one the end of the codestream.
ghost use Rattle.std.specs.Prelude.{◌≡◌, ◌≢◌, ◌<◌, ◌^◌, ◌+◌, Some, length, IfOk, IfErr};
ghost use Rattle.xs_params.specs.Accepted.{IsAccepted};
ghost use Rattle.xs_params.specs.Geometry.{slice_count};
ghost use Rattle.xs_reading.specs.Slice.{slice_unit_fault};
ghost use Rattle.xs_slice_read.specs.Unit.{IsUnitRead};

use crate::slice::{read_front, read_slice};
use std::alloc::Global;
use xs_faults::SliceFault;
use xs_geometry::{Geometry, SliceRows};
use xs_params::Header;
use xs_params::markers::EOC;

/// Reads bytes that are what is sent of a slice, 'RTP packets and captures', and nothing more. The answer is the slice's rows of
/// coefficients; or the first fault.
pub fn read_unit(
    alloc: Global,
    header: &Header,
    slice: u32,
    bytes: &[u8],
) -> Result<SliceRows, SliceFault>
    requires few { length bytes.now < 2 ^ 32 }
    requires accepted { IsAccepted header.now }
    requires there { slice < slice_count header.now }
    ensures read { IfOk result (λ rows. IsUnitRead header.now slice rows bytes.now) }
    ensures refused { IfErr result (λ fault. fault ≢ SliceFault.Memory → slice_unit_fault header.now slice bytes.now ≡ Some fault) }
{
    if slice + 1 == Geometry::of(header).slices() {
        read_last(alloc, header, slice, bytes)
    } else {
        read_slice(alloc, header, slice, bytes)
    }
}

// Reads the last slice, and the end of the codestream after it.
fn read_last(
    alloc: Global,
    header: &Header,
    slice: u32,
    bytes: &[u8],
) -> Result<SliceRows, SliceFault>
    requires few { length bytes.now < 2 ^ 32 }
    requires accepted { IsAccepted header.now }
    requires last { slice + 1 ≡ slice_count header.now }
    ensures read { IfOk result (λ rows. IsUnitRead header.now slice rows bytes.now) }
    ensures refused { IfErr result (λ fault. fault ≢ SliceFault.Memory → slice_unit_fault header.now slice bytes.now ≡ Some fault) }
{
    let (rows, size) = read_front(alloc, header, slice, bytes)?;
    let end = &bytes[size..];
    if end != EOC.as_slice() {
        return Err(SliceFault::End);
    }
    Ok(rows)
}
