//! A slice: its header, and its precincts.
ghost use Rattle.std.specs.Prelude.{◌≡◌, ◌≢◌, ℕ, ◌<◌, ◌≤◌, ◌^◌, true, false, Some, length, take, IfOk, IfErr};
ghost use Rattle.xs_params.specs.declared.header.Header.{Header};
ghost use Rattle.xs_params.specs.Geometry.{slice_count};
ghost use Rattle.xs_params.specs.Accepted.{IsAccepted};
ghost use Rattle.xs_grammar.specs.Slice.{slice_head};
ghost use Rattle.xs_reading.specs.Slice.{slice_fault as first_fault, whole_slice_fault};
ghost use Rattle.xs_slice_read.specs.Read.{IsFrontRead, IsSliceRead};

use std::alloc::Global;
use xs_faults::{PrecinctFault, SliceFault};
use xs_geometry::{Geometry, SliceRows};
use xs_params::Header;
use xs_precinct::{Above, read_precinct};

/// The bytes of a slice header.
const HEAD: usize = 6;

/// Reads a slice from the front of the bytes. The answer is its rows of coefficients and the number of its bytes; or its first
/// fault.
pub fn read_front(
    alloc: Global,
    header: &Header,
    slice: u32,
    bytes: &[u8],
) -> Result<(SliceRows, usize), SliceFault>
    requires few { length bytes.now < 2 ^ 32 }
    requires accepted { IsAccepted header.now }
    requires there { slice < slice_count header.now }
    ensures read { IfOk result (λ read. IsFrontRead header.now slice read.0 bytes.now read.1) }
    ensures refused { IfErr result (λ fault. fault ≢ SliceFault.Memory → first_fault header.now slice bytes.now ≡ Some fault) }
{
    if bytes.len() < HEAD {
        return Err(SliceFault::Short);
    }
    if !has_head(bytes, slice) {
        return Err(SliceFault::Head);
    }
    let geometry = Geometry::of(header);
    let mut rows = SliceRows::blank(alloc, &geometry, slice)?;
    let mut above = Above::fresh(alloc, geometry.bands())?;
    let (first, end) = geometry.slice_precincts(slice);
    let mut at = HEAD;
    'precincts: for precinct in first..end {
        let rest = &bytes[at..];
        match read_precinct(
            alloc, header, &geometry, precinct, rest, &mut above, &mut rows,
        ) {
            Ok(size) => at += size,
            Err(fault) => return Err(slice_fault(precinct, fault)),
        }
    }
    Ok((rows, at))
}

// Whether the bytes begin with the header of a slice.
fn has_head(bytes: &[u8], slice: u32) -> bool
    requires whole { HEAD ≤ length bytes.now }
    requires index { slice < 2 ^ 16 }
    ensures head { result ≡ true → take 6 bytes.now ≡ slice_head slice }
    ensures other { result ≡ false → take 6 bytes.now ≢ slice_head slice }
{
    let [high, low] = (slice as u16).to_be_bytes();
    bytes[..HEAD] == [0xff, 0x20, 0, 4, high, low]
}

// The fault of a slice whose precinct is refused. Want of memory is never inside another fault.
fn slice_fault(precinct: u32, fault: PrecinctFault) -> SliceFault
    ensures { result ≢ SliceFault.Memory → (fault ≢ PrecinctFault.Memory) × (result ≡ SliceFault.Precinct precinct fault) }
{
    match fault {
        PrecinctFault::Memory => SliceFault::Memory,
        PrecinctFault::Truncated | PrecinctFault::Overrun { .. } | PrecinctFault::Count { .. } => {
            SliceFault::Precinct { precinct, fault }
        }
    }
}

/// Reads bytes that are a slice and nothing more. The answer is its rows of coefficients; or the first fault.
pub fn read_slice(
    alloc: Global,
    header: &Header,
    slice: u32,
    bytes: &[u8],
) -> Result<SliceRows, SliceFault>
    requires few { length bytes.now < 2 ^ 32 }
    requires accepted { IsAccepted header.now }
    requires there { slice < slice_count header.now }
    ensures read { IfOk result (λ rows. IsSliceRead header.now slice rows bytes.now) }
    ensures refused { IfErr result (λ fault. fault ≢ SliceFault.Memory → whole_slice_fault header.now slice bytes.now ≡ Some fault) }
{
    let (rows, size) = match read_front(alloc, header, slice, bytes) {
        Ok(read) => read,
        Err(fault) => return Err(fault),
    };
    if size < bytes.len() {
        return Err(SliceFault::Trailing { place: size as u32 });
    }
    Ok(rows)
}
