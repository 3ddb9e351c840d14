//! The coefficients of codestreams.
ghost use Rattle.std.specs.Prelude.{◌≡◌, ◌≢◌, ◌+◌, ◌-◌, ◌≤◌, ◌<◌, ◌^◌, ◌++◌, ◌⊎◌, true, false, None, Some, length, take, drop, IfOk, IfErr, MatchResult};
ghost use Rattle.std.specs.Result.{result_err};
ghost use Rattle.xs_params.specs.Accepted.{IsAccepted};
ghost use Rattle.xs_params.specs.Geometry.{slice_count};
ghost use Rattle.xs_params.specs.Markers.{eoc};
ghost use Rattle.xs_markers.specs.Read.{IsHeaderRead};
ghost use Rattle.xs_markers.specs.Reading.{head_fault, header_at};
ghost use Rattle.xs_reading.specs.Stream.{slices_fault, stream_fault_of_head as fault_of_head, stream_fault_of_slice as fault_of_slice};
ghost use Rattle.xs_picture.specs.Faults.{stream_fault};
ghost use Rattle.xs_picture.specs.StreamRead.{AreSlicesRead, IsStreamRead, eoc_fault};

use crate::decode::coefs::StreamCoefs;
use std::alloc::Global;
use xs_faults::{HeadFault, PrecinctFault, SliceFault, StreamFault};
use xs_geometry::Geometry;
use xs_io::Memory;
use xs_markers::read_header;
use xs_params::Header;
use xs_params::markers::EOC;
use xs_slice_read::read_front;

// The bytes end inside the codestream.
fn cut(bytes: &[u8]) -> StreamFault
    requires few { length bytes.now < 2 ^ 32 }
    ensures { result ≡ StreamFault.Cut (length bytes.now) }
{
    StreamFault::Cut {
        place: bytes.len() as u32,
    }
}

// The fault of a codestream whose header is refused. Want of memory is never inside another fault.
fn stream_fault_of_header(bytes: &[u8], fault: HeadFault) -> StreamFault
    requires few { length bytes.now < 2 ^ 32 }
    ensures { result ≢ StreamFault.Memory → (fault ≢ HeadFault.Memory) × (result ≡ fault_of_head (length bytes.now) fault) }
{
    match fault {
        HeadFault::Memory => StreamFault::Memory,
        HeadFault::Truncated { .. } => cut(bytes),
        HeadFault::Marker { .. }
        | HeadFault::Segment { .. }
        | HeadFault::Length { .. }
        | HeadFault::Unsupported { .. }
        | HeadFault::Twice { .. }
        | HeadFault::Absent { .. }
        | HeadFault::BoxLength { .. } => StreamFault::Head(fault),
    }
}

// The fault of a codestream of which a slice is refused.
pub(crate) fn stream_fault_of_slice(bytes: &[u8], slice: u32, fault: SliceFault) -> StreamFault
    requires few { length bytes.now < 2 ^ 32 }
    ensures { result ≢ StreamFault.Memory → (fault ≢ SliceFault.Memory) × (result ≡ fault_of_slice (length bytes.now) slice fault) }
{
    match fault {
        SliceFault::Memory => StreamFault::Memory,
        SliceFault::Short
        | SliceFault::Precinct {
            fault: PrecinctFault::Truncated,
            ..
        } => cut(bytes),
        SliceFault::Precinct {
            fault: PrecinctFault::Overrun { .. }
            | PrecinctFault::Count { .. }
            | PrecinctFault::Memory,
            ..
        }
        | SliceFault::Head
        | SliceFault::Trailing { .. }
        | SliceFault::End => StreamFault::Slice { slice, fault },
    }
}

// Reads the header.
pub(crate) fn read_start(alloc: Global, bytes: &[u8]) -> Result<(Header, usize), StreamFault>
    requires few { length bytes.now < 2 ^ 32 }
    ensures read { IfOk result (λ read. IsHeaderRead read.0 bytes.now read.1) }
    ensures refused { IfErr result (λ fault. fault ≢ StreamFault.Memory → stream_fault bytes.now ≡ Some fault) }
{
    match read_header(alloc, bytes) {
        Ok(read) => Ok(read),
        Err(fault) => Err(stream_fault_of_header(bytes, fault)),
    }
}

// Reads the slices, which begin where the header ends. The answer is the place where the last one ends.
fn read_slices(
    alloc: Global,
    header: Header,
    bytes: &[u8],
    start: usize,
) -> Result<(StreamCoefs, usize), StreamFault>
    requires few { length bytes.now < 2 ^ 32 }
    requires headed { IsHeaderRead header bytes.now start }
    ensures header { IfOk result (λ read. read.0.header ≡ header) }
    ensures within { IfOk result (λ read. read.1 ≤ length bytes.now) }
    ensures read { IfOk result (λ read. AreSlicesRead header bytes.now start (slice_count header) read.0.slices read.1) }
    ensures refused { IfErr result (λ fault. fault ≢ StreamFault.Memory → slices_fault header bytes.now start ≡ Some fault) }
{
    let count = Geometry::of(&header).slices();
    let mut coefs = StreamCoefs::new(alloc, header);
    let mut place = start;
    'slices: for slice in 0..count {
        let (rows, size) = match read_front(alloc, coefs.header(), slice, &bytes[place..]) {
            Ok(read) => read,
            Err(fault) => return Err(stream_fault_of_slice(bytes, slice, fault)),
        };
        coefs.push(rows)?;
        place += size;
    }
    Ok((coefs, place))
}

// Whether the end marker stands at a place.
fn has_end(bytes: &[u8], place: usize) -> bool
    requires whole { place + 2 ≤ length bytes.now }
    ensures end { result ≡ true → take 2 (drop place bytes.now) ≡ eoc }
    ensures other { result ≡ false → take 2 (drop place bytes.now) ≢ eoc }
{
    bytes[place..place + 2] == EOC[..]
}

// Codestream layout: EOC. The answer is the place after it.
pub(crate) fn read_end(bytes: &[u8], place: usize) -> Result<usize, StreamFault>
    requires few { length bytes.now < 2 ^ 32 }
    requires within { place ≤ length bytes.now }
    ensures first { result_err result ≡ eoc_fault bytes.now place }
    ensures place { IfOk result (λ end. end ≡ place + 2) }
    ensures within { IfOk result (λ end. end ≤ length bytes.now) }
    ensures read { IfOk result (λ end. drop place bytes.now ≡ eoc ++ drop end bytes.now) }
{
    if bytes.len() - place < EOC.len() {
        return Err(cut(bytes));
    }
    if !has_end(bytes, place) {
        return Err(StreamFault::End {
            place: place as u32,
        });
    }
    Ok(place + EOC.len())
}

// Whether the header states this length of the codestream, or none.
pub(crate) fn check_length(header: &Header, length: usize) -> Result<(), StreamFault>
    requires few { length < 2 ^ 32 }
    ensures { MatchResult result (λ _. (header.now.lcod ≡ 0) ⊎ (header.now.lcod ≡ length)) (λ fault. (header.now.lcod ≢ 0) × (header.now.lcod ≢ length) × (fault ≡ StreamFault.Lcod header.now.lcod length)) }
{
    let stated = header.lcod;
    if stated != 0 && stated as usize != length {
        return Err(StreamFault::Lcod {
            stated,
            length: length as u32,
        });
    }
    Ok(())
}

/// Reads the codestream at the front of the bytes. The answer is its coefficients, and how many bytes it has; or its first
/// fault. A slice's rows are made when its bytes are reached. The stated length is compared last. docs/FORMAT.md, 'Codestream
/// layout'.
pub fn read_stream(alloc: Global, bytes: &[u8]) -> Result<(StreamCoefs, usize), StreamFault>
    requires few { length bytes.now < 2 ^ 32 }
    ensures read { IfOk result (λ read. IsStreamRead read.0 bytes.now read.1) }
    ensures refused { IfErr result (λ fault. fault ≢ StreamFault.Memory → stream_fault bytes.now ≡ Some fault) }
{
    let (header, start) = read_start(alloc, bytes)?;
    let (coefs, place) = read_slices(alloc, header, bytes, start)?;
    let end = read_end(bytes, place)?;
    check_length(coefs.header(), end)?;
    Ok((coefs, end))
}

// The number of the last slice of a header.
fn last_slice_of(header: &Header) -> u32
    requires { IsAccepted header.now }
    ensures { result ≡ slice_count header.now - 1 }
{
    Geometry::of(header).slices() - 1
}

/// The number of the last slice of the codestream that the bytes begin with, by its header, which is read again: a fault at the
/// end of a codestream has no number of its own.
pub fn last_slice(alloc: Global, bytes: &[u8]) -> Result<u32, Memory>
    requires few { length bytes.now < 2 ^ 32 }
    requires headed { head_fault bytes.now ≡ None }
    ensures { IfOk result (λ slice. slice ≡ slice_count (header_at bytes.now) - 1) }
{
    match read_header(alloc, bytes) {
        Ok((header, _)) => Ok(last_slice_of(&header)),
        Err(_) => Err(Memory),
    }
}
