// Reading a header unit, and joining the packets of a unit.
ghost use Rattle.std.specs.Prelude.{◌≡◌, ◌≢◌, ◌<◌, ◌^◌, Some, None, length, IfOk, IfErr};
ghost use Rattle.xs_faults.specs.declared.HeadFault.TheVariants as HeadFault;
ghost use Rattle.xs_markers.specs.Units.{header_unit_fault, header_unit_at};
ghost use Rattle.xs_stored.specs.Stored.{joined_bytes};
ghost use Rattle.xs_board.specs.Reading.{reading_of};

use crate::head::HeadRead;
use crate::reading::Reading;
use std::alloc::Global;
use xs_capture::Packet;
use xs_faults::HeadFault;
use xs_io::{Memory, Octets};
use xs_markers::{read_header, skip_boxes};
use xs_params::Header;

// The marker that begins a slice.
const SLH: u16 = 0xff20;

// The header of a header unit, and its length from its start marker on.
fn header_of(alloc: Global, bytes: &[u8]) -> Result<(Header, u32), HeadFault>
    requires few { length bytes.now < 2 ^ 32 }
    ensures sound { IfOk result (λ read. header_unit_fault bytes.now ≡ None) }
    ensures read { IfOk result (λ read. header_unit_at bytes.now ≡ read) }
    ensures refused { IfErr result (λ fault. fault ≢ HeadFault.Memory → header_unit_fault bytes.now ≡ Some fault) }
{
    let start = skip_boxes(bytes)?;
    let stream = &bytes[start..];
    let (header, size) = read_header(alloc, stream)?;
    if size < stream.len() {
        return Err(HeadFault::Marker {
            code: SLH,
            place: size as u32,
        });
    }
    Ok((header, size as u32))
}

// What is read of a header unit.
fn reading_of(alloc: Global, bytes: &[u8]) -> Result<Reading, Memory>
    requires few { length bytes.now < 2 ^ 32 }
    ensures { IfOk result (λ reading. reading ≡ reading_of bytes.now) }
{
    match header_of(alloc, bytes) {
        Ok((header, length)) => Ok(Reading::Good { header, length }),
        Err(HeadFault::Memory) => Err(Memory),
        Err(fault) => Ok(Reading::Bad(fault)),
    }
}

impl HeadRead {
    // Reads a header unit.
    pub(crate) fn read(alloc: Global, bytes: Octets) -> Result<HeadRead, Memory>
        requires few { length bytes < 2 ^ 32 }
        ensures { IfOk result (λ read. read.bytes ≡ bytes) }
    {
        let reading = reading_of(alloc, bytes.as_slice())?;
        Ok(HeadRead { bytes, reading })
    }
}

// The bytes of packets, one after the other. Where they are 2^32 or more, memory is wanting.
pub(crate) fn join_packets(alloc: Global, packets: &[Packet]) -> Result<Octets, Memory>
    ensures joined { IfOk result (λ bytes. bytes ≡ joined_bytes packets.now) }
    ensures few { IfOk result (λ bytes. length bytes < 2 ^ 32) }
{
    let mut bytes = Octets::new(alloc);
    'joining: for packet in packets {
        bytes.extend(packet.bytes.as_slice())?;
    }
    if bytes.len() > u32::MAX as usize {
        return Err(Memory);
    }
    Ok(bytes)
}
