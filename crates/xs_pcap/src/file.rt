// The header of a pcap file, and its records.
ghost use Rattle.std.specs.Prelude.{◌≡◌, ◌+◌, ◌<◌, ◌≤◌, ◌^◌, length, IfOk, IsTrue};
ghost use Rattle.xs_pcap.specs.File.{header_read, is_magic, order_of, header_size, record_read, record_front};

use crate::fault::PcapFault;
use crate::numbers::{Order, word_at};

/// The bytes of the file header.
pub const HEADER: usize = 24;

/// Where the link type stands in it.
const LINK: usize = 20;

/// The bytes of a record before its captured bytes.
const RECORD: usize = 16;

/// Where the captured length stands in them.
const CAPTURED: usize = 8;

/// The magic of files with microseconds.
const MICROSECONDS: u32 = 0xa1b2_c3d4;

/// The magic of files with nanoseconds.
const NANOSECONDS: u32 = 0xa1b2_3c4d;

/// The link type of Ethernet.
const ETHERNET: u32 = 1;

// Whether a number is a magic.
fn is_magic(number: u32) -> bool
    ensures { result ≡ is_magic number }
{
    number == MICROSECONDS || number == NANOSECONDS
}

// The order of the bytes, by the magic.
fn order_of(bytes: &[u8]) -> Order
    requires { 4 ≤ length bytes.now }
    ensures { result ≡ order_of bytes.now }
{
    if is_magic(word_at(bytes, 0)) {
        Order::Big
    } else {
        Order::Little
    }
}

// Classic pcap files: magic and link type of the file header.
pub fn read_header(bytes: &[u8]) -> Result<Order, PcapFault>
    ensures read { result ≡ header_read bytes.now }
    ensures inside { IfOk result (λ _. header_size ≤ length bytes.now) }
{
    if bytes.len() < HEADER {
        return Err(PcapFault::Cut { place: 0 });
    }
    let order = order_of(bytes);
    if !is_magic(order.word_at(bytes, 0)) {
        return Err(PcapFault::Magic {
            value: word_at(bytes, 0),
        });
    }
    let link = order.word_at(bytes, LINK);
    if link % 0x1_0000 != ETHERNET {
        return Err(PcapFault::Link { value: link });
    }
    Ok(order)
}

// Classic pcap files: where the captured bytes of the record at a place begin and end.
pub fn read_record(order: Order, bytes: &[u8], place: usize) -> Result<(usize, usize), PcapFault>
    requires { place < length bytes.now }
    ensures read { result ≡ record_read order bytes.now place }
    ensures inside { IfOk result (λ read. (read.0 ≡ place + record_front) × (read.0 ≤ read.1) × (read.1 ≤ length bytes.now)) }
{
    if bytes.len() - place < RECORD {
        return Err(PcapFault::Cut { place });
    }
    let first = place + RECORD;
    let length = order.word_at(bytes, place + CAPTURED) as usize;
    if bytes.len() - first < length {
        return Err(PcapFault::Cut { place });
    }
    Ok((first, first + length))
}
