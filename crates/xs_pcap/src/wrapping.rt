// Files that are written.
ghost use Rattle.std.specs.Prelude.{◌≡◌, ◌+◌, ◌++◌, ◌<◌, ◌≤◌, ◌^◌, length, take, if◌then◌else◌, is_ok, OnOk, OnErr};
ghost use Rattle.xs_pcap.specs.Wrapped.{ethernet_head, header_bytes, ipv4_checksum, ipv4_head, ipv4_with, microseconds_of, most_wrapped, record_head, seconds_of, udp_head, wrapped};

use crate::datagram::UDP_PROTOCOL;
use crate::numbers::checksum_of;
use std::alloc::Global;
use xs_io::{Memory, Octets};

/// What stands in a datagram before its payload, with the header of IPv4 and without.
const IPV4_AND_UDP: u16 = 28;

const UDP: u16 = 8;

/// What stands in a frame before the payload.
const FRONT: u32 = 42;

/// The Ethernet header: destination, source and type.
const ETHERNET: [u8; 14] = [2, 0, 0, 0, 0, 2, 2, 0, 0, 0, 0, 1, 0x08, 0x00];

/// The clock of timestamps, in Hz.
const CLOCK: u32 = 90_000;

/// The header of a file: little-endian, microseconds, version 2.4, snapshot length 65535, Ethernet.
pub fn file_header() -> [u8; 24]
    ensures bytes { result ≡ header_bytes }
{
    [
        0xd4, 0xc3, 0xb2, 0xa1, 2, 0, 4, 0, //
        0, 0, 0, 0, 0, 0, 0, 0, //
        0xff, 0xff, 0, 0, 1, 0, 0, 0,
    ]
}

// Classic pcap files: seconds and microseconds of a timestamp.
fn time_of(timestamp: u32) -> (u32, u32)
    ensures seconds { result.0 ≡ seconds_of timestamp }
    ensures fraction { result.1 ≡ microseconds_of timestamp }
{
    (timestamp / CLOCK, timestamp % CLOCK * 100 / 9)
}

// What stands in a record before its captured bytes.
fn record_head(timestamp: u32, size: u32) -> [u8; 16]
    ensures { result ≡ record_head timestamp size }
{
    let (seconds, fraction) = time_of(timestamp);
    let [a, b, c, d] = seconds.to_le_bytes();
    let [e, f, g, h] = fraction.to_le_bytes();
    let [i, j, k, l] = size.to_le_bytes();
    [a, b, c, d, e, f, g, h, i, j, k, l, i, j, k, l]
}

// The header of an IPv4 packet from 192.0.2.1 to 192.0.2.2, with a checksum.
fn ipv4_with(total: u16, checksum: u16) -> [u8; 20]
    ensures { result ≡ ipv4_with total checksum }
{
    let [a, b] = total.to_be_bytes();
    let [c, d] = checksum.to_be_bytes();
    [
        0x45,
        0,
        a,
        b,
        0,
        0,
        0x40,
        0,
        64,
        UDP_PROTOCOL,
        c,
        d, //
        192,
        0,
        2,
        1,
        192,
        0,
        2,
        2,
    ]
}

// The header of an IPv4 packet.
fn ipv4_head(total: u16) -> [u8; 20]
    ensures { result ≡ ipv4_head total }
{
    ipv4_with(total, checksum_of(&ipv4_with(total, 0)))
}

// The header of a UDP datagram, without a checksum.
fn udp_head(port: u16, size: u16) -> [u8; 8]
    ensures { result ≡ udp_head port size }
{
    let [a, b] = port.to_be_bytes();
    let [c, d] = size.to_be_bytes();
    [a, b, a, b, c, d, 0, 0]
}

// Appends a record; a refusal leaves the list with some more bytes.
fn append(out: &mut Octets, packet: &[u8], timestamp: u32, port: u16) -> Result<(), Memory>
    requires short { length packet.now ≤ most_wrapped }
    ensures appended { OnOk result (out.new ≡ out.old ++ wrapped port timestamp packet.now) }
    ensures refused { OnErr result (take (length out.old) out.new ≡ out.old) }
{
    let length = packet.len() as u16;
    out.extend(&record_head(timestamp, FRONT + u32::from(length)))?;
    out.extend(&ETHERNET)?;
    out.extend(&ipv4_head(IPV4_AND_UDP + length))?;
    out.extend(&udp_head(port, UDP + length))?;
    out.extend(packet)?;
    Ok(())
}

/// Appends a packet to a file as a record: a UDP datagram whose two ports are `port`, at the time of the packet's RTP
/// timestamp. The packet has at most 65507 bytes. Where it is refused, the list is as before.
pub fn wrap(
    _alloc: Global,
    out: &mut Octets,
    packet: &[u8],
    timestamp: u32,
    port: u16,
) -> Result<(), Memory>
    requires { length packet.now ≤ most_wrapped }
    ensures appended { out.new ≡ (if is_ok result then out.old ++ wrapped port timestamp packet.now else out.old) }
{
    let before = out.len();
    if append(out, packet, timestamp, port).is_err() {
        out.truncate(before);
        return Err(Memory);
    }
    Ok(())
}
