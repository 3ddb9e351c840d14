// A packet: its header, and the parts to which its lines give bits, each up to a byte.
ghost use Rattle.std.specs.Prelude.{◌≡◌, ◌+◌, ◌*◌, ◌%◌, ◌^◌, ◌<◌, ◌≤◌, ◌++◌, true, false, length, OnOk};
ghost use Rattle.xs_lists.specs.Bits.{bits_of_bytes};
ghost use Rattle.xs_grammar.specs.Coded.{field_bytes, fields_fit};
ghost use Rattle.xs_grammar.specs.Packet.{packet_fields};
ghost use Rattle.xs_precinct_write.specs.Parts.{ArePacketLines, head_fields, packet_out, part_bytes as bytes_of_part};

use crate::write::line::{LinePart, OutgoingLine};
use xs_bits::BitWriter;
use xs_io::Memory;

/// The lines of a packet, one of each band from the first up to the end, and whether signs stand apart.
#[derive(Clone, Copy)]
pub struct PacketLines<'a> {
    pub lines: &'a [OutgoingLine],
    pub first: u32,
    pub end: u32,
    pub apart: bool,
}

/// Writes the packet of these lines.
pub fn write_packet(out: &mut BitWriter, packet: &PacketLines) -> Result<(), Memory>
    requires border { length out.old.bits % 8 ≡ 0 }
    requires lines { ArePacketLines packet.now }
    requires fits { fields_fit (head_fields packet.now) ≡ true }
    ensures bits { OnOk result (out.new.bits ≡ out.old.bits ++ bits_of_bytes (packet_out packet.now)) }
    ensures border { OnOk result (length out.new.bits % 8 ≡ 0) }
{
    let flags = part_bytes(packet, LinePart::Flags);
    let counts = part_bytes(packet, LinePart::Counts);
    let numbers = part_bytes(packet, LinePart::Data);
    let signs = part_bytes(packet, LinePart::Signs);
    out.reserve(8 * (6 + flags + counts + numbers + signs) as usize)?;
    write_head(out, numbers, counts, signs);
    write_part(out, packet, LinePart::Flags);
    write_part(out, packet, LinePart::Counts);
    write_part(out, packet, LinePart::Data);
    write_part(out, packet, LinePart::Signs);
    Ok(())
}

// The bytes of a part.
fn part_bytes(packet: &PacketLines, part: LinePart) -> u32
    requires lines { ArePacketLines packet.now }
    ensures size { result ≡ length (bytes_of_part packet.now part) }
    ensures few { result ≤ 2 ^ 20 }
{
    let mut bits = 0;
    'bands: for band in packet.first..packet.end {
        bits += packet.lines[band as usize].part_size(part, packet.apart);
    }
    ((bits + 7) / 8) as u32
}

// Writes the header of a packet whose counts are coded. Slice, precinct and packet: Dr, Ldat, Lcnt, Lsgn.
fn write_head(out: &mut BitWriter, numbers: u32, counts: u32, signs: u32)
    requires border { length out.old.bits % 8 ≡ 0 }
    requires fits { fields_fit (packet_fields false false numbers counts signs) ≡ true }
    requires room { 40 ≤ out.old.spare }
    ensures bits { out.new.bits ≡ out.old.bits ++ bits_of_bytes (field_bytes (packet_fields false false numbers counts signs)) }
    ensures border { length out.new.bits % 8 ≡ 0 }
    ensures spare { out.old.spare ≤ out.new.spare + 40 }
{
    out.put(0, 1);
    out.put(numbers, 15);
    out.put(counts, 13);
    out.put(signs, 11);
}

// Writes a part, up to a byte. Slice, precinct and packet: significance, counts, data, signs.
fn write_part(out: &mut BitWriter, packet: &PacketLines, part: LinePart)
    requires border { length out.old.bits % 8 ≡ 0 }
    requires lines { ArePacketLines packet.now }
    requires room { 8 * length (bytes_of_part packet.now part) + 7 ≤ out.old.spare }
    ensures bits { out.new.bits ≡ out.old.bits ++ bits_of_bytes (bytes_of_part packet.now part) }
    ensures border { length out.new.bits % 8 ≡ 0 }
    ensures spare { out.old.spare ≤ out.new.spare + 8 * length (bytes_of_part packet.now part) }
{
    'bands: for band in packet.first..packet.end {
        packet.lines[band as usize].write_part(part, packet.apart, out);
    }
    out.align();
}
