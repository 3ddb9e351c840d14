// The packets of a codestream.
ghost use Rattle.std.specs.Prelude.{◌≡◌, ◌+◌, ◌-◌, ◌<◌, ◌≤◌, ◌^◌, ◌++◌, [], nat_eq, if◌then◌else◌, length, slice_index_or, IfOk, OnOk};
ghost use Rattle.xs_lists.specs.Bits.{FieldsFit};
ghost use Rattle.xs_rtp.specs.Payload.{pay_fields};
ghost use Rattle.xs_pack.specs.Datagrams.{datagram, datagrams_of, IsPackable, is_last, piece_count, piece_of, piece_pay, piece_rtp, unit_datagrams};
ghost use Rattle.xs_pack.specs.Packing.{datagrams_below, sent_of};

use std::alloc::Global;
use std::marker::Model;
use xs_io::{Memory, Octets};
use xs_params::markers::EOC;
use xs_params::{Checked, Stream};
use xs_rtp::{Pay, Rtp};

/// What names the header unit in a payload header.
const HEADER: u16 = 2047;

/// The RTP packets of a codestream, in order. Contracts see their bytes.
#[derive(Drop)]
pub struct Datagrams {
    packets: Vec<Octets>,
}

impl Model for Datagrams {
    ghost use Rattle.std.specs.Prelude.{ℕ, List, length, ◌<◌, ◌^◌};

    ghost Value = { List (List ℕ) };

    ghost view = { λ d. d.packets.items };

    ghost invariant = { λ d. length d.packets.items < 2 ^ 32 };
}

impl Datagrams {
    /// The number of packets.
    pub fn len(&self) -> u32
        ensures { result ≡ length self.now }
    {
        self.packets.len() as u32
    }

    /// A packet, from its fixed header to the end of its piece.
    pub fn get(&self, number: u32) -> &[u8]
        requires { number < length self.now }
        ensures { result.now ≡ slice_index_or self.now number [] }
    {
        self.packets[number as usize].as_slice()
    }
}

// A unit of a picture: its number, its bytes, and whether it is the picture's last.
#[derive(Drop)]
struct UnitBytes<'a> {
    number: u32,
    bytes: &'a [u8],
    last: bool,
}

// What the packets of a picture say of it: the settings, its number, and the sequence number of its first packet.
#[derive(Drop)]
struct Packer<'a> {
    settings: &'a Checked,
    picture: u32,
    sequence: u16,
}

impl Packer<'_> {
    // The number of pieces of a unit.
    fn pieces(&self, bytes: &[u8]) -> usize
        requires { piece_count self.now.settings.now.chunk bytes.now ≤ 512 }
        ensures { result ≡ piece_count self.now.settings.now.chunk bytes.now }
    {
        let chunk = self.settings.settings().chunk as usize;
        (bytes.len() + chunk - 1) / chunk
    }

    // Whether a piece is the last of its unit.
    fn is_last(&self, bytes: &[u8], piece: usize) -> bool
        requires few { piece_count self.now.settings.now.chunk bytes.now ≤ 512 }
        requires piece { piece < 512 }
        ensures { result ≡ is_last self.now.settings.now.chunk bytes.now piece }
    {
        piece + 1 == self.pieces(bytes)
    }

    // The fixed header of a piece's packet, where so many packets were made before the unit.
    fn rtp(&self, unit: &UnitBytes<'_>, number: usize, piece: usize) -> Rtp
        requires picture { self.now.picture < 256 }
        requires few { piece_count self.now.settings.now.chunk unit.now.bytes.now ≤ 512 }
        requires piece { piece < 512 }
        requires before { number < 2 ^ 32 }
        ensures rtp { result ≡ piece_rtp self.now.settings.now (sent_of self.now unit.now number) piece }
        ensures fits { result.payload_type < 2 ^ 7 }
    {
        let settings = self.settings.settings();
        Rtp {
            marker: unit.last && self.is_last(unit.bytes, piece),
            payload_type: settings.payload_type,
            sequence: ((usize::from(self.sequence) + number + piece) % 65536) as u16,
            timestamp: settings.first_timestamp + self.picture * settings.step,
            ssrc: settings.ssrc,
        }
    }

    // Its payload header.
    fn pay(&self, unit: &UnitBytes<'_>, piece: usize) -> Pay
        requires unit { unit.now.number ≤ 2047 }
        requires few { piece_count self.now.settings.now.chunk unit.now.bytes.now ≤ 512 }
        requires piece { piece < 512 }
        ensures pay { result ≡ piece_pay self.now.settings.now (sent_of self.now unit.now 0) piece }
        ensures fits { FieldsFit (pay_fields result) }
    {
        Pay {
            sequential: true,
            slice_mode: true,
            last: self.is_last(unit.bytes, piece),
            interlace: 0,
            frame: (self.picture % 32) as u8,
            sep: sep_of(unit.number),
            place: piece as u16,
        }
    }

    // The packet of a piece.
    fn datagram(
        &self,
        alloc: Global,
        unit: &UnitBytes<'_>,
        number: usize,
        piece: usize,
    ) -> Result<Octets, Memory>
        requires picture { self.now.picture < 256 }
        requires unit { unit.now.number ≤ 2047 }
        requires few { piece_count self.now.settings.now.chunk unit.now.bytes.now ≤ 512 }
        requires piece { piece < piece_count self.now.settings.now.chunk unit.now.bytes.now }
        requires before { number < 2 ^ 32 }
        ensures { IfOk result (λ packet. packet ≡ datagram self.now.settings.now (sent_of self.now unit.now number) piece) }
    {
        let rtp = self.rtp(unit, number, piece).write();
        let pay = self.pay(unit, piece).write();
        let chunk = self.settings.settings().chunk as usize;
        joined(alloc, &rtp, &pay, part(unit.bytes, piece, chunk))
    }

    // Appends the packets of a unit.
    fn pack_unit(
        &self,
        alloc: Global,
        unit: &UnitBytes<'_>,
        packets: &mut Vec<Octets>,
    ) -> Result<(), Memory>
        requires picture { self.now.picture < 256 }
        requires unit { unit.now.number ≤ 2047 }
        requires few { piece_count self.now.settings.now.chunk unit.now.bytes.now ≤ 512 }
        requires before { length packets.old.items < 2 ^ 32 }
        ensures { OnOk result (packets.new.items ≡ packets.old.items ++ unit_datagrams self.now.settings.now (sent_of self.now unit.now (length packets.old.items))) }
    {
        let number = packets.len();
        'cutting: for piece in 0..self.pieces(unit.bytes) {
            let packet = self.datagram(alloc, unit, number, piece)?;
            if packets.push(packet).is_err() {
                return Err(Memory);
            }
        }
        Ok(())
    }

    // Appends the packets of the header unit: boxes and header.
    fn pack_header(
        &self,
        alloc: Global,
        stream: &Stream,
        packets: &mut Vec<Octets>,
    ) -> Result<(), Memory>
        requires packable { IsPackable self.now.settings.now stream.now }
        requires picture { self.now.picture < 256 }
        requires none { packets.old.items ≡ [] }
        ensures { OnOk result (packets.new.items ≡ datagrams_below self.now stream.now 1) }
    {
        let boxes = self.settings.settings().boxes.as_slice();
        let bytes = joined(alloc, boxes, stream.header().as_slice(), &[])?;
        let unit = UnitBytes {
            number: 0,
            bytes: bytes.as_slice(),
            last: stream.len() == 0,
        };
        self.pack_unit(alloc, &unit, packets)
    }

    // Appends the packets of a slice, the last with the end marker.
    fn pack_slice(
        &self,
        alloc: Global,
        stream: &Stream,
        slice: u32,
        packets: &mut Vec<Octets>,
    ) -> Result<(), Memory>
        requires packable { IsPackable self.now.settings.now stream.now }
        requires picture { self.now.picture < 256 }
        requires slice { slice < length stream.now.slices }
        requires before { packets.old.items ≡ datagrams_below self.now stream.now (slice + 1) }
        ensures { OnOk result (packets.new.items ≡ datagrams_below self.now stream.now (slice + 2)) }
    {
        let number = slice + 1;
        let bytes = stream.slice(slice).as_slice();
        if number < stream.len() {
            let unit = UnitBytes {
                number,
                bytes,
                last: false,
            };
            return self.pack_unit(alloc, &unit, packets);
        }
        let ended = joined(alloc, bytes, &EOC, &[])?;
        let unit = UnitBytes {
            number,
            bytes: ended.as_slice(),
            last: true,
        };
        self.pack_unit(alloc, &unit, packets)
    }
}

// How a payload header names a unit.
fn sep_of(unit: u32) -> u16
    requires { unit ≤ 2047 }
    ensures { result ≡ (if nat_eq unit 0 then 2047 else unit - 1) }
{
    if unit == 0 { HEADER } else { (unit - 1) as u16 }
}

// A piece of a unit's bytes.
fn part(bytes: &[u8], piece: usize, chunk: usize) -> &[u8]
    requires some { 1 ≤ chunk }
    requires piece { piece < piece_count chunk bytes.now }
    ensures { result.now ≡ piece_of chunk bytes.now piece }
{
    let rest = &bytes[piece * chunk..];
    &rest[..chunk.min(rest.len())]
}

// Three parts joined.
fn joined(alloc: Global, front: &[u8], middle: &[u8], back: &[u8]) -> Result<Octets, Memory>
    ensures { IfOk result (λ list. list ≡ front.now ++ middle.now ++ back.now) }
{
    let mut list = Octets::new(alloc);
    list.reserve(
        front
            .len()
            .saturating_add(middle.len())
            .saturating_add(back.len()),
    )?;
    list.extend(front)?;
    list.extend(middle)?;
    list.extend(back)?;
    Ok(list)
}

/// The RTP packets of a codestream, which is the picture of this number, 'RTP packets and captures'. The first has this
/// sequence number, and later ones run on.
pub fn pack(
    alloc: Global,
    stream: &Stream,
    settings: &Checked,
    picture: u32,
    sequence: u16,
) -> Result<Datagrams, Memory>
    requires packable { IsPackable settings.now stream.now }
    requires picture { picture < 256 }
    ensures { IfOk result (λ d. d ≡ datagrams_of settings.now stream.now picture sequence) }
{
    let packer = Packer {
        settings,
        picture,
        sequence,
    };
    let mut packets = Vec::new(alloc);
    packer.pack_header(alloc, stream, &mut packets)?;
    'packing: for slice in 0..stream.len() {
        packer.pack_slice(alloc, stream, slice, &mut packets)?;
    }
    Ok(Datagrams { packets })
}
