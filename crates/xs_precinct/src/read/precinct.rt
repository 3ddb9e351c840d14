// A precinct: its header, and its packets.
ghost use Rattle.std.specs.Prelude.{◌≡◌, ◌≢◌, ℕ, ◌+◌, ◌*◌, ◌<◌, ◌≤◌, ◌^◌, true, Some, List, length, slice_index_or, IfOk, IfErr, OnOk};
ghost use Rattle.std.specs.List.{Contains};
ghost use Rattle.std.specs.Result.{result_err};
ghost use Rattle.xs_layout.specs.Geometry.{groups_of};
ghost use Rattle.xs_params.specs.declared.header.Header.{Header};
ghost use Rattle.xs_params.specs.Geometry.{band_width_of, bands_of, packets_of, precinct_count, precincts_of};
ghost use Rattle.xs_params.specs.Accepted.{IsAccepted};
ghost use Rattle.xs_grammar.specs.Precinct.{Content};
ghost use Rattle.xs_params.specs.Geometry.{geometry_of};
ghost use Rattle.xs_geometry.specs.SliceLines.{AreLinesOf};
ghost use Rattle.xs_lists.specs.Bits.{bytes_for};
ghost use Rattle.xs_spelling.specs.Counts.{Line};
ghost use Rattle.xs_geometry.specs.Places.{packet_at};
ghost use Rattle.xs_reading.specs.Packet.{packet_end, packet_fault, packet_lines};
ghost use Rattle.xs_reading.specs.Precinct.{packets_fault, precinct_fault, stated_size, with_packets};
ghost use Rattle.xs_precinct.specs.Held.{above_of};
ghost use Rattle.xs_precinct.specs.Bands.{EachOf, Knows, NumbersOf, no_band};
ghost use Rattle.xs_precinct.specs.Read.{AreAfterPacket, ArePacketsRead, ArePrepared, ArePut, AreReady, HaveRooms, IsPrecinctRead, bands_at};

use crate::read::above::Above;
use crate::read::band::BandState;
use crate::read::bits::{fields_of, next};
use crate::read::packet::{Packet, read_packet};
use crate::read::rows::{FirstRow, put_rows};
use std::alloc::Global;
use xs_faults::PrecinctFault;
use xs_geometry::{Geometry, SliceRows, truncation};
use xs_io::Memory;
use xs_params::Header;

/// A precinct of a picture.
#[derive(Clone, Copy)]
struct Place<'a> {
    header: &'a Header,
    geometry: &'a Geometry,
    precinct: u32,
}

/// Reads a precinct from the front of the bytes, and puts its lines into the rows. The answer is the number of its bytes, or its
/// first fault. After a fault `above` and the precinct's rows are in any state. The content is what the slice's precincts before
/// this one hold. docs/FORMAT.md, 'Slice, precinct and packet'.
pub fn read_precinct(
    alloc: Global,
    header: &Header,
    geometry: &Geometry,
    precinct: u32,
    bytes: &[u8],
    above: &mut Above,
    into: &mut SliceRows,
) -> Result<usize, PrecinctFault>
    requires few { length bytes.now < 2 ^ 32 }
    requires accepted { IsAccepted header.now }
    requires geometry { geometry.now ≡ geometry_of header.now }
    requires there { precinct < precinct_count header.now }
    requires lines { (slice : ℕ) × AreLinesOf header.now slice into.old × Contains (precincts_of header.now slice) precinct }
    requires before { (content : Content) × (above.old ≡ above_of header.now content precinct) }
    ensures lines { (h : Header) (slice : ℕ) → AreLinesOf h slice into.old → AreLinesOf h slice into.new }
    ensures read { IfOk result (λ size. (content : Content) → above.old ≡ above_of header.now content precinct → IsPrecinctRead header.now precinct content bytes.now above.new into.old into.new size) }
    ensures refused { IfErr result (λ fault. fault ≢ PrecinctFault.Memory → (content : Content) → above.old ≡ above_of header.now content precinct → precinct_fault header.now precinct content bytes.now ≡ Some fault) }
{
    let first = head_size(geometry.bands());
    if bytes.len() < first {
        return Err(PrecinctFault::Truncated);
    }
    let head = &bytes[..first];
    let size = read_size(head);
    if bytes.len() - first < size {
        return Err(PrecinctFault::Truncated);
    }
    let place = Place {
        header,
        geometry,
        precinct,
    };
    let bands = above.bands.as_mut_slice();
    begin(alloc, &place, head, bands)?;
    read_packets(&place, &bytes[first..first + size], bands, into)?;
    Ok(first + size)
}

// The bytes of the header of a precinct of so many bands.
fn head_size(bands: u32) -> usize
    requires { bands ≤ 64 }
    ensures { result ≡ bytes_for (40 + 2 * bands) }
{
    (40 + 2 * bands as usize + 7) / 8
}

// Slice, precinct and packet: Lprc.
fn read_size(head: &[u8]) -> usize
    requires few { length head.now < 2 ^ 28 }
    requires whole { 5 ≤ length head.now }
    ensures size { result ≡ stated_size head.now }
    ensures few { result < 2 ^ 24 }
{
    let mut input = fields_of(head);
    next(&mut input, 24) as usize
}

// Begins the precinct in each band. Slice, precinct and packet: Q, R, D.
fn begin(alloc: Global, place: &Place, head: &[u8], bands: &mut [BandState]) -> Result<(), Memory>
    requires accepted { IsAccepted place.now.header.now }
    requires geometry { place.now.geometry.now ≡ geometry_of place.now.header.now }
    requires head { length head.now ≡ bytes_for (40 + 2 * bands_of place.now.header.now) }
    requires count { length bands.old ≡ bands_of place.now.header.now }
    requires room { (k : ℕ) → k < length bands.old → (slice_index_or bands.old k no_band).there ≡ true → length (slice_index_or bands.old k no_band).counts ≡ groups_of (band_width_of place.now.header.now k) }
    ensures begun { OnOk result (ArePrepared place.now.header.now head.now bands.old bands.new) }
{
    let weights = place.header.weights.as_slice();
    let mut input = fields_of(head);
    let _size = next(&mut input, 24);
    let q = next(&mut input, 8) as u8;
    let r = next(&mut input, 8) as u8;
    'bands: for k in 0..bands.len() {
        let mode = next(&mut input, 2) as u8;
        let groups = (place.geometry.band_width(k as u32) + 3) / 4;
        bands[k].begin(alloc, groups, mode, truncation(q, r, weights[k]))?;
    }
    Ok(())
}

// Reads the packets of a precinct whose header was read.
fn read_packets(
    place: &Place,
    body: &[u8],
    bands: &mut [BandState],
    into: &mut SliceRows,
) -> Result<(), PrecinctFault>
    requires few { length body.now < 2 ^ 24 }
    requires accepted { IsAccepted place.now.header.now }
    requires geometry { place.now.geometry.now ≡ geometry_of place.now.header.now }
    requires there { place.now.precinct < precinct_count place.now.header.now }
    requires lines { (slice : ℕ) × AreLinesOf place.now.header.now slice into.old × Contains (precincts_of place.now.header.now slice) place.now.precinct }
    requires count { length bands.old ≡ bands_of place.now.header.now }
    requires room { HaveRooms place.now.header.now bands.old }
    ensures lines { (h : Header) (slice : ℕ) → AreLinesOf h slice into.old → AreLinesOf h slice into.new }
    ensures count { length bands.new ≡ length bands.old }
    ensures fault { (content : Content) (mode : ℕ → ℕ) → AreReady place.now.header.now place.now.precinct content mode bands.old → result_err result ≡ packets_fault place.now.header.now mode 0 (packets_of place.now.header.now place.now.precinct) content body.now }
    ensures read { OnOk result ((content : Content) (mode : ℕ → ℕ) → AreReady place.now.header.now place.now.precinct content mode bands.old → ArePacketsRead place.now.header.now place.now.precinct (with_packets place.now.header.now mode (packets_of place.now.header.now place.now.precinct) content body.now) bands.new into.old into.new) }
{
    let mut at = 0;
    'packets: for number in 0..place.geometry.packets(place.precinct) {
        let packet = Packet {
            number,
            bytes: &body[at..],
        };
        at += read_place(place, &packet, bands, into)?;
    }
    Ok(())
}

// Reads a packet of a precinct, and puts its lines into the rows.
fn read_place(
    place: &Place,
    packet: &Packet,
    bands: &mut [BandState],
    into: &mut SliceRows,
) -> Result<usize, PrecinctFault>
    requires few { length packet.now.bytes.now < 2 ^ 24 }
    requires accepted { IsAccepted place.now.header.now }
    requires geometry { place.now.geometry.now ≡ geometry_of place.now.header.now }
    requires there { place.now.precinct < precinct_count place.now.header.now }
    requires number { packet.now.number < length (packets_of place.now.header.now place.now.precinct) }
    requires lines { (slice : ℕ) × AreLinesOf place.now.header.now slice into.old × Contains (precincts_of place.now.header.now slice) place.now.precinct }
    requires count { length bands.old ≡ bands_of place.now.header.now }
    requires room { HaveRooms place.now.header.now bands.old }
    ensures lines { (h : Header) (slice : ℕ) → AreLinesOf h slice into.old → AreLinesOf h slice into.new }
    ensures count { length bands.new ≡ length bands.old }
    ensures fault { (lines : List Line) → EachOf Knows (bands_at place.now.header.now (packet_at place.now.header.now place.now.precinct packet.now.number) bands.old) lines → result_err result ≡ packet_fault place.now.header.now packet.now.number lines packet.now.bytes.now }
    ensures ends { IfOk result (λ size. (lines : List Line) → EachOf Knows (bands_at place.now.header.now (packet_at place.now.header.now place.now.precinct packet.now.number) bands.old) lines → size ≡ packet_end place.now.header.now lines packet.now.bytes.now) }
    ensures within { IfOk result (λ size. size ≤ length packet.now.bytes.now) }
    ensures read { OnOk result ((lines : List Line) → EachOf Knows (bands_at place.now.header.now (packet_at place.now.header.now place.now.precinct packet.now.number) bands.old) lines → EachOf NumbersOf (bands_at place.now.header.now (packet_at place.now.header.now place.now.precinct packet.now.number) bands.new) (packet_lines place.now.header.now lines packet.now.bytes.now)) }
    ensures after { OnOk result (AreAfterPacket place.now.header.now (packet_at place.now.header.now place.now.precinct packet.now.number) bands.old bands.new) }
    ensures put { OnOk result (ArePut place.now.header.now (packet_at place.now.header.now place.now.precinct packet.now.number) bands.new into.old into.new) }
{
    let at = place.geometry.packet(place.precinct, packet.number);
    let (first, end) = place.geometry.packet_bands(at);
    let lines = &mut bands[first as usize..end as usize];
    let size = read_packet(place.header, packet, lines)?;
    let row = FirstRow {
        band: first,
        line: at.line,
    };
    put_rows(place.header.quant, row, lines, into);
    Ok(size)
}
