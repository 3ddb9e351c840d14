// A precinct: its header, its packets and the filler.
ghost use Rattle.std.specs.Prelude.{◌≡◌, ℕ, ◌+◌, ◌*◌, ◌%◌, ◌^◌, ◌<◌, ◌≤◌, ◌++◌, ◌∷◌, [], true, false, length, map, replicate, slice_index_or, IfOk, OnOk, OnErr};
ghost use Rattle.std.specs.List.{Contains};
ghost use Rattle.xs_lists.specs.Bits.{bits_of_bytes};
ghost use Rattle.xs_lists.specs.Spelling.{upto};
ghost use Rattle.xs_params.specs.Accepted.{IsAccepted};
ghost use Rattle.xs_params.specs.Geometry.{bands_of, geometry_of, packets_of, precincts_of};
ghost use Rattle.xs_geometry.specs.Places.{packet_at};
ghost use Rattle.xs_geometry.specs.SliceLines.{AreLinesOf, rows_held};
ghost use Rattle.xs_grammar.specs.Coded.{field_bytes, packet_bytes, packet_fits, packets_bytes, precinct_body as body_bytes, precinct_bytes, precinct_fits};
ghost use Rattle.xs_rate.specs.Choice.{precinct_bytes_at, precinct_fits_at};
ghost use Rattle.xs_rate.specs.Laws.{AreSmall};
ghost use Rattle.xs_precinct_write.specs.Outgoing.{HaveModes, HaveRoom, no_outgoing};
ghost use Rattle.xs_precinct_write.specs.Sent.{AreLinesAlike, AreModesIn, HasPrecinct, content_in, modes_in};

use crate::write::line::OutgoingLine;
use crate::write::modes::{modes_at, set_modes};
use crate::write::packet::{PacketLines, write_packet};
use crate::write::slice::{SliceAt, load_lines};
use std::alloc::Global;
use xs_bits::BitWriter;
use xs_geometry::{Geometry, SliceRows};
use xs_io::{Memory, Octets};
use xs_layout::Candidate;
use xs_params::Header;
use xs_sizes::SliceCounts;

/// Room for a line of each band, in which the precincts of a slice are written one after the other.
#[derive(Drop)]
pub struct Scratch {
    pub lines: Vec<OutgoingLine>,
}

impl Scratch {
    /// Room for the bands of a geometry.
    pub fn of(alloc: Global, geometry: &Geometry) -> Result<Scratch, Memory>
        ensures room { IfOk result (λ scratch. HaveRoom geometry.now scratch.lines.items) }
    {
        let mut lines = Vec::new(alloc);
        'bands: for band in 0..geometry.bands() {
            let groups = (geometry.band_width(band) + 3) / 4;
            let line = OutgoingLine::blank(alloc, groups)?;
            push_line(&mut lines, line)?;
        }
        Ok(Scratch { lines })
    }
}

// Appends a line.
fn push_line(lines: &mut Vec<OutgoingLine>, line: OutgoingLine) -> Result<(), Memory>
    ensures { OnOk result (lines.new.items ≡ lines.old.items ++ line ∷ []) }
{
    lines.push(line).map_err(|_| Memory)
}

/// A precinct, the modes of its bands, and how many zero bytes of filler follow its packets.
#[derive(Clone, Copy)]
pub struct FilledPrecinct {
    pub precinct: u32,
    pub modes: [u8; 30],
    pub filler: u32,
}

/// Appends the precinct of these rows at a candidate. Each length in it has room in its field. A refusal leaves the bytes as
/// they were. docs/FORMAT.md, 'Slice, precinct and packet'.
pub fn write_precinct(
    alloc: Global,
    header: &Header,
    geometry: &Geometry,
    precinct: u32,
    rows: &SliceRows,
    candidate: Candidate,
    out: &mut Octets,
) -> Result<(), Memory>
    requires accepted { IsAccepted header.now }
    requires heads { header.now.long_heads ≡ false }
    requires geometry { geometry.now ≡ geometry_of header.now }
    requires lines { (slice : ℕ) × AreLinesOf header.now slice rows.now × Contains (precincts_of header.now slice) precinct }
    requires small { AreSmall (rows_held rows.now) }
    requires fits { precinct_fits_at header.now (rows_held rows.now) candidate precinct ≡ true }
    ensures written { OnOk result (out.new ≡ out.old ++ precinct_bytes_at header.now (rows_held rows.now) candidate precinct) }
    ensures stays { OnErr result (out.new ≡ out.old) }
{
    let at = SliceAt {
        header,
        geometry,
        rows,
        candidate,
    };
    let counts = SliceCounts::of(alloc, geometry, rows)?;
    let plain = FilledPrecinct {
        precinct,
        modes: modes_at(&at, &counts, precinct),
        filler: 0,
    };
    let mut scratch = Scratch::of(alloc, geometry)?;
    write_filled_precinct(alloc, &at, plain, &mut scratch, out)
}

/// The same with modes that are there, and with filler, in room that was made for the slice.
pub fn write_filled_precinct(
    alloc: Global,
    at: &SliceAt,
    wanted: FilledPrecinct,
    scratch: &mut Scratch,
    out: &mut Octets,
) -> Result<(), Memory>
    requires precinct { HasPrecinct at.now wanted.precinct }
    requires modes { AreModesIn at.now wanted.precinct wanted.modes }
    requires room { HaveRoom at.now.header.now scratch.old.lines.items }
    requires fits { precinct_fits at.now.header.now (content_in at.now) (modes_in at.now) (λ _. wanted.filler) wanted.precinct ≡ true }
    ensures written { OnOk result (out.new ≡ out.old ++ precinct_bytes at.now.header.now (content_in at.now) (modes_in at.now) (λ _. wanted.filler) wanted.precinct) }
    ensures stays { OnErr result (out.new ≡ out.old) }
    ensures room { HaveRoom at.now.header.now scratch.new.lines.items }
{
    let whole = filled_precinct(alloc, at, wanted, scratch.lines.as_mut_slice())?;
    out.extend(whole.as_slice())?;
    Ok(())
}

// The bytes of a precinct.
fn filled_precinct(
    alloc: Global,
    at: &SliceAt,
    wanted: FilledPrecinct,
    lines: &mut [OutgoingLine],
) -> Result<Octets, Memory>
    requires precinct { HasPrecinct at.now wanted.precinct }
    requires modes { AreModesIn at.now wanted.precinct wanted.modes }
    requires room { HaveRoom at.now.header.now lines.old }
    requires fits { precinct_fits at.now.header.now (content_in at.now) (modes_in at.now) (λ _. wanted.filler) wanted.precinct ≡ true }
    ensures whole { IfOk result (λ whole. whole ≡ precinct_bytes at.now.header.now (content_in at.now) (modes_in at.now) (λ _. wanted.filler) wanted.precinct) }
    ensures room { HaveRoom at.now.header.now lines.new }
{
    set_modes(at, wanted, lines);
    let body = precinct_body(alloc, at, wanted, lines)?;
    with_head(alloc, at.candidate, lines, &body)
}

// The packets of a precinct, and its filler: docs/FORMAT.md, 'Rate choice'.
fn precinct_body(
    alloc: Global,
    at: &SliceAt,
    wanted: FilledPrecinct,
    lines: &mut [OutgoingLine],
) -> Result<Octets, Memory>
    requires precinct { HasPrecinct at.now wanted.precinct }
    requires room { HaveRoom at.now.header.now lines.old }
    requires modes { HaveModes at.now.header.now (modes_in at.now wanted.precinct) lines.old }
    requires fits { precinct_fits at.now.header.now (content_in at.now) (modes_in at.now) (λ _. wanted.filler) wanted.precinct ≡ true }
    ensures body { IfOk result (λ body. body ≡ body_bytes at.now.header.now (content_in at.now) (modes_in at.now) (λ _. wanted.filler) wanted.precinct) }
    ensures alike { AreLinesAlike lines.old lines.new }
{
    let mut out = BitWriter::new(alloc);
    write_packets(at, wanted.precinct, lines, &mut out)?;
    let mut body = out.finish();
    let filler = zeros(alloc, wanted.filler)?;
    body.extend(filler.as_slice())?;
    Ok(body)
}

// So many zero bytes.
fn zeros(alloc: Global, count: u32) -> Result<Vec<u8>, Memory>
    ensures { IfOk result (λ zeros. zeros.items ≡ replicate count 0) }
{
    vec![in alloc; 0; count as usize].map_err(|_| Memory)
}

// Writes the packets of a precinct.
fn write_packets(
    at: &SliceAt,
    precinct: u32,
    lines: &mut [OutgoingLine],
    out: &mut BitWriter,
) -> Result<(), Memory>
    requires border { length out.old.bits % 8 ≡ 0 }
    requires precinct { HasPrecinct at.now precinct }
    requires room { HaveRoom at.now.header.now lines.old }
    requires modes { HaveModes at.now.header.now (modes_in at.now precinct) lines.old }
    requires fits { (number : ℕ) → number < length (packets_of at.now.header.now precinct) → packet_fits at.now.header.now (content_in at.now) (modes_in at.now precinct) (packet_at at.now.header.now precinct number) ≡ true }
    ensures bits { OnOk result (out.new.bits ≡ out.old.bits ++ bits_of_bytes (packets_bytes at.now.header.now (content_in at.now) (modes_in at.now) precinct)) }
    ensures border { OnOk result (length out.new.bits % 8 ≡ 0) }
    ensures alike { AreLinesAlike lines.old lines.new }
{
    'packets: for number in 0..at.geometry.packets(precinct) {
        send_packet(at, (precinct, number), lines, out)?;
    }
    Ok(())
}

// Writes the packet of a precinct with a number.
fn send_packet(
    at: &SliceAt,
    place: (u32, u32),
    lines: &mut [OutgoingLine],
    out: &mut BitWriter,
) -> Result<(), Memory>
    requires border { length out.old.bits % 8 ≡ 0 }
    requires precinct { HasPrecinct at.now place.0 }
    requires number { place.1 < length (packets_of at.now.header.now place.0) }
    requires room { HaveRoom at.now.header.now lines.old }
    requires modes { HaveModes at.now.header.now (modes_in at.now place.0) lines.old }
    requires fits { packet_fits at.now.header.now (content_in at.now) (modes_in at.now place.0) (packet_at at.now.header.now place.0 place.1) ≡ true }
    ensures bits { OnOk result (out.new.bits ≡ out.old.bits ++ bits_of_bytes (packet_bytes at.now.header.now (content_in at.now) (modes_in at.now place.0) (packet_at at.now.header.now place.0 place.1))) }
    ensures border { OnOk result (length out.new.bits % 8 ≡ 0) }
    ensures alike { AreLinesAlike lines.old lines.new }
{
    let packet = at.geometry.packet(place.0, place.1);
    let (first, end) = at.geometry.packet_bands(packet);
    load_lines(at, (first, end), packet.line, lines);
    let packet_lines = PacketLines {
        lines,
        first,
        end,
        apart: at.header.signs_apart,
    };
    write_packet(out, &packet_lines)?;
    Ok(())
}

// A precinct with this body: the header before it. Slice, precinct and packet: Lprc, Q, R, D.
fn with_head(
    alloc: Global,
    candidate: Candidate,
    lines: &[OutgoingLine],
    body: &Octets,
) -> Result<Octets, Memory>
    requires few { length lines.now ≤ 30 }
    requires fits { length body.now < 2 ^ 24 }
    ensures { IfOk result (λ whole. whole ≡ field_bytes ((24, length body.now) ∷ (8, candidate.q) ∷ (8, candidate.r) ∷ map (λ band. (2, (slice_index_or lines.now band no_outgoing).mode)) (upto (length lines.now))) ++ body.now) }
{
    let mut out = BitWriter::new(alloc);
    out.reserve(112)?;
    out.put(body.len() as u32, 24);
    out.put(u32::from(candidate.q), 8);
    out.put(u32::from(candidate.r), 8);
    'modes: for band in 0..lines.len() {
        out.put(u32::from(lines[band].mode()), 2);
    }
    out.align();
    let mut whole = out.finish();
    whole.extend(body.as_slice())?;
    Ok(whole)
}
