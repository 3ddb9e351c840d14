//! The packets of a precinct, and the modes of its bands.
ghost use Rattle.std.specs.Prelude.{◌≡◌, ℕ, ◌-◌, ◌<◌, ◌≤◌, ◌++◌, ◌∷◌, [], length, IfOk, OnOk};
ghost use Rattle.std.specs.List.{Contains};
ghost use Rattle.xs_params.specs.Geometry.{bands_of, lines_of, precinct_count, precincts_of};
ghost use Rattle.xs_geometry.specs.SliceLines.{AreLinesOf, end_line_of, first_line_of, rows_held};
ghost use Rattle.xs_sizes.specs.Counted.{AreBandsCounted, IsBandCounted};
ghost use Rattle.xs_sizes.specs.Precincts.{AreAllModes, AreModes, ArePacketsOf, ArePrecinctsKept, IsPrecinctKept};

use crate::bands::{BandCounts, Counting};
use crate::modes::modes_in;
use std::alloc::Global;
use xs_geometry::Geometry;
use xs_io::Memory;

/// The bands of a packet, from the first to the end, and its line.
#[derive(Clone, Copy)]
pub struct PacketBands {
    pub first: u32,
    pub end: u32,
    pub line: u32,
}

/// The packets of a precinct in order, and for each band its mode at the truncations 0 to 15.
#[derive(Drop)]
pub struct PrecinctCounts {
    pub packets: Vec<PacketBands>,
    pub modes: Vec<[u8; 16]>,
}

/// What is kept of the precincts from a first one to an end, which are those of the slice, in room that is there where there is
/// some.
pub fn keep_precincts(
    alloc: Global,
    counting: &Counting,
    bands: &[BandCounts],
    precincts: (u32, u32),
    spare: &mut Vec<PrecinctCounts>,
) -> Result<Vec<PrecinctCounts>, Memory>
    requires lines { (slice : ℕ) × AreLinesOf counting.now.geometry.now slice counting.now.rows.now × (first_line_of counting.now.geometry.now slice 0 ≡ precincts.0) × (end_line_of counting.now.geometry.now slice 0 ≡ precincts.1) }
    requires order { precincts.0 ≤ precincts.1 }
    requires counted { AreBandsCounted counting.now.geometry.now counting.now.rows.now counting.now.signs bands.now }
    ensures { IfOk result (λ kept. ArePrecinctsKept counting.now.geometry.now (rows_held counting.now.rows.now) precincts.0 precincts.1 kept.items) }
{
    let mut kept = Vec::new(alloc);
    'precincts: for precinct in precincts.0..precincts.1 {
        let room = empty_precinct(alloc, spare);
        let counts = keep_precinct(counting, bands, precinct, room)?;
        push_precinct(&mut kept, counts)?;
    }
    Ok(kept)
}

// Appends what is kept of a precinct.
fn push_precinct(kept: &mut Vec<PrecinctCounts>, counts: PrecinctCounts) -> Result<(), Memory>
    ensures { OnOk result (kept.new.items ≡ kept.old.items ++ counts ∷ []) }
{
    kept.push(counts).map_err(|_| Memory)
}

// The room of a precinct that is no longer needed, or new room, with nothing in it.
fn empty_precinct(alloc: Global, spare: &mut Vec<PrecinctCounts>) -> PrecinctCounts
    ensures packets { result.packets.items ≡ [] }
    ensures modes { result.modes.items ≡ [] }
{
    match spare.pop() {
        Some(kept) => {
            let mut empty = kept;
            empty.packets.clear();
            empty.modes.clear();
            empty
        }
        None => PrecinctCounts {
            packets: Vec::new(alloc),
            modes: Vec::new(alloc),
        },
    }
}

// What is kept of a precinct, in empty room.
fn keep_precinct(
    counting: &Counting,
    bands: &[BandCounts],
    precinct: u32,
    room: PrecinctCounts,
) -> Result<PrecinctCounts, Memory>
    requires lines { (slice : ℕ) × AreLinesOf counting.now.geometry.now slice counting.now.rows.now × Contains (precincts_of counting.now.geometry.now slice) precinct }
    requires precinct { precinct < precinct_count counting.now.geometry.now }
    requires counted { AreBandsCounted counting.now.geometry.now counting.now.rows.now counting.now.signs bands.now }
    requires packets { room.packets.items ≡ [] }
    requires modes { room.modes.items ≡ [] }
    ensures { IfOk result (IsPrecinctKept counting.now.geometry.now (rows_held counting.now.rows.now) precinct) }
{
    let mut kept = room;
    list_packets(&mut kept.packets, counting.geometry, precinct)?;
    list_modes(&mut kept.modes, counting, bands, precinct)?;
    Ok(kept)
}

// Lists the packets of a precinct.
fn list_packets(
    packets: &mut Vec<PacketBands>,
    geometry: &Geometry,
    precinct: u32,
) -> Result<(), Memory>
    requires precinct { precinct < precinct_count geometry.now }
    requires empty { packets.old.items ≡ [] }
    ensures { OnOk result (ArePacketsOf geometry.now precinct packets.new.items) }
{
    'packets: for number in 0..geometry.packets(precinct) {
        let place = geometry.packet(precinct, number);
        let (first, end) = geometry.packet_bands(place);
        let packet = PacketBands {
            first,
            end,
            line: place.line,
        };
        push_packet(packets, packet)?;
    }
    Ok(())
}

// Appends a packet.
fn push_packet(packets: &mut Vec<PacketBands>, packet: PacketBands) -> Result<(), Memory>
    ensures { OnOk result (packets.new.items ≡ packets.old.items ++ packet ∷ []) }
{
    packets.push(packet).map_err(|_| Memory)
}

// Lists the modes of the bands in a precinct.
fn list_modes(
    modes: &mut Vec<[u8; 16]>,
    counting: &Counting,
    bands: &[BandCounts],
    precinct: u32,
) -> Result<(), Memory>
    requires lines { (slice : ℕ) × AreLinesOf counting.now.geometry.now slice counting.now.rows.now × Contains (precincts_of counting.now.geometry.now slice) precinct }
    requires precinct { precinct < precinct_count counting.now.geometry.now }
    requires counted { AreBandsCounted counting.now.geometry.now counting.now.rows.now counting.now.signs bands.now }
    requires empty { modes.old.items ≡ [] }
    ensures { OnOk result (AreAllModes counting.now.geometry.now (rows_held counting.now.rows.now) precinct modes.new.items) }
{
    'bands: for band in 0..counting.geometry.bands() {
        let own = band_modes(counting, &bands[band as usize], (precinct, band));
        push_modes(modes, own)?;
    }
    Ok(())
}

// Appends the modes of a band.
fn push_modes(modes: &mut Vec<[u8; 16]>, own: [u8; 16]) -> Result<(), Memory>
    ensures { OnOk result (modes.new.items ≡ modes.old.items ++ own ∷ []) }
{
    modes.push(own).map_err(|_| Memory)
}

// The modes of a band in a precinct.
fn band_modes(counting: &Counting, counts: &BandCounts, at: (u32, u32)) -> [u8; 16]
    requires lines { (slice : ℕ) × AreLinesOf counting.now.geometry.now slice counting.now.rows.now × Contains (precincts_of counting.now.geometry.now slice) at.0 }
    requires precinct { at.0 < precinct_count counting.now.geometry.now }
    requires band { at.1 < bands_of counting.now.geometry.now }
    requires counted { IsBandCounted counting.now.geometry.now counting.now.rows.now counting.now.signs at.1 counts.now }
    ensures { AreModes counting.now.geometry.now (rows_held counting.now.rows.now) at.0 at.1 result }
{
    modes_in(counts, lines_in(counting, counts, at))
}

// The lines of a band in a precinct, whose sizes are there.
fn lines_in(counting: &Counting, counts: &BandCounts, at: (u32, u32)) -> (u32, u32)
    requires lines { (slice : ℕ) × AreLinesOf counting.now.geometry.now slice counting.now.rows.now × Contains (precincts_of counting.now.geometry.now slice) at.0 }
    requires precinct { at.0 < precinct_count counting.now.geometry.now }
    requires band { at.1 < bands_of counting.now.geometry.now }
    requires counted { IsBandCounted counting.now.geometry.now counting.now.rows.now counting.now.signs at.1 counts.now }
    ensures lines { (result.0, result.1) ≡ lines_of counting.now.geometry.now at.0 at.1 }
    ensures order { result.0 ≤ result.1 }
    ensures few { result.1 ≤ 8192 }
    ensures from { counts.now.first ≤ result.0 }
    ensures there { result.1 - counts.now.first ≤ length counts.now.lines.items }
{
    let _height = counting.geometry.band_height(at.1);
    counting.geometry.lines(at.0, at.1)
}
