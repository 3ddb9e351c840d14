//! The bytes of a slice from one candidate to the next: only the packets are measured that have a band whose truncation changed.
ghost use Rattle.std.specs.Prelude.{◌≡◌, ℕ, ◌+◌, ◌<◌, ◌≤◌, ◌^◌, min, false, if◌then◌else◌, List, All};
ghost use Rattle.std.specs.List.{Contains};
ghost use Rattle.xs_layout.specs.Geometry.{PacketPlace};
ghost use Rattle.xs_layout.specs.declared.Candidate.{Candidate};
ghost use Rattle.xs_layout.specs.declared.Weight.{Weight};
ghost use Rattle.xs_params.specs.Geometry.{precincts_of, slice_count};
ghost use Rattle.xs_geometry.specs.SliceLines.{BandLines, rows_held};
ghost use Rattle.xs_rate.specs.Choice.{precinct_size_at};
ghost use Rattle.xs_rate.specs.Chosen.{size_at};
ghost use Rattle.xs_sizes.specs.Measured.{IsCoding, IsPacketOf, header_in, packet_size_at};
ghost use Rattle.xs_sizes.specs.Stepped.{AreAlike, IsChange, IsShift, IsStep};

use crate::measure::{kept_of, precincts_in};
use crate::packets::{Coding, packet_size};
use crate::precincts::{PacketBands, PrecinctCounts};

/// The truncations of the bands before and after a step. They differ at most in the bands from a first one up to an end.
#[derive(Clone, Copy)]
pub struct Change<'a> {
    pub from: &'a [u8; 30],
    pub to: &'a [u8; 30],
    pub first: u32,
    pub end: u32,
}

/// The bytes that a step takes away and those that it adds, of what it measures.
#[derive(Clone, Copy)]
pub struct Shift {
    pub removed: u64,
    pub added: u64,
}

/// The step between two lists of truncations.
pub fn change_of<'a>(from: &'a [u8; 30], to: &'a [u8; 30]) -> Change<'a>
    requires from { All (λ t. t ≤ 15) from.now }
    requires to { All (λ t. t ≤ 15) to.now }
    ensures change { IsChange result }
    ensures from { result.from.now ≡ from.now }
    ensures to { result.to.now ≡ to.now }
{
    let (first, end) = changed_bands(from, to);
    Change {
        from,
        to,
        first,
        end,
    }
}

// The first band whose truncation changed, and one past the last.
fn changed_bands(from: &[u8; 30], to: &[u8; 30]) -> (u32, u32)
    ensures { AreAlike from.now to.now result.0 result.1 30 }
{
    let mut range = (30, 0);
    'bands: for band in 0..30u32 {
        let changed = from[band as usize] != to[band as usize];
        range = with_band(range, band, changed);
    }
    range
}

// The same range of bands, and this one where it changed.
fn with_band(range: (u32, u32), band: u32, changed: bool) -> (u32, u32)
    requires { band < 2 ^ 31 }
    ensures first { result.0 ≡ (if changed then min range.0 band else range.0) }
    ensures end { result.1 ≡ (if changed then band + 1 else range.1) }
{
    if changed {
        (range.0.min(band), band + 1)
    } else {
        range
    }
}

/// The bytes of a slice after a step, by those before.
pub fn slice_step(coding: &Coding, slice: u32, change: &Change, size: u64) -> u64
    requires slice { slice < slice_count coding.now.geometry.now }
    requires step { (bands : List BandLines) × (weights : List Weight) × (old : Candidate) × (new : Candidate) × IsStep slice bands weights old new coding.now change.now × (size ≡ size_at (header_in coding.now weights) (rows_held bands) slice old) }
    requires change { IsChange change.now }
    requires few { size < 2 ^ 63 }
    ensures step { (bands : List BandLines) (weights : List Weight) (old new : Candidate) → IsStep slice bands weights old new coding.now change.now → size ≡ size_at (header_in coding.now weights) (rows_held bands) slice old → result ≡ size_at (header_in coding.now weights) (rows_held bands) slice new }
    ensures few { result ≤ size + 2 ^ 53 }
{
    let shift = slice_shift(coding, slice, change);
    size - shift.removed + shift.added
}

// What a step changes in a slice.
fn slice_shift(coding: &Coding, slice: u32, change: &Change) -> Shift
    requires slice { slice < slice_count coding.now.geometry.now }
    requires coding { (bands : List BandLines) × IsCoding slice bands coding.now }
    requires change { IsChange change.now }
    ensures shift { (bands : List BandLines) (weights : List Weight) (old new : Candidate) → IsStep slice bands weights old new coding.now change.now → IsShift (size_at (header_in coding.now weights) (rows_held bands) slice old) (size_at (header_in coding.now weights) (rows_held bands) slice new) result }
    ensures few { result.added ≤ 2 ^ 53 }
{
    let (first, end) = precincts_in(coding.geometry, slice);
    let mut shift = Shift {
        removed: 0,
        added: 0,
    };
    'precincts: for precinct in first..end {
        let own = precinct_shift(coding, precinct, change);
        shift = both_shifts(shift, own);
    }
    shift
}

// One after the other.
fn both_shifts(shift: Shift, more: Shift) -> Shift
    requires removed { shift.removed + more.removed < 2 ^ 64 }
    requires added { shift.added + more.added < 2 ^ 64 }
    ensures removed { result.removed ≡ shift.removed + more.removed }
    ensures added { result.added ≡ shift.added + more.added }
{
    Shift {
        removed: shift.removed + more.removed,
        added: shift.added + more.added,
    }
}

// What a step changes in a precinct.
fn precinct_shift(coding: &Coding, precinct: u32, change: &Change) -> Shift
    requires coding { (slice : ℕ) × (bands : List BandLines) × IsCoding slice bands coding.now × Contains (precincts_of coding.now.geometry.now slice) precinct }
    requires change { IsChange change.now }
    ensures shift { (slice : ℕ) (bands : List BandLines) (weights : List Weight) (old new : Candidate) → IsStep slice bands weights old new coding.now change.now → Contains (precincts_of coding.now.geometry.now slice) precinct → IsShift (precinct_size_at (header_in coding.now weights) (rows_held bands) old precinct) (precinct_size_at (header_in coding.now weights) (rows_held bands) new precinct) result }
    ensures few { (result.removed ≤ 2 ^ 40) × (result.added ≤ 2 ^ 40) }
{
    let _bands = coding.geometry.bands();
    let kept = kept_of(coding.counts, precinct);
    let mut shift = Shift {
        removed: 0,
        added: 0,
    };
    'packets: for number in 0..kept.packets.len() {
        let own = packet_shift(coding, kept, kept.packets[number], change);
        shift = both_shifts(shift, own);
    }
    shift
}

// What a step changes in a packet: nothing where the packet has none of the bands whose truncations changed.
fn packet_shift(
    coding: &Coding,
    kept: &PrecinctCounts,
    packet: PacketBands,
    change: &Change,
) -> Shift
    requires packet { (slice : ℕ) × (bands : List BandLines) × (precinct : ℕ) × (place : PacketPlace) × IsPacketOf slice bands precinct place coding.now kept.now packet }
    requires few { packet.end ≤ 30 }
    requires change { IsChange change.now }
    ensures shift { (slice : ℕ) (bands : List BandLines) (weights : List Weight) (old new : Candidate) (precinct : ℕ) (place : PacketPlace) → IsStep slice bands weights old new coding.now change.now → IsPacketOf slice bands precinct place coding.now kept.now packet → IsShift (packet_size_at (header_in coding.now weights) (rows_held bands) old precinct place) (packet_size_at (header_in coding.now weights) (rows_held bands) new precinct place) result }
    ensures few { (result.removed ≤ 2 ^ 36 + 6) × (result.added ≤ 2 ^ 36 + 6) }
{
    if !touches(change, packet) {
        return Shift {
            removed: 0,
            added: 0,
        };
    }
    Shift {
        removed: packet_size(coding, kept, packet, change.from).bytes,
        added: packet_size(coding, kept, packet, change.to).bytes,
    }
}

// Whether a packet has one of the bands whose truncations may have changed.
fn touches(change: &Change, packet: PacketBands) -> bool
    ensures { result ≡ false → (band : ℕ) → packet.first ≤ band → band < packet.end → change.now.first ≤ band → change.now.end ≤ band }
{
    packet.first < change.end && change.first < packet.end
}
