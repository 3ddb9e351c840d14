//! The bits of the parts of packets, and their bytes.
ghost use Rattle.std.specs.Prelude.{◌≡◌, ℕ, ◌+◌, ◌<◌, ◌≤◌, ◌^◌, List, All, length, slice_index_or};
ghost use Rattle.xs_geometry.specs.SliceLines.{BandLines, HasLine, rows_held};
ghost use Rattle.xs_layout.specs.Geometry.{PacketPlace};
ghost use Rattle.xs_layout.specs.declared.Candidate.{Candidate};
ghost use Rattle.xs_layout.specs.declared.Weight.{Weight};
ghost use Rattle.xs_lists.specs.Bits.{bytes_for as bytes_of_bits};
ghost use Rattle.xs_sizes.specs.Measured.{AreLineBits, ArePacketBits, IsCodedAt, IsCoding, IsPacketOf, header_in, parts_fit, parts_size, packet_fits_at, packet_size_at};

use crate::counts::SliceCounts;
use crate::line::{counts_at, numbers_at, signs_at};
use crate::modes::{flags_in, line_at};
use crate::precincts::{PacketBands, PrecinctCounts};
use xs_geometry::Geometry;
use xs_layout::Quant;

/// The bytes of a packet's header. Slice, precinct and packet: Dr, Ldat, Lcnt, Lsgn.
const HEAD: u64 = 5;

/// What the sizes of a slice are asked for: the counts of its rows, where the signs stand, and the quantiser.
#[derive(Clone, Copy)]
pub struct Coding<'a> {
    pub geometry: &'a Geometry,
    pub counts: &'a SliceCounts,
    pub signs_apart: bool,
    pub quant: Quant,
}

/// The bits of a line, or of the lines of a packet, by the parts of a packet.
#[derive(Clone, Copy)]
pub struct PartBits {
    pub flags: u64,
    pub counts: u64,
    pub numbers: u64,
    pub signs: u64,
}

/// The bytes of a packet or a precinct, and whether each length in it has room in its field.
#[derive(Clone, Copy)]
pub struct Measured {
    pub bytes: u64,
    pub fits_fields: bool,
}

// The bits of a line with t planes cut off, in a mode.
fn line_bits(coding: &Coding, at: (u32, u32), t: u8, mode: u8) -> PartBits
    requires coding { (slice : ℕ) × (bands : List BandLines) × IsCoding slice bands coding.now × HasLine bands at.0 at.1 }
    requires cut { t ≤ 15 }
    requires mode { mode < 4 }
    ensures bits { (slice : ℕ) (bands : List BandLines) (weights : List Weight) → IsCoding slice bands coding.now → AreLineBits (header_in coding.now weights) (rows_held bands) t mode at.0 at.1 result }
    ensures few { (result.flags < 2 ^ 32) × (result.counts < 2 ^ 32) × (result.numbers < 2 ^ 32) × (result.signs < 2 ^ 32) }
{
    let counts = &coding.counts.bands[at.0 as usize];
    let line = line_at(counts, at.1);
    PartBits {
        flags: u64::from(flags_in(counts, mode)),
        counts: counts_at(line, t, mode),
        numbers: numbers_at(line, t, coding.signs_apart),
        signs: signs_at(line, t, coding.quant),
    }
}

/// The mode of a band at a truncation.
pub fn mode_of(kept: &PrecinctCounts, band: u32, t: u8) -> u8
    requires cut { t ≤ 15 }
    requires there { band < length kept.now.modes.items }
    ensures { (none : List ℕ) → result ≡ slice_index_or (slice_index_or kept.now.modes.items band none) t 0 }
{
    kept.modes[band as usize][t as usize]
}

// The bits of the parts of a packet, with these truncations of the bands.
fn packet_bits(
    coding: &Coding,
    kept: &PrecinctCounts,
    packet: PacketBands,
    cuts: &[u8; 30],
) -> PartBits
    requires packet { (slice : ℕ) × (bands : List BandLines) × (precinct : ℕ) × (place : PacketPlace) × IsPacketOf slice bands precinct place coding.now kept.now packet }
    requires few { packet.end ≤ 30 }
    requires cuts { All (λ t. t ≤ 15) cuts.now }
    ensures bits { (slice : ℕ) (bands : List BandLines) (weights : List Weight) (precinct : ℕ) (place : PacketPlace) → IsPacketOf slice bands precinct place coding.now kept.now packet → ArePacketBits (header_in coding.now weights) (rows_held bands) cuts.now precinct place result }
    ensures few { (result.flags < 2 ^ 37) × (result.counts < 2 ^ 37) × (result.numbers < 2 ^ 37) × (result.signs < 2 ^ 37) }
{
    let mut bits = PartBits {
        flags: 0,
        counts: 0,
        numbers: 0,
        signs: 0,
    };
    'bands: for band in packet.first..packet.end {
        let t = cuts[band as usize];
        let line = line_bits(coding, (band, packet.line), t, mode_of(kept, band, t));
        bits = added(bits, line);
    }
    bits
}

// The bits of one part after the other.
fn added(bits: PartBits, more: PartBits) -> PartBits
    requires room { (bits.flags + more.flags < 2 ^ 64) × (bits.counts + more.counts < 2 ^ 64) × (bits.numbers + more.numbers < 2 ^ 64) × (bits.signs + more.signs < 2 ^ 64) }
    ensures { result ≡ record { flags = bits.flags + more.flags; counts = bits.counts + more.counts; numbers = bits.numbers + more.numbers; signs = bits.signs + more.signs } }
{
    PartBits {
        flags: bits.flags + more.flags,
        counts: bits.counts + more.counts,
        numbers: bits.numbers + more.numbers,
        signs: bits.signs + more.signs,
    }
}

// How many bytes so many bits need.
fn bytes_for(bits: u64) -> u64
    requires { bits < 2 ^ 60 }
    ensures { result ≡ bytes_of_bits bits }
{
    (bits + 7) / 8
}

// The size of a packet whose parts have these bits. Slice, precinct and packet: Ldat, Lcnt, Lsgn.
fn sized(bits: PartBits, signs_apart: bool) -> Measured
    requires few { (bits.flags < 2 ^ 37) × (bits.counts < 2 ^ 37) × (bits.numbers < 2 ^ 37) × (bits.signs < 2 ^ 37) }
    ensures bytes { result.bytes ≡ parts_size signs_apart bits }
    ensures fits { result.fits_fields ≡ parts_fit signs_apart bits }
    ensures few { result.bytes ≤ 2 ^ 36 + 6 }
{
    let counts = bytes_for(bits.counts);
    let data = bytes_for(bits.numbers);
    let signs = if signs_apart {
        bytes_for(bits.signs)
    } else {
        0
    };
    Measured {
        bytes: HEAD + bytes_for(bits.flags) + counts + data + signs,
        fits_fields: data < 1 << 15 && counts < 1 << 13 && signs < 1 << 11,
    }
}

/// The size of a packet, with these truncations of the bands.
pub fn packet_size(
    coding: &Coding,
    kept: &PrecinctCounts,
    packet: PacketBands,
    cuts: &[u8; 30],
) -> Measured
    requires packet { (slice : ℕ) × (bands : List BandLines) × (precinct : ℕ) × (place : PacketPlace) × IsPacketOf slice bands precinct place coding.now kept.now packet }
    requires few { packet.end ≤ 30 }
    requires cuts { All (λ t. t ≤ 15) cuts.now }
    ensures bytes { (slice : ℕ) (bands : List BandLines) (weights : List Weight) (candidate : Candidate) (precinct : ℕ) (place : PacketPlace) → IsCodedAt slice bands weights candidate coding.now cuts.now → IsPacketOf slice bands precinct place coding.now kept.now packet → result.bytes ≡ packet_size_at (header_in coding.now weights) (rows_held bands) candidate precinct place }
    ensures fits { (slice : ℕ) (bands : List BandLines) (weights : List Weight) (candidate : Candidate) (precinct : ℕ) (place : PacketPlace) → IsCodedAt slice bands weights candidate coding.now cuts.now → IsPacketOf slice bands precinct place coding.now kept.now packet → result.fits_fields ≡ packet_fits_at (header_in coding.now weights) (rows_held bands) candidate precinct place }
    ensures few { result.bytes ≤ 2 ^ 36 + 6 }
{
    sized(packet_bits(coding, kept, packet, cuts), coding.signs_apart)
}
