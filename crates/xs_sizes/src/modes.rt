//! The modes of a band: docs/FORMAT.md, 'Rate choice'.
ghost use Rattle.std.specs.Prelude.{◌≡◌, ℕ, ◌+◌, ◌-◌, ◌<◌, ◌≤◌, ◌^◌, ◌∷◌, [], Bool, List, length, nat_le, if◌then◌else◌, slice_index_or};
ghost use Rattle.std.specs.List.{range_with_len};
ghost use Rattle.xs_geometry.specs.SliceLines.{BandLines, rows_held};
ghost use Rattle.xs_params.specs.declared.header.Header.{Header};
ghost use Rattle.xs_rate.specs.Modes.{fewest};
ghost use Rattle.xs_sizes.specs.Counted.{IsBandCounted};
ghost use Rattle.xs_sizes.specs.declared.line.LineSizes.{LineSizes};
ghost use Rattle.xs_sizes.specs.Precincts.{lines_bits};

use crate::bands::BandCounts;
use crate::line::{LineSizes, counts_of};

/// The sizes of a line.
pub fn line_at(counts: &BandCounts, line: u32) -> &LineSizes
    requires from { counts.now.first ≤ line }
    requires there { line - counts.now.first < length counts.now.lines.items }
    ensures { (none : LineSizes) → result.now ≡ slice_index_or counts.now.lines.items (line - counts.now.first) none }
{
    &counts.lines[(line - counts.first) as usize]
}

/// The flags of a line in a mode.
pub fn flags_in(counts: &BandCounts, mode: u8) -> u16
    ensures { result ≡ (if nat_le 2 mode then counts.now.flags else 0) }
{
    if mode >= 2 { counts.flags } else { 0 }
}

// The bits of flags and counts of some lines of a band in a mode, at each truncation.
fn bits_in(counts: &BandCounts, lines: (u32, u32), mode: u8) -> [u32; 16]
    requires mode { mode < 4 }
    requires order { lines.0 ≤ lines.1 }
    requires few { lines.1 ≤ 8192 }
    requires from { counts.now.first ≤ lines.0 }
    requires there { lines.1 - counts.now.first ≤ length counts.now.lines.items }
    ensures { (h : Header) (bands : List BandLines) (with_signs : Bool) (band t : ℕ) → IsBandCounted h bands with_signs band counts.now → t ≤ 15 → slice_index_or result t 0 ≡ lines_bits h (rows_held bands) band t mode (range_with_len lines.0 (lines.1 - lines.0)) }
{
    let flags = flags_in(counts, mode);
    let mut bits = [0; 16];
    'lines: for line in lines.0..lines.1 {
        let own = counts_of(line_at(counts, line), mode);
        add_bits(&mut bits, own, flags);
    }
    bits
}

// Adds the counts of a line at each truncation, and its flags.
fn add_bits(bits: &mut [u32; 16], counts: [u16; 16], flags: u16)
    requires { (t : ℕ) → t ≤ 15 → slice_index_or bits.old t 0 < 2 ^ 31 }
    ensures sum { (t : ℕ) → t ≤ 15 → slice_index_or bits.new t 0 ≡ slice_index_or bits.old t 0 + (flags + slice_index_or counts t 0) }
    ensures few { (t : ℕ) → t ≤ 15 → slice_index_or bits.new t 0 ≤ slice_index_or bits.old t 0 + 2 ^ 17 }
{
    'cuts: for t in 0..16 {
        bits[t] += both_bits(flags, counts[t]);
    }
}

// The flags and the counts of a line together.
fn both_bits(flags: u16, counts: u16) -> u32
    ensures sum { result ≡ flags + counts }
    ensures few { result ≤ 2 ^ 17 }
{
    u32::from(flags) + u32::from(counts)
}

// The first mode with the fewest bits.
fn first_fewest(bits: [u32; 4]) -> u8
    ensures { (size : ℕ → ℕ) → bits ≡ size 0 ∷ size 1 ∷ size 2 ∷ size 3 ∷ [] → result ≡ fewest size }
{
    let [a, b, c, d] = bits;
    let least = a.min(b).min(c).min(d);
    if a == least {
        0
    } else if b == least {
        1
    } else if c == least {
        2
    } else {
        3
    }
}

/// The modes of a band at the truncations 0 to 15 in the precinct that has these lines.
pub fn modes_in(counts: &BandCounts, lines: (u32, u32)) -> [u8; 16]
    requires order { lines.0 ≤ lines.1 }
    requires few { lines.1 ≤ 8192 }
    requires from { counts.now.first ≤ lines.0 }
    requires there { lines.1 - counts.now.first ≤ length counts.now.lines.items }
    ensures { (h : Header) (bands : List BandLines) (with_signs : Bool) (band t : ℕ) → IsBandCounted h bands with_signs band counts.now → t ≤ 15 → slice_index_or result t 0 ≡ fewest (λ mode. lines_bits h (rows_held bands) band t mode (range_with_len lines.0 (lines.1 - lines.0))) }
{
    let plain = bits_in(counts, lines, 0);
    let predicted = bits_in(counts, lines, 1);
    let plain_kept = bits_in(counts, lines, 2);
    let predicted_kept = bits_in(counts, lines, 3);
    let mut modes = [0; 16];
    'cuts: for t in 0..16 {
        modes[t] = first_fewest([plain[t], predicted[t], plain_kept[t], predicted_kept[t]]);
    }
    modes
}
