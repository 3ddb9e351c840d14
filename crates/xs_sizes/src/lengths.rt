//! The bits of a line's counts, at all truncations at once: docs/FORMAT.md, 'Bit-plane counts'.
ghost use Rattle.std.specs.Prelude.{◌≡◌, ℕ, ◌+◌, ◌-◌, ◌*◌, ◌<◌, ◌≤◌, min, [], length, nat_eq, ◌^◌, if◌then◌else◌, slice_index_or, IfOk};
ghost use Rattle.xs_bits.specs.Counts.{AreCounts};
ghost use Rattle.xs_sizes.specs.Lengths.{AreCountSizes, AreLengths, AreMemberBits, length_of};

use std::alloc::Global;
use std::simd::prelude::*;
use xs_counts::ones_for;
use xs_io::Memory;

/// The bits of the count of a code group at each truncation, for each number of planes above it and of its own.
pub fn length_table(alloc: Global) -> Result<Vec<[u8; 16]>, Memory>
    ensures { IfOk result (λ table. AreLengths table.items) }
{
    let mut table = Vec::new(alloc);
    'pairs: for pair in 0..256u32 {
        let row = lengths((pair / 16) as u8, (pair % 16) as u8);
        if table.push(row).is_err() {
            return Err(Memory);
        }
    }
    Ok(table)
}

// The bits of one count at each truncation.
fn lengths(above: u8, planes: u8) -> [u8; 16]
    requires above { above ≤ 15 }
    requires planes { planes ≤ 15 }
    ensures { (t : ℕ) → t ≤ 15 → slice_index_or result t 0 ≡ length_of above planes t }
{
    let mut bits = [0; 16];
    'cuts: for t in 0..16 {
        bits[t] = length_at(above, planes, t as u8);
    }
    bits
}

// The bits of one count.
fn length_at(above: u8, planes: u8, t: u8) -> u8
    requires above { above ≤ 15 }
    requires planes { planes ≤ 15 }
    requires cut { t ≤ 15 }
    ensures length { result ≡ length_of above planes t }
    ensures few { result ≤ 30 }
{
    ones_for(above.max(t), t, planes.max(t)) as u8 + 1
}

/// The bits of a line's counts at each truncation, all of them and without those that flags leave out.
#[derive(Clone, Copy)]
pub struct CountSizes {
    pub all: [u16; 16],
    pub kept: [u16; 16],
}

/// The bits of a line's counts, predicted from nothing and from the line above.
#[derive(Clone, Copy)]
pub struct LineCounts {
    pub plain: CountSizes,
    pub predicted: CountSizes,
}

/// The bits of some code groups' counts at each truncation, predicted from nothing and from the line above.
#[derive(Clone, Copy)]
struct MemberBits {
    plain: [u8; 16],
    predicted: [u8; 16],
    count: u8,
}

/// The bits of the counts of a line, under the planes of the line above.
pub fn count_sizes(table: &[[u8; 16]], above: &[u8], planes: &[u8]) -> LineCounts
    requires table { AreLengths table.now }
    requires above { AreCounts above.now }
    requires planes { AreCounts planes.now }
    requires size { length above.now ≡ length planes.now }
    requires few { length planes.now ≤ 2048 }
    ensures plain { AreCountSizes [] planes.now 0 result.plain.all }
    ensures plain_kept { AreCountSizes [] planes.now 2 result.plain.kept }
    ensures predicted { AreCountSizes above.now planes.now 0 result.predicted.all }
    ensures predicted_kept { AreCountSizes above.now planes.now 2 result.predicted.kept }
{
    let mut plain = CountSizes {
        all: [0; 16],
        kept: [0; 16],
    };
    let mut predicted = plain;
    'groups: for significance in 0..(planes.len() + 7) / 8 {
        let bits = group_bits(table, above, planes, significance);
        plain = added(plain, bits.plain, bits.count);
        predicted = added(predicted, bits.predicted, bits.count);
    }
    LineCounts { plain, predicted }
}

// The bits of the counts of a significance group. That of one with all its code groups is a loop of a length that is known.
fn group_bits(table: &[[u8; 16]], above: &[u8], planes: &[u8], significance: usize) -> MemberBits
    requires table { AreLengths table.now }
    requires above { AreCounts above.now }
    requires planes { AreCounts planes.now }
    requires size { length above.now ≡ length planes.now }
    requires few { length planes.now ≤ 2048 }
    requires there { 8 * significance < length planes.now }
    ensures count { result.count ≡ min 8 (length planes.now - 8 * significance) }
    ensures plain { AreMemberBits [] planes.now (8 * significance) (min 8 (length planes.now - 8 * significance)) result.plain }
    ensures predicted { AreMemberBits above.now planes.now (8 * significance) (min 8 (length planes.now - 8 * significance)) result.predicted }
{
    let first = 8 * significance;
    if first + 8 <= planes.len() {
        member_bits(table, above, planes, (first, first + 8))
    } else {
        member_bits(table, above, planes, (first, planes.len()))
    }
}

// The bits of the counts of the code groups from a first one up to an end.
fn member_bits(table: &[[u8; 16]], above: &[u8], planes: &[u8], at: (usize, usize)) -> MemberBits
    requires table { AreLengths table.now }
    requires above { AreCounts above.now }
    requires planes { AreCounts planes.now }
    requires size { length above.now ≡ length planes.now }
    requires order { at.0 ≤ at.1 }
    requires there { at.1 ≤ length planes.now }
    requires few { at.1 ≤ at.0 + 8 }
    ensures count { result.count ≡ at.1 - at.0 }
    ensures plain { AreMemberBits [] planes.now at.0 (at.1 - at.0) result.plain }
    ensures predicted { AreMemberBits above.now planes.now at.0 (at.1 - at.0) result.predicted }
{
    let mut bits = MemberBits {
        plain: [0; 16],
        predicted: [0; 16],
        count: (at.1 - at.0) as u8,
    };
    'groups: for group in at.0..at.1 {
        let own = planes[group] as usize;
        let pair = 16 * above[group] as usize + own;
        bits = with_rows(bits, &table[own], &table[pair]);
    }
    bits
}

// The same bits and a row for each prediction.
fn with_rows(bits: MemberBits, plain: &[u8; 16], predicted: &[u8; 16]) -> MemberBits
    requires plain { (t : ℕ) → t ≤ 15 → slice_index_or bits.plain t 0 + slice_index_or plain.now t 0 < 256 }
    requires predicted { (t : ℕ) → t ≤ 15 → slice_index_or bits.predicted t 0 + slice_index_or predicted.now t 0 < 256 }
    ensures plain { (t : ℕ) → t ≤ 15 → slice_index_or result.plain t 0 ≡ slice_index_or bits.plain t 0 + slice_index_or plain.now t 0 }
    ensures predicted { (t : ℕ) → t ≤ 15 → slice_index_or result.predicted t 0 ≡ slice_index_or bits.predicted t 0 + slice_index_or predicted.now t 0 }
    ensures count { result.count ≡ bits.count }
{
    MemberBits {
        plain: with_row(bits.plain, plain),
        predicted: with_row(bits.predicted, predicted),
        count: bits.count,
    }
}

// The same bits and a row.
fn with_row(bits: [u8; 16], row: &[u8; 16]) -> [u8; 16]
    requires { (t : ℕ) → t ≤ 15 → slice_index_or bits t 0 + slice_index_or row.now t 0 < 256 }
    ensures { (t : ℕ) → t ≤ 15 → slice_index_or result t 0 ≡ slice_index_or bits t 0 + slice_index_or row.now t 0 }
{
    (u8x16::from_array(bits) + u8x16::from_array(*row)).to_array()
}

// Adds the bits of a significance group of so many code groups. Where each has one bit, all are as predicted, and a flag leaves
// them out.
fn added(sizes: CountSizes, bits: [u8; 16], count: u8) -> CountSizes
    requires room { (t : ℕ) → t ≤ 15 → slice_index_or sizes.all t 0 + slice_index_or bits t 0 < 2 ^ 16 }
    requires room_kept { (t : ℕ) → t ≤ 15 → slice_index_or sizes.kept t 0 + slice_index_or bits t 0 < 2 ^ 16 }
    ensures all { (t : ℕ) → t ≤ 15 → slice_index_or result.all t 0 ≡ slice_index_or sizes.all t 0 + slice_index_or bits t 0 }
    ensures kept { (t : ℕ) → t ≤ 15 → slice_index_or result.kept t 0 ≡ slice_index_or sizes.kept t 0 + (if nat_eq (slice_index_or bits t 0) count then 0 else slice_index_or bits t 0) }
{
    CountSizes {
        all: plus(sizes.all, widened(bits)),
        kept: plus(sizes.kept, widened(bits_but(bits, count))),
    }
}

// Adds bits at each truncation.
fn plus(sizes: [u16; 16], bits: [u16; 16]) -> [u16; 16]
    requires { (t : ℕ) → t ≤ 15 → slice_index_or sizes t 0 + slice_index_or bits t 0 < 2 ^ 16 }
    ensures { (t : ℕ) → t ≤ 15 → slice_index_or result t 0 ≡ slice_index_or sizes t 0 + slice_index_or bits t 0 }
{
    (u16x16::from_array(sizes) + u16x16::from_array(bits)).to_array()
}

// The same bits with more room.
fn widened(bits: [u8; 16]) -> [u16; 16]
    ensures { (t : ℕ) → t ≤ 15 → slice_index_or result t 0 ≡ slice_index_or bits t 0 }
{
    u8x16::from_array(bits).cast::<u16>().to_array()
}

// The same bits, but none where they are this many.
fn bits_but(bits: [u8; 16], many: u8) -> [u8; 16]
    ensures { (t : ℕ) → t ≤ 15 → slice_index_or result t 0 ≡ (if nat_eq (slice_index_or bits t 0) many then 0 else slice_index_or bits t 0) }
{
    let own = u8x16::from_array(bits);
    own.simd_eq(u8x16::splat(many))
        .select(u8x16::splat(0), own)
        .to_array()
}
