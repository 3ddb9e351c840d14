//! The counts of a line as bits. Each mode has the size that the definitions give it, so that the best is found by numbers
//! alone.
ghost use Rattle.std.specs.Prelude.{◌≡◌, ◌+◌, ◌-◌, ◌*◌, ◌^◌, ◌<◌, ◌≤◌, ◌++◌, false, length, min, All};
ghost use Rattle.std.specs.List.{flat_map, sum_by};
ghost use Rattle.xs_bits.specs.Counts.{AreCounts};
ghost use Rattle.xs_lists.specs.Bits.{bit_of};
ghost use Rattle.xs_spelling.specs.Counts.{flag_bits, unary};
ghost use Rattle.xs_spelling.specs.Sizes.{count_size, flag_size};
ghost use Rattle.xs_spelling.specs.Written.{line_count_bits, members_of, written_flag};
ghost use Rattle.xs_counts.specs.Known.{IsPredictor, counted_line, is_skipped as skipped_in, residual_bits_of, residual_ones_of, residual_size};

use crate::ones::ones_for;
use crate::predictor::{Predictor, prediction};
use xs_bits::{BitWriter, Counts};

/// The bits of flags and counts together in this mode.
pub fn mode_bits(line: &Counts, predictor: &Predictor, mode: u8) -> u64
    requires mode { mode ≤ 3 }
    requires few { length line.now ≤ 2048 }
    requires predictor { IsPredictor (length line.now) predictor.now }
    requires least { All (λ count. predictor.now.t ≤ count) line.now }
    ensures bits { result ≡ flag_size (counted_line line.now predictor.now mode) + count_size (counted_line line.now predictor.now mode) }
{
    let counts = line.as_slice();
    let groups = (counts.len() + 7) / 8;
    let mut bits = if mode >= 2 { groups as u64 } else { 0 };
    'groups: for significance in 0..groups {
        if !is_skipped(counts, predictor, mode, significance) {
            bits += residual_bits(counts, predictor, mode, significance);
        }
    }
    bits
}

// The first code group of a significance group, and one past the last.
fn members(groups: usize, significance: usize) -> (usize, usize)
    requires there { 8 * significance < groups }
    requires few { groups ≤ 2048 }
    ensures first { result.0 ≡ 8 * significance }
    ensures end { result.1 ≡ 8 * significance + min 8 (groups - 8 * significance) }
{
    (8 * significance, (8 * significance + 8).min(groups))
}

// Whether each count of a significance group is as predicted.
fn is_predicted(counts: &[u8], predictor: &Predictor, mode: u8, significance: usize) -> bool
    requires mode { mode ≤ 3 }
    requires few { length counts.now ≤ 2048 }
    requires there { 8 * significance < length counts.now }
    requires predictor { IsPredictor (length counts.now) predictor.now }
    ensures { bit_of result ≡ written_flag (counted_line counts.now predictor.now mode) significance }
{
    let (first, end) = members(counts.len(), significance);
    'groups: for group in first..end {
        if counts[group] != prediction(predictor, mode, group) {
            return false;
        }
    }
    true
}

// Whether a flag leaves out the counts of a significance group.
fn is_skipped(counts: &[u8], predictor: &Predictor, mode: u8, significance: usize) -> bool
    requires mode { mode ≤ 3 }
    requires few { length counts.now ≤ 2048 }
    requires there { 8 * significance < length counts.now }
    requires predictor { IsPredictor (length counts.now) predictor.now }
    ensures { result ≡ skipped_in (counted_line counts.now predictor.now mode) (written_flag (counted_line counts.now predictor.now mode)) significance }
{
    mode >= 2 && is_predicted(counts, predictor, mode, significance)
}

// The ones of the residual of a code group.
fn residual_ones(counts: &[u8], predictor: &Predictor, mode: u8, group: usize) -> u32
    requires mode { mode ≤ 3 }
    requires range { AreCounts counts.now }
    requires there { group < length counts.now }
    requires predictor { IsPredictor (length counts.now) predictor.now }
    requires least { All (λ count. predictor.now.t ≤ count) counts.now }
    ensures ones { result ≡ residual_ones_of (counted_line counts.now predictor.now mode) group }
    ensures few { result ≤ 29 }
{
    ones_for(
        prediction(predictor, mode, group),
        predictor.t,
        counts[group],
    )
}

// The bits of the residuals of a significance group.
fn residual_bits(counts: &[u8], predictor: &Predictor, mode: u8, significance: usize) -> u64
    requires mode { mode ≤ 3 }
    requires few { length counts.now ≤ 2048 }
    requires range { AreCounts counts.now }
    requires there { 8 * significance < length counts.now }
    requires predictor { IsPredictor (length counts.now) predictor.now }
    requires least { All (λ count. predictor.now.t ≤ count) counts.now }
    ensures size { result ≡ sum_by (residual_size (counted_line counts.now predictor.now mode)) (members_of (counted_line counts.now predictor.now mode) significance) }
    ensures few { result ≤ 240 }
{
    let (first, end) = members(counts.len(), significance);
    let mut bits = 0;
    'groups: for group in first..end {
        bits += u64::from(residual_ones(counts, predictor, mode, group)) + 1;
    }
    bits
}

/// Writes the flags of a line. Without bit 1 of the mode there are none.
pub fn write_flags(out: &mut BitWriter, line: &Counts, predictor: &Predictor, mode: u8)
    requires mode { mode ≤ 3 }
    requires few { length line.now ≤ 2048 }
    requires predictor { IsPredictor (length line.now) predictor.now }
    requires least { All (λ count. predictor.now.t ≤ count) line.now }
    requires room { flag_size (counted_line line.now predictor.now mode) ≤ out.old.spare }
    ensures bits { out.new.bits ≡ out.old.bits ++ flag_bits (counted_line line.now predictor.now mode) (written_flag (counted_line line.now predictor.now mode)) }
    ensures spare { out.old.spare ≤ out.new.spare + flag_size (counted_line line.now predictor.now mode) }
{
    let counts = line.as_slice();
    if mode >= 2 {
        'groups: for significance in 0..(counts.len() + 7) / 8 {
            let flag = is_predicted(counts, predictor, mode, significance);
            out.put(u32::from(flag), 1);
        }
    }
}

/// Writes the counts of a line, without those that its flags leave out.
pub fn write_counts(out: &mut BitWriter, line: &Counts, predictor: &Predictor, mode: u8)
    requires mode { mode ≤ 3 }
    requires few { length line.now ≤ 2048 }
    requires predictor { IsPredictor (length line.now) predictor.now }
    requires least { All (λ count. predictor.now.t ≤ count) line.now }
    requires room { count_size (counted_line line.now predictor.now mode) ≤ out.old.spare }
    ensures bits { out.new.bits ≡ out.old.bits ++ line_count_bits false (counted_line line.now predictor.now mode) (written_flag (counted_line line.now predictor.now mode)) }
    ensures spare { out.old.spare ≤ out.new.spare + count_size (counted_line line.now predictor.now mode) }
{
    let counts = line.as_slice();
    'groups: for significance in 0..(counts.len() + 7) / 8 {
        if !is_skipped(counts, predictor, mode, significance) {
            write_residuals(out, counts, predictor, mode, significance);
        }
    }
}

// Writes the residuals of a significance group.
fn write_residuals(
    out: &mut BitWriter,
    counts: &[u8],
    predictor: &Predictor,
    mode: u8,
    significance: usize,
)
    requires mode { mode ≤ 3 }
    requires few { length counts.now ≤ 2048 }
    requires range { AreCounts counts.now }
    requires there { 8 * significance < length counts.now }
    requires predictor { IsPredictor (length counts.now) predictor.now }
    requires least { All (λ count. predictor.now.t ≤ count) counts.now }
    requires room { sum_by (residual_size (counted_line counts.now predictor.now mode)) (members_of (counted_line counts.now predictor.now mode) significance) ≤ out.old.spare }
    ensures bits { out.new.bits ≡ out.old.bits ++ flat_map (residual_bits_of (counted_line counts.now predictor.now mode)) (members_of (counted_line counts.now predictor.now mode) significance) }
    ensures spare { out.old.spare ≤ out.new.spare + sum_by (residual_size (counted_line counts.now predictor.now mode)) (members_of (counted_line counts.now predictor.now mode) significance) }
{
    let (first, end) = members(counts.len(), significance);
    let mut group = first;
    'pairs: while group + 1 < end {
        put_two(
            out,
            residual_ones(counts, predictor, mode, group),
            residual_ones(counts, predictor, mode, group + 1),
        );
        group += 2;
    }
    if group < end {
        out.put_unary(residual_ones(counts, predictor, mode, group));
    }
}

// Writes two runs of ones, each with its zero, at once.
fn put_two(out: &mut BitWriter, first: u32, second: u32)
    requires few { first ≤ 29 }
    requires second { second ≤ 29 }
    requires room { first + second + 2 ≤ out.old.spare }
    ensures bits { out.new.bits ≡ out.old.bits ++ (unary first ++ unary second) }
    ensures spare { out.old.spare ≤ out.new.spare + (first + second + 2) }
{
    let number = joined(runs(first), runs(second), second + 1);
    out.put_wide(number, first + second + 2);
}

// The number whose bits are so many ones and a zero.
fn runs(ones: u32) -> u64
    requires { ones ≤ 29 }
    ensures value { result ≡ 2 ^ (ones + 1) - 2 }
    ensures small { result < 2 ^ (ones + 1) }
{
    (2 << ones) - 2
}

// The number with these high bits over `width` low ones.
fn joined(high: u64, low: u64, width: u32) -> u64
    requires width { width ≤ 30 }
    requires high { high < 2 ^ 30 }
    requires low { low < 2 ^ width }
    ensures { result ≡ high * 2 ^ width + low }
{
    high << width | low
}
