//! The code groups of a row of coefficients: their magnitudes, with zeros past the end of the row, and their bit planes, which
//! docs/FORMAT.md, 'Rate choice', calls M.
#![tactic(auto)]

ghost use Rattle.std.specs.Prelude.{◌≡◌, ◌+◌, ◌*◌, ◌<◌, ◌≤◌, ◌^◌, ◌++◌, ◌∷◌, [], length, take, drop, max, map, unsigned_abs, slice_index_or, All};
ghost use Rattle.std.specs.Int.Bits.{bit_or};
ghost use Rattle.std.specs.List.{fold, range_with_len};
ghost use Rattle.xs_bits.specs.Counts.{AreCounts};
ghost use Rattle.xs_lists.specs.Spelling.{upto};
ghost use Rattle.xs_signal.specs.Lines.{entries_of};
ghost use Rattle.xs_spelling.specs.Data.{columns_of};
ghost use Rattle.xs_rate.specs.Content.{digits_of, planes_of};
ghost use Rattle.xs_rate.specs.Laws.{IsSmallRow};
ghost use Rattle.xs_groups.specs.Bits.{bits_in};

use std::simd::prelude::*;

/// The magnitudes of a code group.
pub fn magnitudes_at(row: &[i32], group: usize) -> [u32; 4]
    requires few { group < 2 ^ 32 }
    ensures { result ≡ map (λ column. unsigned_abs (entries_of row.now column)) (columns_of group) }
{
    let first = 4 * group;
    if first + 4 <= row.len() {
        return [
            magnitude_in(row, first),
            magnitude_in(row, first + 1),
            magnitude_in(row, first + 2),
            magnitude_in(row, first + 3),
        ];
    }
    [
        magnitude(row, first),
        magnitude(row, first + 1),
        magnitude(row, first + 2),
        magnitude(row, first + 3),
    ]
}

// The magnitude at a column of the row.
fn magnitude_in(row: &[i32], column: usize) -> u32
    requires { column < length row.now }
    ensures { result ≡ unsigned_abs (entries_of row.now column) }
{
    row[column].unsigned_abs()
}

// The magnitude at a column; 0 past the row.
fn magnitude(row: &[i32], column: usize) -> u32
    ensures { result ≡ unsigned_abs (entries_of row.now column) }
{
    if column < row.len() {
        magnitude_in(row, column)
    } else {
        0
    }
}

/// The bit planes of each code group of a row.
pub fn count_planes(row: &[i32], planes: &mut [u8])
    requires small { IsSmallRow (entries_of row.now) }
    requires few { length planes.old ≤ 2048 }
    ensures planes { planes.new ≡ map (planes_of (entries_of row.now)) (upto (length planes.old)) }
    ensures counts { AreCounts planes.new }
{
    let eights = planes.len().min(row.len() / 4) / 8;
    count_eights(row, planes, eights);
    count_rest(row, planes, 8 * eights);
}

// The bit planes of the first code groups, eight at once, each of which has four columns in the row.
fn count_eights(row: &[i32], planes: &mut [u8], eights: usize)
    requires small { IsSmallRow (entries_of row.now) }
    requires few { length planes.old ≤ 2048 }
    requires there { 8 * eights ≤ length planes.old }
    requires columns { 32 * eights ≤ length row.now }
    ensures planes { take (8 * eights) planes.new ≡ map (planes_of (entries_of row.now)) (upto (8 * eights)) }
    ensures size { length planes.new ≡ length planes.old }
{
    'eights: for eight in 0..eights {
        let first = 8 * eight;
        put_eight(planes, first, eight_planes(row, first));
    }
}

// Puts the bit planes of eight code groups.
fn put_eight(planes: &mut [u8], first: usize, eight: [u8; 8])
    requires { first + 8 ≤ length planes.old }
    ensures { planes.new ≡ take first planes.old ++ (eight ++ drop (first + 8) planes.old) }
{
    planes[first..first + 8].copy_from_slice(&eight);
}

// The bit planes of the code groups from one on.
fn count_rest(row: &[i32], planes: &mut [u8], first: usize)
    requires small { IsSmallRow (entries_of row.now) }
    requires few { length planes.old ≤ 2048 }
    requires there { first ≤ length planes.old }
    requires before { take first planes.old ≡ map (planes_of (entries_of row.now)) (upto first) }
    ensures planes { planes.new ≡ map (planes_of (entries_of row.now)) (upto (length planes.old)) }
    ensures counts { AreCounts planes.new }
{
    'groups: for group in first..planes.len() {
        planes[group] = planes_at(row, group);
    }
}

// The bit planes of eight code groups from this one on, whose columns the row has.
fn eight_planes(row: &[i32], group: usize) -> [u8; 8]
    requires small { IsSmallRow (entries_of row.now) }
    requires few { group < 2 ^ 32 }
    requires columns { 4 * group + 32 ≤ length row.now }
    ensures { result ≡ map (planes_of (entries_of row.now)) (range_with_len group 8) }
{
    digits_of_eight(four_bits(row, group), four_bits(row, group + 4))
}

// The bits that any magnitude has, of each of four code groups from this one on.
fn four_bits(row: &[i32], group: usize) -> [u32; 4]
    requires small { IsSmallRow (entries_of row.now) }
    requires few { group < 2 ^ 33 }
    requires columns { 4 * group + 16 ≤ length row.now }
    ensures { result ≡ map (bits_in (entries_of row.now)) (range_with_len group 4) }
{
    let first = either(
        whole_magnitudes(row, group),
        whole_magnitudes(row, group + 1),
    );
    let last = either(
        whole_magnitudes(row, group + 2),
        whole_magnitudes(row, group + 3),
    );
    either(first, last)
}

// The magnitudes of a code group whose columns the row has.
fn whole_magnitudes(row: &[i32], group: usize) -> [u32; 4]
    requires small { IsSmallRow (entries_of row.now) }
    requires few { group < 2 ^ 34 }
    requires columns { 4 * group + 4 ≤ length row.now }
    ensures { result ≡ map (λ column. unsigned_abs (entries_of row.now column)) (columns_of group) }
{
    let first = 4 * group;
    magnitudes_of([row[first], row[first + 1], row[first + 2], row[first + 3]])
}

// The magnitudes of four numbers.
fn magnitudes_of(numbers: [i32; 4]) -> [u32; 4]
    requires { All (λ number. unsigned_abs number < 2 ^ 15) numbers }
    ensures { result ≡ map unsigned_abs numbers }
{
    let [a, b, c, d] = numbers;
    i32x4::from_array([a, b, c, d])
        .abs()
        .cast::<u32>()
        .to_array()
}

// The bits that either number has, of each two neighbours in two lists.
fn either(low: [u32; 4], high: [u32; 4]) -> [u32; 4]
    ensures { result ≡ bit_or (slice_index_or low 0 0) (slice_index_or low 1 0) ∷ bit_or (slice_index_or low 2 0) (slice_index_or low 3 0) ∷ bit_or (slice_index_or high 0 0) (slice_index_or high 1 0) ∷ bit_or (slice_index_or high 2 0) (slice_index_or high 3 0) ∷ [] }
{
    let (even, odd) = u32x4::from_array(low).deinterleave(u32x4::from_array(high));
    (even | odd).to_array()
}

// The binary digits of eight numbers.
fn digits_of_eight(low: [u32; 4], high: [u32; 4]) -> [u8; 8]
    requires low { All (λ number. number < 2 ^ 15) low }
    requires high { All (λ number. number < 2 ^ 15) high }
    ensures { result ≡ map digits_of (low ++ high) }
{
    let [a, b, c, d] = low;
    let [e, f, g, h] = high;
    let numbers = [
        a as u16, b as u16, c as u16, d as u16, e as u16, f as u16, g as u16, h as u16,
    ];
    let zeros = u16x8::from_array(numbers).leading_zeros();
    (u16x8::splat(16) - zeros).cast::<u8>().to_array()
}

// The bit planes of a code group.
fn planes_at(row: &[i32], group: usize) -> u8
    requires small { IsSmallRow (entries_of row.now) }
    requires few { group < 2 ^ 32 }
    ensures { result ≡ planes_of (entries_of row.now) group }
{
    digits_of_all(magnitudes_at(row, group))
}

// The binary digits of the greatest of four magnitudes, which are those of all their bits together.
fn digits_of_all(magnitudes: [u32; 4]) -> u8
    requires { All (λ magnitude. magnitude < 2 ^ 15) magnitudes }
    ensures { result ≡ digits_of (fold max 0 magnitudes) }
{
    let [a, b, c, d] = magnitudes;
    digits(any_of(a, b, c, d))
}

// The bits that any of four magnitudes has.
fn any_of(a: u32, b: u32, c: u32, d: u32) -> u32
    ensures { result ≡ bit_or (bit_or a b) (bit_or c d) }
{
    (a | b) | (c | d)
}

// The binary digits of a magnitude.
fn digits(magnitude: u32) -> u8
    requires { magnitude < 2 ^ 15 }
    ensures digits { result ≡ digits_of magnitude }
    ensures most { result ≤ 15 }
{
    (31 - (2 * magnitude + 1).leading_zeros()) as u8
}
