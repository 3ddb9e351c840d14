//! The numbers of a line as bits: docs/FORMAT.md, 'Truncation, data and signs'.
ghost use Rattle.std.specs.Prelude.{◌≡◌, ℕ, ◌+◌, ◌-◌, ◌*◌, ◌/◌, ◌%◌, ◌<◌, ◌≤◌, ◌^◌, ◌++◌, [], if◌then◌else◌, length, map, pos, ◌-ℤ◌, slice_index_or, unsigned_abs, All};
ghost use Rattle.std.specs.Int.{is_negative};
ghost use Rattle.xs_lists.specs.Bits.{bits_of, bit_of};
ghost use Rattle.xs_spelling.specs.Data.{sign_bits};
ghost use Rattle.xs_spelling.specs.Sizes.{data_size, numbered, signs_size};
ghost use Rattle.xs_spelling.specs.Written.{line_data_bits};
ghost use Rattle.xs_planes.specs.Numbers.{AreCodes, AreNumbers, AreParts, code_of, four_at, bit_planes_of, signs_with, spread_to};

use crate::sizes::has_sign;
use crate::tables::CODES;
use xs_bits::{BitWriter, Counts};

/// Writes the planes of a line, each code group after its signs, unless they stand apart.
pub fn write_data(out: &mut BitWriter, counts: &Counts, t: u8, values: &[i32], signs_apart: bool)
    requires few { length counts.now ≤ 2048 }
    requires numbers { AreNumbers t counts.now values.now }
    requires room { data_size signs_apart (numbered t counts.now []) ≤ out.old.spare }
    ensures bits { out.new.bits ≡ out.old.bits ++ line_data_bits signs_apart (numbered t counts.now values.now) }
    ensures spare { out.old.spare ≤ out.new.spare + data_size signs_apart (numbered t counts.now []) }
{
    let items = counts.as_slice();
    'groups: for group in 0..items.len() {
        let count = items[group];
        if count > t {
            write_group(out, numbers_at(values, group), count - t, signs_apart);
        }
    }
}

// The numbers of a code group.
fn numbers_at(values: &[i32], group: usize) -> [i32; 4]
    requires { 4 * group + 4 ≤ length values.now }
    ensures { result ≡ four_at values.now group }
{
    let first = 4 * group;
    [
        values[first],
        values[first + 1],
        values[first + 2],
        values[first + 3],
    ]
}

// Writes a code group of so many planes.
fn write_group(out: &mut BitWriter, numbers: [i32; 4], planes: u8, signs_apart: bool)
    requires few { planes ≤ 15 }
    requires small { All (λ z. unsigned_abs z < 2 ^ planes) numbers }
    requires room { (if signs_apart then 0 else 4) + 4 * planes ≤ out.old.spare }
    ensures bits { out.new.bits ≡ out.old.bits ++ (signs_with signs_apart numbers ++ bit_planes_of numbers planes) }
    ensures spare { out.old.spare ≤ out.new.spare + ((if signs_apart then 0 else 4) + 4 * planes) }
{
    let (signs, low) = parts(&numbers, planes);
    let width = 4 * u32::from(planes);
    if signs_apart {
        out.put_wide(low, width);
    } else {
        out.put_wide(joined(signs, low, width), width + 4);
    }
}

// The number with these high bits over `width` low ones.
fn joined(high: u64, low: u64, width: u32) -> u64
    requires width { width ≤ 60 }
    requires high { high < 16 }
    requires low { low < 2 ^ width }
    ensures { result ≡ high * 2 ^ width + low }
{
    high << width | low
}

// The signs and the planes of numbers of so many planes.
fn parts(numbers: &[i32; 4], planes: u8) -> (u64, u64)
    requires few { planes ≤ 15 }
    requires small { All (λ z. unsigned_abs z < 2 ^ planes) numbers.now }
    ensures { AreParts numbers.now planes result.0 result.1 }
{
    if planes <= 7 {
        short_parts(numbers)
    } else {
        long_parts(numbers)
    }
}

// Those of numbers of at most seven planes.
fn short_parts(numbers: &[i32; 4]) -> (u64, u64)
    requires { All (λ z. unsigned_abs z < 2 ^ 7) numbers.now }
    ensures { (planes : ℕ) → planes ≤ 7 → All (λ z. unsigned_abs z < 2 ^ planes) numbers.now → AreParts numbers.now planes result.0 result.1 }
{
    let word = laid(
        short_code(numbers, 0),
        short_code(numbers, 1),
        short_code(numbers, 2),
        short_code(numbers, 3),
    );
    (word >> 28, word % (1 << 28))
}

// Those of numbers of at most fifteen planes.
fn long_parts(numbers: &[i32; 4]) -> (u64, u64)
    requires { All (λ z. unsigned_abs z < 2 ^ 15) numbers.now }
    ensures { (planes : ℕ) → planes ≤ 15 → All (λ z. unsigned_abs z < 2 ^ planes) numbers.now → AreParts numbers.now planes result.0 result.1 }
{
    let word = laid(
        long_code(numbers, 0),
        long_code(numbers, 1),
        long_code(numbers, 2),
        long_code(numbers, 3),
    );
    (word >> 60, word % (1 << 60))
}

// Four codes laid over one another, each a bit beside the last.
fn laid(first: u64, second: u64, third: u64, fourth: u64) -> u64
    requires first { first * 15 < 2 ^ 64 }
    requires second { second * 15 < 2 ^ 64 }
    requires third { third * 15 < 2 ^ 64 }
    requires fourth { fourth * 15 < 2 ^ 64 }
    ensures { result ≡ first * 8 + second * 4 + third * 2 + fourth }
{
    first * 8 + second * 4 + third * 2 + fourth
}

// The code of a number of at most seven planes.
fn short_code(numbers: &[i32; 4], column: usize) -> u64
    requires there { column < 4 }
    requires small { unsigned_abs (slice_index_or numbers.now column (pos 0)) < 2 ^ 7 }
    ensures code { result ≡ code_of 7 (slice_index_or numbers.now column (pos 0)) }
    ensures few { result * 15 < 2 ^ 64 }
{
    entry(&CODES, (numbers[column] + 128) as usize)
}

// The code of a number of at most fifteen planes.
fn long_code(numbers: &[i32; 4], column: usize) -> u64
    requires there { column < 4 }
    requires small { unsigned_abs (slice_index_or numbers.now column (pos 0)) < 2 ^ 15 }
    ensures code { result ≡ code_of 15 (slice_index_or numbers.now column (pos 0)) }
    ensures few { result * 15 < 2 ^ 64 }
{
    let signed = magnitude_and_sign(numbers, column);
    spread_byte(signed / 256) * (1 << 32) + spread_byte(signed % 256)
}

// The magnitude of a number of at most fifteen planes, with its sign above.
fn magnitude_and_sign(numbers: &[i32; 4], column: usize) -> u32
    requires there { column < 4 }
    requires small { unsigned_abs (slice_index_or numbers.now column (pos 0)) < 2 ^ 15 }
    ensures value { result ≡ bit_of (is_negative (slice_index_or numbers.now column (pos 0))) * 2 ^ 15 + unsigned_abs (slice_index_or numbers.now column (pos 0)) }
    ensures few { result < 2 ^ 16 }
{
    if numbers[column] < 0 {
        (32768 - numbers[column]) as u32
    } else {
        numbers[column] as u32
    }
}

// Bit k of a byte at bit 4 k.
fn spread_byte(byte: u32) -> u64
    requires { byte < 256 }
    ensures value { result ≡ spread_to 8 byte }
    ensures few { result < 2 ^ 32 }
{
    byte_entry(&CODES, byte as usize)
}

// An entry of a table of codes, by its magnitude.
fn byte_entry(table: &[u32; 384], byte: usize) -> u64
    requires there { byte < 256 }
    requires codes { AreCodes table.now }
    ensures code { result ≡ spread_to 8 byte }
    ensures few { result < 2 ^ 32 }
{
    u64::from(table[byte + 128])
}

// An entry of a table of codes.
fn entry(table: &[u32; 384], index: usize) -> u64
    requires there { index < 256 }
    requires codes { AreCodes table.now }
    ensures code { result ≡ code_of 7 (pos index -ℤ pos 128) }
    ensures few { result < 2 ^ 32 }
{
    u64::from(table[index])
}

// The sign at a column.
fn sign_at(values: &[i32], column: usize) -> u32
    requires { column < length values.now }
    ensures bit { result ≡ bit_of (is_negative (slice_index_or values.now column (pos 0))) }
    ensures small { result < 2 }
{
    u32::from(values[column] < 0)
}

/// Writes the signs of a line that stand apart.
pub fn write_signs(out: &mut BitWriter, counts: &Counts, t: u8, values: &[i32])
    requires few { length counts.now ≤ 2048 }
    requires numbers { AreNumbers t counts.now values.now }
    requires room { signs_size (numbered t counts.now values.now) ≤ out.old.spare }
    ensures bits { out.new.bits ≡ out.old.bits ++ sign_bits (numbered t counts.now values.now) }
    ensures spare { out.old.spare ≤ out.new.spare + signs_size (numbered t counts.now values.now) }
{
    'columns: for column in 0..values.len() {
        if has_sign(values, column) {
            out.put(sign_at(values, column), 1);
        }
    }
}
