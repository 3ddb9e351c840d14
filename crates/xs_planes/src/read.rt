//! The numbers of a line from bits: docs/FORMAT.md, 'Truncation, data and signs'.
ghost use Rattle.std.specs.Prelude.{◌≡◌, ℕ, ◌+◌, ◌-◌, ◌*◌, ◌/◌, ◌%◌, ◌^◌, ◌<◌, ◌≤◌, ◌++◌, ◌∷◌, [], true, nat_eq, if◌then◌else◌, length, map, pos, ◌-ℤ◌, slice_index_or, slice_set, unsigned_abs, IfOk, OnOk, OnErr};
ghost use Rattle.xs_bits.specs.Reading.{left};
ghost use Rattle.xs_lists.specs.Bits.{bits_of};
ghost use Rattle.xs_spelling.specs.Reading.{signed};
ghost use Rattle.xs_spelling.specs.Sizes.{data_size, numbered, signs_size};
ghost use Rattle.xs_planes.specs.Numbers.{AreLanes, AreMagnitudes, AreNumbers, column_in, group_number, lane_at, lanes_of, numbers_in, put_four, signed_in};

use crate::sizes::{group_width, has_sign};
use crate::tables::LANES;
use std::simd::prelude::*;
use xs_bits::{BitReader, Counts, Ended};

// 2 ^ 15 in each lane.
const LIFTED: u64 = 0x8000_8000_8000_8000;

/// Reads the numbers of a line, magnitudes alone where the signs stand apart. The counts tell how many bits they have. A
/// refusal leaves the reader as it was, and the numbers in any state.
pub fn read_data(
    input: &mut BitReader,
    counts: &Counts,
    t: u8,
    signs_apart: bool,
    into: &mut [i32],
) -> Result<(), Ended>
    requires few { length counts.now ≤ 2048 }
    requires cut { t ≤ 15 }
    requires size { length into.old ≡ 4 * length counts.now }
    ensures numbers { OnOk result (into.new ≡ numbers_in signs_apart t counts.now (left input.old)) }
    ensures small { OnOk result (AreNumbers t counts.now into.new) }
    ensures magnitudes { OnOk result (signs_apart ≡ true → AreMagnitudes into.new) }
    ensures enough { OnOk result (data_size signs_apart (numbered t counts.now []) ≤ length (left input.old)) }
    ensures moved { OnOk result (input.new.place ≡ input.old.place + data_size signs_apart (numbered t counts.now [])) }
    ensures ended { OnErr result (length (left input.old) < data_size signs_apart (numbered t counts.now [])) }
    ensures stays { OnErr result (input.new ≡ input.old) }
    ensures same { input.new.bits ≡ input.old.bits }
{
    let start = input.place();
    let items = counts.as_slice();
    'groups: for group in 0..items.len() {
        let count = items[group];
        if count <= t {
            put_zeros(into, 4 * group);
        } else {
            match read_group(input, count - t, signs_apart) {
                Ok(word) => put_lanes(into, 4 * group, word),
                Err(Ended) => {
                    input.back(start);
                    return Err(Ended);
                }
            }
        }
    }
    Ok(())
}

// Reads a code group of so many planes, as a word of four numbers.
fn read_group(input: &mut BitReader, planes: u8, signs_apart: bool) -> Result<u64, Ended>
    requires few { planes ≤ 15 }
    ensures read { IfOk result (λ word. (c : ℕ) → c < 4 → lane_at word c ≡ group_number signs_apart planes (left input.old) c) }
    ensures small { OnOk result ((c : ℕ) → c < 4 → unsigned_abs (group_number signs_apart planes (left input.old) c) < 2 ^ planes) }
    ensures enough { OnOk result ((if signs_apart then 0 else 4) + 4 * planes ≤ length (left input.old)) }
    ensures moved { OnOk result (input.new.place ≡ input.old.place + ((if signs_apart then 0 else 4) + 4 * planes)) }
    ensures ended { OnErr result (length (left input.old) < (if signs_apart then 0 else 4) + 4 * planes) }
    ensures later { input.old.place ≤ input.new.place }
    ensures same { input.new.bits ≡ input.old.bits }
{
    let number = read_number(input, group_width(planes, signs_apart))?;
    let width = 4 * u32::from(planes);
    let magnitudes = gathered(low_bits(number, width), planes);
    Ok(signed_lanes(magnitudes, number >> width))
}

// Reads a number of up to 64 bits.
fn read_number(input: &mut BitReader, width: u32) -> Result<u64, Ended>
    requires width { width ≤ 64 }
    ensures value { IfOk result (λ number. left input.old ≡ bits_of width number ++ left input.new) }
    ensures fits { IfOk result (λ number. number < 2 ^ width) }
    ensures moved { OnOk result (input.new.place ≡ input.old.place + width) }
    ensures ended { OnErr result (length (left input.old) < width) }
    ensures later { input.old.place ≤ input.new.place }
    ensures same { input.new.bits ≡ input.old.bits }
{
    if width <= 57 {
        return input.get_wide(width);
    }
    let high = input.get_wide(width - 32)?;
    let low = input.get_wide(32)?;
    Ok(high * (1 << 32) + low)
}

// The low bits of a number.
fn low_bits(number: u64, width: u32) -> u64
    requires { width < 64 }
    ensures { result ≡ number % 2 ^ width }
{
    number & ((1 << width) - 1)
}

// Four magnitudes of so many planes, from a nibble for each plane.
fn gathered(number: u64, planes: u8) -> u64
    requires few { planes ≤ 15 }
    requires small { number < 2 ^ (4 * planes) }
    ensures { result ≡ lanes_of (column_in planes number) }
{
    if planes <= 8 {
        eight_planes(number)
    } else {
        eight_planes(number >> 32) * 256 + eight_planes(number % (1 << 32))
    }
}

// The same of eight planes.
fn eight_planes(number: u64) -> u64
    requires { number < 2 ^ 32 }
    ensures value { result ≡ lanes_of (column_in 8 number) }
    ensures few { result < 2 ^ 56 }
{
    let first = entry(&LANES, (number >> 24) as usize);
    let second = entry(&LANES, ((number >> 16) % 256) as usize);
    let third = entry(&LANES, ((number >> 8) % 256) as usize);
    let fourth = entry(&LANES, (number % 256) as usize);
    first * 64 + second * 16 + third * 4 + fourth
}

// An entry of a table of lanes.
fn entry(table: &[u64; 256], byte: usize) -> u64
    requires there { byte < 256 }
    requires lanes { AreLanes table.now }
    ensures value { result ≡ lanes_of (column_in 2 byte) }
    ensures few { result < 2 ^ 50 }
{
    table[byte]
}

// Magnitudes with the signs of a nibble, each 2 ^ 15 above its number.
fn signed_lanes(magnitudes: u64, signs: u64) -> u64
    requires signs { signs < 16 }
    requires few { magnitudes + lanes_of (λ c. 2 ^ 15) < 2 ^ 64 }
    ensures { (value : ℕ → ℕ) → magnitudes ≡ lanes_of value → ((c : ℕ) → c < 4 → value c < 2 ^ 15) → result ≡ lanes_of (λ c. 2 ^ 15 + value c - 2 * (column_in 1 signs c * value c)) }
{
    let mask = entry(&LANES, signs as usize) * 65535;
    let negative = magnitudes & mask;
    LIFTED + magnitudes - 2 * negative
}

// Puts four zeros.
fn put_zeros(into: &mut [i32], first: usize)
    requires there { first + 4 ≤ length into.old }
    ensures { into.new ≡ put_four into.old first (λ c. pos 0) }
{
    into[first] = 0;
    into[first + 1] = 0;
    into[first + 2] = 0;
    into[first + 3] = 0;
}

// The four numbers of a word.
fn numbers_of(word: u64) -> [i32; 4]
    ensures { result ≡ lane_at word 0 ∷ lane_at word 1 ∷ lane_at word 2 ∷ lane_at word 3 ∷ [] }
{
    let lanes = u16x4::from_le_bytes(u64x1::from_array([word]).to_le_bytes());
    (lanes.cast::<i32>() - i32x4::splat(32768)).to_array()
}

// Puts the four numbers of a word.
fn put_lanes(into: &mut [i32], first: usize, word: u64)
    requires there { first + 4 ≤ length into.old }
    ensures { into.new ≡ put_four into.old first (lane_at word) }
{
    let [a, b, c, d] = numbers_of(word);
    into[first] = a;
    into[first + 1] = b;
    into[first + 2] = c;
    into[first + 3] = d;
}

/// Reads the signs of a line that stand apart, and gives them to its magnitudes. A refusal leaves the reader as it was, and
/// the numbers in any state.
pub fn read_signs(
    input: &mut BitReader,
    counts: &Counts,
    t: u8,
    into: &mut [i32],
) -> Result<(), Ended>
    requires few { length counts.now ≤ 2048 }
    requires numbers { AreNumbers t counts.now into.old }
    requires magnitudes { AreMagnitudes into.old }
    ensures numbers { OnOk result (into.new ≡ signed_in t counts.now into.old (left input.old)) }
    ensures small { OnOk result (AreNumbers t counts.now into.new) }
    ensures enough { OnOk result (signs_size (numbered t counts.now into.old) ≤ length (left input.old)) }
    ensures moved { OnOk result (input.new.place ≡ input.old.place + signs_size (numbered t counts.now into.old)) }
    ensures ended { OnErr result (length (left input.old) < signs_size (numbered t counts.now into.old)) }
    ensures stays { OnErr result (input.new ≡ input.old) }
    ensures same { input.new.bits ≡ input.old.bits }
{
    let start = input.place();
    let columns = 4 * counts.as_slice().len();
    'columns: for column in 0..columns {
        if has_sign(into, column) {
            match input.get(1) {
                Ok(sign) => give_sign(into, column, sign == 1),
                Err(Ended) => {
                    input.back(start);
                    return Err(Ended);
                }
            }
        }
    }
    Ok(())
}

// Gives the number at a column a sign.
fn give_sign(into: &mut [i32], column: usize, negative: bool)
    requires there { column < length into.old }
    requires small { unsigned_abs (slice_index_or into.old column (pos 0)) < 2 ^ 15 }
    ensures { into.new ≡ slice_set into.old column (signed negative (unsigned_abs (slice_index_or into.old column (pos 0)))) }
{
    let magnitude = into[column].unsigned_abs() as i32;
    into[column] = if negative { -magnitude } else { magnitude };
}
