//! The signs that stand apart, at all truncations at once: docs/FORMAT.md, 'Truncation, data and signs'.
ghost use Rattle.std.specs.Prelude.{◌≡◌, ℕ, ◌+◌, ◌-◌, ◌*◌, ◌<◌, ◌≤◌, ◌^◌, ◌&&◌, length, map, nat_lt, nat_le, count_by, slice_index_or, if◌then◌else◌, All};
ghost use Rattle.xs_signal.specs.Quantiser.{quantised};
ghost use Rattle.xs_lists.specs.Bits.{bit_of};
ghost use Rattle.xs_lists.specs.Spelling.{upto};
ghost use Rattle.xs_signal.specs.Lines.{entries_of};
ghost use Rattle.xs_rate.specs.Content.{digits_of, planes_of};
ghost use Rattle.xs_rate.specs.Laws.{IsSmallRow};
ghost use Rattle.xs_sizes.specs.LineSizes.{AreSignSizes};

use xs_groups::magnitudes_at;
use xs_layout::Quant;

/// How many numbers of a row are not 0 at each truncation.
pub fn count_signs(row: &[i32], planes: &[u8], kind: Quant) -> [u32; 16]
    requires small { IsSmallRow (entries_of row.now) }
    requires few { length planes.now ≤ 2048 }
    requires planes { planes.now ≡ map (planes_of (entries_of row.now)) (upto (length planes.now)) }
    ensures { AreSignSizes kind (entries_of row.now) (length planes.now) result }
{
    let mut sizes = [0; 16];
    'groups: for group in 0..planes.len() {
        let ends = ends_of(magnitudes_at(row, group), kind, planes[group]);
        add_signs(&mut sizes, ends);
    }
    sizes
}

// Adds the signs of four numbers.
fn add_signs(sizes: &mut [u32; 16], ends: [u8; 4])
    requires room { (t : ℕ) → t ≤ 15 → slice_index_or sizes.old t 0 < 2 ^ 31 }
    ensures { (t : ℕ) → t ≤ 15 → slice_index_or sizes.new t 0 ≡ slice_index_or sizes.old t 0 + count_by (λ end. nat_lt t end) ends }
{
    let signs = four_signs(ends);
    'cuts: for t in 0..16 {
        sizes[t] += u32::from(signs[t]);
    }
}

// The signs of four numbers at each truncation.
fn four_signs(ends: [u8; 4]) -> [u8; 16]
    ensures { (t : ℕ) → t ≤ 15 → slice_index_or result t 0 ≡ count_by (λ end. nat_lt t end) ends }
{
    let mut signs = [0; 16];
    'cuts: for t in 0..16 {
        signs[t] = count_over(ends, t as u8);
    }
    signs
}

// How many of four numbers are over t.
fn count_over(ends: [u8; 4], t: u8) -> u8
    ensures { result ≡ count_by (λ end. nat_lt t end) ends }
{
    let [a, b, c, d] = ends;
    u8::from(a > t) + u8::from(b > t) + u8::from(c > t) + u8::from(d > t)
}

// The least truncation at which each number of a code group is 0.
fn ends_of(magnitudes: [u32; 4], kind: Quant, count: u8) -> [u8; 4]
    requires count { count ≤ 15 }
    requires small { All (λ x. x < 2 ^ count) magnitudes }
    ensures few { (t : ℕ) → count_by (λ end. nat_lt t end) result ≤ 4 }
    ensures ends { (t : ℕ) → count_by (λ end. nat_lt t end) result ≡ (if nat_lt t count then count_by (λ number. nat_lt 0 number) (map (quantised kind count t) magnitudes) else 0) }
{
    let [a, b, c, d] = magnitudes;
    [
        end_of(a, kind, count),
        end_of(b, kind, count),
        end_of(c, kind, count),
        end_of(d, kind, count),
    ]
}

// The least truncation at which a number is 0. The uniform quantiser sends the upper part of the magnitudes of as many planes
// as are cut off.
fn end_of(magnitude: u32, kind: Quant, count: u8) -> u8
    requires count { count ≤ 15 }
    requires small { magnitude < 2 ^ count }
    ensures { (t : ℕ) → nat_lt t result ≡ (nat_lt t count && nat_lt 0 (quantised kind count t magnitude)) }
{
    let planes = digits(magnitude);
    match kind {
        Quant::DeadZone => planes,
        Quant::Uniform => planes + bit(is_upper(magnitude, planes, count)),
    }
}

// A truth value as a bit.
fn bit(test: bool) -> u8
    ensures { result ≡ bit_of test }
{
    u8::from(test)
}

// Whether the uniform quantiser sends a magnitude where its own planes are cut off.
fn is_upper(magnitude: u32, planes: u8, count: u8) -> bool
    requires count { count ≤ 15 }
    requires planes { planes ≤ count }
    requires small { magnitude < 2 ^ planes }
    ensures { result ≡ (nat_lt planes count && nat_le (2 ^ count) (magnitude * 2 ^ (count - planes + 1) - magnitude)) }
{
    planes < count && scaled(magnitude, planes, count - planes + 1) - magnitude >= 1 << count
}

// x times 2 to the k.
fn scaled(x: u32, planes: u8, k: u8) -> u32
    requires few { planes + k ≤ 16 }
    requires small { x < 2 ^ planes }
    requires some { 1 ≤ k }
    ensures value { result ≡ x * 2 ^ k }
    ensures least { x ≤ result }
{
    x << k
}

// The binary digits of a magnitude.
fn digits(magnitude: u32) -> u8
    requires { magnitude < 2 ^ 15 }
    ensures digits { result ≡ digits_of magnitude }
    ensures most { result ≤ 15 }
{
    (32 - magnitude.leading_zeros()) as u8
}
