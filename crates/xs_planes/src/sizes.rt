//! How many bits the numbers of a line have: docs/FORMAT.md, 'Truncation, data and signs'.
ghost use Rattle.std.specs.Prelude.{◌≡◌, ◌+◌, ◌-◌, ◌*◌, ◌<◌, ◌≤◌, [], length, nat_lt, if◌then◌else◌, pos, slice_index_or, unsigned_abs};
ghost use Rattle.xs_spelling.specs.Sizes.{data_size, numbered, signs_size};
ghost use Rattle.xs_planes.specs.Numbers.{AreNumbers, size_by_count};

use xs_bits::Counts;

/// The bits of planes, and of signs unless they stand apart. The counts alone tell them.
pub fn data_bits(counts: &Counts, t: u8, signs_apart: bool) -> u64
    requires few { length counts.now ≤ 2048 }
    requires cut { t ≤ 15 }
    ensures { result ≡ data_size signs_apart (numbered t counts.now []) }
{
    let items = counts.as_slice();
    let mut bits: u32 = 0;
    'groups: for group in 0..items.len() {
        bits += group_bits(items[group], t, signs_apart);
    }
    u64::from(bits)
}

// The bits of a code group.
fn group_bits(count: u8, t: u8, signs_apart: bool) -> u32
    requires range { count ≤ 15 }
    requires cut { t ≤ 15 }
    ensures size { result ≡ size_by_count signs_apart t count }
    ensures few { result ≤ 64 }
{
    if count <= t {
        0
    } else {
        group_width(count - t, signs_apart)
    }
}

// The bits of a code group of so many planes.
pub fn group_width(planes: u8, signs_apart: bool) -> u32
    requires { planes ≤ 15 }
    ensures size { result ≡ (if signs_apart then 0 else 4) + 4 * planes }
    ensures few { result ≤ 64 }
{
    let signs = if signs_apart { 0 } else { 4 };
    signs + 4 * u32::from(planes)
}

/// The bits of signs that stand apart: one for each number other than 0.
pub fn sign_bits(counts: &Counts, t: u8, values: &[i32]) -> u64
    requires few { length counts.now ≤ 2048 }
    requires numbers { AreNumbers t counts.now values.now }
    ensures { result ≡ signs_size (numbered t counts.now values.now) }
{
    let mut bits = 0;
    'columns: for column in 0..values.len() {
        if has_sign(values, column) {
            bits += 1;
        }
    }
    bits
}

// Whether a number has a sign.
pub fn has_sign(values: &[i32], column: usize) -> bool
    requires { column < length values.now }
    ensures { result ≡ nat_lt 0 (unsigned_abs (slice_index_or values.now column (pos 0))) }
{
    values[column] != 0
}
