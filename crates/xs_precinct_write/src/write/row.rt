// The counts and the numbers of a row of coefficients at a truncation: docs/FORMAT.md, 'Rate choice' and 'Quantisers'.
ghost use Rattle.std.specs.Prelude.{◌≡◌, ◌+◌, ◌*◌, ◌<◌, ◌≤◌, ◌^◌, ◌∷◌, [], length, map, max, pos, slice_index_or, slice_set, unsigned_abs, All};
ghost use Rattle.xs_bits.specs.Counts.{AreCounts};
ghost use Rattle.xs_signal.specs.Lines.{entries_of};
ghost use Rattle.xs_signal.specs.Quantiser.{sent, with_sign_of};
ghost use Rattle.xs_spelling.specs.Data.{columns_of};
ghost use Rattle.xs_rate.specs.Content.{planes_of};
ghost use Rattle.xs_rate.specs.Laws.{IsSmallRow};
ghost use Rattle.xs_planes.specs.Numbers.{AreNumbers, put_four};
ghost use Rattle.xs_precinct_write.specs.Outgoing.{counts_cut, values_sent};

use xs_groups::count_planes;
use xs_layout::Quant;
use xs_quant::quantise;

/// The counts of a row, none below the truncation.
pub fn count_row(row: &[i32], t: u8, counts: &mut [u8])
    requires small { IsSmallRow (entries_of row.now) }
    requires few { length counts.old ≤ 2048 }
    requires cut { t ≤ 15 }
    ensures counts { counts.new ≡ counts_cut t (entries_of row.now) (length counts.old) }
    ensures range { AreCounts counts.new }
    ensures least { All (λ count. t ≤ count) counts.new }
{
    count_planes(row, counts);
    'groups: for group in 0..counts.len() {
        counts[group] = counts[group].max(t);
    }
}

/// The numbers of a row whose counts these are.
pub fn quantise_row(kind: Quant, t: u8, counts: &[u8], row: &[i32], values: &mut [i32])
    requires small { IsSmallRow (entries_of row.now) }
    requires few { length counts.now ≤ 2048 }
    requires cut { t ≤ 15 }
    requires counts { counts.now ≡ counts_cut t (entries_of row.now) (length counts.now) }
    requires size { length values.old ≡ 4 * length counts.now }
    ensures values { values.new ≡ values_sent kind t (entries_of row.now) (4 * length counts.now) }
    ensures numbers { AreNumbers t counts.now values.new }
{
    'groups: for group in 0..counts.len() {
        quantise_group(kind, t, counts[group], row, group, values);
    }
}

// The numbers of a code group. All four coefficients are read before a number is put, so that they are quantised at once.
fn quantise_group(kind: Quant, t: u8, count: u8, row: &[i32], group: usize, values: &mut [i32])
    requires small { IsSmallRow (entries_of row.now) }
    requires count { count ≡ max (planes_of (entries_of row.now) group) t }
    requires cut { t ≤ 15 }
    requires few { group < 2048 }
    requires there { 4 * group + 4 ≤ length values.old }
    ensures { values.new ≡ put_four values.old (4 * group) (λ i. sent kind (planes_of (entries_of row.now) group) t (entries_of row.now (4 * group + i))) }
{
    let first = 4 * group;
    if count == t {
        put_zeros(values, first);
        return;
    }
    let coefficients = coefficients_at(row, group);
    let [e, f, g, h] = quantise(kind, magnitudes_of(coefficients), count, t);
    let [a, b, c, d] = coefficients;
    put_number(values, first, e, a);
    put_number(values, first + 1, f, b);
    put_number(values, first + 2, g, c);
    put_number(values, first + 3, h, d);
}

// Puts the numbers of a code group of which no plane is sent.
fn put_zeros(values: &mut [i32], first: usize)
    requires there { first + 4 ≤ length values.old }
    ensures { values.new ≡ put_four values.old first (λ i. pos 0) }
{
    values[first] = 0;
    values[first + 1] = 0;
    values[first + 2] = 0;
    values[first + 3] = 0;
}

// The coefficients of a code group; past the row there are zeros.
fn coefficients_at(row: &[i32], group: usize) -> [i32; 4]
    requires few { group < 2 ^ 32 }
    ensures { result ≡ map (entries_of row.now) (columns_of group) }
{
    let first = 4 * group;
    if first + 4 <= row.len() {
        return [row[first], row[first + 1], row[first + 2], row[first + 3]];
    }
    [
        coefficient(row, first),
        coefficient(row, first + 1),
        coefficient(row, first + 2),
        coefficient(row, first + 3),
    ]
}

// The magnitudes of four coefficients.
fn magnitudes_of(numbers: [i32; 4]) -> [u32; 4]
    ensures { result ≡ unsigned_abs (slice_index_or numbers 0 (pos 0)) ∷ unsigned_abs (slice_index_or numbers 1 (pos 0)) ∷ unsigned_abs (slice_index_or numbers 2 (pos 0)) ∷ unsigned_abs (slice_index_or numbers 3 (pos 0)) ∷ [] }
{
    let [a, b, c, d] = numbers;
    [
        a.unsigned_abs(),
        b.unsigned_abs(),
        c.unsigned_abs(),
        d.unsigned_abs(),
    ]
}

// The coefficient at a column; 0 past the row.
fn coefficient(row: &[i32], column: usize) -> i32
    ensures { result ≡ entries_of row.now column }
{
    if column < row.len() { row[column] } else { 0 }
}

// Puts a number of this magnitude at a column, with the sign of a coefficient.
fn put_number(values: &mut [i32], column: usize, magnitude: u32, coefficient: i32)
    requires there { column < length values.old }
    requires small { magnitude < 2 ^ 15 }
    ensures { values.new ≡ slice_set values.old column (with_sign_of coefficient magnitude) }
{
    let number = magnitude as i32;
    values[column] = if coefficient < 0 { -number } else { number };
}
