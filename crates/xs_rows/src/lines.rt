//! A row is split across into its low and its high part, and put together again.
ghost use Rattle.std.specs.Prelude.{◌≡◌, ℕ, ℤ, pos, ◌+◌, ◌-◌, ◌*◌, ◌<◌, ◌≤◌, ◌^◌, ◌+ℤ◌, length, slice_index_or};
ghost use Rattle.xs_signal.specs.Lines.{AllBelow, Shows, entries_of};
ghost use Rattle.xs_signal.specs.Wavelet.{low_count, high_count, low_of, high_of, inverse_line, even_of, updated};
ghost use Rattle.xs_rows.specs.Halves.{ShowsJoined};

use crate::lifting::{predict_forward, predict_inverse, update_forward, update_inverse};

/// The low and the high part of a row, split across.
pub fn split_row(line: &[i32], low: &mut [i32], high: &mut [i32])
    requires two { 2 ≤ length line.now }
    requires lows { length low.old ≡ low_count (length line.now) }
    requires highs { length high.old ≡ high_count (length line.now) }
    requires small { AllBelow (2 ^ 28) (entries_of line.now) }
    ensures low { Shows low.new (low_of (length line.now) (entries_of line.now)) }
    ensures high { Shows high.new (high_of (length line.now) (entries_of line.now)) }
{
    fill_high(line, high);
    fill_low(line, high, low);
}

/// The row with this low and this high part.
pub fn join_row(low: &[i32], high: &[i32], line: &mut [i32])
    requires two { 2 ≤ length line.old }
    requires lows { length low.now ≡ low_count (length line.old) }
    requires highs { length high.now ≡ high_count (length line.old) }
    requires low { AllBelow (2 ^ 28) (entries_of low.now) }
    requires high { AllBelow (2 ^ 28) (entries_of high.now) }
    ensures { Shows line.new (inverse_line (length line.old) (entries_of low.now) (entries_of high.now)) }
{
    let even = join_pairs(low, high, line);
    join_last(low, high, even, line);
}

// The high part: each odd sample less half of its neighbours.
fn fill_high(line: &[i32], high: &mut [i32])
    requires two { 2 ≤ length line.now }
    requires highs { length high.old ≡ high_count (length line.now) }
    requires small { AllBelow (2 ^ 28) (entries_of line.now) }
    ensures { Shows high.new (high_of (length line.now) (entries_of line.now)) }
{
    let inner = (line.len() - 1) / 2;
    let mut left = line[0];
    for k in 0..inner {
        let right = line[2 * k + 2];
        high[k] = predict_forward(line[2 * k + 1], left, right);
        left = right;
    }
    if inner < high.len() {
        high[inner] = predict_forward(line[2 * inner + 1], left, left);
    }
}

// The low part: each even sample and a quarter of its high-pass neighbours.
fn fill_low(line: &[i32], high: &[i32], low: &mut [i32])
    requires two { 2 ≤ length line.now }
    requires lows { length low.old ≡ low_count (length line.now) }
    requires highs { length high.now ≡ high_count (length line.now) }
    requires small { AllBelow (2 ^ 28) (entries_of line.now) }
    requires small_high { AllBelow (2 ^ 29) (entries_of high.now) }
    ensures { (k : ℕ) → k < length low.new → entries_of low.new k ≡ entries_of line.now (2 * k) +ℤ updated (length line.now) (entries_of high.now) k }
{
    let mut left = high[0];
    for k in 0..high.len() {
        let right = high[k];
        low[k] = update_forward(line[2 * k], left, right);
        left = right;
    }
    let last = high.len();
    if last < low.len() {
        low[last] = update_forward(line[2 * last], left, left);
    }
}

// All pairs of an even and an odd sample but the last; answers the even sample of that.
fn join_pairs(low: &[i32], high: &[i32], line: &mut [i32]) -> i32
    requires two { 2 ≤ length line.old }
    requires lows { length low.now ≡ low_count (length line.old) }
    requires highs { length high.now ≡ high_count (length line.old) }
    requires low { AllBelow (2 ^ 28) (entries_of low.now) }
    requires high { AllBelow (2 ^ 28) (entries_of high.now) }
    ensures even { result ≡ even_of (length line.old) (entries_of low.now) (entries_of high.now) (length high.now - 1) }
    ensures pairs { ShowsJoined line.new (length high.now - 1) (length line.old) (entries_of low.now) (entries_of high.now) }
{
    let last = high.len() - 1;
    let mut even = update_inverse(low[0], high[0], high[0]);
    for k in 0..last {
        let next = update_inverse(low[k + 1], high[k], high[k + 1]);
        line[2 * k] = even;
        line[2 * k + 1] = predict_inverse(high[k], even, next);
        even = next;
    }
    even
}

// The last pair, and for an odd number of samples the even one after it.
fn join_last(low: &[i32], high: &[i32], even: i32, line: &mut [i32])
    requires two { 2 ≤ length line.old }
    requires lows { length low.now ≡ low_count (length line.old) }
    requires highs { length high.now ≡ high_count (length line.old) }
    requires low { AllBelow (2 ^ 28) (entries_of low.now) }
    requires high { AllBelow (2 ^ 28) (entries_of high.now) }
    requires even { even ≡ even_of (length line.old) (entries_of low.now) (entries_of high.now) (length high.now - 1) }
    requires pairs { ShowsJoined line.old (length high.now - 1) (length line.old) (entries_of low.now) (entries_of high.now) }
    ensures { Shows line.new (inverse_line (length line.old) (entries_of low.now) (entries_of high.now)) }
{
    let last = high.len() - 1;
    line[2 * last] = even;
    if last + 1 < low.len() {
        let next = update_inverse(low[last + 1], high[last], high[last]);
        line[2 * last + 1] = predict_inverse(high[last], even, next);
        line[2 * last + 2] = next;
    } else {
        line[2 * last + 1] = predict_inverse(high[last], even, even);
    }
}
