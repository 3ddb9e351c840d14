//! Rows of coefficients: to the numbers that are coded, and back. docs/FORMAT.md, 'Rate choice', 'Quantisers' and '5/3 wavelet'.
ghost use Rattle.std.specs.Prelude.{◌≡◌, ℕ, ◌-◌, ◌*◌, ◌/◌, ◌<◌, ◌≤◌, ◌^◌, if◌then◌else◌, length, map, pos, neg_ℤ, slice_index_or, slice_set, unsigned_abs};
ghost use Rattle.std.specs.Int.{is_negative};
ghost use Rattle.xs_layout.specs.declared.Quant.TheVariants.{DeadZone, Uniform};
ghost use Rattle.xs_lists.specs.Spelling.{upto};
ghost use Rattle.xs_signal.specs.Fold.{IsFraction, fold as fold_of};
ghost use Rattle.xs_quant.specs.Rows.{AreSent, raised, signed_step};

use crate::dead_zone::middle;
use crate::uniform::factors_of;
use xs_layout::Quant;

/// Folds the coefficients of a row, entry by entry.
pub fn fold_row(values: &[i32], fq: u8, row: &mut [i32])
    requires width { length row.old ≡ length values.now }
    requires fq { IsFraction fq }
    ensures folded { row.new ≡ map (λ column. fold_of fq (slice_index_or values.now column (pos 0))) (upto (length values.now)) }
{
    'columns: for column in 0..values.len() {
        fold_at(values, column, fq, row);
    }
}

// Folds the coefficient at a column.
fn fold_at(values: &[i32], column: usize, fq: u8, row: &mut [i32])
    requires there { column < length values.now }
    requires width { length row.old ≡ length values.now }
    requires fq { IsFraction fq }
    ensures { row.new ≡ slice_set row.old column (fold_of fq (slice_index_or values.now column (pos 0))) }
{
    let half = if fq == 6 { 32 } else { 128 };
    let size = ((values[column].unsigned_abs() + half) >> fq).min(32767) as i32;
    row[column] = if values[column] < 0 { -size } else { size };
}

/// How the numbers that are sent for a band's line become coefficients: by this quantiser and truncation, each then shifted
/// left by `fq` bits.
#[derive(Clone, Copy)]
pub struct Raise {
    pub kind: Quant,
    pub t: u8,
    pub fq: u8,
}

/// The coefficients that stand for the numbers of a row, entry by entry. There is a count for each four of them.
pub fn raise_row(by: Raise, counts: &[u8], values: &[i32], row: &mut [i32])
    requires fq { by.fq ≤ 8 }
    requires width { length row.old ≡ length values.now }
    requires sent { AreSent by.t counts.now values.now }
    ensures raised { row.new ≡ map (raised by counts.now values.now) (upto (length values.now)) }
{
    match by.kind {
        Quant::DeadZone => raise_to_middles(by, counts, values, row),
        Quant::Uniform => raise_to_steps(by, counts, values, row),
    }
}

// By the dead zone no count is asked.
fn raise_to_middles(by: Raise, counts: &[u8], values: &[i32], row: &mut [i32])
    requires kind { by.kind ≡ DeadZone }
    requires fq { by.fq ≤ 8 }
    requires width { length row.old ≡ length values.now }
    requires sent { AreSent by.t counts.now values.now }
    ensures { row.new ≡ map (raised by counts.now values.now) (upto (length values.now)) }
{
    'columns: for column in 0..values.len() {
        let middle = middle(magnitude_at(values, column), 15, by.t);
        put_signed(
            row,
            column,
            shifted(middle, by.fq),
            is_below_zero(values, column),
        );
    }
}

// Each step is one product: what stands for a number below itself hangs on the count alone.
fn raise_to_steps(by: Raise, counts: &[u8], values: &[i32], row: &mut [i32])
    requires kind { by.kind ≡ Uniform }
    requires fq { by.fq ≤ 8 }
    requires width { length row.old ≡ length values.now }
    requires sent { AreSent by.t counts.now values.now }
    ensures { row.new ≡ map (raised by counts.now values.now) (upto (length values.now)) }
{
    let factors = factors_of(by.t);
    let whole = values.len() / 4;
    'groups: for group in 0..whole {
        let factor = factors[counts[group] as usize];
        put_step(values, 4 * group, (factor, by.fq), row);
        put_step(values, 4 * group + 1, (factor, by.fq), row);
        put_step(values, 4 * group + 2, (factor, by.fq), row);
        put_step(values, 4 * group + 3, (factor, by.fq), row);
    }
    'rest: for column in 4 * whole..values.len() {
        let factor = factors[counts[column / 4] as usize];
        put_step(values, column, (factor, by.fq), row);
    }
}

// Puts what stands for the number at a column, by its factor and the bits that it is shifted.
fn put_step(values: &[i32], column: usize, by: (u32, u8), row: &mut [i32])
    requires there { column < length values.now }
    requires width { length row.old ≡ length values.now }
    requires fq { by.1 ≤ 8 }
    requires product { unsigned_abs (slice_index_or values.now column (pos 0)) * by.0 < 2 ^ 31 }
    ensures { row.new ≡ slice_set row.old column (signed_step by.0 by.1 (slice_index_or values.now column (pos 0))) }
{
    let (factor, fq) = by;
    let step = by_factor(magnitude_at(values, column), factor);
    put_signed(
        row,
        column,
        shifted(step, fq),
        is_below_zero(values, column),
    );
}

// A product without its 16 lowest bits.
fn by_factor(magnitude: u32, factor: u32) -> u32
    requires { magnitude * factor < 2 ^ 31 }
    ensures step { result ≡ magnitude * factor / 2 ^ 16 }
    ensures small { result < 2 ^ 15 }
{
    (magnitude * factor) >> 16
}

fn magnitude_at(values: &[i32], column: usize) -> u32
    requires { column < length values.now }
    ensures { result ≡ unsigned_abs (slice_index_or values.now column (pos 0)) }
{
    values[column].unsigned_abs()
}

fn is_below_zero(values: &[i32], column: usize) -> bool
    requires { column < length values.now }
    ensures { result ≡ is_negative (slice_index_or values.now column (pos 0)) }
{
    values[column] < 0
}

// A magnitude shifted left.
fn shifted(magnitude: u32, fq: u8) -> u32
    requires magnitude { magnitude < 2 ^ 15 }
    requires fq { fq ≤ 8 }
    ensures value { result ≡ magnitude * 2 ^ fq }
    ensures small { result < 2 ^ 23 }
{
    magnitude << fq
}

// Puts a number of this magnitude at a column.
fn put_signed(row: &mut [i32], column: usize, magnitude: u32, negative: bool)
    requires there { column < length row.old }
    requires small { magnitude < 2 ^ 23 }
    ensures { row.new ≡ slice_set row.old column (if negative then neg_ℤ (pos magnitude) else pos magnitude) }
{
    let number = magnitude as i32;
    row[column] = if negative { -number } else { number };
}
