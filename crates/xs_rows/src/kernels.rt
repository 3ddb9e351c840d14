//! A step down the columns, on whole rows in place.
ghost use Rattle.std.specs.Prelude.{◌≡◌, ℕ, ℤ, pos, ◌^◌, ◌+ℤ◌, ◌-ℤ◌, length};
ghost use Rattle.std.specs.Int.{int_shr};
ghost use Rattle.xs_signal.specs.Lines.{AllBelow, Shows, entries_of};

use crate::lifting::{predict_forward, predict_inverse, update_forward, update_inverse};

/// High-pass entries: each odd entry less half of the even entries above and below.
pub fn predict_forward_row(row: &mut [i32], above: &[i32], below: &[i32])
    requires above_width { length above.now ≡ length row.old }
    requires below_width { length below.now ≡ length row.old }
    requires row { AllBelow (2 ^ 29) (entries_of row.old) }
    requires above { AllBelow (2 ^ 29) (entries_of above.now) }
    requires below { AllBelow (2 ^ 29) (entries_of below.now) }
    ensures { Shows row.new (λ k. entries_of row.old k -ℤ int_shr (entries_of above.now k +ℤ entries_of below.now k) 1) }
{
    for k in 0..row.len() {
        row[k] = predict_forward(row[k], above[k], below[k]);
    }
}

/// Odd entries again: each high-pass entry and half of the even entries above and below.
pub fn predict_inverse_row(row: &mut [i32], above: &[i32], below: &[i32])
    requires above_width { length above.now ≡ length row.old }
    requires below_width { length below.now ≡ length row.old }
    requires row { AllBelow (2 ^ 29) (entries_of row.old) }
    requires above { AllBelow (2 ^ 29) (entries_of above.now) }
    requires below { AllBelow (2 ^ 29) (entries_of below.now) }
    ensures { Shows row.new (λ k. entries_of row.old k +ℤ int_shr (entries_of above.now k +ℤ entries_of below.now k) 1) }
{
    for k in 0..row.len() {
        row[k] = predict_inverse(row[k], above[k], below[k]);
    }
}

/// Low-pass entries: each even entry and a quarter of the high-pass entries above and below.
pub fn update_forward_row(row: &mut [i32], above: &[i32], below: &[i32])
    requires above_width { length above.now ≡ length row.old }
    requires below_width { length below.now ≡ length row.old }
    requires row { AllBelow (2 ^ 29) (entries_of row.old) }
    requires above { AllBelow (2 ^ 29) (entries_of above.now) }
    requires below { AllBelow (2 ^ 29) (entries_of below.now) }
    ensures { Shows row.new (λ k. entries_of row.old k +ℤ int_shr (entries_of above.now k +ℤ entries_of below.now k +ℤ pos 2) 2) }
{
    for k in 0..row.len() {
        row[k] = update_forward(row[k], above[k], below[k]);
    }
}

/// Even entries again: each low-pass entry less a quarter of the high-pass entries above and below.
pub fn update_inverse_row(row: &mut [i32], above: &[i32], below: &[i32])
    requires above_width { length above.now ≡ length row.old }
    requires below_width { length below.now ≡ length row.old }
    requires row { AllBelow (2 ^ 29) (entries_of row.old) }
    requires above { AllBelow (2 ^ 29) (entries_of above.now) }
    requires below { AllBelow (2 ^ 29) (entries_of below.now) }
    ensures { Shows row.new (λ k. entries_of row.old k -ℤ int_shr (entries_of above.now k +ℤ entries_of below.now k +ℤ pos 2) 2) }
{
    for k in 0..row.len() {
        row[k] = update_inverse(row[k], above[k], below[k]);
    }
}
