//! The steps down the columns on rows of one buffer, which are told by the places of their first numbers.
ghost use Rattle.std.specs.Prelude.{◌≡◌, ℕ, ℤ, pos, ◌+◌, ◌<◌, ◌≤◌, ◌^◌, ◌⊎◌, ◌+ℤ◌, ◌-ℤ◌, length};
ghost use Rattle.std.specs.Int.{int_shr};
ghost use Rattle.xs_signal.specs.Lines.{entries_of};
ghost use Rattle.xs_wave.specs.Corners.{AreApart, BelowFrom};

use crate::lifting::{lowered, predicted, raised, residual};

/// Each number of a row less half of those of the rows above and below.
pub fn less_half(numbers: &mut [i64], row: usize, above: usize, below: usize, width: usize)
    requires inside { row + width ≤ length numbers.old }
    requires above_inside { above + width ≤ length numbers.old }
    requires below_inside { below + width ≤ length numbers.old }
    requires above_apart { AreApart width row above }
    requires below_apart { AreApart width row below }
    requires small { BelowFrom (2 ^ 54) width row (entries_of numbers.old) }
    requires small_above { BelowFrom (2 ^ 54) width above (entries_of numbers.old) }
    requires small_below { BelowFrom (2 ^ 54) width below (entries_of numbers.old) }
    ensures done { (k : ℕ) → k < width → entries_of numbers.new (row + k) ≡ entries_of numbers.old (row + k) -ℤ int_shr (entries_of numbers.old (above + k) +ℤ entries_of numbers.old (below + k)) 1 }
    ensures others { (place : ℕ) → (place < row ⊎ row + width ≤ place) → entries_of numbers.new place ≡ entries_of numbers.old place }
{
    for k in 0..width {
        numbers[row + k] = residual(numbers[row + k], numbers[above + k], numbers[below + k]);
    }
}

/// Each number of a row and a quarter of those of the rows above and below and 2.
pub fn more_quarter(numbers: &mut [i64], row: usize, above: usize, below: usize, width: usize)
    requires inside { row + width ≤ length numbers.old }
    requires above_inside { above + width ≤ length numbers.old }
    requires below_inside { below + width ≤ length numbers.old }
    requires above_apart { AreApart width row above }
    requires below_apart { AreApart width row below }
    requires small { BelowFrom (2 ^ 54) width row (entries_of numbers.old) }
    requires small_above { BelowFrom (2 ^ 54) width above (entries_of numbers.old) }
    requires small_below { BelowFrom (2 ^ 54) width below (entries_of numbers.old) }
    ensures done { (k : ℕ) → k < width → entries_of numbers.new (row + k) ≡ entries_of numbers.old (row + k) +ℤ int_shr (entries_of numbers.old (above + k) +ℤ entries_of numbers.old (below + k) +ℤ pos 2) 2 }
    ensures others { (place : ℕ) → (place < row ⊎ row + width ≤ place) → entries_of numbers.new place ≡ entries_of numbers.old place }
{
    for k in 0..width {
        numbers[row + k] = raised(numbers[row + k], numbers[above + k], numbers[below + k]);
    }
}

/// Each number of a row less a quarter of those of the rows above and below and 2.
pub fn less_quarter(numbers: &mut [i64], row: usize, above: usize, below: usize, width: usize)
    requires inside { row + width ≤ length numbers.old }
    requires above_inside { above + width ≤ length numbers.old }
    requires below_inside { below + width ≤ length numbers.old }
    requires above_apart { AreApart width row above }
    requires below_apart { AreApart width row below }
    requires small { BelowFrom (2 ^ 54) width row (entries_of numbers.old) }
    requires small_above { BelowFrom (2 ^ 54) width above (entries_of numbers.old) }
    requires small_below { BelowFrom (2 ^ 54) width below (entries_of numbers.old) }
    ensures done { (k : ℕ) → k < width → entries_of numbers.new (row + k) ≡ entries_of numbers.old (row + k) -ℤ int_shr (entries_of numbers.old (above + k) +ℤ entries_of numbers.old (below + k) +ℤ pos 2) 2 }
    ensures others { (place : ℕ) → (place < row ⊎ row + width ≤ place) → entries_of numbers.new place ≡ entries_of numbers.old place }
{
    for k in 0..width {
        numbers[row + k] = lowered(numbers[row + k], numbers[above + k], numbers[below + k]);
    }
}

/// Each number of a row and half of those of the rows above and below.
pub fn more_half(numbers: &mut [i64], row: usize, above: usize, below: usize, width: usize)
    requires inside { row + width ≤ length numbers.old }
    requires above_inside { above + width ≤ length numbers.old }
    requires below_inside { below + width ≤ length numbers.old }
    requires above_apart { AreApart width row above }
    requires below_apart { AreApart width row below }
    requires small { BelowFrom (2 ^ 54) width row (entries_of numbers.old) }
    requires small_above { BelowFrom (2 ^ 54) width above (entries_of numbers.old) }
    requires small_below { BelowFrom (2 ^ 54) width below (entries_of numbers.old) }
    ensures done { (k : ℕ) → k < width → entries_of numbers.new (row + k) ≡ entries_of numbers.old (row + k) +ℤ int_shr (entries_of numbers.old (above + k) +ℤ entries_of numbers.old (below + k)) 1 }
    ensures others { (place : ℕ) → (place < row ⊎ row + width ≤ place) → entries_of numbers.new place ≡ entries_of numbers.old place }
{
    for k in 0..width {
        numbers[row + k] = predicted(numbers[row + k], numbers[above + k], numbers[below + k]);
    }
}
