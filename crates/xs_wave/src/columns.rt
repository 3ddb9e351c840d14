//! The columns of a plane are split and joined in place, a whole row at a time: even rows stand for the low part and odd
//! rows for the high part.
ghost use Rattle.std.specs.Prelude.{◌≡◌, ℕ, ℤ, ◌+◌, ◌-◌, ◌*◌, ◌<◌, ◌≤◌, ◌^◌, ◌+ℤ◌, ◌-ℤ◌, length, slice_index_or, []};
ghost use Rattle.xs_signal.specs.Lines.{column_of};
ghost use Rattle.xs_signal.specs.Wavelet.{low_count, high_count, low_of, high_of, even_of, predicted_sample, updated, inverse_line};
ghost use Rattle.xs_wave.specs.Within.{SameWithin};
ghost use Rattle.xs_wave.specs.Planes.{plane_of};
ghost use Rattle.xs_wave.specs.Corners.{BelowWithin, IsRoomy, SameShape, even_rows, odd_rows};

use crate::planes::Plane;

/// The first columns of the first rows are split.
pub fn split_columns(plane: &mut Plane, width: usize, height: usize)
    requires two { 2 ≤ height }
    requires room { IsRoomy width height plane.old }
    requires small { BelowWithin (2 ^ 50) width height (plane_of plane.old) }
    ensures low { SameWithin width (low_count height) (even_rows (plane_of plane.new)) (λ row column. low_of height (column_of (plane_of plane.old) column) row) }
    ensures high { SameWithin width (high_count height) (odd_rows (plane_of plane.new)) (λ row column. high_of height (column_of (plane_of plane.old) column) row) }
    ensures shape { SameShape plane.old plane.new }
{
    split_odd_rows(plane, width, height);
    split_even_rows(plane, width, height);
}

// Each odd row less half of the even rows beside it.
fn split_odd_rows(plane: &mut Plane, width: usize, height: usize)
    requires two { 2 ≤ height }
    requires room { IsRoomy width height plane.old }
    requires small { BelowWithin (2 ^ 50) width height (plane_of plane.old) }
    ensures high { SameWithin width (high_count height) (odd_rows (plane_of plane.new)) (λ row column. high_of height (column_of (plane_of plane.old) column) row) }
    ensures even { (row : ℕ) → slice_index_or plane.new (2 * row) [] ≡ slice_index_or plane.old (2 * row) [] }
    ensures shape { SameShape plane.old plane.new }
{
    let last = last_even(height);
    for at in 0..height / 2 {
        plane.less_half(2 * at + 1, 2 * at, 2 * (at + 1).min(last), width);
    }
}

// The number of the last even row, counted among the even rows.
fn last_even(height: usize) -> usize
    requires { 1 ≤ height }
    ensures { result ≡ low_count height - 1 }
{
    (height - 1) / 2
}

// Each even row and a quarter of the odd rows beside it.
fn split_even_rows(plane: &mut Plane, width: usize, height: usize)
    requires two { 2 ≤ height }
    requires room { IsRoomy width height plane.old }
    requires small { BelowWithin (2 ^ 50) width (low_count height) (even_rows (plane_of plane.old)) }
    requires small_odd { BelowWithin (2 ^ 51) width (high_count height) (odd_rows (plane_of plane.old)) }
    ensures low { SameWithin width (low_count height) (even_rows (plane_of plane.new)) (λ row column. even_rows (plane_of plane.old) row column +ℤ updated height (column_of (odd_rows (plane_of plane.old)) column) row) }
    ensures odd { (row : ℕ) → slice_index_or plane.new (2 * row + 1) [] ≡ slice_index_or plane.old (2 * row + 1) [] }
    ensures shape { SameShape plane.old plane.new }
{
    let last = height / 2 - 1;
    for at in 0..height - height / 2 {
        plane.more_quarter(
            2 * at,
            2 * at.saturating_sub(1) + 1,
            2 * at.min(last) + 1,
            width,
        );
    }
}

/// The first columns of the first rows are joined.
pub fn join_columns(plane: &mut Plane, width: usize, height: usize)
    requires two { 2 ≤ height }
    requires room { IsRoomy width height plane.old }
    requires small { BelowWithin (2 ^ 50) width height (plane_of plane.old) }
    ensures joined { SameWithin width height (plane_of plane.new) (λ row column. inverse_line height (column_of (even_rows (plane_of plane.old)) column) (column_of (odd_rows (plane_of plane.old)) column) row) }
    ensures shape { SameShape plane.old plane.new }
{
    join_even_rows(plane, width, height);
    join_odd_rows(plane, width, height);
}

// Each even row less a quarter of the odd rows beside it.
fn join_even_rows(plane: &mut Plane, width: usize, height: usize)
    requires two { 2 ≤ height }
    requires room { IsRoomy width height plane.old }
    requires small { BelowWithin (2 ^ 50) width height (plane_of plane.old) }
    ensures even { SameWithin width (low_count height) (even_rows (plane_of plane.new)) (λ row column. even_of height (column_of (even_rows (plane_of plane.old)) column) (column_of (odd_rows (plane_of plane.old)) column) row) }
    ensures odd { (row : ℕ) → slice_index_or plane.new (2 * row + 1) [] ≡ slice_index_or plane.old (2 * row + 1) [] }
    ensures shape { SameShape plane.old plane.new }
{
    let last = height / 2 - 1;
    for at in 0..height - height / 2 {
        plane.less_quarter(
            2 * at,
            2 * at.saturating_sub(1) + 1,
            2 * at.min(last) + 1,
            width,
        );
    }
}

// Each odd row and half of the even rows beside it.
fn join_odd_rows(plane: &mut Plane, width: usize, height: usize)
    requires two { 2 ≤ height }
    requires room { IsRoomy width height plane.old }
    requires small { BelowWithin (2 ^ 50) width (high_count height) (odd_rows (plane_of plane.old)) }
    requires small_even { BelowWithin (2 ^ 51) width (low_count height) (even_rows (plane_of plane.old)) }
    ensures high { SameWithin width (high_count height) (odd_rows (plane_of plane.new)) (λ row column. odd_rows (plane_of plane.old) row column +ℤ predicted_sample height (column_of (even_rows (plane_of plane.old)) column) row) }
    ensures even { (row : ℕ) → slice_index_or plane.new (2 * row) [] ≡ slice_index_or plane.old (2 * row) [] }
    ensures shape { SameShape plane.old plane.new }
{
    let last = last_even(height);
    for at in 0..height / 2 {
        plane.more_half(2 * at + 1, 2 * at, 2 * (at + 1).min(last), width);
    }
}
