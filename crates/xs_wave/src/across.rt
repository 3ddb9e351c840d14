//! The rows of a plane are split and joined in place, each by itself. What is left of a split, and what a join begins with,
//! stands in the upper left part of the plane.
ghost use Rattle.std.specs.Prelude.{◌≡◌, ◌≢◌, ℕ, ℤ, ◌+◌, ◌*◌, ◌<◌, ◌≤◌, ◌^◌, length, slice_index_or, []};
ghost use Rattle.xs_signal.specs.Lines.{Shows, entries_of};
ghost use Rattle.xs_signal.specs.Wavelet.{low_count, high_count, low_of, high_of, inverse_line};
ghost use Rattle.xs_wave.specs.Within.{SameWithin};
ghost use Rattle.xs_wave.specs.Planes.{plane_of, HasSize, IsSmall};
ghost use Rattle.xs_wave.specs.Corners.{BelowIn, BelowWithin, IsRoomy, SameShape, odd_rows, rows_by};

use crate::lines::{analyse_line, synthesise_line};
use crate::planes::Plane;

/// The first columns of the first rows become those of `from`.
pub fn copy_part(from: &Plane, to: &mut Plane, width: usize, height: usize)
    requires room { IsRoomy width height from.now }
    requires room_there { IsRoomy width height to.old }
    ensures same { SameWithin width height (plane_of to.new) (plane_of from.now) }
    ensures shape { SameShape to.old to.new }
{
    for at in 0..height {
        to.put(at, &from.line(at)[..width]);
    }
}

/// Each odd row is split, its low part into a row of `low` and its high part into that of `high`.
pub fn split_odd_rows(plane: &Plane, low: &mut Plane, high: &mut Plane, width: usize, height: usize)
    requires two { 2 ≤ width }
    requires room { IsRoomy width height plane.now }
    requires lows { HasSize (low_count width) (high_count height) low.old }
    requires highs { HasSize (high_count width) (high_count height) high.old }
    requires small { BelowWithin (2 ^ 50) width (high_count height) (odd_rows (plane_of plane.now)) }
    ensures low { SameWithin (low_count width) (high_count height) (plane_of low.new) (λ row. low_of width (odd_rows (plane_of plane.now) row)) }
    ensures high { SameWithin (high_count width) (high_count height) (plane_of high.new) (λ row. high_of width (odd_rows (plane_of plane.now) row)) }
    ensures low_size { HasSize (low_count width) (high_count height) low.new }
    ensures high_size { HasSize (high_count width) (high_count height) high.new }
{
    for at in 0..height / 2 {
        split_row(plane, 2 * at + 1, low, high, at, width);
    }
}

fn split_row(plane: &Plane, from: usize, low: &mut Plane, high: &mut Plane, at: usize, width: usize)
    requires two { 2 ≤ width }
    requires from { from < length plane.now }
    requires low_at { at < length low.old }
    requires high_at { at < length high.old }
    requires wide { width ≤ length (slice_index_or plane.now from []) }
    requires lows { length (slice_index_or low.old at []) ≡ low_count width }
    requires highs { length (slice_index_or high.old at []) ≡ high_count width }
    requires small { BelowIn (2 ^ 50) width (plane_of plane.now from) }
    ensures low { (column : ℕ) → column < low_count width → plane_of low.new at column ≡ low_of width (plane_of plane.now from) column }
    ensures high { (column : ℕ) → column < high_count width → plane_of high.new at column ≡ high_of width (plane_of plane.now from) column }
    ensures low_others { (row : ℕ) → row ≢ at → slice_index_or low.new row [] ≡ slice_index_or low.old row [] }
    ensures high_others { (row : ℕ) → row ≢ at → slice_index_or high.new row [] ≡ slice_index_or high.old row [] }
    ensures low_shape { SameShape low.old low.new }
    ensures high_shape { SameShape high.old high.new }
{
    split_front(plane.line(from), width, low.line_mut(at), high.line_mut(at));
}

// The low and the high part of a row's first numbers.
fn split_front(row: &[i64], width: usize, low: &mut [i64], high: &mut [i64])
    requires two { 2 ≤ width }
    requires wide { width ≤ length row.now }
    requires lows { length low.old ≡ low_count width }
    requires highs { length high.old ≡ high_count width }
    requires small { BelowIn (2 ^ 50) width (entries_of row.now) }
    ensures low { Shows low.new (low_of width (entries_of row.now)) }
    ensures high { Shows high.new (high_of width (entries_of row.now)) }
{
    analyse_line(&row[..width], low, high);
}

/// Each row that stands `step` after the last is split, its high part into a row of `high`; its low part is left in the
/// row of `plane` with the same number as that of `high`. `line` is written over.
pub fn split_rows(
    plane: &mut Plane,
    step: usize,
    line: &mut [i64],
    high: &mut Plane,
    width: usize,
    height: usize,
)
    requires two { 2 ≤ width }
    requires step { 1 ≤ step }
    requires near { step ≤ 2 }
    requires most { height ≤ 8192 }
    requires inside { (row : ℕ) → row < height → step * row < length plane.old }
    requires few { height ≤ length plane.old }
    requires wide { (row : ℕ) → row < length plane.old → width ≤ length (slice_index_or plane.old row []) }
    requires line { length line.old ≡ low_count width }
    requires highs { HasSize (high_count width) height high.old }
    requires small { BelowWithin (2 ^ 50) width height (rows_by step (plane_of plane.old)) }
    ensures low { SameWithin (low_count width) height (plane_of plane.new) (λ row. low_of width (rows_by step (plane_of plane.old) row)) }
    ensures high { SameWithin (high_count width) height (plane_of high.new) (λ row. high_of width (rows_by step (plane_of plane.old) row)) }
    ensures shape { SameShape plane.old plane.new }
    ensures size { HasSize (high_count width) height high.new }
{
    for at in 0..height {
        split_row_in(plane, place_of(step, at), line, high, at, width);
    }
}

// The number of a row among rows that stand `step` apart.
fn place_of(step: usize, at: usize) -> usize
    requires { step * at < 2 ^ 64 }
    ensures { result ≡ step * at }
{
    step * at
}

fn split_row_in(
    plane: &mut Plane,
    from: usize,
    line: &mut [i64],
    high: &mut Plane,
    at: usize,
    width: usize,
)
    requires two { 2 ≤ width }
    requires from { from < length plane.old }
    requires at { at < length plane.old }
    requires high_at { at < length high.old }
    requires wide { (row : ℕ) → row < length plane.old → width ≤ length (slice_index_or plane.old row []) }
    requires line { length line.old ≡ low_count width }
    requires highs { length (slice_index_or high.old at []) ≡ high_count width }
    requires small { BelowIn (2 ^ 50) width (plane_of plane.old from) }
    ensures low { (column : ℕ) → column < low_count width → plane_of plane.new at column ≡ low_of width (plane_of plane.old from) column }
    ensures high { (column : ℕ) → column < high_count width → plane_of high.new at column ≡ high_of width (plane_of plane.old from) column }
    ensures others { (row : ℕ) → row ≢ at → slice_index_or plane.new row [] ≡ slice_index_or plane.old row [] }
    ensures high_others { (row : ℕ) → row ≢ at → slice_index_or high.new row [] ≡ slice_index_or high.old row [] }
    ensures shape { SameShape plane.old plane.new }
    ensures high_shape { SameShape high.old high.new }
{
    split_front(plane.line(from), width, line, high.line_mut(at));
    plane.put(at, line);
}

/// Each odd row is joined of a row of the low and one of the high part.
pub fn join_odd_rows(low: &Plane, high: &Plane, plane: &mut Plane, width: usize, height: usize)
    requires two { 2 ≤ width }
    requires room { IsRoomy width height plane.old }
    requires lows { HasSize (low_count width) (high_count height) low.now }
    requires highs { HasSize (high_count width) (high_count height) high.now }
    requires small_low { IsSmall (2 ^ 50) low.now }
    requires small_high { IsSmall (2 ^ 50) high.now }
    ensures odd { SameWithin width (high_count height) (odd_rows (plane_of plane.new)) (λ row. inverse_line width (plane_of low.now row) (plane_of high.now row)) }
    ensures even { (row : ℕ) → slice_index_or plane.new (2 * row) [] ≡ slice_index_or plane.old (2 * row) [] }
    ensures shape { SameShape plane.old plane.new }
{
    for at in 0..height / 2 {
        plane.join_row(2 * at + 1, low.line(at), high.line(at), width);
    }
}

/// Each of the first rows is joined with a row of `high`, from the last on, to the row that is `step` times as far down.
/// `line` is written over.
pub fn join_rows(
    plane: &mut Plane,
    step: usize,
    line: &mut [i64],
    high: &Plane,
    width: usize,
    height: usize,
)
    requires two { 2 ≤ width }
    requires step { 1 ≤ step }
    requires near { step ≤ 2 }
    requires most { height ≤ 8192 }
    requires inside { (row : ℕ) → row < height → step * row < length plane.old }
    requires few { height ≤ length plane.old }
    requires wide { (row : ℕ) → row < length plane.old → width ≤ length (slice_index_or plane.old row []) }
    requires line { length line.old ≡ low_count width }
    requires highs { HasSize (high_count width) height high.now }
    requires small { BelowWithin (2 ^ 50) (low_count width) height (plane_of plane.old) }
    requires small_high { IsSmall (2 ^ 50) high.now }
    ensures joined { SameWithin width height (rows_by step (plane_of plane.new)) (λ row. inverse_line width (plane_of plane.old row) (plane_of high.now row)) }
    ensures shape { SameShape plane.old plane.new }
{
    let mut at = height;
    while at > 0 {
        at -= 1;
        line.copy_from_slice(&plane.line(at)[..line.len()]);
        plane.join_row(place_of(step, at), line, high.line(at), width);
    }
}
