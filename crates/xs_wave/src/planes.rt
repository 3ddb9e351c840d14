//! Rows of numbers, seen as a list of lists.
ghost use Rattle.std.specs.Prelude.{◌≡◌, ◌≢◌, ℕ, ℤ, pos, ◌+◌, ◌*◌, ◌^◌, ◌<◌, ◌≤◌, ◌+ℤ◌, ◌-ℤ◌, List, length, IfOk, slice_index_or, [], replicate};
ghost use Rattle.std.specs.Borrow.{sem};
ghost use Rattle.std.specs.Int.{int_shr};
ghost use Rattle.xs_signal.specs.Lines.{AllBelow, entries_of};
ghost use Rattle.xs_signal.specs.Wavelet.{low_count, high_count, inverse_line};
ghost use Rattle.xs_wave.specs.Corners.{BelowIn, SameShape};
ghost use Rattle.xs_wave.specs.Lent.{LendsPlaneRow};
ghost use Rattle.xs_wave.specs.Planes.{plane_of, IsWide};

use crate::lifts;
use crate::lines::synthesise_line;
use std::alloc::Global;
use std::marker::Model;
use xs_io::Memory;

/// Rows of numbers, all of one width, one after the other.
#[derive(Drop)]
pub struct Plane {
    width: usize,
    height: usize,
    samples: Vec<i64>,
}

impl Model for Plane {
    ghost use Rattle.std.specs.Prelude.{◌≡◌, ◌*◌, List, ℤ, length};
    ghost use Rattle.xs_wave.specs.Rows.{rows_of_entries};

    ghost Value = { List (List ℤ) };

    ghost view = { λ s. rows_of_entries s.width s.height s.samples.items };

    ghost invariant = { λ s. length s.samples.items ≡ s.height * s.width };
}

impl Plane {
    /// Rows of zeros.
    pub fn blank(alloc: Global, width: u32, height: u32) -> Result<Plane, Memory>
        ensures { IfOk result (λ plane. plane ≡ replicate height (replicate width (pos 0))) }
    {
        let width = width as usize;
        let height = height as usize;
        let samples = zeros(alloc, height * width)?;
        Ok(Plane {
            width,
            height,
            samples,
        })
    }

    pub fn row(&self, row: u32) -> &[i64]
        requires { row < length self.now }
        ensures { result.now ≡ slice_index_or self.now row [] }
    {
        self.line(row as usize)
    }

    pub fn row_mut(&mut self, row: u32) -> &mut [i64]
        requires { row < length self.old }
        ensures* after { sem 𝓛 (LendsPlaneRow self.entry row result) }
        ensures value { result.now ≡ slice_index_or self.old row [] }
    {
        self.line_mut(row as usize)
    }

    pub(crate) fn empty(alloc: Global) -> Plane
        ensures { result ≡ [] }
    {
        Plane {
            width: 0,
            height: 0,
            samples: Vec::new(alloc),
        }
    }

    /// The number of columns of each row.
    pub(crate) fn width(&self) -> usize
        requires { 0 < length self.now }
        ensures value { result ≡ length (slice_index_or self.now 0 []) }
        ensures wide { IsWide result self.now }
    {
        self.width
    }

    pub(crate) fn height(&self) -> usize
        ensures { result ≡ length self.now }
    {
        self.height
    }

    pub(crate) fn line(&self, at: usize) -> &[i64]
        requires { at < length self.now }
        ensures { result.now ≡ slice_index_or self.now at [] }
    {
        let start = start_of(at, self.width, self.samples.len());
        &self.samples[start..start + self.width]
    }

    pub(crate) fn line_mut(&mut self, at: usize) -> &mut [i64]
        requires { at < length self.old }
        ensures* after { sem 𝓛 (LendsPlaneRow self.entry at result) }
        ensures value { result.now ≡ slice_index_or self.old at [] }
    {
        let start = start_of(at, self.width, self.samples.len());
        self.samples.slice_mut(start..start + self.width)
    }

    /// The first numbers of row `at`, each less half of those of the rows above and below.
    pub(crate) fn less_half(&mut self, at: usize, above: usize, below: usize, width: usize)
        requires at { at < length self.old }
        requires above { above < length self.old }
        requires below { below < length self.old }
        requires not_above { above ≢ at }
        requires not_below { below ≢ at }
        requires wide { width ≤ length (slice_index_or self.old at []) }
        requires small { BelowIn (2 ^ 54) width (plane_of self.old at) }
        requires small_above { BelowIn (2 ^ 54) width (plane_of self.old above) }
        requires small_below { BelowIn (2 ^ 54) width (plane_of self.old below) }
        ensures row { (column : ℕ) → column < width → plane_of self.new at column ≡ plane_of self.old at column -ℤ int_shr (plane_of self.old above column +ℤ plane_of self.old below column) 1 }
        ensures others { (row : ℕ) → row ≢ at → slice_index_or self.new row [] ≡ slice_index_or self.old row [] }
        ensures shape { SameShape self.old self.new }
    {
        let row = start_of(at, self.width, self.samples.len());
        let above = start_of(above, self.width, self.samples.len());
        let below = start_of(below, self.width, self.samples.len());
        lifts::less_half(self.samples.as_mut_slice(), row, above, below, width);
    }

    /// The first numbers of row `at`, each and a quarter of those of the rows above and below and 2.
    pub(crate) fn more_quarter(&mut self, at: usize, above: usize, below: usize, width: usize)
        requires at { at < length self.old }
        requires above { above < length self.old }
        requires below { below < length self.old }
        requires not_above { above ≢ at }
        requires not_below { below ≢ at }
        requires wide { width ≤ length (slice_index_or self.old at []) }
        requires small { BelowIn (2 ^ 54) width (plane_of self.old at) }
        requires small_above { BelowIn (2 ^ 54) width (plane_of self.old above) }
        requires small_below { BelowIn (2 ^ 54) width (plane_of self.old below) }
        ensures row { (column : ℕ) → column < width → plane_of self.new at column ≡ plane_of self.old at column +ℤ int_shr (plane_of self.old above column +ℤ plane_of self.old below column +ℤ pos 2) 2 }
        ensures others { (row : ℕ) → row ≢ at → slice_index_or self.new row [] ≡ slice_index_or self.old row [] }
        ensures shape { SameShape self.old self.new }
    {
        let row = start_of(at, self.width, self.samples.len());
        let above = start_of(above, self.width, self.samples.len());
        let below = start_of(below, self.width, self.samples.len());
        lifts::more_quarter(self.samples.as_mut_slice(), row, above, below, width);
    }

    /// The first numbers of row `at`, each less a quarter of those of the rows above and below and 2.
    pub(crate) fn less_quarter(&mut self, at: usize, above: usize, below: usize, width: usize)
        requires at { at < length self.old }
        requires above { above < length self.old }
        requires below { below < length self.old }
        requires not_above { above ≢ at }
        requires not_below { below ≢ at }
        requires wide { width ≤ length (slice_index_or self.old at []) }
        requires small { BelowIn (2 ^ 54) width (plane_of self.old at) }
        requires small_above { BelowIn (2 ^ 54) width (plane_of self.old above) }
        requires small_below { BelowIn (2 ^ 54) width (plane_of self.old below) }
        ensures row { (column : ℕ) → column < width → plane_of self.new at column ≡ plane_of self.old at column -ℤ int_shr (plane_of self.old above column +ℤ plane_of self.old below column +ℤ pos 2) 2 }
        ensures others { (row : ℕ) → row ≢ at → slice_index_or self.new row [] ≡ slice_index_or self.old row [] }
        ensures shape { SameShape self.old self.new }
    {
        let row = start_of(at, self.width, self.samples.len());
        let above = start_of(above, self.width, self.samples.len());
        let below = start_of(below, self.width, self.samples.len());
        lifts::less_quarter(self.samples.as_mut_slice(), row, above, below, width);
    }

    /// The first numbers of row `at`, each and half of those of the rows above and below.
    pub(crate) fn more_half(&mut self, at: usize, above: usize, below: usize, width: usize)
        requires at { at < length self.old }
        requires above { above < length self.old }
        requires below { below < length self.old }
        requires not_above { above ≢ at }
        requires not_below { below ≢ at }
        requires wide { width ≤ length (slice_index_or self.old at []) }
        requires small { BelowIn (2 ^ 54) width (plane_of self.old at) }
        requires small_above { BelowIn (2 ^ 54) width (plane_of self.old above) }
        requires small_below { BelowIn (2 ^ 54) width (plane_of self.old below) }
        ensures row { (column : ℕ) → column < width → plane_of self.new at column ≡ plane_of self.old at column +ℤ int_shr (plane_of self.old above column +ℤ plane_of self.old below column) 1 }
        ensures others { (row : ℕ) → row ≢ at → slice_index_or self.new row [] ≡ slice_index_or self.old row [] }
        ensures shape { SameShape self.old self.new }
    {
        let row = start_of(at, self.width, self.samples.len());
        let above = start_of(above, self.width, self.samples.len());
        let below = start_of(below, self.width, self.samples.len());
        lifts::more_half(self.samples.as_mut_slice(), row, above, below, width);
    }

    /// The first numbers of row `at` become these.
    pub(crate) fn put(&mut self, at: usize, line: &[i64])
        requires at { at < length self.old }
        requires wide { length line.now ≤ length (slice_index_or self.old at []) }
        ensures row { (column : ℕ) → column < length line.now → plane_of self.new at column ≡ entries_of line.now column }
        ensures others { (row : ℕ) → row ≢ at → slice_index_or self.new row [] ≡ slice_index_or self.old row [] }
        ensures shape { SameShape self.old self.new }
    {
        write_front(self.line_mut(at), line);
    }

    /// The first numbers of row `at` become the line with this low and this high part.
    pub(crate) fn join_row(&mut self, at: usize, low: &[i64], high: &[i64], width: usize)
        requires two { 2 ≤ width }
        requires at { at < length self.old }
        requires wide { width ≤ length (slice_index_or self.old at []) }
        requires lows { length low.now ≡ low_count width }
        requires highs { length high.now ≡ high_count width }
        requires low { AllBelow (2 ^ 50) (entries_of low.now) }
        requires high { AllBelow (2 ^ 50) (entries_of high.now) }
        ensures row { (column : ℕ) → column < width → plane_of self.new at column ≡ inverse_line width (entries_of low.now) (entries_of high.now) column }
        ensures others { (row : ℕ) → row ≢ at → slice_index_or self.new row [] ≡ slice_index_or self.old row [] }
        ensures shape { SameShape self.old self.new }
    {
        join_front(low, high, self.line_mut(at), width);
    }

    /// A plane of the same numbers.
    pub(crate) fn copied(&self, alloc: Global) -> Result<Plane, Memory>
        ensures { IfOk result (λ plane. plane ≡ self.now) }
    {
        let samples = Vec::from_slice(alloc, self.samples.as_slice()).map_err(|_| Memory)?;
        Ok(Plane {
            width: self.width,
            height: self.height,
            samples,
        })
    }
}

/// So many zeros.
pub fn zeros(alloc: Global, count: usize) -> Result<Vec<i64>, Memory>
    ensures { IfOk result (λ numbers. numbers.items ≡ replicate count (pos 0)) }
{
    Vec::from_elem(alloc, 0, count).map_err(|_| Memory)
}

// The place of a row's first number, among so many.
fn start_of(row: usize, width: usize, count: usize) -> usize
    requires { row * width + width ≤ count }
    ensures value { result ≡ row * width }
    ensures inside { result + width ≤ count }
{
    row * width
}

// The first numbers of a row become these.
fn write_front(row: &mut [i64], line: &[i64])
    requires { length line.now ≤ length row.old }
    ensures { (column : ℕ) → column < length line.now → entries_of row.new column ≡ entries_of line.now column }
{
    row[..line.len()].copy_from_slice(line);
}

// The first numbers of a row become the line with this low and this high part.
fn join_front(low: &[i64], high: &[i64], row: &mut [i64], width: usize)
    requires two { 2 ≤ width }
    requires wide { width ≤ length row.old }
    requires lows { length low.now ≡ low_count width }
    requires highs { length high.now ≡ high_count width }
    requires low { AllBelow (2 ^ 50) (entries_of low.now) }
    requires high { AllBelow (2 ^ 50) (entries_of high.now) }
    ensures { (column : ℕ) → column < width → entries_of row.new column ≡ inverse_line width (entries_of low.now) (entries_of high.now) column }
{
    synthesise_line(low, high, &mut row[..width]);
}
