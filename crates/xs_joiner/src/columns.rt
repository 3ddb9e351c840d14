//! The rows of a level that is split down, of which each waits for those below it.
ghost use Rattle.std.specs.Prelude.{◌≡◌, ℕ, ℤ, pos, ◌+◌, ◌-◌, ◌*◌, ◌<◌, ◌≤◌, ◌^◌, ◌+ℤ◌, ◌-ℤ◌, length, IfOk};
ghost use Rattle.std.specs.Int.{int_shr};
ghost use Rattle.xs_signal.specs.Lines.{AllBelow, Shows, entries_of};
ghost use Rattle.xs_signal.specs.Wavelet.{low_count, high_count, inverse_line};
ghost use Rattle.xs_joiner.specs.Units.{BelowUnits};

use crate::row::Row;
use std::alloc::Global;
use std::mem;
use xs_io::Memory;

/// The even row of the last low-pass row that was taken, the odd row above it, and the last high-pass row.
#[derive(Drop)]
pub struct Columns {
    width: usize,
    height: u32,
    reach: u32,
    taken: u32,
    even: Row,
    odd: Row,
    high: Row,
    spare: Row,
}

impl Columns {
    ghost use Rattle.xs_joiner.specs.Columns.{IsColumns, HoldsLast, IsSameColumns, HasOneMore, SameLine, IsKnown, joined_rows};

    // Before the first low-pass row. The rows that it makes have this width, and there are so many; what it takes is
    // below so many units.
    pub(crate) fn new(
        alloc: Global,
        width: usize,
        height: u32,
        reach: u32,
    ) -> Result<Columns, Memory>
        requires two { 2 ≤ width }
        requires reach { reach ≤ 43 }
        ensures empty { IfOk result (λ c. (c.width ≡ width) × (c.height ≡ height) × (c.reach ≡ reach) × (c.taken ≡ 0)) }
        ensures state { IfOk result IsColumns }
        ensures small { IfOk result (λ c. BelowUnits (c.reach + 6) (entries_of c.even)) }
    {
        let even = Row::zeros(alloc, width)?;
        let odd = Row::zeros(alloc, width)?;
        let high = Row::zeros(alloc, width)?;
        let spare = Row::zeros(alloc, width)?;
        Ok(Columns {
            width,
            height,
            reach,
            taken: 0,
            even,
            odd,
            high,
            spare,
        })
    }

    // How many low-pass rows were taken.
    pub(crate) fn taken(&self) -> u32
        ensures { result ≡ self.now.taken }
    {
        self.taken
    }

    // How many rows it makes.
    pub(crate) fn height(&self) -> u32
        ensures { result ≡ self.now.height }
    {
        self.height
    }

    // Joins the next high-pass row of its low and its high part.
    pub(crate) fn take_high(&mut self, lh: &[i32], hh: &[i32])
        requires state { IsColumns self.old }
        requires lows { length lh.now ≡ low_count self.old.width }
        requires highs { length hh.now ≡ high_count self.old.width }
        requires small_low { BelowUnits 4 (entries_of lh.now) }
        requires small_high { BelowUnits 4 (entries_of hh.now) }
        ensures same { IsSameColumns self.old self.new }
        ensures taken { self.new.taken ≡ self.old.taken }
        ensures even { self.new.even ≡ self.old.even }
        ensures state { IsColumns self.new }
        ensures small { BelowUnits 10 (entries_of self.new.spare) }
        ensures shown { Shows self.new.spare (inverse_line self.old.width (entries_of lh.now) (entries_of hh.now)) }
        ensures holds { (start : ℕ) (t r : ℕ → ℕ → ℤ) → HoldsLast start t r self.old → HoldsLast start t r self.new }
    {
        self.spare.join(lh, hh);
    }

    // The high-pass row that was joined is the last one.
    pub(crate) fn keep_high(&mut self)
        requires state { IsColumns self.old }
        requires small { BelowUnits 10 (entries_of self.old.spare) }
        ensures same { IsSameColumns self.old self.new }
        ensures state { IsColumns self.new }
        ensures even { self.new.even ≡ self.old.even }
        ensures high { self.new.high ≡ self.old.spare }
    {
        mem::swap(&mut self.high, &mut self.spare);
    }

    // The next low-pass row has this number.
    pub(crate) fn begin(&mut self, start: u32)
        requires state { IsColumns self.old }
        ensures same { IsSameColumns self.old self.new }
        ensures state { IsColumns self.new }
        ensures taken { self.new.taken ≡ start }
        ensures even { self.new.even ≡ self.old.even }
        ensures high { self.new.high ≡ self.old.high }
    {
        self.taken = start;
    }

    // Takes the next low-pass row in its two parts, after the high-pass row below it if there is one.
    pub(crate) fn take_low(&mut self, low: &[i32], hl: &[i32])
        requires state { IsColumns self.old }
        requires two { 2 ≤ self.old.height }
        requires room { self.old.taken < low_count self.old.height }
        requires lows { length low.now ≡ low_count self.old.width }
        requires highs { length hl.now ≡ high_count self.old.width }
        requires small_low { BelowUnits self.old.reach (entries_of low.now) }
        requires small_high { BelowUnits 4 (entries_of hl.now) }
        requires small_spare { self.old.taken < high_count self.old.height → BelowUnits 10 (entries_of self.old.spare) }
        ensures more { HasOneMore self.old self.new }
        ensures state { IsColumns self.new }
        ensures holds { (start : ℕ) (t r : ℕ → ℕ → ℤ) → HoldsLast start t r self.old → (self.old.taken < high_count self.old.height → Shows self.old.spare (r self.old.taken)) → SameLine self.old.width (t self.old.taken) (inverse_line self.old.width (entries_of low.now) (entries_of hl.now)) → HoldsLast start t r self.new }
    {
        self.mirror();
        self.lift(low, hl);
        self.taken += 1;
    }

    // Below the last high-pass row the last stands again, and above the first the first.
    fn mirror(&mut self)
        requires state { IsColumns self.old }
        requires two { 2 ≤ self.old.height }
        requires small { self.old.taken < high_count self.old.height → BelowUnits 10 (entries_of self.old.spare) }
        ensures same { IsSameColumns self.old self.new }
        ensures taken { self.new.taken ≡ self.old.taken }
        ensures even { self.new.even ≡ self.old.even }
        ensures odd { self.new.odd ≡ self.old.odd }
        ensures inside { self.old.taken < high_count self.old.height → self.new.spare ≡ self.old.spare }
        ensures below { high_count self.old.height ≤ self.old.taken → self.new.spare ≡ self.old.high }
        ensures first { self.old.taken ≡ 0 → self.new.high ≡ self.old.spare }
        ensures later { 0 < self.old.taken → self.new.high ≡ self.old.high }
    {
        if self.taken >= self.height / 2 {
            self.spare.copy_from(self.high.as_slice());
        }
        if self.taken == 0 {
            self.high.copy_from(self.spare.as_slice());
        }
    }

    // The low-pass row becomes even, between the high-pass rows above and below, and the high-pass row above becomes odd.
    fn lift(&mut self, low: &[i32], hl: &[i32])
        requires state { IsColumns self.old }
        requires lows { length low.now ≡ low_count self.old.width }
        requires highs { length hl.now ≡ high_count self.old.width }
        requires small_low { BelowUnits self.old.reach (entries_of low.now) }
        requires small_high { BelowUnits 4 (entries_of hl.now) }
        requires small_spare { BelowUnits 10 (entries_of self.old.spare) }
        ensures same { IsSameColumns self.old self.new }
        ensures taken { self.new.taken ≡ self.old.taken }
        ensures state { IsColumns self.new }
        ensures even { Shows self.new.even (λ k. inverse_line self.old.width (entries_of low.now) (entries_of hl.now) k -ℤ int_shr (entries_of self.old.high k +ℤ entries_of self.old.spare k +ℤ pos 2) 2) }
        ensures odd { Shows self.new.odd (λ k. entries_of self.old.high k +ℤ int_shr (entries_of self.old.even k +ℤ entries_of self.new.even k) 1) }
        ensures high { self.new.high ≡ self.old.spare }
    {
        self.odd.join(low, hl);
        self.odd.update(&self.high, &self.spare);
        self.high.predict(&self.even, &self.odd);
        mem::swap(&mut self.even, &mut self.odd);
        mem::swap(&mut self.odd, &mut self.high);
        mem::swap(&mut self.high, &mut self.spare);
    }

    // Takes a row of a level that is not split down.
    pub(crate) fn take_flat(&mut self, low: &[i32], hl: &[i32])
        requires state { IsColumns self.old }
        requires room { self.old.taken < self.old.height }
        requires lows { length low.now ≡ low_count self.old.width }
        requires highs { length hl.now ≡ high_count self.old.width }
        requires small_low { BelowUnits self.old.reach (entries_of low.now) }
        requires small_high { BelowUnits 4 (entries_of hl.now) }
        ensures more { HasOneMore self.old self.new }
        ensures state { IsColumns self.new }
        ensures small { BelowUnits (self.old.reach + 6) (entries_of self.new.even) }
        ensures shown { Shows self.new.even (inverse_line self.old.width (entries_of low.now) (entries_of hl.now)) }
    {
        self.even.join(low, hl);
        self.taken += 1;
    }

    // Copies the row with this number, which is the even one, the odd one above it, or the last of all.
    pub(crate) fn give(&self, number: u32, line: &mut Row)
        requires state { IsColumns self.now }
        requires known { IsKnown number self.now }
        requires width { length line.old ≡ self.now.width }
        ensures width { length line.new ≡ self.now.width }
        ensures small { BelowUnits (self.now.reach + 21) (entries_of line.new) }
        ensures shows { (start : ℕ) (t r : ℕ → ℕ → ℤ) → HoldsLast start t r self.now → 2 * start ≤ number → Shows line.new (joined_rows self.now.height t r number) }
    {
        let even = 2 * (self.taken - 1);
        if number == even {
            line.copy_from(self.even.as_slice());
        } else if number < even {
            line.copy_from(self.odd.as_slice());
        } else {
            line.copy_from(self.high.as_slice());
            line.predict(&self.even, &self.even);
        }
    }

    // Copies the last row of a level that is not split down.
    pub(crate) fn give_flat(&self, line: &mut Row)
        requires width { length line.old ≡ length self.now.even }
        ensures { line.new ≡ self.now.even }
    {
        line.copy_from(self.even.as_slice());
    }
}
