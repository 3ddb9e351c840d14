//! One level of a component's inverse.
ghost use Rattle.std.specs.Prelude.{◌≡◌, ℕ, ℤ, ◌+◌, ◌-◌, ◌*◌, ◌<◌, ◌≤◌, ◌⊎◌, length, IfOk, true, false, if◌then◌else◌};
ghost use Rattle.xs_signal.specs.Lines.{Shows, entries_of};
ghost use Rattle.xs_signal.specs.Wavelet.{low_count, high_count, inverse_line};
ghost use Rattle.xs_joiner.specs.Columns.{SameLine};
ghost use Rattle.xs_joiner.specs.Units.{BelowUnits, IsFresh, rise};

use crate::columns::Columns;
use crate::row::Row;
use crate::source::{Band, BandRows};
use std::alloc::Global;
use xs_io::Memory;

/// The rows that wait where the level is split down, how many rows it has given, and the rows of its bands on their way.
#[derive(Drop)]
pub struct Level {
    columns: Columns,
    deep: bool,
    given: u32,
    low: Row,
    high: Row,
}

/// The rows that a level makes: how wide they are, how many, below how many units their numbers are, and whether the level
/// is split down too.
#[derive(Clone, Copy)]
pub struct LevelShape {
    pub width: usize,
    pub height: u32,
    pub reach: u32,
    pub deep: bool,
}

impl LevelShape {
    // The rows that the level takes.
    pub(crate) fn after(self, deep: bool) -> LevelShape
        requires reach { rise self.deep ≤ self.reach }
        ensures width { result.width ≡ low_count self.width }
        ensures height { result.height ≡ (if self.deep then low_count self.height else self.height) }
        ensures reach { result.reach ≡ self.reach - rise self.deep }
        ensures deep { result.deep ≡ deep }
    {
        LevelShape {
            width: self.width - self.width / 2,
            height: if self.deep {
                self.height - self.height / 2
            } else {
                self.height
            },
            reach: self.reach - if self.deep { 21 } else { 6 },
            deep,
        }
    }
}

impl Level {
    ghost use Rattle.xs_joiner.specs.declared.source.Band.TheVariants.{Hl, Lh, Hh};
    ghost use Rattle.xs_joiner.specs.Columns.{HoldsLast};
    ghost use Rattle.xs_joiner.specs.Level.{IsLevel, IsSameLevel, IsKnownLine, HoldsRows, AreNext, NeedsRow, given_rows, lows};

    // Before the first row.
    pub(crate) fn new(alloc: Global, shape: LevelShape) -> Result<Level, Memory>
        requires two { 2 ≤ shape.width }
        requires two_rows { shape.deep ≡ true → 2 ≤ shape.height }
        requires least { rise shape.deep ≤ shape.reach }
        requires most { shape.reach ≤ 43 + rise shape.deep }
        ensures state { IfOk result IsLevel }
        ensures shape { IfOk result (λ l. (l.columns.width ≡ shape.width) × (l.columns.height ≡ shape.height) × (l.columns.reach ≡ shape.reach - rise shape.deep) × (l.deep ≡ shape.deep) × (l.columns.taken ≡ 0) × (l.given ≡ 0)) }
    {
        let reach = shape.reach - if shape.deep { 21 } else { 6 };
        let columns = Columns::new(alloc, shape.width, shape.height, reach)?;
        let low = Row::zeros(alloc, shape.width - shape.width / 2)?;
        let high = Row::zeros(alloc, shape.width / 2)?;
        Ok(Level {
            columns,
            deep: shape.deep,
            given: 0,
            low,
            high,
        })
    }

    // Begins anew: the rows that it gives and takes next have these numbers. Where the level is split down, the high-pass row above that
    // one that it takes is taken.
    pub(crate) fn begin<S: BandRows>(&mut self, rows: &S, number: u32, given: u32, start: u32)
        requires state { IsLevel self.old }
        requires lh { self.old.deep ≡ true → 0 < start → IsFresh (low_count self.old.columns.width) (S.rows rows.now (Lh number) (start - 1)) }
        requires hh { self.old.deep ≡ true → 0 < start → IsFresh (high_count self.old.columns.width) (S.rows rows.now (Hh number) (start - 1)) }
        ensures same { IsSameLevel self.old self.new }
        ensures state { IsLevel self.new }
        ensures taken { self.new.columns.taken ≡ start }
        ensures given { self.new.given ≡ given }
        ensures holds { (t r : ℕ → ℕ → ℤ) → (self.old.deep ≡ true → 0 < start → SameLine self.old.columns.width (r (start - 1)) (inverse_line self.old.columns.width (entries_of (S.rows rows.now (Lh number) (start - 1))) (entries_of (S.rows rows.now (Hh number) (start - 1))))) → HoldsRows start t r self.new }
    {
        self.take_above(rows, number, start);
        self.columns.begin(start);
        self.given = given;
    }

    // Takes the high-pass row above the low-pass row with this number, if there is one.
    fn take_above<S: BandRows>(&mut self, rows: &S, number: u32, start: u32)
        requires state { IsLevel self.old }
        requires lh { self.old.deep ≡ true → 0 < start → IsFresh (low_count self.old.columns.width) (S.rows rows.now (Lh number) (start - 1)) }
        requires hh { self.old.deep ≡ true → 0 < start → IsFresh (high_count self.old.columns.width) (S.rows rows.now (Hh number) (start - 1)) }
        ensures same { IsSameLevel self.old self.new }
        ensures state { IsLevel self.new }
        ensures shown { self.old.deep ≡ true → 0 < start → Shows self.new.columns.high (inverse_line self.old.columns.width (entries_of (S.rows rows.now (Lh number) (start - 1))) (entries_of (S.rows rows.now (Hh number) (start - 1)))) }
    {
        if !self.deep {
            return;
        }
        if start > 0 {
            self.low.fill(rows, Band::Lh(number), start - 1);
            self.high.fill(rows, Band::Hh(number), start - 1);
            self.columns
                .take_high(self.low.as_slice(), self.high.as_slice());
            self.columns.keep_high();
        }
    }

    // Whether the next row that it gives makes a further row of the level after it necessary.
    pub(crate) fn needs_row(&self) -> bool
        ensures yes { result ≡ true → self.now.deep ≡ true → NeedsRow self.now }
        ensures no { result ≡ false → (self.now.deep ≡ true) × ((low_count self.now.columns.height ≤ self.now.columns.taken) ⊎ (self.now.given + 2 ≤ 2 * self.now.columns.taken)) }
    {
        if !self.deep {
            return true;
        }
        let taken = self.columns.taken();
        if taken >= self.columns.height() - self.columns.height() / 2 {
            return false;
        }
        taken == 0 || 2 * (taken - 1) < self.given
    }

    // Takes the next row of the level after it, and the rows of its own bands that stand beside that.
    pub(crate) fn take<S: BandRows>(&mut self, low: &[i32], rows: &S, number: u32)
        requires state { IsLevel self.old }
        requires room { self.old.columns.taken < lows self.old }
        requires lows { length low.now ≡ low_count self.old.columns.width }
        requires small { BelowUnits self.old.columns.reach (entries_of low.now) }
        requires hl { IsFresh (high_count self.old.columns.width) (S.rows rows.now (Hl number) self.old.columns.taken) }
        requires lh { self.old.deep ≡ true → self.old.columns.taken < high_count self.old.columns.height → IsFresh (low_count self.old.columns.width) (S.rows rows.now (Lh number) self.old.columns.taken) }
        requires hh { self.old.deep ≡ true → self.old.columns.taken < high_count self.old.columns.height → IsFresh (high_count self.old.columns.width) (S.rows rows.now (Hh number) self.old.columns.taken) }
        ensures same { IsSameLevel self.old self.new }
        ensures given { self.new.given ≡ self.old.given }
        ensures taken { self.new.columns.taken ≡ self.old.columns.taken + 1 }
        ensures state { IsLevel self.new }
        ensures holds { (start : ℕ) (t r : ℕ → ℕ → ℤ) → HoldsRows start t r self.old → AreNext self.old low.now (S.rows rows.now) number t r → HoldsRows start t r self.new }
    {
        let place = self.columns.taken();
        self.take_high(rows, number);
        self.high.fill(rows, Band::Hl(number), place);
        if self.deep {
            self.columns.take_low(low, self.high.as_slice());
        } else {
            self.columns.take_flat(low, self.high.as_slice());
        }
    }

    // Takes the high-pass row below the next low-pass row, if there is one.
    fn take_high<S: BandRows>(&mut self, rows: &S, number: u32)
        requires state { IsLevel self.old }
        requires lh { self.old.deep ≡ true → self.old.columns.taken < high_count self.old.columns.height → IsFresh (low_count self.old.columns.width) (S.rows rows.now (Lh number) self.old.columns.taken) }
        requires hh { self.old.deep ≡ true → self.old.columns.taken < high_count self.old.columns.height → IsFresh (high_count self.old.columns.width) (S.rows rows.now (Hh number) self.old.columns.taken) }
        ensures same { IsSameLevel self.old self.new }
        ensures given { self.new.given ≡ self.old.given }
        ensures taken { self.new.columns.taken ≡ self.old.columns.taken }
        ensures state { IsLevel self.new }
        ensures small { self.old.deep ≡ true → self.old.columns.taken < high_count self.old.columns.height → BelowUnits 10 (entries_of self.new.columns.spare) }
        ensures shown { self.old.deep ≡ true → self.old.columns.taken < high_count self.old.columns.height → Shows self.new.columns.spare (inverse_line self.old.columns.width (entries_of (S.rows rows.now (Lh number) self.old.columns.taken)) (entries_of (S.rows rows.now (Hh number) self.old.columns.taken))) }
        ensures holds { (start : ℕ) (t r : ℕ → ℕ → ℤ) → HoldsRows start t r self.old → HoldsRows start t r self.new }
    {
        if self.wants_high() {
            let place = self.columns.taken();
            self.low.fill(rows, Band::Lh(number), place);
            self.high.fill(rows, Band::Hh(number), place);
            self.columns
                .take_high(self.low.as_slice(), self.high.as_slice());
        }
    }

    // Whether a high-pass row stands below the next low-pass row.
    fn wants_high(&self) -> bool
        ensures yes { result ≡ true → (self.now.deep ≡ true) × (self.now.columns.taken < high_count self.now.columns.height) }
        ensures no { result ≡ false → self.now.deep ≡ true → high_count self.now.columns.height ≤ self.now.columns.taken }
    {
        self.deep && self.columns.taken() < self.columns.height() / 2
    }

    // Copies the next row that it gives.
    pub(crate) fn give(&mut self, line: &mut Row)
        requires state { IsLevel self.old }
        requires known { IsKnownLine self.old }
        requires width { length line.old ≡ self.old.columns.width }
        ensures columns { self.new.columns ≡ self.old.columns }
        ensures deep { self.new.deep ≡ self.old.deep }
        ensures given { self.new.given ≡ self.old.given + 1 }
        ensures low { self.new.low ≡ self.old.low }
        ensures high { self.new.high ≡ self.old.high }
        ensures width { length line.new ≡ self.old.columns.width }
        ensures small { BelowUnits (self.old.columns.reach + rise self.old.deep) (entries_of line.new) }
        ensures shows { (start : ℕ) (t r : ℕ → ℕ → ℤ) → HoldsRows start t r self.old → (if self.old.deep then 2 * start else start) ≤ self.old.given → Shows line.new (given_rows self.old t r self.old.given) }
    {
        if self.deep {
            self.columns.give(self.given, line);
        } else {
            self.columns.give_flat(line);
        }
        self.given = count_after(self.given, self.columns.height());
    }
}

// The next number, where there are more to come.
pub(crate) fn count_after(number: u32, end: u32) -> u32
    requires { number < end }
    ensures { result ≡ number + 1 }
{
    number + 1
}
