//! All levels of a component's split.
ghost use Rattle.std.specs.Prelude.{◌≡◌, ℕ, ℤ, ◌+◌, ◌<◌, ◌≤◌, ◌^◌, ◌++◌, ◌∷◌, [], length, slice_index_or, IfOk};
ghost use Rattle.xs_signal.specs.Lines.{AllBelow, Shows, entries_of};
ghost use Rattle.xs_signal.specs.Wavelet.{low_part};
ghost use Rattle.xs_signal.specs.Stripe.{IsSplit, rows_at};

use crate::level::{Level, LevelShape};
use crate::row::{Row, give_up};
use std::alloc::Global;
use xs_io::Memory;

/// The size of a component, and how many levels it is split across and down.
#[derive(Clone, Copy)]
pub struct SplitShape {
    pub width: u32,
    pub height: u32,
    pub across: u32,
    pub down: u32,
}

/// The levels of a component, and the rows that are low in both directions at the last of them.
#[derive(Drop)]
pub struct Splitter {
    width: u32,
    height: u32,
    across: u32,
    down: u32,
    taken: u32,
    levels: Vec<Level>,
    low: Vec<Row>,
}

impl Splitter {
    ghost use Rattle.xs_splitter.specs.Shown.{IsRow, KnowsRow, hl_rows, lh_rows, hh_rows};
    ghost use Rattle.xs_splitter.specs.Chain.{IsChain, IsNextRow, IsSameBefore, HasAll, HasForgotten, HoldBands, HoldsPlane, rows_beside, split_by, split_of};

    /// Before the first row.
    pub fn new(alloc: Global, shape: SplitShape) -> Result<Splitter, Memory>
        requires split { IsSplit (split_by shape) }
        requires few { (shape.across ≤ 5) × (shape.down ≤ 2) }
        ensures chain { IfOk result (IsChain 0 0) }
        ensures shape { IfOk result (λ splitter. (split_of splitter ≡ split_by shape) × (splitter.taken ≡ 0)) }
        ensures holds { (p : ℕ → ℕ → ℤ) (from : ℕ) → IfOk result (HoldsPlane 0 from p) }
    {
        let mut levels = Vec::new(alloc);
        let mut next = LevelShape {
            width: shape.width as usize,
            height: shape.height,
            bits: 20,
            deep: shape.down > 0,
        };
        'levels: for level in 0..shape.across {
            let added = Level::new(alloc, next)?;
            add_level(&mut levels, added)?;
            next = next.after(level + 1 < shape.down);
        }
        Ok(Splitter {
            width: shape.width,
            height: shape.height,
            across: shape.across,
            down: shape.down,
            taken: 0,
            levels,
            low: Vec::new(alloc),
        })
    }

    /// Takes the next row of the component.
    pub fn push(&mut self, alloc: Global, row: &[i32]) -> Result<(), Memory>
        requires chain { IsChain 0 self.old.taken self.old }
        requires room { self.old.taken < self.old.height }
        requires width { length row.now ≡ self.old.width }
        requires small { AllBelow (2 ^ 20) (entries_of row.now) }
        ensures chain { IfOk result (λ _. IsChain 0 self.new.taken self.new) }
        ensures taken { IfOk result (λ _. self.new.taken ≡ self.old.taken + 1) }
        ensures same { IfOk result (λ _. split_of self.new ≡ split_of self.old) }
        ensures holds { (p : ℕ → ℕ → ℤ) (from : ℕ) → HoldsPlane 0 from p self.old → Shows row.now (p self.old.taken) → IfOk result (λ _. HoldsPlane 0 from p self.new) }
    {
        let place = self.taken;
        let row = Row::copied(alloc, row)?;
        self.carry(alloc, row, 0, place)?;
        self.taken = place + 1;
        Ok(())
    }

    /// After the last row: makes the last rows of all bands known.
    pub fn finish(&mut self, alloc: Global) -> Result<(), Memory>
        requires chain { IsChain 0 self.old.taken self.old }
        requires all { self.old.taken ≡ self.old.height }
        ensures all { IfOk result (λ _. HasAll self.new) }
        ensures same { IfOk result (λ _. split_of self.new ≡ split_of self.old) }
        ensures holds { (p : ℕ → ℕ → ℤ) (from : ℕ) → HoldsPlane 0 from p self.old → IfOk result (λ _. HoldBands (split_of self.new) from p self.new.levels.items self.new.low.items) }
    {
        let mut rows = self.taken;
        'levels: for level in 0..self.down as usize {
            let row = self.levels[level].finish(alloc)?;
            let place = (rows - 1) / 2;
            self.carry(alloc, row, level + 1, place)?;
            rows = place + 1;
        }
        Ok(())
    }

    /// Gives up rows of the lowest band from one on up to another, and those that stand beside them in the levels above.
    pub fn forget(&mut self, first: u32, end: u32)
        requires few { self.old.down ≤ 2 }
        ensures taken { self.new.taken ≡ self.old.taken }
        ensures same { split_of self.new ≡ split_of self.old }
        ensures rows { HasForgotten first end self.old self.new }
        ensures chain { (k taken : ℕ) → IsChain k taken self.old → IsChain k taken self.new }
        ensures all { HasAll self.old → HasAll self.new }
        ensures holds { (p : ℕ → ℕ → ℤ) (from : ℕ) → end ≤ from → HoldsPlane 0 from p self.old → HoldsPlane 0 from p self.new }
        ensures bands { (p : ℕ → ℕ → ℤ) (from : ℕ) → end ≤ from → HoldBands (split_of self.old) from p self.old.levels.items self.old.low.items → HoldBands (split_of self.new) from p self.new.levels.items self.new.low.items }
    {
        let first = first as usize;
        let end = end as usize;
        'levels: for level in 0..self.levels.len() {
            let each = self.rows_each(level);
            self.levels[level].forget(first * each, end * each);
        }
        give_up(&mut self.low, first, end);
    }

    // How many rows of a level's bands stand beside a row of the lowest band.
    fn rows_each(&self, level: usize) -> usize
        requires few { self.now.down ≤ 2 }
        requires level { level < length self.now.levels.items }
        ensures number { result ≡ rows_beside (split_of self.now) level 1 }
        ensures few { result ≤ 4 }
    {
        let down = self.down as usize;
        1 << (down - down.min(level + 1))
    }

    /// A row of the band that is low in both directions.
    pub fn lowest_row(&self, row: usize) -> &[i32]
        requires known { row < length self.now.low.items }
        ensures { result.now ≡ slice_index_or self.now.low.items row [] }
    {
        self.low[row].as_slice()
    }

    /// A row of the band that is high across, of the level with this number from 0 on.
    pub fn hl_row(&self, level: usize, row: usize) -> &[i32]
        requires level { level < length self.now.levels.items }
        requires known { KnowsRow hl_rows self.now level row }
        ensures { IsRow hl_rows self.now level row result.now }
    {
        self.levels[level].hl_row(row)
    }

    /// A row of the band that is high down.
    pub fn lh_row(&self, level: usize, row: usize) -> &[i32]
        requires level { level < length self.now.levels.items }
        requires known { KnowsRow lh_rows self.now level row }
        ensures { IsRow lh_rows self.now level row result.now }
    {
        self.levels[level].lh_row(row)
    }

    /// A row of the band that is high in both directions.
    pub fn hh_row(&self, level: usize, row: usize) -> &[i32]
        requires level { level < length self.now.levels.items }
        requires known { KnowsRow hh_rows self.now level row }
        ensures { IsRow hh_rows self.now level row result.now }
    {
        self.levels[level].hh_row(row)
    }

    // A level takes the row with this number, and each level after it what that makes known.
    fn carry(&mut self, alloc: Global, row: Row, first: usize, place: u32) -> Result<(), Memory>
        requires chain { IsChain first place self.old }
        requires first { first ≤ self.old.across }
        requires room { place < rows_at (split_of self.old) first }
        requires row { IsNextRow (split_of self.old) first row }
        ensures chain { IfOk result (λ _. IsChain first (place + 1) self.new) }
        ensures same { IfOk result (λ _. IsSameBefore first self.old self.new) }
        ensures holds { (p : ℕ → ℕ → ℤ) (from : ℕ) → HoldsPlane first from p self.old → Shows row (low_part (split_of self.old) p first place) → IfOk result (λ _. HoldsPlane first from p self.new) }
    {
        let mut row = row;
        'levels: for level in first..self.levels.len() {
            let Some(low) = self.levels[level].push(alloc, row)? else {
                return Ok(());
            };
            row = low;
        }
        add_row(&mut self.low, row)
    }
}

fn add_row(rows: &mut Vec<Row>, row: Row) -> Result<(), Memory>
    ensures { IfOk result (λ _. rows.new.items ≡ rows.old.items ++ row ∷ []) }
{
    rows.push(row).map_err(|_| Memory)
}

fn add_level(levels: &mut Vec<Level>, level: Level) -> Result<(), Memory>
    ensures { IfOk result (λ _. levels.new.items ≡ levels.old.items ++ level ∷ []) }
{
    levels.push(level).map_err(|_| Memory)
}
