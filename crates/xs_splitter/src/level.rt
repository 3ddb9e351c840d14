//! One level of a component's split.
ghost use Rattle.std.specs.Prelude.{◌≡◌, ℕ, ℤ, ◌+◌, ◌*◌, ◌<◌, ◌≤◌, ◌^◌, length, IfOk, IfSome, MatchOption, true, if◌then◌else◌, slice_index_or, []};
ghost use Rattle.xs_signal.specs.Lines.{AllBelow, Shows, entries_of};
ghost use Rattle.xs_signal.specs.Wavelet.{low_count};
ghost use Rattle.xs_splitter.specs.Parts.{IsSplitOff};

use crate::columns::Columns;
use crate::row::{Row, give_up};
use std::alloc::Global;
use xs_io::Memory;

/// The rows that wait where the level is split down, and the rows of its three bands that are known.
#[derive(Drop)]
pub struct Level {
    columns: Columns,
    deep: bool,
    hl: Vec<Row>,
    lh: Vec<Row>,
    hh: Vec<Row>,
}

/// The rows that a level takes: how wide they are, how many come, how many bits their numbers have beside the sign, and
/// whether the level is split down too.
#[derive(Clone, Copy)]
pub struct LevelShape {
    pub width: usize,
    pub height: u32,
    pub bits: u32,
    pub deep: bool,
}

impl LevelShape {
    // The rows of the level after it.
    pub(crate) fn after(self, deep: bool) -> LevelShape
        requires bits { self.bits ≤ 30 }
        ensures width { result.width ≡ low_count self.width }
        ensures height { result.height ≡ (if self.deep then low_count self.height else self.height) }
        ensures bits { result.bits ≡ self.bits + (if self.deep then 2 else 1) }
        ensures deep { result.deep ≡ deep }
    {
        LevelShape {
            width: self.width - self.width / 2,
            height: if self.deep {
                self.height - self.height / 2
            } else {
                self.height
            },
            bits: self.bits + if self.deep { 2 } else { 1 },
            deep,
        }
    }
}

impl Level {
    ghost use Rattle.xs_splitter.specs.Columns.{HasOneMore};
    ghost use Rattle.xs_splitter.specs.Level.{IsLevel, IsHighSplit, IsLastSplit, IsSameLevel, HasAllRows, HoldsRows, HoldsBands, HasGivenUp, given_rows};

    // Before the first row.
    pub(crate) fn new(alloc: Global, shape: LevelShape) -> Result<Level, Memory>
        requires two { 2 ≤ shape.width }
        requires bits { shape.bits ≤ 26 }
        ensures state { IfOk result IsLevel }
        ensures shape { IfOk result (λ l. (l.columns.width ≡ shape.width) × (l.columns.height ≡ shape.height) × (l.columns.bits ≡ shape.bits) × (l.deep ≡ shape.deep) × (l.columns.taken ≡ 0)) }
        ensures holds { (p : ℕ → ℕ → ℤ) (from : ℕ) → IfOk result (HoldsRows from p) }
    {
        Ok(Level {
            columns: Columns::new(alloc, shape.width, shape.height, shape.bits)?,
            deep: shape.deep,
            hl: Vec::new(alloc),
            lh: Vec::new(alloc),
            hh: Vec::new(alloc),
        })
    }

    // Takes the next row, and gives the row for the next level that this makes known.
    pub(crate) fn push(&mut self, alloc: Global, row: Row) -> Result<Option<Row>, Memory>
        requires state { IsLevel self.old }
        requires room { self.old.columns.taken < self.old.columns.height }
        requires width { length row ≡ self.old.columns.width }
        requires small { AllBelow (2 ^ self.old.columns.bits) (entries_of row) }
        ensures more { IfOk result (λ _. HasOneMore self.old.columns self.new.columns) }
        ensures deep { IfOk result (λ _. self.new.deep ≡ self.old.deep) }
        ensures state { IfOk result (λ _. IsLevel self.new) }
        ensures given { IfOk result (λ given. MatchOption given (length self.new.hl.items ≡ length self.old.hl.items) (λ low. (length self.new.hl.items ≡ length self.old.hl.items + 1) × (length low ≡ low_count self.old.columns.width) × AllBelow (2 ^ (self.old.columns.bits + (if self.old.deep then 2 else 1))) (entries_of low))) }
        ensures holds { (p : ℕ → ℕ → ℤ) (from : ℕ) → HoldsRows from p self.old → Shows row (p self.old.columns.taken) → IfOk result (λ _. HoldsRows from p self.new) }
        ensures shows { (p : ℕ → ℕ → ℤ) (from : ℕ) → HoldsRows from p self.old → Shows row (p self.old.columns.taken) → IfOk result (λ given. IfSome given (λ low. Shows low (given_rows self.old p (length self.old.hl.items)))) }
    {
        if !self.deep {
            self.columns.count();
            return Ok(Some(split_off(alloc, &row, &mut self.hl)?));
        }
        let Some(low) = self.columns.push(row) else {
            return Ok(None);
        };
        self.split_high(alloc)?;
        Ok(Some(split_off(alloc, &low, &mut self.hl)?))
    }

    // After the last row of a level that is split down: the last row for the next level.
    pub(crate) fn finish(&mut self, alloc: Global) -> Result<Row, Memory>
        requires state { IsLevel self.old }
        requires deep { self.old.deep ≡ true }
        requires all { self.old.columns.taken ≡ self.old.columns.height }
        requires two { 2 ≤ self.old.columns.height }
        ensures same { IfOk result (λ _. IsSameLevel self.old self.new) }
        ensures known { IfOk result (λ _. HasAllRows self.new) }
        ensures width { IfOk result (λ low. length low ≡ low_count self.old.columns.width) }
        ensures small { IfOk result (λ low. AllBelow (2 ^ (self.old.columns.bits + 2)) (entries_of low)) }
        ensures holds { (p : ℕ → ℕ → ℤ) (from : ℕ) → HoldsRows from p self.old → IfOk result (λ _. HoldsBands from p self.new) }
        ensures shows { (p : ℕ → ℕ → ℤ) (from : ℕ) → HoldsRows from p self.old → IfOk result (λ low. Shows low (given_rows self.old p (length self.old.hl.items))) }
    {
        let pair = self.columns.has_pair();
        self.columns.finish();
        self.split_last(alloc, pair)?;
        split_off(alloc, self.columns.even(), &mut self.hl)
    }

    // Gives up the rows of each band from one on up to another.
    pub(crate) fn forget(&mut self, first: usize, end: usize)
        ensures { HasGivenUp first end self.old self.new }
    {
        give_up(&mut self.hl, first, end);
        give_up(&mut self.lh, first, end);
        give_up(&mut self.hh, first, end);
    }

    pub(crate) fn hl_row(&self, row: usize) -> &[i32]
        requires { row < length self.now.hl.items }
        ensures { result.now ≡ slice_index_or self.now.hl.items row [] }
    {
        self.hl[row].as_slice()
    }

    pub(crate) fn lh_row(&self, row: usize) -> &[i32]
        requires { row < length self.now.lh.items }
        ensures { result.now ≡ slice_index_or self.now.lh.items row [] }
    {
        self.lh[row].as_slice()
    }

    pub(crate) fn hh_row(&self, row: usize) -> &[i32]
        requires { row < length self.now.hh.items }
        ensures { result.now ≡ slice_index_or self.now.hh.items row [] }
    {
        self.hh[row].as_slice()
    }

    // The last high-pass row is split across if it is new.
    fn split_last(&mut self, alloc: Global, new: bool) -> Result<(), Memory>
        requires two { 2 ≤ length self.old.columns.high }
        requires small { AllBelow (2 ^ 28) (entries_of self.old.columns.high) }
        ensures kept { IfOk result (λ _. (self.new.columns ≡ self.old.columns) × (self.new.deep ≡ self.old.deep) × (self.new.hl ≡ self.old.hl)) }
        ensures split { IfOk result (λ _. IsLastSplit new self.old.columns.high self.old self.new) }
    {
        if new {
            self.split_high(alloc)?;
        }
        Ok(())
    }

    // The last high-pass row is split across.
    fn split_high(&mut self, alloc: Global) -> Result<(), Memory>
        requires two { 2 ≤ length self.old.columns.high }
        requires small { AllBelow (2 ^ 28) (entries_of self.old.columns.high) }
        ensures kept { IfOk result (λ _. (self.new.columns ≡ self.old.columns) × (self.new.deep ≡ self.old.deep) × (self.new.hl ≡ self.old.hl)) }
        ensures split { IfOk result (λ _. IsHighSplit self.old.columns.high self.old self.new) }
    {
        let low = split_off(alloc, self.columns.high(), &mut self.hh)?;
        self.lh.push(low).map_err(|_| Memory)
    }
}

// The low part of a row, whose high part is added to a band.
fn split_off(alloc: Global, row: &Row, band: &mut Vec<Row>) -> Result<Row, Memory>
    requires two { 2 ≤ length row.now }
    requires small { AllBelow (2 ^ 28) (entries_of row.now) }
    ensures { IfOk result (λ low. IsSplitOff row.now low band.old.items band.new.items) }
{
    let (low, high) = row.split(alloc)?;
    band.push(high).map_err(|_| Memory)?;
    Ok(low)
}
