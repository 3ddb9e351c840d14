//! All levels of a component's inverse.
ghost use Rattle.std.specs.Prelude.{◌≡◌, ℕ, ℤ, ◌+◌, ◌-◌, ◌*◌, ◌/◌, ◌<◌, ◌≤◌, ◌^◌, ◌++◌, ◌∷◌, [], length, IfOk, if◌then◌else◌};
ghost use Rattle.xs_signal.specs.Lines.{AllBelow, Shows, entries_of};
ghost use Rattle.xs_signal.specs.Wavelet.{Bands, inverse_plane};
ghost use Rattle.xs_signal.specs.Stripe.{IsSplit, rows_each};
ghost use Rattle.xs_joiner.specs.Source.{ShowBands};

use crate::level::{Level, LevelShape, count_after};
use crate::row::Row;
use crate::source::{Band, BandRows};
use std::alloc::Global;
use xs_io::Memory;

/// The size of a component, and how many levels it is split across and down.
#[derive(Clone, Copy)]
pub struct JoinShape {
    pub width: u32,
    pub height: u32,
    pub across: u32,
    pub down: u32,
}

/// The levels of a component, the last row that each of them gave, and after these the last row of the lowest band.
#[derive(Drop)]
pub struct Joiner {
    width: u32,
    height: u32,
    across: u32,
    down: u32,
    first: u32,
    given: u32,
    lowest: u32,
    levels: Vec<Level>,
    lines: Vec<Row>,
}

impl Joiner {
    ghost use Rattle.xs_joiner.specs.Midway.{IsMidway, IsMovingDepth};
    ghost use Rattle.xs_joiner.specs.Chain.{IsChain, IsSameJoiner, HaveAbove, HaveNext, HoldsBands, split_by, split_of};

    /// Before the first line.
    pub fn new(alloc: Global, shape: JoinShape) -> Result<Joiner, Memory>
        requires split { IsSplit (split_by shape) }
        requires some { 0 < shape.width }
        requires few { (shape.across ≤ 5) × (shape.down ≤ 2) }
        ensures chain { IfOk result IsChain }
        ensures shape { IfOk result (λ joiner. (split_of joiner ≡ split_by shape) × (joiner.first ≡ 0) × (joiner.given ≡ 0)) }
        ensures holds { (b : Bands) → IfOk result (HoldsBands b) }
    {
        let mut levels = Vec::new(alloc);
        let mut lines = Vec::new(alloc);
        let mut next = LevelShape {
            width: shape.width as usize,
            height: shape.height,
            reach: 4 + 6 * shape.across + 15 * shape.down,
            deep: shape.down > 0,
        };
        'levels: for level in 0..shape.across {
            let line = Row::zeros(alloc, next.width)?;
            add_line(&mut lines, line)?;
            let added = Level::new(alloc, next)?;
            add_level(&mut levels, added)?;
            next = next.after(level + 1 < shape.down);
        }
        let line = Row::zeros(alloc, next.width)?;
        add_line(&mut lines, line)?;
        Ok(Joiner {
            width: shape.width,
            height: shape.height,
            across: shape.across,
            down: shape.down,
            first: 0,
            given: 0,
            lowest: 0,
            levels,
            lines,
        })
    }

    /// Begins anew at a precinct, so that the next line is its first. Of the bands that are high down the last rows above it
    /// are taken.
    pub fn begin<S: BandRows>(&mut self, rows: &S, first: u32)
        requires chain { IsChain self.old }
        requires inside { rows_each (split_of self.old) 0 * first ≤ self.old.height }
        requires rows { HaveAbove self.old first (S.rows rows.now) }
        ensures chain { IsChain self.new }
        ensures split { split_of self.new ≡ split_of self.old }
        ensures first { self.new.first ≡ first }
        ensures given { self.new.given ≡ rows_each (split_of self.old) 0 * first }
        ensures holds { (b : Bands) → ShowBands (S.rows rows.now) b → HoldsBands b self.new }
    {
        let mut start = lines_before(first, self.down);
        self.first = first;
        self.given = start;
        'levels: for level in 0..self.across {
            let given = start;
            start = start_after(given, level < self.down);
            self.levels[level as usize].begin(rows, level, given, start);
        }
        self.lowest = start;
    }

    /// Makes the next line, and takes the rows for it.
    pub fn step<S: BandRows>(&mut self, rows: &S)
        requires chain { IsChain self.old }
        requires room { self.old.given < self.old.height }
        requires rows { HaveNext self.old (S.rows rows.now) }
        ensures chain { IsChain self.new }
        ensures same { IsSameJoiner self.old self.new }
        ensures given { self.new.given ≡ self.old.given + 1 }
        ensures holds { (b : Bands) → HoldsBands b self.old → ShowBands (S.rows rows.now) b → HoldsBands b self.new }
    {
        let mut level = self.depth();
        self.begin_line(rows, level);
        'levels: while level > 0 {
            let low = level as usize;
            level -= 1;
            let place = level as usize;
            self.levels[place].take(self.lines[low].as_slice(), rows, level);
            self.levels[place].give(&mut self.lines[place]);
        }
        self.given = count_after(self.given, self.height);
    }

    // How many levels take a row when the next line is made.
    fn depth(&self) -> u32
        requires chain { IsChain self.now }
        requires room { self.now.given < self.now.height }
        ensures { IsMovingDepth self.now result }
    {
        let mut depth = 0;
        'levels: while depth < self.across {
            if !self.levels[depth as usize].needs_row() {
                return depth;
            }
            depth += 1;
        }
        depth
    }

    // The first row of the line on its way: the one that is known at this level, or the next of the lowest band.
    fn begin_line<S: BandRows>(&mut self, rows: &S, depth: u32)
        requires chain { IsChain self.old }
        requires room { self.old.given < self.old.height }
        requires rows { HaveNext self.old (S.rows rows.now) }
        requires depth { IsMovingDepth self.old depth }
        ensures { IsMidway (S.rows rows.now) depth self.old self.new }
    {
        let place = depth as usize;
        if depth < self.across {
            self.levels[place].give(&mut self.lines[place]);
        } else {
            self.lines[place].fill(rows, Band::Lowest, self.lowest);
            self.lowest = count_after(self.lowest, self.height);
        }
    }

    /// The last line that was made.
    pub fn line(&self) -> &[i32]
        requires chain { IsChain self.now }
        requires begun { rows_each (split_of self.now) 0 * self.now.first < self.now.given }
        ensures width { length result.now ≡ self.now.width }
        ensures small { AllBelow (2 ^ 27) (entries_of result.now) }
        ensures shows { (b : Bands) → HoldsBands b self.now → Shows result.now (inverse_plane (split_of self.now) b (self.now.given - 1)) }
    {
        self.lines[0].as_slice()
    }
}

// How many lines stand above a precinct.
fn lines_before(first: u32, down: u32) -> u32
    requires few { down ≤ 2 }
    requires small { 2 ^ down * first < 2 ^ 32 }
    ensures { result ≡ 2 ^ down * first }
{
    if down == 0 {
        first
    } else if down == 1 {
        2 * first
    } else {
        4 * first
    }
}

// The first row of a level, where that of the level before it has this number and that level is split down or not.
fn start_after(start: u32, deep: bool) -> u32
    ensures { result ≡ (if deep then start / 2 else start) }
{
    if deep { start / 2 } else { start }
}

fn add_line(lines: &mut Vec<Row>, line: Row) -> Result<(), Memory>
    ensures { IfOk result (λ _. lines.new.items ≡ lines.old.items ++ line ∷ []) }
{
    lines.push(line).map_err(|_| Memory)
}

fn add_level(levels: &mut Vec<Level>, level: Level) -> Result<(), Memory>
    ensures { IfOk result (λ _. levels.new.items ≡ levels.old.items ++ level ∷ []) }
{
    levels.push(level).map_err(|_| Memory)
}
