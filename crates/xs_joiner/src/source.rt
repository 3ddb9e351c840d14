//! Where the rows of the bands come from.
ghost use Rattle.std.specs.Prelude.{◌≡◌, ℕ, ℤ, ◌<◌, List, length};
ghost use Rattle.xs_joiner.specs.Units.{IsFresh};

/// One of the bands of a component. Levels are numbered from 0 on: level 0 makes the lines of the component.
#[derive(Clone, Copy)]
pub enum Band {
    /// Low in both directions.
    Lowest,
    /// High across.
    Hl(u32),
    /// High down.
    Lh(u32),
    /// High in both directions.
    Hh(u32),
}

/// Rows of the bands of a component.
pub trait BandRows {
    ghost use Rattle.xs_joiner.specs.declared.source.Band.{Band};

    // The numbers of a row, by its place in the whole band. A row that is not there has none.
    ghost rows: { Self → Band → ℕ → List ℤ };

    /// Fills the places with the numbers of a row that is there.
    fn fill(&self, band: Band, row: u32, numbers: &mut [i32])
        requires some { 0 < length numbers.old }
        requires known { IsFresh (length numbers.old) (rows self.now band row) }
        ensures { numbers.new ≡ rows self.now band row };
}
