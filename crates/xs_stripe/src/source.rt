//! Where the rows of coefficients come from.
ghost use Rattle.std.specs.Prelude.{◌≡◌, ℕ, ℤ, ◌<◌, List, length};

/// Rows of coefficients of the bands of a picture, as they were dequantised.
pub trait CoefficientRows {
    // The row of a band's line, by its place in the whole band. A row that is not there has no numbers.
    ghost rows: { Self → ℕ → ℕ → List ℤ };

    /// The row of a band's line that is there.
    fn row(&self, band: u32, line: u32) -> &[i32]
        requires known { 0 < length (rows self.now band line) }
        ensures { result.now ≡ rows self.now band line };
}
