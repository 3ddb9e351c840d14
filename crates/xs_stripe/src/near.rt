//! The rows that a stripe knows.
ghost use Rattle.std.specs.Prelude.{◌≡◌};
ghost use Rattle.xs_stripe.specs.Near.{row_in};

use crate::edges::Edge;
use crate::source::CoefficientRows;
use xs_geometry::SliceRows;

/// The rows of a slice, and the edges above and below it.
#[derive(Clone, Copy)]
pub struct NearRows<'a> {
    pub above: Option<&'a Edge>,
    pub body: &'a SliceRows,
    pub below: Option<&'a Edge>,
}

impl<'a> CoefficientRows for NearRows<'a> {
    ghost use Rattle.xs_stripe.specs.Near.{near_rows};

    ghost rows = { λ s. near_rows s.above s.body.now s.below };

    fn row(&self, band: u32, line: u32) -> &[i32] {
        let (first, end) = self.body.lines(band);
        if line < first {
            edge_row(self.above, band)
        } else if line < end {
            self.body.row(band, line)
        } else {
            edge_row(self.below, band)
        }
    }
}

// The row of a band in an edge, without numbers where there is none.
fn edge_row<'a>(edge: Option<&'a Edge>, band: u32) -> &'a [i32]
    ensures { result.now ≡ row_in edge.entry band }
{
    match edge {
        Some(edge) => edge.numbers(band),
        None => &[],
    }
}
