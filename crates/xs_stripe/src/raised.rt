//! The rows of a component's bands at full precision.
ghost use Rattle.std.specs.Prelude.{◌≡◌, ◌+◌, ◌*◌, ◌^◌, ◌<◌, ◌≤◌, ℕ};
ghost use Rattle.xs_layout.specs.Geometry.{components_of};
ghost use Rattle.xs_layout.specs.Limits.{fq_of};
ghost use Rattle.xs_signal.specs.Fold.{IsFraction};
ghost use Rattle.xs_decoding.specs.Decoded.{level_type};
ghost use Rattle.xs_stripe.specs.Raised.{band_of};

use crate::source::CoefficientRows;
use xs_joiner::{Band, BandRows};
use xs_layout::fq_of;
use xs_params::Header;
use xs_rows::raise_row;

/// The rows of coefficients of a picture as a component's joiner takes them.
#[derive(Clone, Copy)]
pub struct RaisedRows<'a, S> {
    pub rows: &'a S,
    pub header: &'a Header,
    pub component: u8,
}

impl<'a, S: CoefficientRows> BandRows for RaisedRows<'a, S> {
    ghost use Rattle.xs_stripe.specs.Raised.{raised_rows};

    ghost rows = { λ s. raised_rows s.header.now s.component (S.rows s.rows.now) };

    fn fill(&self, band: Band, row: u32, numbers: &mut [i32]) {
        let coefficients = self
            .rows
            .row(band_number(self.header, self.component, band), row);
        raise_row(coefficients, fraction_of(self.header), numbers);
    }
}

// The bits by which a coefficient is short of full precision.
fn fraction_of(header: &Header) -> u8
    ensures fraction { result ≡ fq_of header.now.bw }
    ensures known { IsFraction result }
{
    fq_of(header.bw)
}

// The number of a component's band.
fn band_number(header: &Header, component: u8, band: Band) -> u32
    ensures { result ≡ band_of header.now component band }
{
    let kind = match band {
        Band::Lowest => 0,
        Band::Hl(level) => level_type(header, level),
        Band::Lh(level) => level_type(header, level) + 1,
        Band::Hh(level) => level_type(header, level) + 2,
    };
    kind * header.shape.format.components() + u32::from(component)
}

// The number of the first type of a level; levels are numbered from 0 on.
fn level_type(header: &Header, level: u32) -> u32
    ensures kind { result ≡ level_type header.now (level + 1) }
    ensures few { result ≤ 2 ^ 12 }
{
    let (across, down) = (u32::from(header.nlx), u32::from(header.nly));
    if down <= level {
        across.saturating_sub(level).saturating_sub(1) + 1
    } else {
        across.saturating_sub(down) + 1 + 3 * (down - level - 1)
    }
}
