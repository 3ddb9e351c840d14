//! The rows of the coefficients of a codestream, by their places in the whole bands.
ghost use Rattle.std.specs.Prelude.{◌≡◌, ◌-◌, ◌*◌, ◌^◌, ◌<◌, ◌≤◌};
ghost use Rattle.xs_params.specs.Geometry.{bands_of};
ghost use Rattle.xs_geometry.specs.SliceLines.{slice_height};
ghost use Rattle.xs_picture.specs.Coefs.{AreCoefs, row_of_slices};

use crate::decode::coefs::StreamCoefs;
use std::marker::Model;
use xs_geometry::Geometry;
use xs_stripe::CoefficientRows;

/// The coefficients of all slices, and their geometry.
#[derive(Drop)]
pub struct StreamRows<'a> {
    coefs: &'a StreamCoefs,
    geometry: Geometry,
}

impl<'a> Model for StreamRows<'a> {
    ghost use Rattle.std.specs.Prelude.{◌≡◌};
    ghost use Rattle.xs_params.specs.Geometry.{geometry_of};
    ghost use Rattle.xs_picture.specs.Coefs.{Coefs, AreCoefs};

    ghost Value = { Coefs };

    ghost view = { λ s. s.coefs.now };

    ghost invariant = { λ s. AreCoefs s.coefs.now × (s.geometry ≡ geometry_of s.coefs.now.header) };
}

impl<'a> StreamRows<'a> {
    /// The rows of these coefficients.
    pub fn of(coefs: &'a StreamCoefs) -> StreamRows<'a>
        requires { AreCoefs coefs.now }
        ensures { result ≡ coefs.now }
    {
        StreamRows {
            coefs,
            geometry: Geometry::of(coefs.header()),
        }
    }

    // How many lines of a band a slice has that is not cut.
    fn slice_height(&self, band: u32) -> u32
        requires { band < bands_of self.now.header }
        ensures { result ≡ slice_height self.now.header band }
    {
        let header = self.coefs.header();
        let kind = self.geometry.kind(band);
        times_power(u32::from(header.hsl), header.nly - kind.down)
    }
}

impl<'a> CoefficientRows for StreamRows<'a> {
    ghost rows = { λ s. row_of_slices s.header s.slices };

    fn row(&self, band: u32, line: u32) -> &[i32] {
        let coefs = self.coefs;
        let slice = line / self.slice_height(band);
        coefs.slice(slice).row(band, line)
    }
}

fn times_power(factor: u32, exponent: u8) -> u32
    requires factor { factor < 2 ^ 16 }
    requires exponent { exponent ≤ 2 }
    ensures { result ≡ factor * 2 ^ exponent }
{
    factor << exponent
}
