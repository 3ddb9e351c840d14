//! How the picture of a header is cut into bands, precincts and slices.
ghost use Rattle.std.specs.Prelude.{◌≡◌, ◌+◌, ◌-◌, ◌*◌, ◌^◌, ◌<◌, ◌≤◌, min, true, length, MatchOption, ℕ};
ghost use Rattle.std.specs.List.{range_with_len};
ghost use Rattle.xs_layout.specs.Geometry.{components_of};
ghost use Rattle.xs_params.specs.Geometry.{bands_of, band_component, band_type_of, band_width_of, band_height_of, component_width, has_line, lines_of, packet_bands, packet_places, packets_of, precinct_count, precinct_lines, slice_count, geometry_of};
ghost use Rattle.xs_params.specs.Accepted.{IsAccepted, IsGeometry};
ghost use Rattle.xs_geometry.specs.Places.{HasBands, packet_at, place_in, place_of};
ghost use Rattle.xs_geometry.specs.Sides.{type_of};
ghost use Rattle.xs_geometry.specs.SliceLines.{first_line_of, end_line_of};

use crate::kinds::{BandKind, kind_of};
use crate::packets::{PacketPlace, count_places, place_at};
use crate::sizes::{power, side};
use std::marker::Model;
use xs_layout::ceil_div;
use xs_params::{Header, Shape, component_width};

/// The band geometry of a header.
#[derive(Drop)]
pub struct Geometry {
    shape: Shape,
    hsl: u32,
    nlx: u8,
    nly: u8,
}

impl Model for Geometry {
    ghost use Rattle.std.specs.Prelude.{◌<◌, ◌^◌};
    ghost use Rattle.xs_params.specs.declared.header.Header.{Header};
    ghost use Rattle.xs_params.specs.Accepted.{IsGeometry};
    ghost use Rattle.xs_params.specs.Geometry.{blank_header};

    ghost Value = { Header };

    ghost view = { λ g. blank_header g.shape g.hsl g.nlx g.nly };

    ghost invariant = { λ g. IsGeometry (blank_header g.shape g.hsl g.nlx g.nly) × (g.hsl < 2 ^ 16) };
}

impl Geometry {
    pub fn of(header: &Header) -> Geometry
        requires { IsAccepted header.now }
        ensures { result ≡ geometry_of header.now }
    {
        Geometry {
            shape: header.shape,
            hsl: u32::from(header.hsl),
            nlx: header.nlx,
            nly: header.nly,
        }
    }

    /// How many bands there are.
    pub fn bands(&self) -> u32
        ensures count { result ≡ bands_of self.now }
        ensures few { result ≤ 30 }
        ensures ranges { IsGeometry self.now }
    {
        u32::from(2 * self.nly + self.nlx + 1) * self.shape.format.components()
    }

    /// How many precincts the picture has.
    pub fn precincts(&self) -> u32
        ensures count { result ≡ precinct_count self.now }
        ensures most { result ≤ 8192 }
    {
        side(self.shape.height, self.nly, false)
    }

    /// How many slices it has.
    pub fn slices(&self) -> u32
        ensures count { result ≡ slice_count self.now }
        ensures most { result ≤ 8192 }
    {
        ceil_div(self.precincts(), self.hsl)
    }

    pub fn kind(&self, band: u32) -> BandKind
        requires { band < bands_of self.now }
        ensures component { result.component ≡ band_component self.now band }
        ensures band_type { type_of result ≡ band_type_of self.now band }
        ensures across { result.across ≤ 5 }
        ensures down { result.down ≤ self.now.nly }
        ensures some_across { result.high_across ≡ true → 1 ≤ result.across }
        ensures some_down { result.high_down ≡ true → 1 ≤ result.down }
    {
        let components = self.shape.format.components();
        kind_of(
            self.nlx,
            self.nly,
            (band / components) as u8,
            (band % components) as u8,
        )
    }

    pub fn band_width(&self, band: u32) -> u32
        requires { band < bands_of self.now }
        ensures columns { result ≡ band_width_of self.now band }
        ensures most { result ≤ 8192 }
    {
        let kind = self.kind(band);
        let columns = self.columns(u32::from(kind.component));
        side(columns, kind.across, kind.high_across)
    }

    pub fn band_height(&self, band: u32) -> u32
        requires { band < bands_of self.now }
        ensures lines { result ≡ band_height_of self.now band }
        ensures most { result ≤ 8192 }
    {
        let kind = self.kind(band);
        side(self.shape.height, kind.down, kind.high_down)
    }

    /// The first precinct of a slice, and one past the last.
    pub fn slice_precincts(&self, slice: u32) -> (u32, u32)
        requires { slice < slice_count self.now }
        ensures first { result.0 ≡ slice * self.now.hsl }
        ensures end { result.1 ≡ min ((slice + 1) * self.now.hsl) (precinct_count self.now) }
        ensures some { result.0 < result.1 }
    {
        let first = slice * self.hsl;
        (first, (first + self.hsl).min(self.precincts()))
    }

    /// The first line of a band in a precinct, and one past the last.
    pub fn lines(&self, precinct: u32, band: u32) -> (u32, u32)
        requires precinct { precinct < precinct_count self.now }
        requires band { band < bands_of self.now }
        ensures { (result.0, result.1) ≡ lines_of self.now precinct band }
    {
        let lines = self.precinct_lines(band);
        let height = self.band_height(band);
        (
            cut(precinct, lines, height),
            cut(precinct + 1, lines, height),
        )
    }

    /// How many packets a precinct has.
    pub fn packets(&self, precinct: u32) -> u32
        requires { precinct < precinct_count self.now }
        ensures count { result ≡ length (packets_of self.now precinct) }
        ensures few { result ≤ 10 }
    {
        let mut count = 0;
        for number in 0..self.places() {
            if self.has_line(self.place(precinct, number)) {
                count += 1;
            }
        }
        count
    }

    pub fn packet(&self, precinct: u32, number: u32) -> PacketPlace
        requires precinct { precinct < precinct_count self.now }
        requires number { number < length (packets_of self.now precinct) }
        ensures place { place_of result ≡ packet_at self.now precinct number }
        ensures bands_there { HasBands self.now result }
    {
        self.nth_packet(precinct, number).unwrap()
    }

    /// The first band of a packet, and one past the last.
    pub fn packet_bands(&self, place: PacketPlace) -> (u32, u32)
        requires { HasBands self.now place }
        ensures bands { packet_bands self.now (place_of place) ≡ range_with_len result.0 (result.1 - result.0) }
        ensures order { result.0 ≤ result.1 }
        ensures there { result.1 ≤ bands_of self.now }
    {
        let components = self.shape.format.components();
        (
            place.first_type * components,
            (place.first_type + place.types) * components,
        )
    }

    /// The first line of a band in a slice, and one past the last.
    pub(crate) fn slice_lines(&self, slice: u32, band: u32) -> (u32, u32)
        requires slice { slice < slice_count self.now }
        requires band { band < bands_of self.now }
        ensures first { result.0 ≡ first_line_of self.now slice band }
        ensures end { result.1 ≡ end_line_of self.now slice band }
        ensures order { result.0 ≤ result.1 }
        ensures most { result.1 ≤ 8192 }
    {
        let lines = self.precinct_lines(band);
        let height = self.band_height(band);
        let first = slice * self.hsl;
        (
            cut(first, lines, height),
            cut(first + self.hsl, lines, height),
        )
    }

    fn nth_packet(&self, precinct: u32, number: u32) -> Option<PacketPlace>
        requires { precinct < precinct_count self.now }
        ensures { MatchOption result (length (packets_of self.now precinct) ≤ number) (λ place. (place_of place ≡ packet_at self.now precinct number) × HasBands self.now place) }
    {
        let mut left = number;
        for at in 0..self.places() {
            let place = self.place(precinct, at);
            if self.has_line(place) {
                if left == 0 {
                    return Some(place);
                }
                left -= 1;
            }
        }
        None
    }

    // How many packets a precinct has, those among them whose line does not exist.
    fn places(&self) -> u32
        ensures count { (precinct : ℕ) → length (packet_places self.now precinct) ≡ result }
        ensures few { result ≤ 10 }
    {
        count_places(self.nly)
    }

    // One of the packets of a precinct, those among them whose line does not exist.
    fn place(&self, precinct: u32, number: u32) -> PacketPlace
        requires precinct { precinct < precinct_count self.now }
        requires number { number < length (packet_places self.now precinct) }
        ensures place { place_of result ≡ place_in (packet_places self.now precinct) number }
        ensures some { 1 ≤ result.types }
        ensures bands_there { HasBands self.now result }
    {
        place_at(self.nlx, self.nly, precinct, number)
    }

    fn has_line(&self, place: PacketPlace) -> bool
        requires some { 1 ≤ place.types }
        requires bands_there { HasBands self.now place }
        ensures { result ≡ has_line self.now (place_of place) }
    {
        place.line < self.band_height(place.first_type * self.shape.format.components())
    }

    // How many lines of a band a precinct has that is not cut.
    fn precinct_lines(&self, band: u32) -> u32
        requires { band < bands_of self.now }
        ensures lines { result ≡ precinct_lines self.now band }
        ensures few { result ≤ 32 }
        ensures ranges { IsGeometry self.now }
    {
        let kind = self.kind(band);
        power(self.nly - kind.down)
    }

    fn columns(&self, component: u32) -> u32
        ensures width { result ≡ component_width self.now component }
        ensures most { result ≤ 8192 }
    {
        component_width(&self.shape, component)
    }
}

// So many times so much, and no more than there is.
fn cut(count: u32, each: u32, most: u32) -> u32
    requires count { count ≤ 2 ^ 17 }
    requires each { each ≤ 32 }
    ensures { result ≡ min (count * each) most }
{
    (count * each).min(most)
}
