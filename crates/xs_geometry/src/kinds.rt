//! Which coefficients a band has.
ghost use Rattle.std.specs.Prelude.{◌≡◌, ◌+◌, ◌*◌, ◌<◌, ◌≤◌, true, slice_index_or};
ghost use Rattle.xs_layout.specs.Geometry.{band_types, ll};
ghost use Rattle.xs_geometry.specs.Sides.{deep_side, type_of};

/// A band's component, its level in each direction, and whether it is high-pass there.
#[derive(Clone, Copy, Debug, PartialEq, Eq)]
pub struct BandKind {
    pub component: u8,
    pub across: u8,
    pub down: u8,
    pub high_across: bool,
    pub high_down: bool,
}

/// The kind of the bands of a type.
pub fn kind_of(nlx: u8, nly: u8, number: u8, component: u8) -> BandKind
    requires few { nlx ≤ 5 }
    requires deep { nly ≤ nlx }
    requires there { number < 2 * nly + nlx + 1 }
    ensures component { result.component ≡ component }
    ensures band_type { type_of result ≡ slice_index_or (band_types nlx nly) number (ll 0 0) }
    ensures across { result.across ≤ nlx }
    ensures down { result.down ≤ nly }
    ensures some_across { result.high_across ≡ true → 1 ≤ result.across }
    ensures some_down { result.high_down ≡ true → 1 ≤ result.down }
{
    let wide = nlx - nly;
    if number == 0 {
        BandKind {
            component,
            across: nlx,
            down: nly,
            high_across: false,
            high_down: false,
        }
    } else if number <= wide {
        BandKind {
            component,
            across: nlx + 1 - number,
            down: nly,
            high_across: true,
            high_down: false,
        }
    } else {
        let deep = number - wide - 1;
        deep_kind(component, nly - deep / 3, deep % 3)
    }
}

// HL, LH or HH of a level that is split both ways.
fn deep_kind(component: u8, level: u8, side: u8) -> BandKind
    requires { side < 3 }
    ensures component { result.component ≡ component }
    ensures band_type { type_of result ≡ deep_side level side }
    ensures across { result.across ≡ level }
    ensures down { result.down ≡ level }
{
    BandKind {
        component,
        across: level,
        down: level,
        high_across: side != 1,
        high_down: side != 0,
    }
}
