//! Where packets stand.
ghost use Rattle.std.specs.Prelude.{◌≡◌, ◌+◌, ◌*◌, ◌<◌, ◌≤◌, ℕ, min, length};
ghost use Rattle.xs_layout.specs.Geometry.{packet_places_of};
ghost use Rattle.xs_geometry.specs.Places.{place_in, place_of};

use crate::sizes::power;

/// The first of the band types of a packet, how many they are, and the line, counted in the whole band.
#[derive(Clone, Copy, Debug, PartialEq, Eq)]
pub struct PacketPlace {
    pub first_type: u32,
    pub types: u32,
    pub line: u32,
}

/// How many packets a precinct has, those among them whose line does not exist.
pub fn count_places(nly: u8) -> u32
    requires { nly ≤ 2 }
    ensures count { (nlx precinct : ℕ) → length (packet_places_of nlx nly precinct) ≡ result }
    ensures few { result ≤ 10 }
{
    3 * power(nly) - 2
}

/// One of them. A precinct has one line of the deepest level, and two of the next.
pub fn place_at(nlx: u8, nly: u8, precinct: u32, number: u32) -> PacketPlace
    requires across { nlx ≤ 5 }
    requires down { nly ≤ min 2 nlx }
    requires precinct { precinct ≤ 8192 }
    requires there { number < length (packet_places_of nlx nly precinct) }
    ensures place { place_of result ≡ place_in (packet_places_of nlx nly precinct) number }
    ensures some { 1 ≤ result.types }
    ensures types_there { result.first_type + result.types ≤ 2 * nly + nlx + 1 }
{
    let wide = (nlx - nly + 1) as u32;
    if number == 0 {
        PacketPlace {
            first_type: 0,
            types: wide,
            line: precinct,
        }
    } else if number <= 3 {
        PacketPlace {
            first_type: wide + number - 1,
            types: 1,
            line: precinct,
        }
    } else {
        let next = number - 4;
        PacketPlace {
            first_type: wide + 3 + next % 3,
            types: 1,
            line: 2 * precinct + next / 3,
        }
    }
}
