//! The size of one side of a wavelet level.
ghost use Rattle.std.specs.Prelude.{◌≡◌, ◌^◌, ◌≤◌, true};
ghost use Rattle.xs_layout.specs.Geometry.{low_size, side_size};

use xs_layout::ceil_div;

/// What the last of some levels leaves of so many samples on this side.
pub fn side(samples: u32, level: u8, high: bool) -> u32
    requires samples { samples ≤ 8192 }
    requires level { level ≤ 5 }
    requires some { high ≡ true → 1 ≤ level }
    ensures value { result ≡ side_size samples level high }
    ensures most { result ≤ 8192 }
{
    if high {
        low(samples, level - 1) / 2
    } else {
        low(samples, level)
    }
}

fn low(samples: u32, level: u8) -> u32
    requires samples { samples ≤ 8192 }
    requires level { level ≤ 5 }
    ensures value { result ≡ low_size samples level }
    ensures most { result ≤ 8192 }
{
    ceil_div(samples, power(level))
}

/// A power of two.
pub fn power(exponent: u8) -> u32
    requires { exponent ≤ 5 }
    ensures value { result ≡ 2 ^ exponent }
    ensures most { result ≤ 32 }
    ensures some { 1 ≤ result }
{
    1 << exponent
}
