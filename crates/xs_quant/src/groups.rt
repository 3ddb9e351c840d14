//! A code group by either quantiser: docs/FORMAT.md, 'Quantisers'.
ghost use Rattle.std.specs.Prelude.{◌≡◌, ℕ, ◌-◌, ◌^◌, ◌<◌, ◌≤◌, map, All};
ghost use Rattle.xs_signal.specs.Quantiser.{quantised, unquantised};

use crate::dead_zone::{middle, truncated};
use crate::uniform::{nearest, spread};
use xs_layout::Quant;

/// What is sent for four magnitudes of `count` bit-planes whose lowest `t` are left out.
pub fn quantise(kind: Quant, group: [u32; 4], count: u8, t: u8) -> [u32; 4]
    requires count { count ≤ 15 }
    requires cut { t ≤ count }
    requires small { All (λ x. x < 2 ^ count) group }
    ensures { result ≡ map (quantised kind count t) group }
{
    let [a, b, c, d] = group;
    match kind {
        Quant::DeadZone => [
            truncated(a, t),
            truncated(b, t),
            truncated(c, t),
            truncated(d, t),
        ],
        Quant::Uniform => [
            nearest(a, count, t),
            nearest(b, count, t),
            nearest(c, count, t),
            nearest(d, count, t),
        ],
    }
}

/// The four magnitudes that stand for what was sent.
pub fn dequantise(kind: Quant, group: [u32; 4], count: u8, t: u8) -> [u32; 4]
    requires count { count ≤ 15 }
    requires cut { t ≤ count }
    requires small { All (λ v. v < 2 ^ (count - t)) group }
    ensures { result ≡ map (unquantised kind count t) group }
{
    let [a, b, c, d] = group;
    match kind {
        Quant::DeadZone => [
            middle(a, count, t),
            middle(b, count, t),
            middle(c, count, t),
            middle(d, count, t),
        ],
        Quant::Uniform => [
            spread(a, count, t),
            spread(b, count, t),
            spread(c, count, t),
            spread(d, count, t),
        ],
    }
}
