//! A coefficient's rounding: docs/FORMAT.md, 'Rate choice'.
ghost use Rattle.std.specs.Prelude.{◌≡◌, ℕ, ℤ, ◌+◌, ◌-◌, ◌*◌, ◌/◌, ◌^◌, ◌<◌, ◌≤◌, ◌⊎◌, min};
ghost use Rattle.xs_signal.specs.Lines.{IsBelow};
ghost use Rattle.xs_signal.specs.Fold.{IsFraction, fold as fold_of};

/// A coefficient without its `fq` lowest bits, rounded to the nearest and at most 32767 in magnitude.
pub fn fold(value: i64, fq: u8) -> i32
    requires value { IsBelow (2 ^ 50) value }
    requires fq { IsFraction fq }
    ensures { result ≡ fold_of fq value }
{
    let size = rounded(value.unsigned_abs(), fq).min(32767) as i32;
    if value < 0 { -size } else { size }
}

// The nearest to x / 2 ^ fq, and the greater of two.
fn rounded(x: u64, fq: u8) -> u64
    requires x { x < 2 ^ 50 }
    requires fq { IsFraction fq }
    ensures { result ≡ (x + 2 ^ (fq - 1)) / 2 ^ fq }
{
    let half = if fq == 6 { 32 } else { 128 };
    (x + half) >> fq
}
