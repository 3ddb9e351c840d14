//! The steps on single numbers.
ghost use Rattle.std.specs.Prelude.{◌≡◌, ℕ, ℤ, pos, ◌+ℤ◌, ◌-ℤ◌, ◌*ℤ◌, ◌≤ℤ◌, ◌^◌};
ghost use Rattle.std.specs.Int.{int_shr};
ghost use Rattle.xs_signal.specs.Lines.{IsBelow};

/// An even sample and a quarter of its two high-pass neighbours and 2.
pub fn update_forward(even: i32, left: i32, right: i32) -> i32
    requires even { IsBelow (2 ^ 29) even }
    requires left { IsBelow (2 ^ 29) left }
    requires right { IsBelow (2 ^ 29) right }
    ensures { result ≡ even +ℤ int_shr (left +ℤ right +ℤ pos 2) 2 }
{
    even + quarter(sum_and_two(left, right))
}

/// A low-pass entry less a quarter of its two high-pass neighbours and 2.
pub fn update_inverse(low: i32, left: i32, right: i32) -> i32
    requires low { IsBelow (2 ^ 29) low }
    requires left { IsBelow (2 ^ 29) left }
    requires right { IsBelow (2 ^ 29) right }
    ensures { result ≡ low -ℤ int_shr (left +ℤ right +ℤ pos 2) 2 }
{
    low - quarter(sum_and_two(left, right))
}

/// An odd sample less half of its two even neighbours.
pub fn predict_forward(odd: i32, left: i32, right: i32) -> i32
    requires odd { IsBelow (2 ^ 29) odd }
    requires left { IsBelow (2 ^ 29) left }
    requires right { IsBelow (2 ^ 29) right }
    ensures { result ≡ odd -ℤ int_shr (left +ℤ right) 1 }
{
    odd - half(sum(left, right))
}

/// A high-pass entry and half of its two even neighbours.
pub fn predict_inverse(high: i32, left: i32, right: i32) -> i32
    requires high { IsBelow (2 ^ 29) high }
    requires left { IsBelow (2 ^ 29) left }
    requires right { IsBelow (2 ^ 29) right }
    ensures { result ≡ high +ℤ int_shr (left +ℤ right) 1 }
{
    high + half(sum(left, right))
}

fn sum(left: i32, right: i32) -> i32
    requires left { IsBelow (2 ^ 29) left }
    requires right { IsBelow (2 ^ 29) right }
    ensures { result ≡ left +ℤ right }
{
    left + right
}

fn sum_and_two(left: i32, right: i32) -> i32
    requires left { IsBelow (2 ^ 29) left }
    requires right { IsBelow (2 ^ 29) right }
    ensures { result ≡ left +ℤ right +ℤ pos 2 }
{
    left + right + 2
}

// Half, rounded down.
fn half(z: i32) -> i32
    ensures value { result ≡ int_shr z 1 }
    ensures low { (result *ℤ pos 2) ≤ℤ z }
    ensures high { z ≤ℤ (result *ℤ pos 2 +ℤ pos 1) }
{
    z >> 1
}

// A quarter, rounded down.
fn quarter(z: i32) -> i32
    ensures value { result ≡ int_shr z 2 }
    ensures low { (result *ℤ pos 4) ≤ℤ z }
    ensures high { z ≤ℤ (result *ℤ pos 4 +ℤ pos 3) }
{
    z >> 2
}
