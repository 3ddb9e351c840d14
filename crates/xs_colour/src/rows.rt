//! The colour transform on rows of 32-bit numbers.
ghost use Rattle.std.specs.Prelude.{◌≡◌, ℕ, ℤ, pos, ◌+ℤ◌, ◌-ℤ◌, ◌*ℤ◌, ◌≤ℤ◌, ◌^◌, length};
ghost use Rattle.std.specs.Int.{int_shr};
ghost use Rattle.xs_signal.specs.Lines.{AllBelow, IsBelow, Shows, entries_of};
ghost use Rattle.xs_signal.specs.Colour.{rct as rct_of, unrct as unrct_of};

/// A row of red, of green and of blue become luma and the two colour differences, each in its place.
pub fn rct_rows(red: &mut [i32], green: &mut [i32], blue: &mut [i32])
    requires green_width { length green.old ≡ length red.old }
    requires blue_width { length blue.old ≡ length red.old }
    requires red { AllBelow (2 ^ 28) (entries_of red.old) }
    requires green { AllBelow (2 ^ 28) (entries_of green.old) }
    requires blue { AllBelow (2 ^ 28) (entries_of blue.old) }
    ensures luma { Shows red.new (λ k. (rct_of (entries_of red.old k) (entries_of green.old k) (entries_of blue.old k)).0) }
    ensures first { Shows green.new (λ k. (rct_of (entries_of red.old k) (entries_of green.old k) (entries_of blue.old k)).1) }
    ensures second { Shows blue.new (λ k. (rct_of (entries_of red.old k) (entries_of green.old k) (entries_of blue.old k)).2) }
{
    for k in 0..red.len() {
        let (luma, first, second) = rct_entry(red[k], green[k], blue[k]);
        red[k] = luma;
        green[k] = first;
        blue[k] = second;
    }
}

/// A row of luma and of the two colour differences become red, green and blue, each in its place.
pub fn unrct_rows(luma: &mut [i32], first: &mut [i32], second: &mut [i32])
    requires first_width { length first.old ≡ length luma.old }
    requires second_width { length second.old ≡ length luma.old }
    requires luma { AllBelow (2 ^ 28) (entries_of luma.old) }
    requires first { AllBelow (2 ^ 28) (entries_of first.old) }
    requires second { AllBelow (2 ^ 28) (entries_of second.old) }
    ensures red { Shows luma.new (λ k. (unrct_of (entries_of luma.old k) (entries_of first.old k) (entries_of second.old k)).0) }
    ensures green { Shows first.new (λ k. (unrct_of (entries_of luma.old k) (entries_of first.old k) (entries_of second.old k)).1) }
    ensures blue { Shows second.new (λ k. (unrct_of (entries_of luma.old k) (entries_of first.old k) (entries_of second.old k)).2) }
{
    for k in 0..luma.len() {
        let (red, green, blue) = unrct_entry(luma[k], first[k], second[k]);
        luma[k] = red;
        first[k] = green;
        second[k] = blue;
    }
}

// Luma and the two colour differences of red, green and blue.
fn rct_entry(r: i32, g: i32, b: i32) -> (i32, i32, i32)
    requires red { IsBelow (2 ^ 28) r }
    requires green { IsBelow (2 ^ 28) g }
    requires blue { IsBelow (2 ^ 28) b }
    ensures { result ≡ rct_of r g b }
{
    (quarter(weighted(r, g, b)), b - g, r - g)
}

// Red, green and blue of luma and the two colour differences.
fn unrct_entry(y: i32, u: i32, v: i32) -> (i32, i32, i32)
    requires luma { IsBelow (2 ^ 28) y }
    requires first { IsBelow (2 ^ 28) u }
    requires second { IsBelow (2 ^ 28) v }
    ensures { result ≡ unrct_of y u v }
{
    let g = green(y, u, v);
    (v + g, g, u + g)
}

// Luma less a quarter of both differences.
fn green(y: i32, u: i32, v: i32) -> i32
    requires luma { IsBelow (2 ^ 28) y }
    requires first { IsBelow (2 ^ 28) u }
    requires second { IsBelow (2 ^ 28) v }
    ensures value { result ≡ y -ℤ int_shr (u +ℤ v) 2 }
    ensures small { IsBelow (2 ^ 29) result }
{
    y - quarter(sum(u, v))
}

fn sum(u: i32, v: i32) -> i32
    requires first { IsBelow (2 ^ 28) u }
    requires second { IsBelow (2 ^ 28) v }
    ensures { result ≡ u +ℤ v }
{
    u + v
}

// Red, green twice and blue.
fn weighted(r: i32, g: i32, b: i32) -> i32
    requires red { IsBelow (2 ^ 28) r }
    requires green { IsBelow (2 ^ 28) g }
    requires blue { IsBelow (2 ^ 28) b }
    ensures { result ≡ r +ℤ pos 2 *ℤ g +ℤ b }
{
    r + 2 * g + b
}

// A quarter, rounded down.
fn quarter(z: i32) -> i32
    ensures value { result ≡ int_shr z 2 }
    ensures low { (result *ℤ pos 4) ≤ℤ z }
    ensures high { z ≤ℤ (result *ℤ pos 4 +ℤ pos 3) }
{
    z >> 2
}
