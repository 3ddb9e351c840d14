// Numbers put together and taken apart at a bit, each step with its meaning in arithmetic.
ghost use Rattle.std.specs.Prelude.{◌≡◌, ◌+◌, ◌-◌, ◌*◌, ◌/◌, ◌%◌, ◌^◌, ◌<◌, ◌≤◌, ℕ, slice_index};
ghost use Rattle.xs_lists.specs.Bits.{bits_of};

// The number with these high bits over `width` low ones.
pub fn join(high: u64, low: u64, width: u32) -> u64
    requires width { width ≤ 64 }
    requires high { high * 2 ^ width < 2 ^ 64 }
    requires low { low < 2 ^ width }
    ensures { result ≡ high * 2 ^ width + low }
{
    high.wrapping_shl(width) | low
}

// The low bits of a number.
pub fn low_bits(number: u64, width: u32) -> u64
    requires { width < 64 }
    ensures { result ≡ number % 2 ^ width }
{
    number & ((1 << width) - 1)
}

// The byte above the low bits.
pub fn byte_above(number: u64, width: u32) -> u8
    requires { width < 64 }
    ensures { result ≡ number / 2 ^ width % 256 }
{
    ((number >> width) % 256) as u8
}

// The number whose bits are so many ones and a zero.
pub fn unary(ones: u32) -> u32
    requires { ones < 32 }
    ensures { result ≡ 2 ^ (ones + 1) - 2 }
{
    ((2u64 << ones) - 2) as u32
}

// The 57 bits that begin so many bits after the highest bit of a number.
pub fn bits_after(number: u64, skipped: u32) -> u64
    requires { skipped ≤ 7 }
    ensures { result ≡ number / 2 ^ (7 - skipped) % 2 ^ 57 }
{
    number << skipped >> 7
}

// How many ones a number of 57 bits begins with.
pub fn leading_run(window: u64) -> u32
    requires { window < 2 ^ 57 }
    ensures most { result ≤ 57 }
    ensures ones { (k : ℕ) → k < result → slice_index (bits_of 57 window) k ≡ 1 }
    ensures zero { result < 57 → slice_index (bits_of 57 window) result ≡ 0 }
{
    (window << 7).leading_ones()
}
