// Bits of bytes, many at a time.
ghost use Rattle.std.specs.Prelude.{◌≡◌, ◌+◌, ◌-◌, ◌*◌, ◌/◌, ◌%◌, ◌^◌, ◌<◌, ◌≤◌, [], ◌∷◌, ◌++◌, length, take, drop, replicate, slice_index, ℕ};
ghost use Rattle.xs_lists.specs.Bits.{bits_of, bits_of_bytes};

use crate::numbers::{bits_after, leading_run};

// Bits that eight bytes have from any place in the first of them.
pub const WINDOW: u32 = 57;

// Bytes that are looked at for a window, wherever it begins.
pub const AROUND: usize = 8;

// The first eight bytes of more.
fn first_bytes(bytes: &[u8]) -> [u8; 8]
    requires { 8 ≤ length bytes.now }
    ensures { result ≡ take 8 bytes.now }
{
    [
        bytes[0], bytes[1], bytes[2], bytes[3], bytes[4], bytes[5], bytes[6], bytes[7],
    ]
}

// Fewer than eight bytes, filled up with zeros. Only the last windows of the bytes need it.
#[cold]
#[inline(never)]
fn filled_bytes(bytes: &[u8]) -> [u8; 8]
    requires { length bytes.now ≤ 8 }
    ensures { result ≡ bytes.now ++ replicate (8 - length bytes.now) 0 }
{
    let mut filled = [0; 8];
    filled[..bytes.len()].copy_from_slice(bytes);
    filled
}

// The number that eight bytes spell.
fn number_of(bytes: &[u8; 8]) -> u64
    ensures { bits_of 64 result ≡ bits_of_bytes bytes.now }
{
    u64::from_be_bytes(*bytes)
}

// The number that the eight bytes from a place on spell, with zeros past the end.
fn number_at(bytes: &[u8], at: usize) -> u64
    requires there { at ≤ length bytes.now }
    ensures { bits_of 64 result ≡ bits_of_bytes (take 8 (drop at (bytes.now ++ replicate 8 0))) }
{
    if bytes.len() - at < AROUND {
        number_of(&filled_bytes(&bytes[at..]))
    } else {
        number_of(&first_bytes(&bytes[at..]))
    }
}

// The 57 bits from a place on, with zeros past the end.
pub fn window_at(bytes: &[u8], place: usize) -> u64
    requires few { length bytes.now < 2 ^ 28 }
    requires there { place ≤ 8 * length bytes.now }
    ensures bits { bits_of 57 result ≡ take 57 (drop place (bits_of_bytes bytes.now) ++ replicate 57 0) }
    ensures small { result < 2 ^ 57 }
{
    bits_after(number_at(bytes, place / 8), (place % 8) as u32)
}

// How many ones stand from a place on, up to a zero or the end. Only a long run, or one near the end, needs it.
#[cold]
#[inline(never)]
pub fn ones_at(bytes: &[u8], place: usize) -> usize
    requires few { length bytes.now < 2 ^ 28 }
    requires there { place ≤ 8 * length bytes.now }
    ensures within { place + result ≤ 8 * length bytes.now }
    ensures ones { (k : ℕ) → k < result → slice_index (bits_of_bytes bytes.now) (place + k) ≡ 1 }
    ensures stops { slice_index (bits_of_bytes bytes.now) (place + result) ≡ 0 }
{
    let mut count = 0;
    'counting: while place + count < bytes.len() * 8 {
        let run = leading_run(window_at(bytes, place + count));
        count += run as usize;
        if run < WINDOW {
            return count;
        }
    }
    count
}
