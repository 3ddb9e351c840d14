// Numbers in bytes, and fields in numbers.
ghost use Rattle.std.specs.Prelude.{◌≡◌, ◌+◌, ◌<◌, ◌≤◌, length};
ghost use Rattle.xs_lists.specs.Fields.{field, has_bit, half_word_at, word_at};

use byteorder::{BigEndian, ByteOrder};

// The number of the two bytes at a place.
pub fn half_word_at(bytes: &[u8], at: usize) -> u16
    requires { at + 2 ≤ length bytes.now }
    ensures { result ≡ half_word_at bytes.now at }
{
    BigEndian::read_u16(&bytes[at..])
}

// The number of the four bytes at a place.
pub fn word_at(bytes: &[u8], at: usize) -> u32
    requires { at + 4 ≤ length bytes.now }
    ensures { result ≡ word_at bytes.now at }
{
    BigEndian::read_u32(&bytes[at..])
}

// The field of `width` bits that stands over the `low` lowest bits of a word.
pub fn field(word: u32, width: u32, low: u32) -> u32
    requires width { width < 32 }
    requires low { low < 32 }
    ensures { result ≡ field width low word }
{
    (word >> low) % (1 << width)
}

// Whether a bit of a word is set.
pub fn has_bit(word: u32, at: u32) -> bool
    requires { at < 32 }
    ensures { result ≡ has_bit at word }
{
    field(word, 1, at) == 1
}
