// Numbers in bytes.
ghost use Rattle.std.specs.Prelude.{◌≡◌, ◌+◌, ◌<◌, ◌≤◌, length};
ghost use Rattle.xs_lists.specs.Fields.{field, half_word_at, word_at};

use byteorder::{BigEndian, ByteOrder};

// The number of the two bytes at a place.
pub fn half_word_at(bytes: &[u8], at: usize) -> u16
    requires { at + 2 ≤ length bytes.now }
    ensures { result ≡ half_word_at bytes.now at }
{
    BigEndian::read_u16(&bytes[at..])
}

// The number of the four bytes at a place.
pub fn word_at(bytes: &[u8], at: usize) -> u32
    requires { at + 4 ≤ length bytes.now }
    ensures { result ≡ word_at bytes.now at }
{
    BigEndian::read_u32(&bytes[at..])
}

// The field of `width` bits that stands over the `low` lowest bits of a byte.
pub fn field(byte: u8, width: u32, low: u32) -> u8
    requires width { width < 8 }
    requires low { low < 8 }
    ensures { result ≡ field width low byte }
{
    (byte >> low) % (1 << width)
}
