// Numbers in bytes, and the checksum of IP headers.
ghost use Rattle.std.specs.Prelude.{◌≡◌, ◌+◌, ◌-◌, ◌<◌, ◌≤◌, ◌^◌, length};
ghost use Rattle.xs_lists.specs.Fields.{half_word_at, word_at};
ghost use Rattle.xs_pcap.specs.Numbers.{checksum_of, ones_add, ones_sum, ordered_word_at};

/// The order of the bytes of the numbers in a file's headers.
#[derive(Clone, Copy)]
pub enum Order {
    Big,
    Little,
}

// The number of the two bytes at a place.
pub fn half_word_at(bytes: &[u8], at: usize) -> u16
    requires { at + 2 ≤ length bytes.now }
    ensures { result ≡ half_word_at bytes.now at }
{
    u16::from_be_bytes([bytes[at], bytes[at + 1]])
}

// The number of the four bytes at a place.
pub fn word_at(bytes: &[u8], at: usize) -> u32
    requires { at + 4 ≤ length bytes.now }
    ensures { result ≡ word_at bytes.now at }
{
    u32::from_be_bytes([bytes[at], bytes[at + 1], bytes[at + 2], bytes[at + 3]])
}

impl Order {
    // The number of the four bytes at a place, in this order.
    pub fn word_at(self, bytes: &[u8], at: usize) -> u32
        requires { at + 4 ≤ length bytes.now }
        ensures { result ≡ ordered_word_at self bytes.now at }
    {
        let word = [bytes[at], bytes[at + 1], bytes[at + 2], bytes[at + 3]];
        match self {
            Order::Big => u32::from_be_bytes(word),
            Order::Little => u32::from_le_bytes(word),
        }
    }
}

// The ones' complement sum of two numbers.
fn ones_add(a: u16, b: u16) -> u16
    ensures { result ≡ ones_add a b }
{
    let sum = u32::from(a) + u32::from(b);
    (sum % 0x1_0000 + sum / 0x1_0000) as u16
}

// The ones' complement sum of the half words of a header.
fn ones_sum(header: &[u8]) -> u16
    ensures { result ≡ ones_sum header.now }
{
    let mut sum = 0;
    'adding: for k in 0..header.len() / 2 {
        sum = ones_add(sum, half_word_at(header, 2 * k));
    }
    sum
}

// The checksum of a header, whose own field is 0.
pub fn checksum_of(header: &[u8]) -> u16
    ensures { result ≡ checksum_of header.now }
{
    u16::MAX - ones_sum(header)
}
