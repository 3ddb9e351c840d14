// The header at the front of an RTP payload of JPEG XS.
ghost use Rattle.std.specs.Prelude.{◌≡◌, ◌<◌, ◌↔◌, length, IfOk, IsErr};
ghost use Rattle.xs_lists.specs.Bits.{FieldsFit};
ghost use Rattle.xs_rtp.specs.Payload.{pay_bytes, pay_fields, pay_of, pay_word};

use crate::numbers::{field, has_bit, word_at};
use byteorder::{BigEndian, ByteOrder};

/// The header of a payload, 'RTP packets and captures', by the names of its fields in RFC 9134.
#[derive(Clone, Copy)]
pub struct Pay {
    /// T: the packets of the picture are sent in the order of the codestream.
    pub sequential: bool,
    /// K: a packet has bytes of one slice, or of the header, alone.
    pub slice_mode: bool,
    /// L: the last packet of its unit.
    pub last: bool,
    /// I, 2 bits: 0 is a picture that is not interlaced.
    pub interlace: u8,
    /// F, 5 bits: the picture's number modulo 32.
    pub frame: u8,
    /// SEP, 11 bits: the slice's number; 2047 is the header.
    pub sep: u16,
    /// P, 11 bits: the packet's place in its unit.
    pub place: u16,
}

/// The payload has fewer than the four bytes of its header.
#[derive(Clone, Copy, Debug)]
pub struct PayShort;

impl Pay {
    /// What the first four bytes of a payload say. Fewer are refused.
    pub fn read(bytes: &[u8]) -> Result<Pay, PayShort>
        ensures read { IfOk result (λ pay. pay ≡ pay_of bytes.now) }
        ensures short { IsErr result ↔ (length bytes.now < 4) }
    {
        if bytes.len() < 4 {
            return Err(PayShort);
        }
        let word = word_at(bytes, 0);
        Ok(Pay {
            sequential: has_bit(word, 31),
            slice_mode: has_bit(word, 30),
            last: has_bit(word, 29),
            interlace: field(word, 2, 27) as u8,
            frame: field(word, 5, 22) as u8,
            sep: field(word, 11, 11) as u16,
            place: field(word, 11, 0) as u16,
        })
    }

    // The four bytes as a number.
    fn word(&self) -> u32
        requires fits { FieldsFit (pay_fields self.now) }
        ensures { result ≡ pay_word self.now }
    {
        (u32::from(self.sequential) << 31)
            + (u32::from(self.slice_mode) << 30)
            + (u32::from(self.last) << 29)
            + (u32::from(self.interlace) << 27)
            + (u32::from(self.frame) << 22)
            + (u32::from(self.sep) << 11)
            + u32::from(self.place)
    }

    /// The bytes of the header. Each field must have room in its bits.
    pub fn write(&self) -> [u8; 4]
        requires fits { FieldsFit (pay_fields self.now) }
        ensures bytes { result ≡ pay_bytes self.now }
    {
        let mut bytes = [0; 4];
        BigEndian::write_u32(&mut bytes, self.word());
        bytes
    }
}
