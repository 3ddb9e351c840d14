// An RTP packet: its fixed header, and where its payload stands.
ghost use Rattle.std.specs.Prelude.{◌≡◌, ◌<◌, ◌≤◌, ◌^◌, false, length, IfOk};
ghost use Rattle.std.specs.Result.{result_err};
ghost use Rattle.xs_lists.specs.First.{first_of};
ghost use Rattle.xs_rtp.specs.Packet.{extension_refusals, front_refusals, padding_refusals, payload_begin, payload_end, rtp_bytes, rtp_of, rtp_read, rtp_word, sources_end};

use crate::numbers::{field, half_word_at, has_bit, word_at};
use byteorder::{BigEndian, ByteOrder};
use thiserror::Error;

/// The bytes of a fixed header.
const FIXED: usize = 12;

/// The version of RTP that is read and written.
const VERSION: u8 = 2;

/// What a packet's fixed header says, 'RTP packets and captures'.
#[derive(Clone, Copy)]
pub struct Rtp {
    /// Set on a picture's last packet.
    pub marker: bool,
    /// 7 bits.
    pub payload_type: u8,
    pub sequence: u16,
    pub timestamp: u32,
    /// The synchronisation source.
    pub ssrc: u32,
}

/// Why bytes are no RTP packet: the first cause in the order of 'RTP packets and captures'.
#[derive(Clone, Copy, Debug, Error)]
pub enum RtpFault {
    /// They end inside the fixed header or the list of sources; how many there are.
    #[error("the packet is shorter than its header")]
    Short(usize),
    /// The version is not 2.
    #[error("the packet has another version of RTP")]
    Version(u8),
    /// The last byte counts no padding, or more than follows the sources.
    #[error("the padding is miscounted")]
    Padding(u8),
    /// The extension passes the end of what is not padding; where it would end, as far as that is known.
    #[error("the extension is cut")]
    Extension(usize),
}

// Where the list of sources ends.
fn sources_end(bytes: &[u8]) -> Result<usize, RtpFault>
    ensures first { result_err result ≡ first_of (front_refusals bytes.now) }
    ensures end { IfOk result (λ end. (end ≡ sources_end bytes.now) × (end ≤ length bytes.now)) }
{
    if bytes.len() < FIXED {
        return Err(RtpFault::Short(bytes.len()));
    }
    let word = word_at(bytes, 0);
    let version = field(word, 2, 30) as u8;
    if version != VERSION {
        return Err(RtpFault::Version(version));
    }
    let end = FIXED + 4 * field(word, 4, 24) as usize;
    if bytes.len() < end {
        return Err(RtpFault::Short(bytes.len()));
    }
    Ok(end)
}

// Where the payload ends: before the padding, which the last byte counts.
fn payload_end(bytes: &[u8], front: usize) -> Result<usize, RtpFault>
    requires front { front ≡ sources_end bytes.now }
    requires inside { front ≤ length bytes.now }
    ensures first { result_err result ≡ first_of (padding_refusals bytes.now) }
    ensures end { IfOk result (λ end. (end ≡ payload_end bytes.now) × (front ≤ end) × (end ≤ length bytes.now)) }
{
    if !has_bit(word_at(bytes, 0), 29) {
        return Ok(bytes.len());
    }
    let count = bytes[bytes.len() - 1];
    if count == 0 || bytes.len() - front < count as usize {
        return Err(RtpFault::Padding(count));
    }
    Ok(bytes.len() - count as usize)
}

// Where the payload begins: after the extension, which counts its words.
fn payload_begin(bytes: &[u8], front: usize, end: usize) -> Result<usize, RtpFault>
    requires front { front ≡ sources_end bytes.now }
    requires end { end ≡ payload_end bytes.now }
    requires inside { (front ≤ end) × (end ≤ length bytes.now) }
    ensures first { result_err result ≡ first_of (extension_refusals bytes.now) }
    ensures begin { IfOk result (λ begin. (begin ≡ payload_begin bytes.now) × (begin ≤ end)) }
{
    if !has_bit(word_at(bytes, 0), 28) {
        return Ok(front);
    }
    let words = front + 4;
    if end < words {
        return Err(RtpFault::Extension(words));
    }
    let begin = words + 4 * half_word_at(bytes, front + 2) as usize;
    if end < begin {
        return Err(RtpFault::Extension(begin));
    }
    Ok(begin)
}

impl Rtp {
    /// A packet's fixed header, and the first place and the end of its payload. Sources and extension are stepped over,
    /// and padding is left out.
    #[tactic(auto, unfolding(crate::specs::Packet::rtp_read))]
    pub fn read(bytes: &[u8]) -> Result<(Rtp, usize, usize), RtpFault>
        ensures read { result ≡ rtp_read bytes.now }
        ensures places { IfOk result (λ read. (read.1 ≤ read.2) × (read.2 ≤ length bytes.now)) }
    {
        let front = sources_end(bytes)?;
        let end = payload_end(bytes, front)?;
        let begin = payload_begin(bytes, front, end)?;
        Ok((Rtp::of(bytes), begin, end))
    }

    // What the first twelve bytes say.
    fn of(bytes: &[u8]) -> Rtp
        requires { 12 ≤ length bytes.now }
        ensures { result ≡ rtp_of bytes.now }
    {
        let word = word_at(bytes, 0);
        Rtp {
            marker: has_bit(word, 23),
            payload_type: field(word, 7, 16) as u8,
            sequence: field(word, 16, 0) as u16,
            timestamp: word_at(bytes, 4),
            ssrc: word_at(bytes, 8),
        }
    }

    // The first four bytes as a number: version 2, and no padding, extension or source.
    fn word(&self) -> u32
        requires payload_type { self.now.payload_type < 2 ^ 7 }
        ensures { result ≡ rtp_word false false 0 self.now }
    {
        (u32::from(VERSION) << 30)
            + (u32::from(self.marker) << 23)
            + (u32::from(self.payload_type) << 16)
            + u32::from(self.sequence)
    }

    /// The bytes of the header of a packet with no sources, extension and padding. The payload type has 7 bits.
    pub fn write(&self) -> [u8; 12]
        requires payload_type { self.now.payload_type < 2 ^ 7 }
        ensures bytes { result ≡ rtp_bytes self.now }
    {
        let mut bytes = [0; 12];
        BigEndian::write_u32(&mut bytes, self.word());
        BigEndian::write_u32(&mut bytes[4..], self.timestamp);
        BigEndian::write_u32(&mut bytes[8..], self.ssrc);
        bytes
    }
}
