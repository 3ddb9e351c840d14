// Which packets are offers.
ghost use Rattle.std.specs.Prelude.{◌≡◌, ◌+◌, ◌<◌, ◌≤◌, ◌^◌, length, IfOk, IfSome};
ghost use Rattle.std.specs.Option.{option_map};
ghost use Rattle.xs_capture.specs.Offer.{last_unit, unit_places};
ghost use Rattle.xs_capture.specs.Offers.{is_offered, offer_of, unit_of};
ghost use Rattle.xs_capture.specs.Heads.{IsHeadIn, offer_by};

use crate::units::Packet;
use bytes::Bytes;
use std::alloc::Global;
use xs_io::Memory;
use xs_rtp::{Pay, Rtp};

/// A unit has at most so many packets.
const PLACES: u16 = 512;

/// What names the header unit in a payload header.
const HEADER: u16 = 2047;

/// What the headers of an offer say, and where its bytes begin and end in the packet.
#[derive(Clone, Copy)]
pub struct Head {
    timestamp: u32,
    unit: u32,
    place: u32,
    last: bool,
    pub first: usize,
    pub end: usize,
}

// The unit that a payload header names.
fn unit_of(sep: u16) -> u32
    requires { sep < 2 ^ 11 }
    ensures unit { result ≡ unit_of sep }
    ensures small { result ≤ last_unit }
{
    if sep == HEADER {
        return 0;
    }
    u32::from(sep) + 1
}

// Whether a payload header is that of an offer.
fn is_offered(pay: &Pay) -> bool
    ensures { result ≡ is_offered pay.now }
{
    pay.slice_mode && pay.interlace == 0 && pay.place < PLACES
}

/// The headers of a packet, where it is an offer.
pub fn head_of(packet: &[u8]) -> Option<Head>
    ensures offer { offer_of packet.now ≡ option_map (offer_by packet.now) result }
    ensures inside { IfSome result (IsHeadIn packet.now) }
{
    let (rtp, begin, end) = Rtp::read(packet).ok()?;
    let pay = Pay::read(&packet[begin..end]).ok()?;
    if !is_offered(&pay) {
        return None;
    }
    Some(Head {
        timestamp: rtp.timestamp,
        unit: unit_of(pay.sep),
        place: u32::from(pay.place),
        last: pay.last,
        first: begin + 4,
        end,
    })
}

impl Head {
    // The packet with these bytes.
    pub fn with_bytes(&self, bytes: Bytes) -> Packet
        requires unit { self.now.unit ≤ last_unit }
        requires place { self.now.place < unit_places }
        ensures { result ≡ record { timestamp = self.now.timestamp; unit = self.now.unit; place = self.now.place; last = self.now.last; bytes = bytes } }
    {
        Packet::new(self.timestamp, self.unit, self.place, self.last, bytes)
    }
}

/// The offer that an RTP packet is, 'RTP packets and captures', or none. The packet is given without its length.
pub fn offer(alloc: Global, packet: &[u8]) -> Result<Option<Packet>, Memory>
    ensures { IfOk result (λ offer. offer ≡ offer_of packet.now) }
{
    let Some(head) = head_of(packet) else {
        return Ok(None);
    };
    let Ok(bytes) = Bytes::copy_from_slice(alloc, &packet[head.first..head.end]) else {
        return Err(Memory);
    };
    Ok(Some(head.with_bytes(bytes)))
}
