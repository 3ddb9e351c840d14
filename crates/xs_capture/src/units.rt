// A packet of a unit.
ghost use Rattle.std.specs.Prelude.{◌≡◌, ◌≤◌, ◌<◌, IfOk};
ghost use Rattle.xs_capture.specs.Offer.{last_unit, unit_places};

use bytes::Bytes;
use std::alloc::Global;
use std::default::MadeWith;
use std::marker::Model;
use xs_io::{Memory, Placed};

/// A packet of a picture: the unit that it is of, its place there, whether it closes the unit, and its piece of the unit's
/// bytes. Unit 0 is the header, and unit `1 + k` slice `k`.
#[derive(Drop)]
pub struct Packet {
    pub timestamp: u32,
    /// At most 2047.
    pub unit: u32,
    /// Below 512.
    pub place: u32,
    pub last: bool,
    /// Of a packet that `sort_pictures` made they are a part of the capture, and no copy.
    pub bytes: Bytes,
}

impl Model for Packet {
    ghost use Rattle.std.specs.Prelude.{◌≤◌, ◌<◌};
    ghost use Rattle.xs_capture.specs.Offer.{last_unit, Offer, unit_places};

    ghost Value = { Offer };

    ghost view = { λ p. record { timestamp = p.timestamp; unit = p.unit; place = p.place; last = p.last; bytes = p.bytes } };

    ghost invariant = { λ p. (p.unit ≤ last_unit) × (p.place < unit_places) };
}

impl Packet {
    pub fn new(timestamp: u32, unit: u32, place: u32, last: bool, bytes: Bytes) -> Packet
        requires unit { unit ≤ last_unit }
        requires place { place < unit_places }
        ensures { result ≡ record { timestamp = timestamp; unit = unit; place = place; last = last; bytes = bytes } }
    {
        Packet {
            timestamp,
            unit,
            place,
            last,
            bytes,
        }
    }

    // The same packet again, with the same bytes.
    pub(crate) fn again(&self) -> Result<Packet, Memory>
        ensures { IfOk result (λ p. p ≡ self.now) }
    {
        let Ok(bytes) = self.bytes.clone() else {
            return Err(Memory);
        };
        Ok(Packet::new(self.timestamp, self.unit, self.place, self.last, bytes))
    }
}

impl Placed for Packet {
    ghost lane_of = { λ p. p.unit };

    ghost slot_of = { λ p. p.place };

    ghost closes_of = { λ p. p.last };

    fn lane(&self) -> u32
        ensures unit { result ≡ self.now.unit }
        ensures small { result ≤ last_unit }
    {
        self.unit
    }

    fn slot(&self) -> u32
        ensures place { result ≡ self.now.place }
        ensures small { result < unit_places }
    {
        self.place
    }

    fn closes(&self) -> bool {
        self.last
    }
}

impl MadeWith<Global> for Packet {
    /// A blank, which stands for no packet.
    fn made_with(_alloc: Global) -> Packet {
        Packet::new(0, 0, 0, false, Bytes::new())
    }
}
