// Captures whose offers are sorted by picture.
ghost use Rattle.std.specs.Prelude.{◌≡◌, ◌<◌, ◌≤◌, ◌^◌, length, map, Contains, slice_index, slice_range, if◌then◌else◌, is_ok, is_none, IfOk, OnOk, MatchResult, ◌+◌, ◌++◌};
ghost use Rattle.std.specs.Option.{option_to_list};
ghost use Rattle.std.specs.List.Sorted.{IsStrictlyIncreasing};
ghost use Rattle.xs_capture.specs.Offers.{offers_at, offer_of};
ghost use Rattle.xs_capture.specs.Pictures.{AreTimestamps, dealt_parts, IsSorted, most_pictures, offers_in, without_offers};
ghost use Rattle.xs_capture.specs.Found.{HasOffers, IsFindFault};

use crate::frames::{FrameFault, read_frame};
use crate::offers::head_of;
use crate::parts::{Parts, deal};
use crate::units::Packet;
use bytes::Bytes;
use std::alloc::Global;
use std::convert::From;
use std::marker::Model;
use thiserror::Error;
use xs_io::Memory;

/// A run has at most so many pictures.
const MOST_PICTURES: usize = 256;

/// Why a capture is refused: the first cause in their order.
#[derive(Clone, Copy, Debug, Error)]
pub enum SortFault {
    /// The bytes end inside a frame; its first place.
    #[error("a frame is cut")]
    Cut { place: usize },
    /// There are more than 256 pictures; how many there are.
    #[error("there are too many pictures")]
    Pictures { count: u32 },
    /// Memory was wanting.
    #[error("out of memory")]
    Memory,
}

impl From<Memory> for SortFault {
    ghost use Rattle.std.specs.Prelude.{◌≡◌};
    ghost use Rattle.xs_capture.specs.declared.pictures.SortFault.TheVariants as sort;

    ghost from_gives = { λ _ fault. fault ≡ sort.Memory };

    fn from(_memory: Memory) -> SortFault {
        SortFault::Memory
    }
}

impl From<FrameFault> for SortFault {
    ghost use Rattle.std.specs.Prelude.{◌≡◌};
    ghost use Rattle.xs_capture.specs.Pictures.{sort_fault_of};

    ghost from_gives = { λ frame fault. fault ≡ sort_fault_of frame };

    fn from(frame: FrameFault) -> SortFault {
        let FrameFault::Cut { place } = frame;
        SortFault::Cut { place }
    }
}

/// The offers of a capture by picture. Contracts see the timestamps, ascending, the offers of each in the order of the capture, and
/// the number of frames that were stepped over.
#[derive(Drop)]
pub struct Sorted {
    timestamps: Vec<u32>,
    offers: Parts,
    stepped: u32,
}

impl Model for Sorted {
    ghost use Rattle.std.specs.Prelude.{◌≡◌, ◌≤◌, length};
    ghost use Rattle.xs_capture.specs.Pictures.{Sorting, most_pictures};

    ghost Value = { Sorting };

    ghost view = { λ s. record { timestamps = s.timestamps.items; offers = s.offers; stepped = s.stepped } };

    ghost invariant = { λ s. (length s.offers ≡ length s.timestamps.items) × (length s.timestamps.items ≤ most_pictures) };
}

impl Sorted {
    /// The number of pictures.
    pub fn count(&self) -> u32
        ensures { result ≡ length self.now.timestamps }
    {
        self.timestamps.len() as u32
    }

    /// The timestamp of a picture, which ascends with its number.
    pub fn timestamp(&self, number: u32) -> u32
        requires { number < length self.now.timestamps }
        ensures { result ≡ slice_index self.now.timestamps number }
    {
        self.timestamps[number as usize]
    }

    /// The number of frames that are no offers.
    pub fn stepped(&self) -> u32
        ensures { result ≡ self.now.stepped }
    {
        self.stepped
    }

    /// Moves a picture's offers out, the i-th to part `i mod feeders`. Where it is refused, all is as before.
    pub fn parts(&mut self, number: u32, feeders: u32) -> Result<Parts, Memory>
        requires number { number < length self.old.timestamps }
        requires some { 1 ≤ feeders }
        requires few { feeders ≤ 8 }
        ensures dealt { IfOk result (λ parts. parts ≡ dealt_parts feeders (offers_in self.old number)) }
        ensures left { self.new ≡ (if is_ok result then without_offers self.old number else self.old) }
    {
        let alloc = *self.timestamps.allocator();
        let parts = deal(alloc, self.offers.list(number), feeders)?;
        drop(self.offers.take(number));
        Ok(parts)
    }
}

// The offers of a capture, and how many frames are none.
#[derive(Drop)]
struct Found {
    packets: Vec<Packet>,
    stepped: u32,
}

// The offer that the packet at some bytes of a capture is, if it is one.
fn offer_at(whole: &Bytes, bytes: &[u8], first: usize, end: usize) -> Result<Option<Packet>, Memory>
    requires whole { whole.now ≡ bytes.now }
    requires inside { (first ≤ end) × (end ≤ length bytes.now) }
    ensures { IfOk result (λ offer. offer ≡ offer_of (slice_range bytes.now first end)) }
{
    let Some(head) = head_of(&bytes[first..end]) else {
        return Ok(None);
    };
    let Ok(part) = whole.slice(first + head.first..first + head.end) else {
        return Err(Memory);
    };
    Ok(Some(head.with_bytes(part)))
}

impl Found {
    // One frame more.
    fn add(&mut self, offer: Option<Packet>) -> Result<(), Memory>
        requires { self.old.stepped < 2 ^ 31 }
        ensures packets { OnOk result (self.new.packets.items ≡ self.old.packets.items ++ option_to_list offer) }
        ensures stepped { OnOk result (self.new.stepped ≡ self.old.stepped + (if is_none offer then 1 else 0)) }
    {
        match offer {
            Some(packet) => {
                if self.packets.push(packet).is_err() {
                    return Err(Memory);
                }
            }
            None => self.stepped += 1,
        }
        Ok(())
    }
}

// The offers of a capture.
fn find_offers(alloc: Global, whole: &Bytes, bytes: &[u8]) -> Result<Found, SortFault>
    requires whole { whole.now ≡ bytes.now }
    requires short { length bytes.now < 2 ^ 32 }
    ensures found { MatchResult result (λ found. HasOffers bytes.now found.packets.items found.stepped) (IsFindFault bytes.now) }
{
    let mut found = Found {
        packets: Vec::new(alloc),
        stepped: 0,
    };
    let mut place = 0;
    'finding: while place < bytes.len() {
        let (first, end) = read_frame(bytes, place)?;
        found.add(offer_at(whole, bytes, first, end)?)?;
        place = end;
    }
    Ok(found)
}

// The timestamps of packets, each once, ascending.
fn timestamps_of(alloc: Global, packets: &[Packet]) -> Result<Vec<u32>, Memory>
    ensures list { IfOk result (λ list. AreTimestamps packets.now list.items) }
    ensures few { IfOk result (λ list. length list.items ≤ length packets.now) }
{
    let mut list = Vec::new(alloc);
    'listing: for packet in packets {
        if list.push(packet.timestamp).is_err() {
            return Err(Memory);
        }
    }
    list.sort_unstable();
    list.dedup();
    Ok(list)
}

// The number of a timestamp among those that ascend.
fn number_of(timestamps: &[u32], timestamp: u32) -> u32
    requires rise { IsStrictlyIncreasing timestamps.now }
    requires there { Contains timestamps.now timestamp }
    requires few { length timestamps.now ≤ most_pictures }
    ensures inside { result < length timestamps.now }
    ensures found { slice_index timestamps.now result ≡ timestamp }
{
    match timestamps.binary_search(&timestamp) {
        Ok(number) => number as u32,
        Err(_) => unreachable!(),
    }
}

// The packets by their timestamps, each list in the order of all.
fn by_picture(alloc: Global, timestamps: &[u32], packets: Vec<Packet>) -> Result<Parts, Memory>
    requires timestamps { AreTimestamps packets.items timestamps.now }
    requires few { length timestamps.now ≤ most_pictures }
    ensures { IfOk result (λ lists. lists ≡ map (λ timestamp. offers_at timestamp packets.items) timestamps.now) }
{
    let mut lists = Parts::blank(alloc, timestamps.len())?;
    'filing: for packet in packets {
        lists.add(number_of(timestamps, packet.timestamp), packet)?;
    }
    Ok(lists)
}

/// Sorts the offers of a capture by picture, 'RTP packets and captures'. The bytes are copied once, for all offers together.
pub fn sort_pictures(alloc: Global, bytes: &[u8]) -> Result<Sorted, SortFault>
    requires { length bytes.now < 2 ^ 32 }
    ensures sorted { IsSorted bytes.now result }
{
    let Ok(whole) = Bytes::copy_from_slice(alloc, bytes) else {
        return Err(SortFault::Memory);
    };
    let found = find_offers(alloc, &whole, bytes)?;
    let timestamps = timestamps_of(alloc, found.packets.as_slice())?;
    if timestamps.len() > MOST_PICTURES {
        return Err(SortFault::Pictures {
            count: timestamps.len() as u32,
        });
    }
    let offers = by_picture(alloc, timestamps.as_slice(), found.packets)?;
    Ok(Sorted {
        timestamps,
        offers,
        stepped: found.stepped,
    })
}
