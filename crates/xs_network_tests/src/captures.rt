// Captures: what is an offer, what is stepped over, and how pictures are sorted and dealt.
use bytes::Bytes;
use std::alloc::Global;
use std::default::MadeWith;
use std::test::Fail;
use std::thread;
use xs_capture::{Packet, Parts, SortFault, Sorted, offer, read_frame, sort_pictures, write_frame};
use xs_io::{Memory, Octets};

// A packet with padding, extension, a source and marker, of the picture 1500, which closes slice 0 at place 511.
const FULL: [u8; 32] = [
    0xb1, 0xe0, 2, 1, 0, 0, 5, 0xdc, 0, 0, 0, 1, //
    7, 7, 7, 7, //
    1, 2, 0, 1, 8, 8, 8, 8, //
    0xe0, 0xc0, 0x01, 0xff, 5, 6, //
    0, 2,
];

// A packet of another version of RTP.
const OTHER: [u8; 16] = [0x40, 0, 0, 0, 0, 0, 0, 0, 0, 0, 0, 0, 0xe0, 0, 0, 0];

// Payloads of five bytes that are no offers: of another mode, interlaced, and past the last place.
const STEPPED: [[u8; 5]; 3] = [
    [0xa0, 0xc0, 0x01, 0xff, 5],
    [0xe8, 0xc0, 0x01, 0xff, 5],
    [0xe0, 0, 0x02, 0, 5],
];

// Appends a packet of a picture, by its payload.
fn add_packet(
    capture: &mut Octets,
    alloc: Global,
    timestamp: u32,
    payload: &[u8; 5],
) -> Result<(), Memory> {
    let [a, b, c, d] = timestamp.to_be_bytes();
    let [e, f, g, h, i] = *payload;
    write_frame(
        alloc,
        capture,
        &[0x80, 0x60, 0, 0, a, b, c, d, 0, 0, 0, 1, e, f, g, h, i],
    )
}

// The offer of a packet with every header bit, three kinds of payloads that are no offers, a payload of three bytes, a packet of
// another version, a frame with no bytes, and an offer with none.
fn mixed(alloc: Global) -> Result<Octets, Memory> {
    let mut capture = Octets::new(alloc);
    write_frame(alloc, &mut capture, &FULL)?;
    for payload in &STEPPED {
        add_packet(&mut capture, alloc, 1500, payload)?;
    }
    capture.extend(&[
        0, 15, 0x80, 0x60, 0, 0, 0, 0, 0, 7, 0, 0, 0, 1, 0xe0, 0x3f, 0xf8,
    ])?;
    write_frame(alloc, &mut capture, &OTHER)?;
    capture.extend(&[
        0, 0, 0, 16, 0x80, 0x60, 0, 0, 0, 0, 0, 7, 0, 0, 0, 1, 0xc0, 0x3f, 0xf8, 0,
    ])?;
    Ok(capture)
}

// The pictures of a capture, where it is not refused.
fn sorted_of(alloc: Global, capture: &[u8]) -> Option<Sorted> {
    if capture.len() > 1 << 24 {
        return None;
    }
    sort_pictures(alloc, capture).ok()
}

// The packets of a picture that is there, dealt to at most eight feeders.
fn dealt_to(sorted: &mut Sorted, picture: u32, feeders: u32) -> Option<Parts> {
    if picture >= sorted.count() || feeders == 0 || feeders > 8 {
        return None;
    }
    sorted.parts(picture, feeders).ok()
}

// Packets of a part that is there.
fn taken_of(parts: &mut Parts, part: u32) -> Option<Vec<Packet>> {
    if part as usize >= parts.len() {
        return None;
    }
    Some(parts.take(part))
}

// What a picture of a capture has: how many packets, and unit, place and number of bytes of the first.
pub fn first_of(alloc: Global, capture: &[u8], picture: u32) -> Option<(usize, u32, u32, usize)> {
    let mut sorted = sorted_of(alloc, capture)?;
    let mut parts = dealt_to(&mut sorted, picture, 1)?;
    let packets = taken_of(&mut parts, 0)?;
    let first = packets.as_slice().first()?;
    Some((packets.len(), first.unit, first.place, first.bytes.len()))
}

// The number of pictures of a capture, and of the frames that are stepped over.
pub fn count_of(alloc: Global, capture: &[u8]) -> Option<(u32, u32)> {
    let sorted = sorted_of(alloc, capture)?;
    Some((sorted.count(), sorted.stepped()))
}

// The timestamp of a picture that is there.
pub fn timestamp_of(alloc: Global, capture: &[u8], picture: u32) -> Option<u32> {
    let sorted = sorted_of(alloc, capture)?;
    if picture >= sorted.count() {
        return None;
    }
    Some(sorted.timestamp(picture))
}

#[test]
fn frames_are_offers_or_stepped_over(rt: HostRuntime) -> Result<(), Fail> {
    let capture = mixed(rt.alloc())?;
    assert!(rt; count_of(rt.alloc(), capture.as_slice()) == Some((2, 6)));
    assert!(rt; first_of(rt.alloc(), capture.as_slice(), 0) == Some((1, 0, 0, 0)));
    assert!(rt;
        first_of(rt.alloc(), capture.as_slice(), 1) == Some((1, 1, 511, 2)),
        "padding is no payload"
    );
    Ok(())
}

// The unit, place and bytes of the offer that a packet is.
fn offer_of(alloc: Global, packet: &[u8]) -> Result<Option<(u32, u32, usize)>, Memory> {
    let Some(packet) = offer(alloc, packet)? else {
        return Ok(None);
    };
    Ok(Some((packet.unit, packet.place, packet.bytes.len())))
}

#[test]
fn a_packet_is_an_offer_or_none(rt: HostRuntime) -> Result<(), Fail> {
    assert!(rt; offer_of(rt.alloc(), &FULL)? == Some((1, 511, 2)));
    assert!(rt; offer_of(rt.alloc(), &OTHER)?.is_none());
    Ok(())
}

// Where a capture is cut.
pub fn cut_of(alloc: Global, capture: &[u8]) -> Option<usize> {
    if capture.len() > 1 << 24 {
        return None;
    }
    match sort_pictures(alloc, capture) {
        Err(SortFault::Cut { place }) => Some(place),
        _ => None,
    }
}

// Two frames of 34 bytes.
fn two_frames(alloc: Global) -> Result<Octets, Memory> {
    let mut capture = Octets::new(alloc);
    write_frame(alloc, &mut capture, &FULL)?;
    write_frame(alloc, &mut capture, &FULL)?;
    Ok(capture)
}

// Whether a front of the two frames is cut exactly where its last frame begins, unless that is whole.
fn is_cut_right(alloc: Global, capture: &[u8], length: usize) -> bool {
    if length > capture.len() {
        return false;
    }
    let cut = cut_of(alloc, &capture[..length]);
    if length % 34 == 0 {
        cut.is_none()
    } else {
        cut == Some(length - length % 34)
    }
}

#[test]
fn a_cut_frame_is_named(rt: HostRuntime) -> Result<(), Fail> {
    let capture = two_frames(rt.alloc())?;
    for length in 0..69 {
        assert!(rt; is_cut_right(rt.alloc(), capture.as_slice(), length));
    }
    Ok(())
}

// Offers of so many pictures, the latest first.
fn pictures(alloc: Global, count: u32) -> Result<Octets, Memory> {
    let mut capture = Octets::new(alloc);
    for picture in 0..count {
        add_packet(
            &mut capture,
            alloc,
            u32::MAX - picture,
            &[0xe0, 0x3f, 0xf8, 0, 0],
        )?;
    }
    Ok(capture)
}

// How many pictures are too many.
fn too_many_of(alloc: Global, capture: &[u8]) -> Option<u32> {
    if capture.len() > 1 << 24 {
        return None;
    }
    match sort_pictures(alloc, capture) {
        Err(SortFault::Pictures { count }) => Some(count),
        _ => None,
    }
}

#[test]
fn pictures_are_counted(rt: HostRuntime) -> Result<(), Fail> {
    assert!(rt;
        count_of(rt.alloc(), &[]) == Some((0, 0)),
        "no bytes are no pictures"
    );
    let most = pictures(rt.alloc(), 256)?;
    assert!(rt; count_of(rt.alloc(), most.as_slice()) == Some((256, 0)));
    let more = pictures(rt.alloc(), 300)?;
    assert!(rt; too_many_of(rt.alloc(), more.as_slice()) == Some(300));
    Ok(())
}

// A capture of two pictures whose packets are mixed: place p of the earlier one has byte p, of the later one 100 + p.
fn two_pictures(alloc: Global) -> Result<Octets, Memory> {
    let mut capture = Octets::new(alloc);
    for place in 0u8..5 {
        add_packet(
            &mut capture,
            alloc,
            1 << 31,
            &[0xc0, 0, 0, place, 100 + place],
        )?;
        add_packet(&mut capture, alloc, 3, &[0xc0, 0, 0, place, place])?;
    }
    Ok(capture)
}

// The sum and the number of the first bytes of the packets that a part gets of a picture, each twice what was summed before.
fn sum_of(alloc: Global, capture: &[u8], picture: u32, deal: (u32, u32)) -> Option<(u32, usize)> {
    let mut sorted = sorted_of(alloc, capture)?;
    let mut parts = dealt_to(&mut sorted, picture, deal.0)?;
    let packets = taken_of(&mut parts, deal.1)?;
    let mut sum = 0u32;
    for packet in &packets {
        let byte = packet.bytes.as_slice().first()?;
        sum = sum.wrapping_mul(2).wrapping_add(u32::from(*byte));
    }
    Some((sum, packets.len()))
}

#[test]
fn offers_are_dealt_in_turn(rt: HostRuntime) -> Result<(), Fail> {
    let capture = two_pictures(rt.alloc())?;
    assert!(rt;
        timestamp_of(rt.alloc(), capture.as_slice(), 0) == Some(3),
        "ascending as numbers"
    );
    assert!(rt; timestamp_of(rt.alloc(), capture.as_slice(), 1) == Some(1 << 31));
    assert!(rt;
        sum_of(rt.alloc(), capture.as_slice(), 1, (2, 0)) == Some((4 * 100 + 2 * 102 + 104, 3))
    );
    assert!(rt; sum_of(rt.alloc(), capture.as_slice(), 1, (2, 1)) == Some((2 * 101 + 103, 2)));
    assert!(rt;
        sum_of(rt.alloc(), capture.as_slice(), 0, (1, 0)) == Some((8 + 2 * 2 * 2 + 2 * 3 + 4, 5))
    );
    Ok(())
}

#[test]
fn packets_go_to_threads(rt: HostRuntime) -> Result<(), Fail> {
    let mut packets = Vec::new(rt.alloc());
    packets.push(Packet::made_with(rt.alloc()))?;
    packets.push(Packet::new(9, 2047, 511, false, Bytes::from_static(&[1])))?;
    thread::for_each_mut(
        &rt,
        packets.as_mut_slice(),
        2,
        &|_: usize, packet: &mut Packet| packet.last = true,
    );
    assert!(rt; packets.iter().all(|packet| packet.last));
    Ok(())
}

// What is read of a frame.
fn frame_of(bytes: &[u8], place: usize) -> Option<(usize, usize)> {
    if place >= bytes.len() {
        return None;
    }
    read_frame(bytes, place).ok()
}

#[test]
fn frames_are_read(rt: HostRuntime) {
    assert!(rt; frame_of(&[9, 0, 1, 7], 1) == Some((3, 4)));
    assert!(rt; frame_of(&[9, 0, 2, 7], 1).is_none());
    assert!(rt; frame_of(&[9, 0], 1).is_none());
    assert!(rt; frame_of(&[0, 0], 0) == Some((2, 2)));
}
