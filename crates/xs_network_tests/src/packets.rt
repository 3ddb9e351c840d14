// The packets of codestreams that were made by hand: sizes, bytes, headers, and back.
ghost use Rattle.std.specs.Prelude.{IsTrue};
ghost use Rattle.xs_pack.specs.Datagrams.{IsPackable};

use crate::captures::{count_of, cut_of, first_of, timestamp_of};
use std::alloc::Global;
use std::test::Fail;
use xs_capture::write_frame;
use xs_io::{Memory, Octets};
use xs_layout::{Format, Quant, Shape};
use xs_pack::{Datagrams, pack};
use xs_params::{Checked, Mode, Settings, Stream};
use xs_rtp::{Pay, Rtp};

// A box of twelve bytes.
const BOX: [u8; 12] = [0, 0, 0, 12, 1, 1, 1, 1, 1, 1, 1, 1];

// Packets of at most `chunk` bytes of a unit, with boxes before the header.
fn settings(boxes: Octets, chunk: u32) -> Option<Checked> {
    let settings = Settings {
        shape: Shape {
            width: 32,
            height: 17,
            format: Format::Mono,
            depth: 8,
        },
        bits: 20,
        nlx: 2,
        nly: 2,
        hsl: 4,
        colour: false,
        quant: Quant::Uniform,
        signs_apart: false,
        weights: None,
        share: 274,
        fill: false,
        chunk,
        mode: Mode::Slice,
        payload_type: 96,
        ssrc: 1,
        first_timestamp: 0,
        step: 1500,
        boxes,
        workers: 4,
        feeders: 2,
        port: 5004,
    };
    settings.check().ok()
}

// A codestream with a header of 58 bytes, slices of one size, each of its own byte, and a last one of another size.
fn stream_of(alloc: Global, slices: u8, size: usize, last: usize) -> Result<Stream, Memory> {
    let mut header = Octets::from_slice(alloc, &[0xff, 0x10])?;
    header.extend(&[7; 56])?;
    let mut stream = Stream::new(alloc, header);
    for slice in 0..slices {
        let size = if slice + 1 < slices { size } else { last };
        let Ok(bytes) = vec![in alloc; slice; size] else {
            return Err(Memory);
        };
        if stream.len() < 1000 {
            stream.push(Octets::from(bytes))?;
        }
    }
    Ok(stream)
}

// Whether no unit has more pieces than there are places.
fn is_packable(stream: &Stream, settings: &Checked) -> bool
    ensures { IsTrue result → IsPackable settings.now stream.now }
{
    let settings = settings.settings();
    let most = 512 * settings.chunk as usize - 2048;
    if stream.len() > 2047 || stream.header().len() > most {
        return false;
    }
    'asking: for slice in 0..stream.len() {
        if stream.slice(slice).len() > most {
            return false;
        }
    }
    true
}

fn packed(
    alloc: Global,
    stream: &Stream,
    settings: &Checked,
    picture: u32,
    sequence: u16,
) -> Option<Datagrams> {
    if picture < 256 && is_packable(stream, settings) {
        return pack(alloc, stream, settings, picture, sequence).ok();
    }
    None
}

// The packets of a picture of two slices in pieces of 64 bytes.
fn two_slices(alloc: Global, boxes: &[u8], picture: u32, sequence: u16) -> Option<Datagrams> {
    let settings = settings(Octets::from_slice(alloc, boxes).ok()?, 64)?;
    let stream = stream_of(alloc, 2, 274, 31).ok()?;
    packed(alloc, &stream, &settings, picture, sequence)
}

// Whether the packets of two slices have these sizes.
fn have_sizes(alloc: Global, boxes: &[u8], sizes: &[usize]) -> bool {
    let Some(packets) = two_slices(alloc, boxes, 0, 0) else {
        return false;
    };
    for number in 0..packets.len() {
        if sizes.get(number as usize) != Some(&packets.get(number).len()) {
            return false;
        }
    }
    packets.len() as usize == sizes.len()
}

#[test]
fn units_are_cut_into_packets(rt: HostRuntime) {
    assert!(rt; have_sizes(rt.alloc(), &[], &[74, 80, 80, 80, 80, 34, 49]));
    assert!(rt;
        have_sizes(rt.alloc(), &BOX, &[80, 22, 80, 80, 80, 80, 34, 49]),
        "boxes go with the header"
    );
}

// The sequence number of a packet, whether it ends its picture, and whether it ends its unit.
fn header_of(packet: &[u8]) -> Option<(u16, bool, bool)> {
    let (rtp, begin, end) = Rtp::read(packet).ok()?;
    let pay = Pay::read(&packet[begin..end]).ok()?;
    Some((rtp.sequence, rtp.marker, pay.last))
}

// That of a packet of two slices, where the first has the sequence number 65533.
fn nth_header(alloc: Global, number: u32) -> Option<(u16, bool, bool)> {
    let packets = two_slices(alloc, &[], 255, 65533)?;
    if number >= packets.len() {
        return None;
    }
    header_of(packets.get(number))
}

#[test]
fn sequence_numbers_run_on(rt: HostRuntime) {
    assert!(rt; nth_header(rt.alloc(), 0) == Some((65533, false, true)));
    assert!(rt; nth_header(rt.alloc(), 2) == Some((65535, false, false)));
    assert!(rt; nth_header(rt.alloc(), 3) == Some((0, false, false)));
    assert!(rt; nth_header(rt.alloc(), 5) == Some((2, false, true)));
    assert!(rt; nth_header(rt.alloc(), 6) == Some((3, true, true)));
    assert!(rt; nth_header(rt.alloc(), 7).is_none());
}

// Appends the frames of packets.
fn add_frames(alloc: Global, capture: &mut Octets, packets: &Datagrams) -> Result<(), Memory> {
    for number in 0..packets.len() {
        let packet = packets.get(number);
        if packet.len() > 65535 {
            return Err(Memory);
        }
        write_frame(alloc, capture, packet)?;
    }
    Ok(())
}

// The capture of two slices.
fn capture_of(alloc: Global, boxes: &[u8]) -> Result<Octets, Memory> {
    let mut capture = Octets::new(alloc);
    if let Some(packets) = two_slices(alloc, boxes, 0, 0) {
        add_frames(alloc, &mut capture, &packets)?;
    }
    Ok(capture)
}

// Where a capture without its last byte is cut.
fn cut_one_short(alloc: Global, capture: &[u8]) -> Option<usize> {
    cut_of(alloc, &capture[..capture.len().saturating_sub(1)])
}

#[test]
fn a_capture_has_stated_bytes(rt: HostRuntime) -> Result<(), Fail> {
    let capture = capture_of(rt.alloc(), &[])?;
    let bytes = capture.as_slice();
    assert!(rt; bytes.len() == 491);
    assert!(rt;
        bytes[..20]
            == [
                0, 0x4a, 0x80, 0x60, 0, 0, 0, 0, 0, 0, 0, 0, 0, 1, 0xe0, 0x3f, 0xf8, 0, 0xff, 0x10
            ]
    );
    assert!(rt;
        bytes[489..] == [0xff, 0x11],
        "the end marker closes the last unit"
    );
    assert!(rt; cut_one_short(rt.alloc(), bytes) == Some(440));
    Ok(())
}

#[test]
fn a_box_comes_first(rt: HostRuntime) -> Result<(), Fail> {
    let capture = capture_of(rt.alloc(), &BOX)?;
    assert!(rt; first_of(rt.alloc(), capture.as_slice(), 0) == Some((8, 0, 0, 64)));
    Ok(())
}

// Appends the frames of a picture of 135 slices of 38400 bytes, of which each has 28 packets.
fn add_large(alloc: Global, capture: &mut Octets, picture: u32, sequence: u16) -> Option<()> {
    let settings = settings(Octets::new(alloc), 1400)?;
    let stream = stream_of(alloc, 135, 38400, 38400).ok()?;
    let packets = packed(alloc, &stream, &settings, picture, sequence)?;
    add_frames(alloc, capture, &packets).ok()
}

// Two such pictures.
fn large_pictures(alloc: Global) -> Option<Octets> {
    let mut capture = Octets::new(alloc);
    add_large(alloc, &mut capture, 0, 0)?;
    add_large(alloc, &mut capture, 1, 3781)?;
    Some(capture)
}

#[test]
fn large_pictures_come_back(rt: HostRuntime) -> Result<(), Fail> {
    let capture = large_pictures(rt.alloc()).ok_or("no capture")?;
    assert!(rt; count_of(rt.alloc(), capture.as_slice()) == Some((2, 0)));
    assert!(rt; timestamp_of(rt.alloc(), capture.as_slice(), 1) == Some(1500));
    assert!(rt; first_of(rt.alloc(), capture.as_slice(), 1) == Some((3781, 0, 0, 58)));
    Ok(())
}
