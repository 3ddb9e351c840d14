// The packets of small grey pictures, of 32 columns and 17 rows in two slices, and captures of them.
//
// Packet 0 has the header, packets 1 to 5 have slice 0, and packet 6 has slice 1.
ghost use Rattle.std.specs.Prelude.{◌≡◌, length, IfOk};

use std::alloc::Global;
use xs_capture::write_frame;
use xs_io::{Memory, Octets};
use xs_layout::{Format, Quant, Shape};
use xs_pack::{Datagrams, pack};
use xs_params::{Checked, Mode, Settings};
use xs_picture::encode_picture;
use xs_samples::{raw_size, read_picture};

// Packets of at most 64 bytes of a unit; slices within a share.
fn settings(alloc: Global, share: u32) -> Option<Checked> {
    let settings = Settings {
        shape: Shape {
            width: 32,
            height: 17,
            format: Format::Mono,
            depth: 8,
        },
        bits: 20,
        nlx: 2,
        nly: 2,
        hsl: 4,
        colour: false,
        quant: Quant::Uniform,
        signs_apart: false,
        weights: None,
        share,
        fill: false,
        chunk: 64,
        mode: Mode::Slice,
        payload_type: 96,
        ssrc: 1,
        first_timestamp: 0,
        step: 1500,
        boxes: Octets::new(alloc),
        workers: 4,
        feeders: 2,
        port: 5004,
    };
    settings.check().ok()
}

/// The raw picture whose last row has this sample, and whose other rows have 128.
pub fn raw_of(alloc: Global, last: u8) -> Result<Octets, Memory> {
    let mut raw = Octets::from_slice(alloc, &[128; 512])?;
    raw.extend(&[last; 32])?;
    Ok(raw)
}

// The packets of a raw picture.
fn send(alloc: Global, settings: &Checked, raw: &[u8]) -> Option<Datagrams> {
    let shape = &settings.settings().shape;
    if raw.len() != raw_size(shape) {
        return None;
    }
    let Ok(picture) = read_picture(alloc, shape, raw) else {
        return None;
    };
    let Ok(stream) = encode_picture(alloc, &picture, settings) else {
        return None;
    };
    pack(alloc, &stream, settings, 0, 0).ok()
}

// The packets of the picture whose last row has this sample, with slices within a share.
fn packets_of(alloc: Global, last: u8, share: u32) -> Option<Datagrams> {
    let settings = settings(alloc, share)?;
    let raw = raw_of(alloc, last).ok()?;
    send(alloc, &settings, raw.as_slice())
}

// Appends the frame of a packet.
fn add_frame(
    alloc: Global,
    capture: &mut Octets,
    packets: &Datagrams,
    number: u32,
) -> Result<(), Memory> {
    if number >= packets.len() {
        return Err(Memory);
    }
    let packet = packets.get(number);
    if packet.len() > 65535 {
        return Err(Memory);
    }
    write_frame(alloc, capture, packet)
}

// The frames of the packets with these numbers, in their order.
fn frames_of(alloc: Global, packets: &Datagrams, numbers: &[u32]) -> Result<Octets, Memory> {
    let mut capture = Octets::new(alloc);
    for number in numbers {
        add_frame(alloc, &mut capture, packets, *number)?;
    }
    Ok(capture)
}

/// A capture of the packets with these numbers, in their order, of the picture whose last row has this sample.
pub fn sent(alloc: Global, last: u8, share: u32, numbers: &[u32]) -> Option<Octets> {
    let packets = packets_of(alloc, last, share)?;
    frames_of(alloc, &packets, numbers).ok()
}

/// The same, and behind it the packets with other numbers of the picture whose last row has another sample.
pub fn sent_by_two(alloc: Global, senders: [(u8, &[u32]); 2]) -> Option<Octets> {
    let [(last, numbers), (other, others)] = senders;
    let mut capture = sent(alloc, last, 1000, numbers)?;
    let more = sent(alloc, other, 1000, others)?;
    capture.extend(more.as_slice()).ok()?;
    Some(capture)
}
