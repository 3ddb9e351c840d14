//! What a user of the libraries writes: a grey picture is encoded and sent in packets over two paths that each lose every
//! second one, and received.
#![tactic(auto)]

use std::alloc::Global;
use std::io;
use std::process::ExitCode;
use std::thread::Threads;
use xs_capture::{sort_pictures, write_frame};
use xs_io::{Octets, OpenGate};
use xs_pack::{Datagrams, pack};
use xs_params::{Checked, Format, Mode, Quant, Settings, Shape};
use xs_picture::encode_picture;
use xs_recv::{Received, receive_picture};
use xs_samples::{raw_size, read_picture, write_picture};

/// The raw picture: 17 rows of 32 samples.
const GREY: [u8; 544] = [128; 544];

fn settings(alloc: Global) -> Option<Checked> {
    let settings = Settings {
        shape: Shape {
            width: 32,
            height: 17,
            format: Format::Mono,
            depth: 8,
        },
        bits: 20,
        nlx: 2,
        nly: 2,
        hsl: 4,
        colour: false,
        quant: Quant::Uniform,
        signs_apart: false,
        weights: None,
        share: 274,
        fill: false,
        chunk: 64,
        mode: Mode::Slice,
        payload_type: 96,
        ssrc: 1,
        first_timestamp: 0,
        step: 1500,
        boxes: Octets::new(alloc),
        workers: 4,
        feeders: 2,
        port: 5004,
    };
    settings.check().ok()
}

// The packets of a raw picture.
fn send(alloc: Global, settings: &Checked, raw: &[u8]) -> Option<Datagrams> {
    let shape = &settings.settings().shape;
    if raw.len() != raw_size(shape) {
        return None;
    }
    let Ok(picture) = read_picture(alloc, shape, raw) else {
        return None;
    };
    let Ok(stream) = encode_picture(alloc, &picture, settings) else {
        return None;
    };
    pack(alloc, &stream, settings, 0, 0).ok()
}

// Appends the frames of each second packet, from this one on: the others are lost.
fn lose(alloc: Global, packets: &Datagrams, first: u32, capture: &mut Octets) -> Option<()> {
    for number in 0..packets.len() {
        let packet = packets.get(number);
        if number % 2 == first && packet.len() < 65536 {
            write_frame(alloc, capture, packet).ok()?;
        }
    }
    Some(())
}

// What is received of the first picture of a capture.
fn receive<T: Threads + Sync>(threads: &T, alloc: Global, capture: &[u8]) -> Option<Received> {
    if capture.len() >= 1 << 32 {
        return None;
    }
    let Ok(mut sorted) = sort_pictures(alloc, capture) else {
        return None;
    };
    if sorted.count() == 0 {
        return None;
    }
    let Ok(parts) = sorted.parts(0, 1) else {
        return None;
    };
    let reception = receive_picture(threads, alloc, parts, 1, &OpenGate).ok()?;
    Some(reception.received)
}

// Prints what is received over a path.
fn say(rt: &HostRuntime, path: &str, received: &Received) -> io::Result<()> {
    match received {
        Received::Picture(picture) => {
            let raw = write_picture(rt.alloc(), picture);
            let same = raw.is_ok_and(|raw| raw.as_slice() == &GREY[..]);
            println!(rt;
                "{path}: the picture, {}",
                if same { "as it was" } else { "changed" }
            )
        }
        Received::Missing { header: true, .. } => println!(rt; "{path}: the header is missing"),
        Received::Missing { slices, .. } => {
            for slice in slices.as_slice() {
                println!(rt; "{path}: slice {slice} is missing")?;
            }
            Ok(())
        }
        Received::Damaged(_) => println!(rt; "{path}: damaged"),
    }
}

// Sends and receives. None where memory is wanting or the output fails.
fn show<T: Threads + Sync>(rt: &HostRuntime, threads: &T) -> Option<()> {
    let alloc = rt.alloc();
    let packets = send(alloc, &settings(alloc)?, &GREY)?;
    let mut one = Octets::new(alloc);
    lose(alloc, &packets, 0, &mut one)?;
    let mut other = Octets::new(alloc);
    lose(alloc, &packets, 1, &mut other)?;
    println!(rt;
        "{} packets, of which {} bytes come one way and {} another",
        packets.len(),
        one.len(),
        other.len()
    )
    .ok()?;
    say(rt, "one path", &receive(threads, alloc, one.as_slice())?).ok()?;
    say(
        rt,
        "other path",
        &receive(threads, alloc, other.as_slice())?,
    )
    .ok()?;
    one.extend(other.as_slice()).ok()?;
    say(rt, "both paths", &receive(threads, alloc, one.as_slice())?).ok()
}

fn main(rt: HostRuntime) -> ExitCode {
    ExitCode::from(if show(&rt, &rt).is_some() { 0 } else { 1 })
}
