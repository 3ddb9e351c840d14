// Pcap files: the bytes of one that is written, its capture, and files of other writers.
use std::alloc::Global;
use std::test::Fail;
use xs_capture::write_frame;
use xs_io::{Memory, Octets};
use xs_pcap::{PcapFault, Unwrapped, file_header, unwrap, wrap};

// The sizes of the packets of a header of 58 bytes and of slices of 274 and 31 bytes, in pieces of 64 bytes.
const SIZES: [usize; 7] = [74, 80, 80, 80, 80, 34, 49];

// The file header that is written.
const HEADER: [u8; 24] = [
    0xd4, 0xc3, 0xb2, 0xa1, 2, 0, 4, 0, 0, 0, 0, 0, 0, 0, 0, 0, 0xff, 0xff, 0, 0, 1, 0, 0, 0,
];

// What the first record has before a packet of 74 bytes of timestamp 0, for port 5004.
const FIRST: [u8; 58] = [
    0, 0, 0, 0, 0, 0, 0, 0, 116, 0, 0, 0, 116, 0, 0, 0, //
    2, 0, 0, 0, 0, 2, 2, 0, 0, 0, 0, 1, 8, 0, //
    0x45, 0, 0, 0x66, 0, 0, 0x40, 0, 0x40, 0x11, 0xb6, 0x83, 0xc0, 0, 2, 1, 0xc0, 0, 2, 2, //
    0x13, 0x8c, 0x13, 0x8c, 0, 0x52, 0, 0,
];

// A big-endian file with nanoseconds of another writer: a frame with two tags, an IPv4 header with an option, a UDP payload of
// one byte, a byte more in the IPv4 packet and one after it; then a frame of ARP.
const OTHER: [u8; 127] = [
    0xa1, 0xb2, 0x3c, 0x4d, 0, 2, 0, 4, 9, 9, 9, 9, 9, 9, 9, 9, 0, 0, 0, 64, 0xf0, 0, 0, 1, //
    1, 2, 3, 4, 5, 6, 7, 8, 0, 0, 0, 57, 0, 0, 1, 0, //
    1, 1, 1, 1, 1, 1, 2, 2, 2, 2, 2, 2, 0x81, 0, 0, 5, 0x81, 0, 0, 6, 8, 0, //
    0x46, 1, 0, 34, 7, 7, 0x80, 0, 1, 17, 3, 3, 10, 0, 0, 1, 10, 0, 0, 2, 1, 1, 1, 1, //
    0, 1, 0x13, 0x88, 0, 9, 4, 4, 0xab, 0xcd, 0xee, //
    1, 2, 3, 4, 5, 6, 7, 8, 0, 0, 0, 14, 0, 0, 0, 14, //
    1, 1, 1, 1, 1, 1, 2, 2, 2, 2, 2, 2, 8, 6,
];

// Packets of these sizes, each of its own byte: as a file, or as a capture.
fn file(alloc: Global) -> Result<Octets, Memory> {
    let mut out = Octets::from_slice(alloc, &file_header())?;
    for size in SIZES {
        wrap(alloc, &mut out, &[7; 80][..size.min(80)], 0, 5004)?;
    }
    Ok(out)
}

fn capture(alloc: Global) -> Result<Octets, Memory> {
    let mut out = Octets::new(alloc);
    for size in SIZES {
        write_frame(alloc, &mut out, &[7; 80][..size.min(80)])?;
    }
    Ok(out)
}

fn unwrapped_of(alloc: Global, bytes: &[u8], port: u16) -> Result<Unwrapped, PcapFault> {
    if bytes.len() > 1 << 24 {
        return Err(PcapFault::Memory);
    }
    unwrap(alloc, bytes, port)
}

// Whether a file is unwrapped to these bytes, with so many records stepped over.
fn gives(alloc: Global, bytes: &[u8], port: u16, capture: &[u8], stepped: u32) -> bool {
    match unwrapped_of(alloc, bytes, port) {
        Ok(unwrapped) => unwrapped.capture.as_slice() == capture && unwrapped.stepped == stepped,
        Err(_) => false,
    }
}

// The fault of a file, as a kind and a number.
fn fault_of(alloc: Global, bytes: &[u8]) -> (char, u64) {
    match unwrapped_of(alloc, bytes, 0) {
        Err(PcapFault::Cut { place }) => ('c', place as u64),
        Err(PcapFault::Magic { value }) => ('m', u64::from(value)),
        Err(PcapFault::Link { value }) => ('l', u64::from(value)),
        _ => ('-', 0),
    }
}

// The fault of the first bytes of a file that has as many.
fn fault_of_front(alloc: Global, bytes: &[u8], length: usize) -> (char, u64) {
    if length > bytes.len() {
        return ('?', 0);
    }
    fault_of(alloc, &bytes[..length])
}

#[test]
fn packets_are_wrapped(rt: HostRuntime) -> Result<(), Fail> {
    let file = file(rt.alloc())?;
    assert!(rt; file.len() == 907);
    assert!(rt; file.as_slice().starts_with(&HEADER));
    assert!(rt; file.as_slice()[24..].starts_with(&FIRST));
    let mut late = Octets::new(rt.alloc());
    wrap(rt.alloc(), &mut late, &[], u32::MAX, 1)?;
    assert!(rt;
        late.as_slice()
            .starts_with(&[0x69, 0xba, 0, 0, 0xd1, 0x1a, 0xd, 0, 42, 0, 0, 0]),
        "47721 seconds and 858833 microseconds"
    );
    Ok(())
}

#[test]
fn files_are_unwrapped(rt: HostRuntime) -> Result<(), Fail> {
    let file = file(rt.alloc())?;
    let capture = capture(rt.alloc())?;
    assert!(rt; gives(rt.alloc(), file.as_slice(), 0, capture.as_slice(), 0));
    assert!(rt; gives(rt.alloc(), file.as_slice(), 5004, capture.as_slice(), 0));
    assert!(rt; gives(rt.alloc(), file.as_slice(), 5005, &[], 7));
    assert!(rt; gives(rt.alloc(), &OTHER, 5000, &[0, 1, 0xab], 1));
    assert!(rt; gives(rt.alloc(), &OTHER, 0, &[0, 1, 0xab], 1));
    Ok(())
}

#[test]
fn faults_are_named(rt: HostRuntime) -> Result<(), Fail> {
    let file = file(rt.alloc())?;
    assert!(rt; fault_of(rt.alloc(), &[]) == ('c', 0));
    assert!(rt; fault_of(rt.alloc(), &HEADER[..23]) == ('c', 0));
    assert!(rt; fault_of(rt.alloc(), &HEADER) == ('-', 0));
    assert!(rt; fault_of_front(rt.alloc(), file.as_slice(), 906) == ('c', 800));
    assert!(rt; fault_of_front(rt.alloc(), file.as_slice(), 30) == ('c', 24));
    let mut link = HEADER;
    link[20] = 113;
    assert!(rt; fault_of(rt.alloc(), &link) == ('l', 113));
    let mut magic = HEADER;
    magic[3] = 0;
    assert!(rt; fault_of(rt.alloc(), &magic) == ('m', 0xd4c3_b200));
    Ok(())
}
