// Any number of workers comes to the same.
use crate::cases::{BLACK, Case, GREY, PictureOutcome, STRIPES, TIGHT};
use std::alloc::Global;
use std::thread::Threads;
use xs_faults::Budget;
use xs_io::{Memory, Octets, OpenGate};

const WORKERS: [u8; 3] = [1, 4, 16];

// The codestream of the black picture: the header and the slice's, and four precincts that differ but in their beginning.
const BLACK_HEADER: [u8; 54] = [
    0xff, 0x10, 0xff, 0x50, 0, 2, 0xff, 0x12, 0, 0x1a, 0, 0, 0, 0xd7, 0, 0, 0, 0, 0, 0x20, 0, 4, 0,
    0, 0, 4, 1, 4, 8, 0x14, 0x84, 0, 0x10, 0, //
    0xff, 0x13, 0, 4, 8, 0x11, 0xff, 0x14, 0, 6, 0, 0, 0, 1, //
    0xff, 0x20, 0, 4, 0, 0,
];

const BLACK_FIRST: [u8; 19] = [
    0, 0, 0x27, 0, 0, 0x20, 0, 0x1a, 0, 0x38, 0, 0x80, 0xff, 0xf7, 0xff, 0xbf, 0xfd, 0xff, 0xe0,
];

const BLACK_NEXT: [u8; 12] = [0, 0, 0x20, 0, 0, 0xe0, 0, 0x1a, 0, 0, 0, 0xc0];

const BLACK_DATA: [u8; 26] = [
    0xff, 0, 0, 0, 0, 0, 0x0f, 0xf0, 0, 0, 0, 0, 0, 0xff, 0, 0, 0, 0, 0, 0x0f, 0xf0, 0, 0, 0, 0, 0,
];

// That of the grey picture: the header; a precinct of ten packets, and the last one of three.
const GREY_HEADER: [u8; 58] = [
    0xff, 0x10, 0xff, 0x50, 0, 2, 0xff, 0x12, 0, 0x1a, 0, 0, 1, 0x6d, 0, 0, 0, 0, 0, 0x20, 0, 0x11,
    0, 0, 0, 4, 1, 4, 8, 0x14, 0x84, 0, 0x22, 0x10, //
    0xff, 0x13, 0, 4, 8, 0x11, 0xff, 0x14, 0, 0x10, 2, 0, 1, 1, 1, 2, 1, 3, 0, 4, 0, 5, 0, 6,
];

const GREY_PRECINCT: [u8; 7] = [0, 0, 0x3c, 0, 0, 0xaa, 0xa8];

const GREY_LAST: [u8; 7] = [0, 0, 0x12, 0, 0, 0xa0, 0x80];

const GREY_PACKET: [u8; 6] = [0, 0, 0, 0, 0, 0x80];

const EOC: [u8; 2] = [0xff, 0x11];

fn black_stream(alloc: Global) -> Result<Octets, Memory> {
    let mut bytes = Octets::from_slice(alloc, &BLACK_HEADER)?;
    bytes.extend(&BLACK_FIRST)?;
    bytes.extend(&BLACK_DATA)?;
    for _ in 1..4 {
        bytes.extend(&BLACK_NEXT)?;
        bytes.extend(&BLACK_DATA)?;
    }
    bytes.extend(&EOC)?;
    Ok(bytes)
}

// Puts a precinct of so many empty packets at the end.
fn extend_by_packets(bytes: &mut Octets, precinct: &[u8], packets: u32) -> Result<(), Memory> {
    bytes.extend(precinct)?;
    for _ in 0..packets {
        bytes.extend(&GREY_PACKET)?;
    }
    Ok(())
}

/// The codestream of the grey picture.
pub fn grey_stream(alloc: Global) -> Result<Octets, Memory> {
    let mut bytes = Octets::from_slice(alloc, &GREY_HEADER)?;
    bytes.extend(&[0xff, 0x20, 0, 4, 0, 0])?;
    for _ in 0..4 {
        extend_by_packets(&mut bytes, &GREY_PRECINCT, 10)?;
    }
    bytes.extend(&[0xff, 0x20, 0, 4, 0, 1])?;
    extend_by_packets(&mut bytes, &GREY_LAST, 3)?;
    bytes.extend(&EOC)?;
    Ok(bytes)
}

// What comes of a case with so many workers, none of which is sent away.
fn outcome<T: Threads + Sync>(
    threads: &T,
    alloc: Global,
    case: &Case,
    workers: u8,
) -> Option<PictureOutcome> {
    case.encode(threads, alloc, workers, &OpenGate)
}

/// Whether a codestream came, and has these bytes.
pub fn is_stream(outcome: Option<PictureOutcome>, wanted: Result<Octets, Memory>) -> bool {
    match (outcome, wanted) {
        (Some(Ok(bytes)), Ok(wanted)) => bytes.as_slice() == wanted.as_slice(),
        _ => false,
    }
}

// Whether a slice is over its share.
fn is_over(outcome: Option<PictureOutcome>, budget: Budget) -> bool {
    match outcome {
        Some(Err(found)) => found == budget,
        _ => false,
    }
}

#[test]
fn small_pictures_are_encoded(rt: HostRuntime) {
    let alloc = rt.alloc();
    for workers in WORKERS {
        assert!(rt;
            is_stream(outcome(&rt, alloc, &BLACK, workers), black_stream(alloc)),
            "black {workers}"
        );
        assert!(rt;
            is_stream(outcome(&rt, alloc, &GREY, workers), grey_stream(alloc)),
            "grey {workers}"
        );
    }
}

#[test]
fn the_first_slice_over_its_share_is_named(rt: HostRuntime) {
    let alloc = rt.alloc();
    let short = Case { share: 273, ..GREY };
    for workers in WORKERS {
        let found = outcome(&rt, alloc, &short, workers);
        let budget = Budget {
            slice: 0,
            size: 274,
            share: 273,
        };
        assert!(rt; is_over(found, budget), "short {workers}");
        let found = outcome(&rt, alloc, &TIGHT, workers);
        let budget = Budget {
            slice: 0,
            size: 66,
            share: 65,
        };
        assert!(rt; is_over(found, budget), "tight {workers}");
    }
}

// Whether a codestream of this length came, which its header states, and has the bytes of another one; its first precinct has Q 2,
// R 0, no modes, and 32256 bytes of data and 8064 of counts in its first packet.
fn is_long(outcome: Option<PictureOutcome>, other: Option<PictureOutcome>, length: u32) -> bool {
    match (outcome, other) {
        (Some(Ok(bytes)), Some(Ok(others))) => {
            let bytes = bytes.as_slice();
            bytes.len() == length as usize
                && bytes.len() > 78
                && &bytes[10..14] == length.to_be_bytes().as_slice()
                && bytes[69..78] == [2, 0, 0, 0, 0x7e, 0, 0xfc, 0, 0]
                && bytes == others.as_slice()
        }
        _ => false,
    }
}

#[test]
fn stripes_are_encoded(rt: HostRuntime) {
    let alloc = rt.alloc();
    for workers in WORKERS {
        let one = outcome(&rt, alloc, &STRIPES, 1);
        let found = outcome(&rt, alloc, &STRIPES, workers);
        assert!(rt; is_long(found, one, 137492), "{workers}");
    }
}
