// Pictures that threads receive: whole, or named by what is missing or damaged.
use crate::captures::{raw_of, sent, sent_by_two};
use crate::gates::CountingGate;
use std::alloc::Global;
use std::thread::Threads;
use xs_capture::sort_pictures;
use xs_faults::{HeadFault, SliceFault};
use xs_io::{Gate, Memory, Octets, OpenGate, StopGate, TurnstileGate};
use xs_params::Planes;
use xs_recv::{Damage, Received, receive_picture};
use xs_samples::write_picture;

// So many feeders, and so many workers.
const CREWS: [(u32, u32); 3] = [(3, 4), (1, 1), (8, 16)];

const SHARE: u32 = 1000;

/// What is received of the first picture of a capture.
pub fn receive<T: Threads + Sync, G: Gate>(
    threads: &T,
    alloc: Global,
    capture: &[u8],
    crew: (u32, u32),
    gate: &G,
) -> Option<Received> {
    let (feeders, workers) = crew;
    if capture.len() > 1 << 24 || feeders == 0 || feeders > 8 {
        return None;
    }
    let Ok(mut sorted) = sort_pictures(alloc, capture) else {
        return None;
    };
    if sorted.count() == 0 {
        return None;
    }
    let Ok(parts) = sorted.parts(0, feeders) else {
        return None;
    };
    let Ok(reception) = receive_picture(threads, alloc, parts, workers, gate) else {
        return None;
    };
    Some(reception.received)
}

/// Whether these are the samples of a picture.
pub fn has_samples(alloc: Global, picture: &Planes, samples: &[u8]) -> bool {
    match write_picture(alloc, picture) {
        Ok(raw) => raw.as_slice() == samples,
        Err(Memory) => false,
    }
}

// Whether a picture with these samples is received.
fn gives<T: Threads + Sync, G: Gate>(
    threads: &T,
    alloc: Global,
    capture: &[u8],
    crew: (u32, u32),
    gate: &G,
    samples: &[u8],
) -> bool {
    match receive(threads, alloc, capture, crew, gate) {
        Some(Received::Picture(picture)) => has_samples(alloc, &picture, samples),
        _ => false,
    }
}

// Whether the picture whose last row has this sample is received of its packets with these numbers.
fn arrives<T: Threads + Sync>(
    threads: &T,
    alloc: Global,
    last: u8,
    numbers: &[u32],
    crew: (u32, u32),
) -> bool {
    let (Some(capture), Ok(raw)) = (sent(alloc, last, SHARE, numbers), raw_of(alloc, last)) else {
        return false;
    };
    gives(
        threads,
        alloc,
        capture.as_slice(),
        crew,
        &OpenGate,
        raw.as_slice(),
    )
}

const ALL: [u32; 7] = [0, 1, 2, 3, 4, 5, 6];

const REVERSED_TWICE: [u32; 14] = [6, 6, 5, 5, 4, 4, 3, 3, 2, 2, 1, 1, 0, 0];

const HEADER_LAST: [u32; 7] = [1, 2, 3, 4, 5, 6, 0];

const NO_HEADER: [u32; 12] = [6, 6, 5, 5, 4, 4, 3, 3, 2, 2, 1, 1];

#[test]
fn packets_arrive_in_any_order(rt: HostRuntime) {
    for crew in CREWS {
        assert!(rt; arrives(&rt, rt.alloc(), 136, &ALL, crew), "{crew:?}");
        assert!(rt;
            arrives(&rt, rt.alloc(), 136, &REVERSED_TWICE, crew),
            "{crew:?}"
        );
        assert!(rt;
            arrives(&rt, rt.alloc(), 136, &HEADER_LAST, crew),
            "{crew:?}"
        );
    }
}

// Whether it is received that the header, or else these slices are missing, of the picture of 128 alone and its packets with these
// numbers.
fn lacks<T: Threads + Sync>(
    threads: &T,
    alloc: Global,
    numbers: &[u32],
    crew: (u32, u32),
    lacking: (bool, &[u32]),
) -> bool {
    let Some(capture) = sent(alloc, 128, 274, numbers) else {
        return false;
    };
    match receive(threads, alloc, capture.as_slice(), crew, &OpenGate) {
        Some(Received::Missing { header, slices }) => (header, slices.as_slice()) == lacking,
        _ => false,
    }
}

#[test]
fn what_is_missing_is_named(rt: HostRuntime) {
    for crew in CREWS {
        assert!(rt;
            lacks(&rt, rt.alloc(), &[0, 2, 3, 4, 5], crew, (false, &[0, 1])),
            "{crew:?}"
        );
        assert!(rt;
            lacks(&rt, rt.alloc(), &[0, 2, 3, 4, 5, 6], crew, (false, &[0])),
            "{crew:?}"
        );
        assert!(rt;
            lacks(&rt, rt.alloc(), &[5, 4, 3, 2, 1, 0], crew, (false, &[1])),
            "{crew:?}"
        );
        assert!(rt;
            lacks(&rt, rt.alloc(), &[0], crew, (false, &[0, 1])),
            "{crew:?}"
        );
        assert!(rt;
            lacks(&rt, rt.alloc(), &NO_HEADER, crew, (true, &[])),
            "{crew:?}"
        );
    }
}

// The packets of one picture with the one packet of slice 1 of another.
fn rivals(alloc: Global) -> Option<Octets> {
    sent_by_two(alloc, [(136, &ALL), (120, &[6])])
}

// The samples of the picture that has slice 1 of the other one.
fn mixed(alloc: Global) -> Result<Octets, Memory> {
    let mut raw = Octets::from_slice(alloc, &[128; 416])?;
    raw.extend(&[126; 32])?;
    raw.extend(&[124; 32])?;
    raw.extend(&[122; 32])?;
    raw.extend(&[128; 32])?;
    Ok(raw)
}

// Whether one of two packets at the same place is taken.
fn takes_one<T: Threads + Sync>(threads: &T, alloc: Global, crew: (u32, u32)) -> bool {
    let (Some(capture), Ok(one), Ok(other)) = (rivals(alloc), raw_of(alloc, 136), mixed(alloc))
    else {
        return false;
    };
    match receive(threads, alloc, capture.as_slice(), crew, &OpenGate) {
        Some(Received::Picture(picture)) => {
            has_samples(alloc, &picture, one.as_slice())
                || has_samples(alloc, &picture, other.as_slice())
        }
        _ => false,
    }
}

#[test]
fn rivals_do_not_mix(rt: HostRuntime) {
    for crew in CREWS {
        assert!(rt; takes_one(&rt, rt.alloc(), crew), "{crew:?}");
    }
}

// Whether the picture of 128 alone is received of its packets, which one feeder files.
fn comes<T: Threads + Sync, G: Gate>(threads: &T, alloc: Global, workers: u32, gate: &G) -> bool {
    let (Some(capture), Ok(raw)) = (sent(alloc, 128, 274, &ALL), raw_of(alloc, 128)) else {
        return false;
    };
    gives(
        threads,
        alloc,
        capture.as_slice(),
        (1, workers),
        gate,
        raw.as_slice(),
    )
}

#[test]
fn two_workers_meet(rt: HostRuntime) {
    let gate = TurnstileGate::new(2);
    assert!(rt; comes(&rt, rt.alloc(), 2, &gate));
    assert!(rt;
        gate.met() == 2,
        "each of them got a slice, at the same time"
    );
}

#[test]
fn gates_change_no_answer(rt: HostRuntime) {
    for workers in [1, 2, 4, 16] {
        assert!(rt; comes(&rt, rt.alloc(), workers, &OpenGate), "{workers}");
        assert!(rt; comes(&rt, rt.alloc(), workers, &StopGate), "{workers}");
        let gate = CountingGate::new(false);
        assert!(rt; comes(&rt, rt.alloc(), workers, &gate), "{workers}");
        assert!(rt; gate.calls() == workers, "each worker is asked once");
    }
}

// How often two workers ask a gate that sends nobody away, where the header alone came.
fn asks_without_slices<T: Threads + Sync>(threads: &T, alloc: Global) -> Option<u32> {
    let capture = sent(alloc, 128, 274, &[0])?;
    let gate = CountingGate::new(true);
    drop(receive(threads, alloc, capture.as_slice(), (1, 2), &gate)?);
    Some(gate.calls())
}

#[test]
fn idle_workers_end(rt: HostRuntime) {
    assert!(rt;
        asks_without_slices(&rt, rt.alloc()) == Some(2 * 4096),
        "each after 4096 scans"
    );
}

// A capture of all packets of the picture of 128 alone, of which one byte is changed.
fn spoilt(alloc: Global, place: usize, byte: u8) -> Option<Octets> {
    let sent = sent(alloc, 128, 274, &ALL)?;
    let bytes = sent.as_slice();
    if place >= bytes.len() {
        return None;
    }
    let mut capture = Octets::from_slice(alloc, &bytes[..place]).ok()?;
    capture.push(byte).ok()?;
    capture.extend(&bytes[place + 1..]).ok()?;
    Some(capture)
}

// What is wrong with what is received of that.
fn damage_of<T: Threads + Sync>(
    threads: &T,
    alloc: Global,
    crew: (u32, u32),
    place: usize,
    byte: u8,
) -> Option<Damage> {
    let capture = spoilt(alloc, place, byte)?;
    match receive(threads, alloc, capture.as_slice(), crew, &OpenGate) {
        Some(Received::Damaged(damage)) => Some(damage),
        _ => None,
    }
}

// What the header unit lacks, the head of slice 0, the end of slice 1, and the length that the header states.
const DAMAGES: [(usize, u8, Damage); 4] = [
    (18, 0, Damage::Head(HeadFault::Truncated { place: 58 })),
    (
        97,
        1,
        Damage::Slice {
            slice: 0,
            fault: SliceFault::Head,
        },
    ),
    (
        490,
        16,
        Damage::Slice {
            slice: 1,
            fault: SliceFault::End,
        },
    ),
    (
        30,
        2,
        Damage::Lcod {
            stated: 621,
            length: 365,
        },
    ),
];

#[test]
fn damage_is_named(rt: HostRuntime) {
    for crew in CREWS {
        for (place, byte, damage) in DAMAGES {
            assert!(rt;
                damage_of(&rt, rt.alloc(), crew, place, byte) == Some(damage),
                "{crew:?} {place}"
            );
        }
    }
}
