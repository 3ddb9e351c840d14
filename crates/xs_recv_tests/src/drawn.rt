// Captures of packets that are drawn by a generator, received by one crew after the other.
use crate::captures::{raw_of, sent};
use crate::gates::Patience;
use crate::received::{has_samples, receive};
use std::alloc::Global;
use std::thread::Threads;
use xs_io::{Memory, Numbers};
use xs_recv::Received;

const WORKERS: [u32; 4] = [1, 2, 4, 16];

// So many packets are drawn of seven, in any order and as often as they come.
fn drawn(alloc: Global, seed: u32, count: u32) -> Result<Numbers, Memory> {
    let mut state = seed;
    let mut numbers = Numbers::new(alloc);
    for _ in 0..count {
        state = state.wrapping_mul(1664525).wrapping_add(1013904223);
        numbers.extend(&[state / 65536 % 7])?;
    }
    Ok(numbers)
}

// Whether each packet of these numbers was drawn.
fn are_drawn(numbers: &[u32], wanted: &[u32]) -> bool {
    for number in wanted {
        if !numbers.contains(number) {
            return false;
        }
    }
    true
}

// Whether this is received where these packets arrive: packet 0 has the header, packets 1 to 5 have slice 0, and packet 6 slice 1.
fn is_right(alloc: Global, received: &Received, numbers: &[u32]) -> Result<bool, Memory> {
    let header = are_drawn(numbers, &[0]);
    let first = are_drawn(numbers, &[1, 2, 3, 4, 5]);
    let second = are_drawn(numbers, &[6]);
    Ok(match received {
        Received::Picture(picture) => {
            header && first && second && has_samples(alloc, picture, raw_of(alloc, 136)?.as_slice())
        }
        Received::Missing {
            header: true,
            slices,
        } => !header && slices.len() == 0,
        Received::Missing {
            header: false,
            slices,
        } => match (first, second) {
            (false, false) => header && slices.as_slice() == [0, 1].as_slice(),
            (false, true) => header && slices.as_slice() == [0].as_slice(),
            (true, false) => header && slices.as_slice() == [1].as_slice(),
            (true, true) => false,
        },
        Received::Damaged(_) => false,
    })
}

// Whether the packets that a seed draws are received as they should by a crew.
fn arrive<T: Threads + Sync>(
    threads: &T,
    alloc: Global,
    seed: u32,
    crew: (u32, u32),
) -> Result<bool, Memory> {
    let numbers = drawn(alloc, seed, 1 + seed % 40)?;
    let Some(capture) = sent(alloc, 136, 1000, numbers.as_slice()) else {
        return Err(Memory);
    };
    let gate = Patience {
        turns: seed % 5,
        slices: seed % 3,
    };
    match receive(threads, alloc, capture.as_slice(), crew, &gate) {
        Some(received) => is_right(alloc, &received, numbers.as_slice()),
        None => Err(Memory),
    }
}

#[test]
fn drawn_packets_arrive(rt: HostRuntime) {
    for seed in 0..96 {
        let workers = WORKERS[seed as usize % 4];
        let crew = (1 + seed / 4 % 8, workers);
        assert!(rt; arrive(&rt, rt.alloc(), seed, crew) == Ok(true), "{seed}");
    }
}
