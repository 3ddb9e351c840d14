// Rows of what is sent and what arrives: words of `encode`, pictures, the numbers of the packets that arrive, and what `decode` then
// leaves: status, output and notes.
//
// Between pictures of runs of their own stands `&`. Instead of numbers there may stand `all` packets, and all of them `reversed`.
use crate::bytes::{bytes_of, number};
use crate::rows::{Failing, RunOutcome, has_left, run_on};
use std::alloc::Global;
use std::thread::Threads;
use xs_io::{Memory, Octets};

const DECODE: &str = "decode --feeders 3 --workers 4";

// The captures of pictures, one after the other.
fn capture_of<T: Threads + Sync>(
    threads: &T,
    alloc: Global,
    words: &str,
    pictures: &str,
) -> Result<Octets, Memory> {
    let mut capture = Octets::new(alloc);
    for picture in pictures.split('&') {
        let picture = bytes_of(alloc, picture)?;
        let left = run_on(threads, alloc, words, picture, Failing::none(alloc))?;
        capture.extend(left.output.held())?;
    }
    Ok(capture)
}

// Where the frame ends that begins at a place.
fn end_of(capture: &[u8], place: usize) -> usize {
    match (capture.get(place), capture.get(place.saturating_add(1))) {
        (Some(high), Some(low)) => {
            let size = usize::from(*high) * 256 + usize::from(*low) + 2;
            place.saturating_add(size).min(capture.len())
        }
        _ => capture.len(),
    }
}

// Where the frames of a capture begin and end.
fn bounds_of(alloc: Global, capture: &[u8]) -> Result<Vec<(usize, usize)>, Memory> {
    let mut bounds = Vec::new(alloc);
    let mut place = 0;
    for _ in 0..capture.len() {
        if place < capture.len() {
            let end = end_of(capture, place);
            bounds.push((place, end)).map_err(|_| Memory)?;
            place = end;
        }
    }
    Ok(bounds)
}

// Puts the frame of a number behind others.
fn add(
    chosen: &mut Octets,
    capture: &[u8],
    bounds: &[(usize, usize)],
    number: usize,
) -> Result<(), Memory> {
    if let Some((from, to)) = bounds.get(number) {
        for place in *from..*to {
            if let Some(byte) = capture.get(place) {
                chosen.push(*byte)?;
            }
        }
    }
    Ok(())
}

// The frames that a text names, in its order.
fn chosen(alloc: Global, capture: &[u8], text: &str) -> Result<Octets, Memory> {
    let bounds = bounds_of(alloc, capture)?;
    let bounds = bounds.as_slice();
    let mut chosen = Octets::new(alloc);
    for part in text.split(' ') {
        if part == "all" {
            chosen.extend(capture)?;
        } else if part == "reversed" {
            for frame in 0..bounds.len() {
                let last = bounds.len() - 1 - frame;
                add(&mut chosen, capture, bounds, last)?;
            }
        } else if !part.is_empty() {
            add(&mut chosen, capture, bounds, number(part))?;
        }
    }
    Ok(chosen)
}

// What `decode` leaves of packets that a row says.
fn left_of<T: Threads + Sync>(
    threads: &T,
    alloc: Global,
    words: &str,
    pictures: &str,
    frames: &str,
) -> Result<RunOutcome, Memory> {
    let capture = capture_of(threads, alloc, words, pictures)?;
    let arriving = chosen(alloc, capture.as_slice(), frames)?;
    run_on(threads, alloc, DECODE, arriving, Failing::none(alloc))
}

fn is_left<T: Threads + Sync>(
    threads: &T,
    alloc: Global,
    first: &str,
    row: &str,
) -> Result<bool, Memory> {
    let mut parts = row.split('|');
    let words = format!(in alloc; "{first} {}", parts.next().unwrap_or("")).map_err(|_| Memory)?;
    let pictures = parts.next().unwrap_or("");
    let frames = parts.next().unwrap_or("");
    let left = left_of(threads, alloc, words.as_str(), pictures, frames)?;
    let status = parts.next().unwrap_or("");
    let output = parts.next().unwrap_or("");
    let notes = parts.next().unwrap_or("");
    has_left(alloc, &left, status, output, notes)
}

/// Whether these packets of these pictures are answered as the row says.
pub fn arrives<T: Threads + Sync>(threads: &T, alloc: Global, first: &str, row: &str) -> bool {
    match is_left(threads, alloc, first, row) {
        Ok(held) => held,
        Err(Memory) => false,
    }
}

fn is_one_left<T: Threads + Sync>(
    threads: &T,
    alloc: Global,
    first: &str,
    row: &str,
) -> Result<bool, Memory> {
    let mut parts = row.split('|');
    let words = format!(in alloc; "{first} {}", parts.next().unwrap_or("")).map_err(|_| Memory)?;
    let pictures = parts.next().unwrap_or("");
    let frames = parts.next().unwrap_or("");
    let left = left_of(threads, alloc, words.as_str(), pictures, frames)?;
    let one = has_left(alloc, &left, "0", parts.next().unwrap_or(""), "")?;
    Ok(one || has_left(alloc, &left, "0", parts.next().unwrap_or(""), "")?)
}

/// Whether these packets of these pictures become one of the two pictures of the row.
pub fn is_one_of<T: Threads + Sync>(threads: &T, alloc: Global, first: &str, row: &str) -> bool {
    match is_one_left(threads, alloc, first, row) {
        Ok(held) => held,
        Err(Memory) => false,
    }
}
