// Bytes that are spelled in a text.
//
// Between blanks: `128*0` is so many bytes of this value; `xff11` are bytes in hexadecimal; `4:A:B:C` are so many precincts of
// the plain picture, with the bytes A as their header and that of their packet, B behind the counts and C behind the data; a
// word is what `push_named` says. `13=1` sets the byte at a place, `6+abcd` puts bytes in before it, `<20` keeps the bytes before
// a place, and `^3` makes what stands before stand three times.
//
// A number is the frame of that number of the grey capture, which is the deep picture in packets of 64 bytes, and `2.1` is frame
// 2 of the same as picture 1.
use std::alloc::Global;
use xs_io::{Memory, Octets};

// The header and the slice header of a black picture of 32 by 4 samples, whose length is that of the plain one; the header of a
// precinct of the plain one, where no mode is set, with that of its packet, the counts and the data.
const HEADER: &str =
    "ff10 ff500002 ff12001a 000000e8 00000000 00200004 00000004 01040814 84001000 ff1300040811 \
    ff14000600000001 ff2000040000";

const HEAD: &str = "0000260000 00 001a003800";

const COUNTS: &str = "fff7ffbffdffe0";

const DATA: &str = "ff00000000000ff00000000000 ff00000000000ff00000000000";

// The precincts of the black picture, but for the data; and one with raw counts.
const BLACK_FIRST: &str = "0000270000 20 001a003800 80 fff7ffbffdffe0";

const BLACK_NEXT: &str = "0000200000 e0 001a000000 c0";

const RAW_HEAD: &str = "0000230000 00 801a002000 cccc0000";

// The same of 33 columns and two precincts a slice: five groups and four, of which the fifth has three places past the width.
const WIDE_HEADER: &str =
    "ff10 ff500002 ff12001a 00000104 00000000 00210004 00000002 01040814 84001000 ff1300040811 \
    ff14000600000001";

const WIDE_FIRST: &str = "0000300000 20 0021004800 80 fff7ffbffdffefff00";

const WIDE_NEXT: &str = "0000270000 e0 0021000000 c0";

const WIDE_DATA: &str = "ff00000000000ff00000000000 ff00000000000ff00000000000 88000000000000";

// A grey picture of 32 by 17 samples at two levels across and two down: its header; the header of a precinct of ten packets
// and that of the last precinct, of three; a packet, whose flags are set.
const DEEP_HEADER: &str =
    "ff10 ff500002 ff12001a 0000016d 00000000 00200011 00000004 01040814 84002210 ff1300040811 \
    ff14001002000101010201030004000500 06";

const DEEP_PRECINCT: &str = "00003c0000aaa8";

const DEEP_LAST: &str = "0000120000a080";

const DEEP_PACKET: &str = "000000000080";

// Where the pieces of the deep picture begin, and what the headers of their payloads are.
const PIECES: [usize; 8] = [0, 58, 122, 186, 250, 314, 332, 365];

const PAYLOADS: [u32; 7] = [
    0xe03ff800, 0xc0000000, 0xc0000001, 0xc0000002, 0xc0000003, 0xe0000004, 0xe0000800,
];

// The grey capture as a pcap file: its header, and of each record the captured length, the total length, the checksum and the length
// of UDP.
const FILE: &str = "d4c3b2a1 0200 0400 00000000 00000000 ffff0000 01000000";

const RECORDS: [[&str; 4]; 7] = [
    ["74000000", "0066", "b683", "0052"],
    ["7a000000", "006c", "b67d", "0058"],
    ["7a000000", "006c", "b67d", "0058"],
    ["7a000000", "006c", "b67d", "0058"],
    ["7a000000", "006c", "b67d", "0058"],
    ["4c000000", "003e", "b6ab", "002a"],
    ["5b000000", "004d", "b69c", "0039"],
];

/// The number that a text spells, and 0 where it spells none.
pub fn number(text: &str) -> usize {
    text.trim().parse::<usize>().unwrap_or(0)
}

fn byte(text: &str) -> u8 {
    text.trim().parse::<u8>().unwrap_or(0)
}

fn push_hex(bytes: &mut Vec<u8>, text: &str) -> Result<(), Memory> {
    let mut high = None;
    for digit in text.chars() {
        if let Some(low) = digit.to_digit(16) {
            high = match high {
                None => Some(low),
                Some(high) => {
                    bytes
                        .push((high % 16 * 16 + low % 16) as u8)
                        .map_err(|_| Memory)?;
                    None
                }
            };
        }
    }
    Ok(())
}

fn push_precinct(bytes: &mut Vec<u8>, parts: &str) -> Result<(), Memory> {
    let (head, more) = parts.split_once(':').unwrap_or((HEAD, ""));
    let (after_counts, after_data) = more.split_once(':').unwrap_or(("", ""));
    push_hex(bytes, if head.is_empty() { HEAD } else { head })?;
    push_hex(bytes, COUNTS)?;
    push_hex(bytes, after_counts)?;
    push_hex(bytes, DATA)?;
    push_hex(bytes, after_data)
}

fn push_precincts(bytes: &mut Vec<u8>, count: usize, parts: &str) -> Result<(), Memory> {
    for _ in 0..count {
        push_precinct(bytes, parts)?;
    }
    Ok(())
}

fn push_hex_times(bytes: &mut Vec<u8>, count: usize, text: &str) -> Result<(), Memory> {
    for _ in 0..count {
        push_hex(bytes, text)?;
    }
    Ok(())
}

fn push_slice(bytes: &mut Vec<u8>, head: &str, first: &str, next: &str) -> Result<(), Memory> {
    push_hex(bytes, head)?;
    push_hex(bytes, first)?;
    push_hex(bytes, WIDE_DATA)?;
    push_hex(bytes, next)?;
    push_hex(bytes, WIDE_DATA)
}

fn push_wide(bytes: &mut Vec<u8>) -> Result<(), Memory> {
    push_hex(bytes, WIDE_HEADER)?;
    push_slice(bytes, "ff2000040000", WIDE_FIRST, WIDE_NEXT)?;
    push_slice(bytes, "ff2000040001", WIDE_FIRST, WIDE_NEXT)?;
    push_hex(bytes, "ff11")
}

fn push_deep(bytes: &mut Vec<u8>) -> Result<(), Memory> {
    push_hex(bytes, DEEP_HEADER)?;
    push_hex(bytes, "ff2000040000")?;
    for _ in 0..4 {
        push_hex(bytes, DEEP_PRECINCT)?;
        push_hex_times(bytes, 10, DEEP_PACKET)?;
    }
    push_hex(bytes, "ff2000040001")?;
    push_hex(bytes, DEEP_LAST)?;
    push_hex_times(bytes, 3, DEEP_PACKET)?;
    push_hex(bytes, "ff11")
}

// The black picture, whose length is stated in byte 13 of the header.
fn push_black(bytes: &mut Vec<u8>) -> Result<(), Memory> {
    let start = bytes.len();
    push_hex(bytes, HEADER)?;
    set(bytes, start.saturating_add(13), 215);
    push_hex(bytes, BLACK_FIRST)?;
    push_hex(bytes, DATA)?;
    for _ in 0..3 {
        push_hex(bytes, BLACK_NEXT)?;
        push_hex(bytes, DATA)?;
    }
    push_hex(bytes, "ff11")
}

// The same with raw counts.
fn push_raw(bytes: &mut Vec<u8>) -> Result<(), Memory> {
    let start = bytes.len();
    push_hex(bytes, HEADER)?;
    set(bytes, start.saturating_add(13), 220);
    for _ in 0..4 {
        push_hex(bytes, RAW_HEAD)?;
        push_hex(bytes, DATA)?;
    }
    push_hex(bytes, "ff11")
}

fn push_numbers(bytes: &mut Vec<u8>, numbers: &[u8]) -> Result<(), Memory> {
    bytes.extend_from_slice(numbers).map_err(|_| Memory)
}

// The headers of a packet: that of RTP, and that of the payload.
fn push_heads(bytes: &mut Vec<u8>, frame: usize, picture: u32) -> Result<(), Memory> {
    let frame = frame % 7;
    let sequence = (picture % 256 * 7 + frame as u32) as u16;
    let time = picture % 65536 * 1500;
    let payload = PAYLOADS[frame].wrapping_add(picture % 32 * 4194304);
    push_numbers(bytes, &[0x80, if frame == 6 { 0xe0 } else { 0x60 }])?;
    push_numbers(bytes, &sequence.to_be_bytes())?;
    push_numbers(bytes, &time.to_be_bytes())?;
    push_numbers(bytes, &[0, 0, 0, 1])?;
    push_numbers(bytes, &payload.to_be_bytes())
}

// A packet of the grey capture, of a picture.
fn push_packet(bytes: &mut Vec<u8>, deep: &[u8], frame: usize, picture: u32) -> Result<(), Memory> {
    let frame = frame % 7;
    push_heads(bytes, frame, picture)?;
    for place in PIECES[frame]..PIECES[frame + 1] {
        if place < deep.len() {
            bytes.push(deep[place]).map_err(|_| Memory)?;
        }
    }
    Ok(())
}

// A packet after its length.
fn push_frame(bytes: &mut Vec<u8>, deep: &[u8], frame: usize, picture: u32) -> Result<(), Memory> {
    let frame = frame % 7;
    let size = PIECES[frame + 1].saturating_sub(PIECES[frame]);
    push_numbers(bytes, &((size % 65000 + 16) as u16).to_be_bytes())?;
    push_packet(bytes, deep, frame, picture)
}

// A pcap file of the first picture's packets, whose port is 5004.
fn push_file(alloc: Global, bytes: &mut Vec<u8>) -> Result<(), Memory> {
    let mut deep = Vec::new(alloc);
    push_deep(&mut deep)?;
    push_hex(bytes, FILE)?;
    for frame in 0..7 {
        let [captured, total, checksum, length] = RECORDS[frame % 7];
        push_hex(bytes, "00000000 00000000")?;
        push_hex(bytes, captured)?;
        push_hex(bytes, captured)?;
        push_hex(bytes, "020000000002 020000000001 0800 4500")?;
        push_hex(bytes, total)?;
        push_hex(bytes, "0000 4000 4011")?;
        push_hex(bytes, checksum)?;
        push_hex(bytes, "c0000201 c0000202 138c 138c")?;
        push_hex(bytes, length)?;
        push_hex(bytes, "0000")?;
        push_packet(bytes, deep.as_slice(), frame, 0)?;
    }
    Ok(())
}

// The frames from one to below another, of pictures from one to below another.
fn push_frames(
    alloc: Global,
    bytes: &mut Vec<u8>,
    frames: (usize, usize),
    pictures: (u32, u32),
) -> Result<(), Memory> {
    let mut deep = Vec::new(alloc);
    push_deep(&mut deep)?;
    for picture in pictures.0..pictures.1 {
        for frame in frames.0..frames.1 {
            push_frame(bytes, deep.as_slice(), frame, picture)?;
        }
    }
    Ok(())
}

// What a word names: the header of the plain picture; the codestream of the black picture, of the plain one, of the same with
// raw counts, of the wide one or the deep one; the grey capture; or the first frames of so many pictures.
fn push_named(alloc: Global, bytes: &mut Vec<u8>, word: &str, picture: u32) -> Result<(), Memory> {
    match word {
        "header" => push_hex(bytes, HEADER),
        "black" => push_black(bytes),
        "plain" => {
            push_hex(bytes, HEADER)?;
            push_precincts(bytes, 4, "::")?;
            push_hex(bytes, "ff11")
        }
        "raw" => push_raw(bytes),
        "wide" => push_wide(bytes),
        "deep" => push_deep(bytes),
        "file" => push_file(alloc, bytes),
        "grey" => push_frames(alloc, bytes, (0, 7), (picture, picture.saturating_add(1))),
        "crowd" => push_frames(alloc, bytes, (0, 1), (0, picture)),
        _ => Ok(()),
    }
}

fn set(bytes: &mut Vec<u8>, place: usize, value: u8) {
    if place < bytes.len() {
        bytes[place] = value;
    }
}

// Puts bytes in before a place.
fn insert(alloc: Global, bytes: &mut Vec<u8>, place: usize, digits: &str) -> Result<(), Memory> {
    let mut rest = Vec::new(alloc);
    for at in place..bytes.len() {
        rest.push(bytes[at]).map_err(|_| Memory)?;
    }
    bytes.truncate(place);
    push_hex(bytes, digits)?;
    push_numbers(bytes, rest.as_slice())
}

// Makes the bytes stand so often.
fn repeat(alloc: Global, bytes: &mut Vec<u8>, times: usize) -> Result<(), Memory> {
    let mut once = Vec::new(alloc);
    push_numbers(&mut once, bytes.as_slice())?;
    for _ in 1..times {
        push_numbers(bytes, once.as_slice())?;
    }
    Ok(())
}

// A word or the number of a frame, and behind a point the number of a picture.
fn push_word(alloc: Global, bytes: &mut Vec<u8>, part: &str) -> Result<(), Memory> {
    let (word, picture) = part.split_once('.').unwrap_or((part, "0"));
    let picture = picture.parse::<u32>().unwrap_or(0);
    match word.parse::<usize>() {
        Ok(frame) => {
            let end = frame.saturating_add(1);
            push_frames(
                alloc,
                bytes,
                (frame, end),
                (picture, picture.saturating_add(1)),
            )
        }
        Err(_) => push_named(alloc, bytes, word, picture),
    }
}

// Puts the bytes of a part behind the others, or changes those, where it names a place.
fn push_part(alloc: Global, bytes: &mut Vec<u8>, part: &str) -> Result<(), Memory> {
    if let Some(digits) = part.strip_prefix('x') {
        return push_hex(bytes, digits);
    }
    if let Some(place) = part.strip_prefix('<') {
        bytes.truncate(number(place));
        return Ok(());
    }
    if let Some(times) = part.strip_prefix('^') {
        return repeat(alloc, bytes, number(times));
    }
    if let Some((count, value)) = part.split_once('*') {
        let size = bytes.len().saturating_add(number(count));
        return bytes.resize(size, byte(value)).map_err(|_| Memory);
    }
    if let Some((place, digits)) = part.split_once('+') {
        return insert(alloc, bytes, number(place), digits);
    }
    if let Some((place, value)) = part.split_once('=') {
        set(bytes, number(place), byte(value));
        return Ok(());
    }
    match part.split_once(':') {
        Some((count, parts)) => push_precincts(bytes, number(count), parts),
        None => push_word(alloc, bytes, part),
    }
}

/// The bytes that a text spells.
pub fn bytes_of(alloc: Global, text: &str) -> Result<Octets, Memory> {
    let mut bytes = Vec::new(alloc);
    for part in text.split(' ') {
        push_part(alloc, &mut bytes, part)?;
    }
    Ok(Octets::from(bytes))
}
