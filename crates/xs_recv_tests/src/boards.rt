// The board, and two passes of it.
ghost use Rattle.std.specs.Prelude.{◌≡◌, ◌<◌, ◌≤◌};
ghost use Rattle.xs_lanes.specs.Knowing.{SameShare};
ghost use Rattle.xs_board.specs.Passes.{IsBoardPass, actor, unit_count};

use bytes::Bytes;
use std::alloc::Global;
use std::test::Fail;
use xs_board::{Board, BoardPass, Claimed, HeadRead, Reading, SliceClaim};
use xs_capture::Packet;
use xs_faults::HeadFault;
use xs_io::Memory;
use xs_lanes::Put;

// The header of a grey picture of 32 by 17 samples in two slices, whose codestream has 365 bytes.
const HEADER: [u8; 58] = [
    0xff, 0x10, 0xff, 0x50, 0, 2, 0xff, 0x12, 0, 26, 0, 0, 1, 0x6d, 0, 0, 0, 0, 0, 32, 0, 17, 0, 0,
    0, 4, 1, 4, 8, 0x14, 0x84, 0, 0x22, 0x10, 0xff, 0x13, 0, 4, 8, 0x11, 0xff, 0x14, 0, 16, 2, 0,
    1, 1, 1, 2, 1, 3, 0, 4, 0, 5, 0, 6,
];

// A packet of a unit at a place.
fn packet(unit: u32, place: u32, last: bool, bytes: &'static [u8]) -> Packet
    requires unit { unit ≤ 2047 }
    requires place { place < 512 }
    ensures { result.unit ≡ unit }
{
    Packet::new(0, unit, place, last, Bytes::from_static(bytes))
}

// Whether this is what is read of the header, or else of a part of it.
fn is_read(read: &HeadRead, size: usize) -> bool {
    if read.bytes.len() != size {
        return false;
    }
    match &read.reading {
        Reading::Good { header, length } => *length == 58 && header.lcod == 365,
        Reading::Bad(fault) => *fault == HeadFault::Truncated { place: 2 },
    }
}

// Whether a pass claims the header unit, of so many bytes.
fn gets_header(board: &Board, alloc: Global, pass: &mut BoardPass, size: usize) -> bool
    requires { IsBoardPass board.now pass.old }
    ensures pass { IsBoardPass board.now pass.new }
    ensures share { SameShare (actor pass.old) (actor pass.new) }
{
    match board.claim_header(alloc, pass) {
        Ok(Claimed::Got(read)) => is_read(&read, size),
        _ => false,
    }
}

// Whether a pass is shown the header, of so many bytes.
fn is_shown(board: &Board, pass: &mut BoardPass, size: usize) -> bool
    requires { IsBoardPass board.now pass.old }
    ensures pass { IsBoardPass board.now pass.new }
    ensures same { actor pass.new ≡ actor pass.old }
{
    match board.header(pass) {
        Some(read) => is_read(read, size),
        None => false,
    }
}

// A header unit is filed, and a pass claims it. Whether the pass that was split off before is shown the header before that, whether
// the first one claims it, whether the other one is shown it then, and whether it can claim it too.
fn shown_before_and_after(alloc: Global, unit: &'static [u8]) -> Result<[bool; 4], Memory> {
    let (board, mut pass) = Board::new(alloc, 1)?;
    let mut other = board.split(&mut pass);
    drop(board.file(&mut other, packet(0, 0, true, unit)));
    let before = is_shown(&board, &mut other, unit.len());
    let got = gets_header(&board, alloc, &mut pass, unit.len());
    let after = is_shown(&board, &mut other, unit.len());
    let again = gets_header(&board, alloc, &mut other, unit.len());
    board.join(&mut pass, other);
    drop(board.close(pass));
    Ok([before, got, after, again])
}

#[test]
fn a_header_is_shown_to_passes_that_were_split_before(rt: HostRuntime) -> Result<(), Fail> {
    assert!(rt; shown_before_and_after(rt.alloc(), &HEADER)? == [false, true, true, false]);
    assert!(rt; shown_before_and_after(rt.alloc(), &[0xff, 0x10])? == [false, true, true, false]);
    Ok(())
}

// What became of a packet that a pass files: 0 where it is stored, 1 where its unit is whole by it, and 2 where it comes back.
fn filed(board: &Board, pass: &mut BoardPass, packet: Packet) -> u8
    requires { IsBoardPass board.now pass.old × (packet.unit < unit_count board.now) }
    ensures pass { IsBoardPass board.now pass.new }
    ensures share { SameShare (actor pass.old) (actor pass.new) }
{
    match board.file(pass, packet) {
        Put::Stored => 0,
        Put::Made => 1,
        Put::Repeat(_) => 2,
    }
}

// What became of the claim of slice 0: 0 where it is not whole, 1 where it has these bytes, and 2 where it is gone.
fn claimed(board: &Board, alloc: Global, pass: &mut BoardPass, bytes: &[u8]) -> Result<u8, Memory>
    requires { IsBoardPass board.now pass.old × (1 < unit_count board.now) }
    ensures pass { IsBoardPass board.now pass.new }
    ensures share { SameShare (actor pass.old) (actor pass.new) }
{
    match board.claim_slice(alloc, pass, 0)? {
        SliceClaim::NotWhole(_) => Ok(0),
        SliceClaim::Got(got) => Ok(if got.as_slice() == bytes { 1 } else { 3 }),
        SliceClaim::Gone => Ok(2),
    }
}

// Two passes file the packets of slice 0 on a board for two slices, and claim it. What became of the packets, of the claims, and
// whether the slices of which no packet came are missing, one of them past the board.
fn filed_and_claimed(alloc: Global) -> Result<([u8; 3], [u8; 3], bool), Memory> {
    let (board, mut pass) = Board::new(alloc, 3)?;
    let mut other = board.split(&mut pass);
    let closing = filed(&board, &mut pass, packet(1, 1, true, b"cd"));
    let early = claimed(&board, alloc, &mut other, b"abcd")?;
    let first = filed(&board, &mut other, packet(1, 0, false, b"ab"));
    let twice = filed(&board, &mut pass, packet(1, 0, false, b"xy"));
    let got = claimed(&board, alloc, &mut pass, b"abcd")?;
    let gone = claimed(&board, alloc, &mut other, b"abcd")?;
    board.join(&mut pass, other);
    let missing = board.close(pass).missing(alloc, 3)?;
    Ok((
        [closing, first, twice],
        [early, got, gone],
        missing.as_slice() == [1, 2].as_slice(),
    ))
}

#[test]
fn a_unit_is_claimed_once_it_is_whole(rt: HostRuntime) -> Result<(), Fail> {
    assert!(rt; filed_and_claimed(rt.alloc())? == ([0, 1, 2], [0, 1, 2], true));
    Ok(())
}
