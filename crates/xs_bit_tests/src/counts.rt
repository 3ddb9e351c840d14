// The bit-plane counts of a line, written and read.
ghost use Rattle.std.specs.Prelude.{◌≡◌, ◌≤◌, length, IfOk};

use std::alloc::Global;
use std::test::Fail;
use xs_bits::{BitReader, BitWriter, Counts};
use xs_counts::{
    CountFault, Flags, Predictor, count_for, mode_bits, ones_for, read_counts, read_flags,
    read_raw, write_counts, write_flags,
};
use xs_io::Memory;

// Ten code groups at truncation 2, below a line that was coded with truncation 3. Predicted from above they are 3, 4, 5, 5,
// 3, 7, 3, 3, 9, 3 and differ from that by 0, 0, 1, -3, 0, 0, 2 (more than 3 - 2, so it is three ones), 0 and, in the
// second significance group, 0, 0.
const LINE: [u8; 10] = [3, 4, 6, 2, 3, 7, 5, 3, 9, 3];

const ABOVE: [u8; 10] = [0, 4, 5, 5, 2, 7, 3, 3, 9, 2];

// Each mode: 1, 2, 4, 0, 1, 5, 3, 1, 7, 1 ones; 0, 0, 2, 5, 0, 0, 3, 0, 0, 0 ones; two clear flags and the first; a clear and
// a set flag and the second without its last two.
const MODES: [[u8; 5]; 4] = [
    [0xb7, 0x97, 0xdd, 0x7f, 0x40],
    [0x37, 0xc7, 0x00, 0x00, 0x00],
    [0x2d, 0xe5, 0xf7, 0x5f, 0xd0],
    [0x4d, 0xf1, 0xc0, 0x00, 0x00],
];

// Whether the flags and counts of the line in this mode are the first bytes of these, and so many bits.
fn is_written(alloc: Global, mode: u8, bytes: &[u8; 5], bits: u64) -> Result<bool, Memory>
    requires { mode ≤ 3 }
{
    let line = Counts::from_slice(alloc, &LINE)?;
    let above = Counts::from_slice(alloc, &ABOVE)?;
    let predictor = Predictor {
        above: Some(&above),
        above_t: 3,
        t: 2,
    };
    let size = mode_bits(&line, &predictor, mode);
    let mut out = BitWriter::new(alloc);
    if size > 1000 {
        return Ok(false);
    }
    out.reserve(size as usize + 7)?;
    write_flags(&mut out, &line, &predictor, mode);
    write_counts(&mut out, &line, &predictor, mode);
    let count = out.len();
    out.align();
    let written = out.finish();
    let size = written.as_slice().len();
    Ok(count as u64 == bits && size <= 5 && written.as_slice() == &bytes[..size])
}

#[test]
fn counts_are_written_in_each_mode(rt: HostRuntime) -> Result<(), Fail> {
    let alloc = rt.alloc();
    assert!(rt; is_written(alloc, 0, &MODES[0], 35)?);
    assert!(rt; is_written(alloc, 1, &MODES[1], 20)?);
    assert!(rt; is_written(alloc, 2, &MODES[2], 37)?);
    assert!(rt; is_written(alloc, 3, &MODES[3], 20)?);
    Ok(())
}

fn no_flags(alloc: Global) -> Result<Flags, CountFault>
    ensures { IfOk result (λ flags. length flags ≡ 2) }
{
    match Flags::clear(alloc, 10) {
        Ok(flags) => Ok(flags),
        Err(Memory) => Err(CountFault::Memory),
    }
}

// The counts that are read of these bytes in this mode.
fn line_of(alloc: Global, bytes: &[u8; 5], mode: u8, run_mode: u8) -> Result<Counts, CountFault>
    requires mode { mode ≤ 3 }
    requires run_mode { run_mode ≤ 1 }
{
    let above = match Counts::from_slice(alloc, &ABOVE) {
        Ok(above) => above,
        Err(Memory) => return Err(CountFault::Memory),
    };
    let predictor = Predictor {
        above: Some(&above),
        above_t: 3,
        t: 2,
    };
    let mut input = BitReader::new(bytes);
    let flags = if mode >= 2 {
        read_flags(alloc, &mut input, 10)?
    } else {
        no_flags(alloc)?
    };
    read_counts(alloc, &mut input, 10, &predictor, mode, run_mode, &flags)
}

fn is_read(alloc: Global, bytes: &[u8; 5], mode: u8, run_mode: u8, line: &[u8; 10]) -> bool
    requires mode { mode ≤ 3 }
    requires run_mode { run_mode ≤ 1 }
{
    match line_of(alloc, bytes, mode, run_mode) {
        Ok(counts) => counts.as_slice() == line.as_slice(),
        Err(_) => false,
    }
}

#[test]
fn counts_are_read_in_each_mode(rt: HostRuntime) {
    let alloc = rt.alloc();
    assert!(rt; is_read(alloc, &MODES[0], 0, 0, &LINE));
    assert!(rt; is_read(alloc, &MODES[1], 1, 0, &LINE));
    assert!(rt; is_read(alloc, &MODES[2], 2, 1, &LINE));
    assert!(rt; is_read(alloc, &MODES[3], 3, 0, &LINE));
    let unspelled = [3, 4, 6, 2, 3, 7, 5, 3, 2, 2];
    assert!(rt;
        is_read(alloc, &MODES[3], 3, 1, &unspelled),
        "the truncation at run mode 1"
    );
}

// The fault of bytes that are read as so many counts with truncation 0 and no line above.
fn fault_of(alloc: Global, bytes: &[u8], groups: u32) -> Option<CountFault>
    requires short { length bytes.now ≤ 100 }
    requires few { groups ≤ 10 }
{
    let predictor = Predictor {
        above: None,
        above_t: 0,
        t: 0,
    };
    let flags = match no_flags(alloc) {
        Ok(flags) => flags,
        Err(fault) => return Some(fault),
    };
    let mut input = BitReader::new(bytes);
    match read_counts(alloc, &mut input, groups, &predictor, 0, 0, &flags) {
        Ok(_) => None,
        Err(fault) => Some(fault),
    }
}

#[test]
fn first_fault_of_counts(rt: HostRuntime) {
    let alloc = rt.alloc();
    let range = CountFault::Range {
        group: 1,
        value: 16,
    };
    assert!(rt;
        fault_of(alloc, &[0x7f, 0xff, 0x80], 2) == Some(range),
        "0 and 16"
    );
    assert!(rt; fault_of(alloc, &[0x7f, 0xff, 0x00], 2) == None, "0 and 15");
    assert!(rt;
        fault_of(alloc, &[0x7f, 0xff, 0xbf], 3) == Some(range),
        "before the end"
    );
    assert!(rt; fault_of(alloc, &[0x7f], 2) == Some(CountFault::Ended));
    assert!(rt;
        fault_of(alloc, &[0xfe], 2) == Some(CountFault::Ended),
        "none left"
    );
}

// Raw counts that these bytes begin with.
fn are_raw(alloc: Global, bytes: &[u8], groups: u32, counts: &[u8]) -> Result<bool, CountFault>
    requires short { length bytes.now ≤ 100 }
    requires few { groups ≤ 10 }
{
    let mut input = BitReader::new(bytes);
    let read = read_raw(alloc, &mut input, groups)?;
    Ok(read.as_slice() == counts)
}

#[test]
fn raw_counts_are_read(rt: HostRuntime) {
    let alloc = rt.alloc();
    assert!(rt;
        are_raw(alloc, &[0x0f, 0x71], 4, &[0, 15, 7, 1]) == Ok(true),
        "of any size"
    );
    assert!(rt; are_raw(alloc, &[0xcc, 0xcc, 0, 0], 8, &[12, 12, 12, 12, 0, 0, 0, 0]) == Ok(true));
    assert!(rt; are_raw(alloc, &[0x0f, 0x71], 5, &[]) == Err(CountFault::Ended));
}

#[test]
fn ones_and_the_counts_that_they_tell(rt: HostRuntime) {
    assert!(rt; count_for(5, 3, 0) == 5 && ones_for(5, 3, 5) == 0);
    assert!(rt; count_for(5, 3, 1) == 4 && ones_for(5, 3, 4) == 1);
    assert!(rt; count_for(5, 3, 2) == 6 && ones_for(5, 3, 6) == 2);
    assert!(rt; count_for(5, 3, 3) == 3 && ones_for(5, 3, 3) == 3);
    assert!(rt; count_for(5, 3, 4) == 7 && ones_for(5, 3, 7) == 4);
    assert!(rt; count_for(5, 3, 5) == 8 && ones_for(5, 3, 8) == 5);
}
