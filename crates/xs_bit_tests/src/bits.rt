// Bits that are written and read.
use std::test::Fail;
use xs_bits::{BitReader, BitWriter, Counts, Ended};
use xs_io::Memory;

// 101, four ones and a zero, abc in 12 bits, a word of ones, no bit, one bit, and three zeros up to the border.
const MIXED: [u8; 7] = [0xbe, 0xab, 0xcf, 0xff, 0xff, 0xff, 0xf8];

// 70 ones and a zero, and a zero up to the border.
const LONG: [u8; 9] = [255, 255, 255, 255, 255, 255, 255, 255, 0xfc];

#[test]
fn bits_are_written(rt: HostRuntime) -> Result<(), Fail> {
    let alloc = rt.alloc();
    let mut mixed = BitWriter::new(alloc);
    assert!(rt; mixed.reserve(usize::MAX) == Err(Memory) && mixed.len() == 0);
    mixed.reserve(60)?;
    mixed.put(5, 3);
    mixed.put_unary(4);
    mixed.put(0xabc, 12);
    mixed.put(u32::MAX, 32);
    mixed.put(0, 0);
    mixed.put(1, 1);
    assert!(rt; mixed.len() == 53);
    mixed.align();
    assert!(rt; mixed.finish().as_slice() == MIXED.as_slice());
    let mut long = BitWriter::new(alloc);
    long.reserve(78)?;
    long.put_unary(70);
    long.align();
    assert!(rt; long.finish().as_slice() == LONG.as_slice());
    Ok(())
}

#[test]
fn bits_are_read(rt: HostRuntime) {
    let mut mixed = BitReader::new(&MIXED);
    assert!(rt; mixed.get(3) == Ok(5) && mixed.ones() == Ok(4) && mixed.get(12) == Ok(0xabc));
    assert!(rt; mixed.get(32) == Ok(u32::MAX) && mixed.get(0) == Ok(0) && mixed.place() == 52);
    assert!(rt; mixed.get(5) == Err(Ended) && mixed.place() == 52);
    assert!(rt; mixed.ones() == Ok(1) && mixed.get(2) == Ok(0) && mixed.place() == 56);
    assert!(rt; mixed.get(0) == Ok(0) && mixed.get(1) == Err(Ended) && mixed.ones() == Err(Ended));
    mixed.back(5);
    mixed.align();
    assert!(rt; mixed.place() == 8 && mixed.get(8) == Ok(0xab));
    mixed.align();
    assert!(rt; mixed.place() == 16);
}

#[test]
fn ones_are_counted(rt: HostRuntime) {
    let mut long = BitReader::new(&LONG);
    assert!(rt; long.ones() == Ok(70) && long.place() == 71 && long.get(1) == Ok(0));
    let mut endless = BitReader::new(&LONG[..8]);
    assert!(rt; endless.get(3) == Ok(7) && endless.ones() == Err(Ended) && endless.place() == 3);
}

// a, thirteen nibbles 123456789abcd in 52 bits, 64 bits from fe to 10, and two nibbles up to the border.
const WIDE: [u8; 16] = [
    0xa1, 0x23, 0x45, 0x67, 0x89, 0xab, 0xcd, 0xfe, 0xdc, 0xba, 0x98, 0x76, 0x54, 0x32, 0x10, 0x5c,
];

#[test]
fn wide_numbers_are_written(rt: HostRuntime) -> Result<(), Fail> {
    let mut wide = BitWriter::new(rt.alloc());
    wide.reserve(135)?;
    wide.put_wide(10, 4);
    wide.put_wide(0x0001_2345_6789_abcd, 52);
    wide.put_wide(0xfedc_ba98_7654_3210, 64);
    wide.put_wide(0x5c, 8);
    wide.align();
    assert!(rt; wide.finish().as_slice() == WIDE.as_slice());
    Ok(())
}

#[test]
fn wide_numbers_are_read(rt: HostRuntime) {
    let mut wide = BitReader::new(&WIDE);
    assert!(rt; wide.get(4) == Ok(10) && wide.get_wide(52) == Ok(0x0001_2345_6789_abcd));
    assert!(rt; wide.get_wide(57) == Ok(0xfedc_ba98_7654_3210 >> 7) && wide.place() == 113);
    assert!(rt; wide.get_wide(16) == Err(Ended) && wide.peek() == 0x105c << 42);
}

#[test]
fn counts_are_kept(rt: HostRuntime) -> Result<(), Fail> {
    let counts = Counts::from_slice(rt.alloc(), &[0, 15, 7])?;
    assert!(rt; counts.as_slice() == [0, 15, 7].as_slice());
    Ok(())
}
