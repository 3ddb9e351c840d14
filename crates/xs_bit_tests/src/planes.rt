// The numbers of a line, read and written.
ghost use Rattle.std.specs.Prelude.{◌*◌, ◌≡◌, ◌≤◌, length};
ghost use Rattle.xs_bits.specs.Counts.{AreCounts};

use std::alloc::Global;
use std::test::Fail;
use xs_bits::{BitReader, BitWriter, Counts, Ended};
use xs_io::Memory;
use xs_planes::{data_bits, read_data, read_signs, sign_bits, write_data, write_signs};

// Whether the bytes are read as these numbers, four for each count, and the numbers are written as the bytes.
fn stand_for(
    alloc: Global,
    bytes: &[u8],
    t: u8,
    counts: &[u8],
    values: &[i32],
) -> Result<bool, Memory>
    requires short { length bytes.now ≤ 100 }
    requires t { t ≤ 15 }
    requires counts { AreCounts counts.now }
    requires few { length counts.now ≤ 10 }
    requires size { length values.now ≡ 4 * length counts.now }
{
    let counts = Counts::from_slice(alloc, counts)?;
    let Ok(mut read) = Vec::from_slice(alloc, values) else {
        return Err(Memory);
    };
    let mut input = BitReader::new(bytes);
    if read_data(&mut input, &counts, t, false, read.as_mut_slice()) == Err(Ended) {
        return Ok(false);
    }
    let size = data_bits(&counts, t, false);
    if size > 1000 {
        return Ok(false);
    }
    let mut out = BitWriter::new(alloc);
    out.reserve(size as usize + 7)?;
    write_data(&mut out, &counts, t, read.as_slice(), false);
    out.align();
    Ok(read.as_slice() == values && out.finish().as_slice() == bytes)
}

#[test]
fn numbers_and_their_bits(rt: HostRuntime) -> Result<(), Fail> {
    let alloc = rt.alloc();
    // Signs 0100, planes 1001 and 0101; no plane; signs 1000, plane 1010.
    let three = [2, -1, 0, 3, 0, 0, 0, 0, -1, 0, 1, 0];
    assert!(rt; stand_for(alloc, &[0x49, 0x58, 0xa0], 3, &[5, 3, 4], &three)?);
    // Signs 1000, planes 1010, five times 1000, 1100.
    assert!(rt; stand_for(alloc, &[0x8a, 0x88, 0x88, 0x8c], 0, &[7], &[-127, 1, 64, 0])?);
    // Signs 0100, planes 1100, seven times 1001.
    assert!(rt;
        stand_for(
            alloc,
            &[0x4c, 0x99, 0x99, 0x99, 0x90],
            0,
            &[8],
            &[255, -128, 0, 127]
        )?
    );
    // Signs 0010, planes 1010, seven times 0010, 0011.
    assert!(rt;
        stand_for(
            alloc,
            &[0x2a, 0x22, 0x22, 0x22, 0x23],
            1,
            &[10],
            &[256, 0, -511, 1]
        )?
    );
    // Signs 0101, planes 1110, thirteen times 1100, 1101.
    let long = [0x5e, 0xcc, 0xcc, 0xcc, 0xcc, 0xcc, 0xcc, 0xcd];
    assert!(rt; stand_for(alloc, &long, 0, &[15], &[32767, -32767, 16384, -1])?);
    Ok(())
}

// The numbers of two code groups with one plane each that are read of a byte or two, and how many bits were read.
fn numbers_of(alloc: Global, bytes: &[u8]) -> Result<(bool, [i32; 8], usize), Memory>
    requires short { length bytes.now ≤ 100 }
{
    let counts = Counts::from_slice(alloc, &[1, 1])?;
    let mut values = [0; 8];
    let mut input = BitReader::new(bytes);
    let read = read_data(&mut input, &counts, 0, false, &mut values);
    Ok((read == Ok(()), values, input.place()))
}

#[test]
fn numbers_at_the_end_of_the_bits(rt: HostRuntime) -> Result<(), Fail> {
    let alloc = rt.alloc();
    let read = [0, -1, 0, -1, -1, 0, 0, 0];
    assert!(rt;
        numbers_of(alloc, &[0xd5, 0x98])? == (true, read, 16),
        "a sign of 0 may be set"
    );
    let (whole, _, place) = numbers_of(alloc, &[0xd5])?;
    assert!(rt; !whole && place == 0);
    Ok(())
}

// The same with the signs apart, in the bytes behind `planes` of them.
fn stand_apart(
    alloc: Global,
    bytes: &[u8],
    signs: &[u8],
    values: &[i32; 12],
) -> Result<bool, Memory>
    requires short { length bytes.now ≤ 100 }
    requires few { length signs.now ≤ 100 }
{
    let counts = Counts::from_slice(alloc, &[5, 3, 4])?;
    let mut read = [0; 12];
    let mut input = BitReader::new(bytes);
    if read_data(&mut input, &counts, 3, true, &mut read) == Err(Ended) {
        return Ok(false);
    }
    let mut input = BitReader::new(signs);
    if read_signs(&mut input, &counts, 3, &mut read) == Err(Ended) {
        return Ok(false);
    }
    let size = data_bits(&counts, 3, true);
    let more = sign_bits(&counts, 3, &read);
    if size > 1000 || more > 1000 {
        return Ok(false);
    }
    let mut out = BitWriter::new(alloc);
    out.reserve(size as usize + 7)?;
    write_data(&mut out, &counts, 3, &read, true);
    out.align();
    let mut apart = BitWriter::new(alloc);
    apart.reserve(more as usize + 7)?;
    write_signs(&mut apart, &counts, 3, &read);
    apart.align();
    Ok(read == *values && out.finish().as_slice() == bytes && apart.finish().as_slice() == signs)
}

#[test]
fn signs_that_stand_apart(rt: HostRuntime) -> Result<(), Fail> {
    let alloc = rt.alloc();
    // Planes 1001 and 0101; none; 1010. Signs of 2, -1, 3, -1 and 1.
    let values = [2, -1, 0, 3, 0, 0, 0, 0, -1, 0, 1, 0];
    assert!(rt; stand_apart(alloc, &[0x95, 0xa0], &[0x50], &values)?);
    assert!(rt; !stand_apart(alloc, &[0x95, 0xa0], &[], &values)?);
    Ok(())
}
