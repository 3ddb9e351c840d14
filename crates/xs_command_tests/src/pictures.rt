// Pictures that are encoded and decoded in both forms: of every format, depth and number of levels, and with the most slices.
use crate::rows::{Failing, run_on};
use std::alloc::Global;
use std::test::Fail;
use std::thread::Threads;
use xs_io::{Memory, Octets};

/// A picture: how it is cut into slices of so many precincts, and what its samples are.
#[derive(Clone, Copy)]
struct Picture {
    width: u32,
    height: u32,
    slice: u32,
    format: u32,
    depth: u32,
    content: u32,
}

// A sample of 8 bits of a ramp, of extremes, or of noise; behind it stand the bits that a greater depth has more.
fn sample(picture: &Picture, row: u32, column: u32, noise: u32) -> u32 {
    let more = 1 << (picture.depth % 16).saturating_sub(8);
    let top = match picture.content {
        0 => (row % 256 * 7 + column % 256 * 3) % 256,
        1 => { if row % 2 == column / 3 % 2 { 0 } else { 255 } }
        _ => noise / 65536 % 256,
    };
    let low = if picture.content == 1 {
        top % 2 * (more - 1)
    } else {
        noise / 16777216 % more
    };
    top * more + low
}

fn push_component(into: &mut Octets, picture: &Picture, columns: u32) -> Result<(), Memory> {
    let mut noise: u32 = 1;
    for row in 0..picture.height {
        for column in 0..columns {
            noise = noise.wrapping_mul(1103515245).wrapping_add(12345);
            let sample = sample(picture, row, column, noise);
            into.push((sample % 256) as u8)?;
            if picture.depth > 8 {
                into.push((sample / 256 % 256) as u8)?;
            }
        }
    }
    Ok(())
}

fn raw_of(alloc: Global, picture: &Picture) -> Result<Octets, Memory> {
    let mut raw = Octets::new(alloc);
    let columns = match picture.format {
        422 => picture.width.div_ceil(2),
        _ => picture.width,
    };
    push_component(&mut raw, picture, picture.width)?;
    if picture.format != 0 {
        push_component(&mut raw, picture, columns)?;
        push_component(&mut raw, picture, columns)?;
    }
    Ok(raw)
}

// The sample that begins at a byte.
fn sample_at(raw: &[u8], place: usize, wide: bool) -> u32 {
    let low = raw.get(place).copied().unwrap_or(0);
    let high = if wide {
        raw.get(place.saturating_add(1)).copied().unwrap_or(0)
    } else {
        0
    };
    u32::from(high) * 256 + u32::from(low)
}

// The greatest difference of two samples of a place; none where the pictures have another size.
fn difference(one: &[u8], other: &[u8], wide: bool) -> Option<u32> {
    if one.len() != other.len() {
        return None;
    }
    let mut greatest = 0;
    for place in 0..one.len() {
        if !wide || place % 2 == 0 {
            let (a, b) = (sample_at(one, place, wide), sample_at(other, place, wide));
            greatest = a.abs_diff(b).max(greatest);
        }
    }
    Some(greatest)
}

// The words of `encode` for a picture; uniform quantisation and the colour transform now and then.
fn words_of(
    alloc: Global,
    levels: (u32, u32),
    picture: &Picture,
    form: &str,
) -> Result<String, Memory> {
    let (nlx, nly) = levels;
    let Picture {
        width,
        height,
        slice,
        depth,
        ..
    } = *picture;
    let format = match picture.format {
        422 => "422",
        444 => "444 --signs apart",
        _ => "mono --bits 18",
    };
    let choice = match (picture.format, picture.content) {
        (444, 0) => "uniform --colour 1",
        (_, 1) => "deadzone",
        _ => "uniform",
    };
    format!(in alloc;
        "encode --form {form} --share 32000 --chunk 100 --nlx {nlx} --nly {nly} --width {width} --height {height} --slice {slice} --depth {depth} --format {format} --quant {choice}"
    ).map_err(|_| Memory)
}

// How much a picture differs when it comes back from its codestream or from its packets.
fn comes_back<T: Threads + Sync>(
    threads: &T,
    alloc: Global,
    levels: (u32, u32),
    picture: Picture,
    form: &str,
) -> Result<Option<u32>, Memory> {
    let words = words_of(alloc, levels, &picture, form)?;
    let given = raw_of(alloc, &picture)?;
    let encoded = run_on(threads, alloc, words.as_str(), given, Failing::none(alloc))?;
    let sent = Octets::from_slice(alloc, encoded.output.held())?;
    let words = format!(in alloc; "decode --form {form}").map_err(|_| Memory)?;
    let left = run_on(threads, alloc, words.as_str(), sent, Failing::none(alloc))?;
    let given = raw_of(alloc, &picture)?;
    Ok(difference(left.output.held(), given.as_slice(), picture.depth > 8))
}

// The format and the depth of the case of a number, where the narrowest component has columns enough.
fn kind_of(levels: (u32, u32), width: u32, number: u32) -> (u32, u32) {
    let format = match (levels.0 % 8 + levels.1 % 8 + number % 16) % 3 {
        0 => 0,
        1 if levels.0 < 5 || width > 62 => 422,
        _ => 444,
    };
    let depth = match (levels.1 % 8 + number % 16) % 3 {
        0 => 8,
        1 => 10,
        _ => 12,
    };
    (format, depth)
}

// What a sample may differ by: nothing, or at 12 bits what the bits that are rounded away amount to.
fn allowed(depth: u32) -> u32 {
    match depth {
        12 => 2,
        _ => 0,
    }
}

// Whether pictures of each content and of some sizes come back.
fn come_back<T: Threads + Sync>(
    threads: &T,
    alloc: Global,
    levels: (u32, u32),
    form: &str,
) -> Result<bool, Memory> {
    for (width, height, slice) in [(32, 4, 4), (33, 5, 1), (37, 10, 2), (65, 33, 3)] {
        for content in 0..3 {
            let (format, depth) = kind_of(levels, width, height % 4 + content);
            let picture = Picture {
                width,
                height,
                slice,
                format,
                depth,
                content,
            };
            match comes_back(threads, alloc, levels, picture, form)? {
                Some(most) if most <= allowed(depth) => {}
                _ => return Ok(false),
            }
        }
    }
    Ok(true)
}

#[test]
fn pictures_of_every_kind_come_back(rt: HostRuntime) -> Result<(), Fail> {
    for across in 1..6 {
        for down in 0..3 {
            assert!(rt;
                down > across || come_back(&rt, rt.alloc(), (across, down), "xs")?,
                "{across} {down}"
            );
        }
    }
    Ok(())
}

#[test]
fn pictures_of_every_kind_arrive(rt: HostRuntime) -> Result<(), Fail> {
    for across in 1..6 {
        for down in 0..3 {
            assert!(rt;
                down > across || come_back(&rt, rt.alloc(), (across, down), "rtp")?,
                "{across} {down}"
            );
        }
    }
    Ok(())
}

// The greatest number of slices.
#[test]
fn picture_of_2047_slices_comes_back(rt: HostRuntime) -> Result<(), Fail> {
    let picture = Picture {
        width: 32,
        height: 2047,
        slice: 1,
        format: 0,
        depth: 8,
        content: 2,
    };
    assert!(rt; comes_back(&rt, rt.alloc(), (1, 0), picture, "xs")? == Some(0));
    assert!(rt; comes_back(&rt, rt.alloc(), (1, 0), picture, "rtp")? == Some(0));
    Ok(())
}
