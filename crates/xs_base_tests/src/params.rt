// Settings and their limits, the header of settings, pictures, and codestreams in pieces.
ghost use Rattle.std.specs.Prelude.{◌≡◌, ◌*◌, ◌⊎◌, length};
ghost use Rattle.xs_params.specs.Picture.{sample_size};

use std::alloc::Global;
use std::test::Fail;
use xs_io::{Memory, Octets};
use xs_params::{
    Field, Format, Mode, Planes, Quant, Setting, Settings, Shape, Stream, Weight, Weights,
    component_width, default_weights,
};

// A small grey picture, with settings that are all accepted.
fn accepted(alloc: Global) -> Settings {
    Settings {
        shape: Shape {
            width: 32,
            height: 4,
            format: Format::Mono,
            depth: 8,
        },
        bits: 20,
        nlx: 1,
        nly: 0,
        hsl: 5,
        colour: false,
        quant: Quant::DeadZone,
        signs_apart: false,
        weights: None,
        share: 400,
        fill: false,
        chunk: 1400,
        mode: Mode::Slice,
        payload_type: 96,
        ssrc: 1,
        first_timestamp: 0,
        step: 1500,
        boxes: Octets::new(alloc),
        workers: 4,
        feeders: 2,
        port: 5004,
    }
}

fn low_byte(value: u32) -> u8 {
    (value % 256) as u8
}

// The accepted settings with one number changed.
fn changed(alloc: Global, field: Field, value: u32) -> Settings {
    let mut settings = accepted(alloc);
    match field {
        Field::Width => settings.shape.width = value,
        Field::Height => settings.shape.height = value,
        Field::Depth => settings.shape.depth = low_byte(value),
        Field::Bits => settings.bits = low_byte(value),
        Field::Nlx => settings.nlx = low_byte(value),
        Field::Nly => settings.nly = low_byte(value),
        Field::Hsl => settings.hsl = (value % 65536) as u16,
        Field::Colour => settings.colour = value == 1,
        Field::Chunk => settings.chunk = value,
        Field::Share => settings.share = value,
        Field::PayloadType => settings.payload_type = low_byte(value),
        Field::FirstTimestamp => settings.first_timestamp = value,
        Field::Step => settings.step = value,
        Field::Workers => settings.workers = low_byte(value),
        Field::Feeders => settings.feeders = low_byte(value),
        Field::Port => settings.port = value,
        Field::Weights | Field::Boxes => {}
    }
    settings
}

// The field that is refused, and its value.
fn refusal(settings: Settings) -> Option<(Field, u64)> {
    let setting = settings.check().err()?;
    Some((setting.field, setting.value))
}

fn is_taken(alloc: Global, field: Field, value: u32) -> bool {
    refusal(changed(alloc, field, value)).is_none()
}

fn is_refused(alloc: Global, field: Field, value: u32) -> bool {
    refusal(changed(alloc, field, value)) == Some((field, u64::from(value)))
}

// Whether the numbers from the least to the most are taken, as far as the ends tell.
fn is_range(alloc: Global, field: Field, least: u32, most: u32) -> bool {
    is_taken(alloc, field, least)
        && is_taken(alloc, field, most)
        && is_refused(alloc, field, least.saturating_sub(1))
        && is_refused(alloc, field, most.saturating_add(1))
}

#[test]
fn numbers_are_refused_past_their_limits(rt: HostRuntime) {
    let alloc = rt.alloc();
    assert!(rt; is_range(alloc, Field::Width, 32, 8192));
    assert!(rt; is_range(alloc, Field::Height, 4, 8192));
    assert!(rt; is_range(alloc, Field::Nlx, 1, 5));
    assert!(rt; is_range(alloc, Field::Chunk, 64, 8192));
    assert!(rt; is_range(alloc, Field::Share, 64, 716798));
    assert!(rt; is_range(alloc, Field::PayloadType, 96, 127));
    assert!(rt; is_range(alloc, Field::Step, 1, 4194304));
    assert!(rt; is_range(alloc, Field::Workers, 1, 16));
    assert!(rt; is_range(alloc, Field::Feeders, 1, 8));
    assert!(rt; is_range(alloc, Field::Port, 1, 65535));
    assert!(rt; is_refused(alloc, Field::Width, u32::MAX));
}

#[test]
fn numbers_of_few_values(rt: HostRuntime) {
    let alloc = rt.alloc();
    assert!(rt; is_range(alloc, Field::Depth, 8, 8) && is_range(alloc, Field::Depth, 10, 10));
    assert!(rt; is_range(alloc, Field::Depth, 12, 12));
    assert!(rt; is_range(alloc, Field::Bits, 18, 18) && is_range(alloc, Field::Bits, 20, 20));
    assert!(rt; is_taken(alloc, Field::Nly, 1) && is_refused(alloc, Field::Nly, 2));
    assert!(rt; is_taken(alloc, Field::Hsl, 65535) && is_refused(alloc, Field::Hsl, 0));
    assert!(rt; is_refused(alloc, Field::Colour, 1));
    assert!(rt; is_taken(alloc, Field::FirstTimestamp, 2147483648));
    assert!(rt; is_refused(alloc, Field::FirstTimestamp, 2147483649));
}

// What is refused of a picture with these sides, levels and slices.
fn layout(alloc: Global, shape: Shape, nlx: u8, nly: u8, hsl: u16) -> Option<(Field, u64)> {
    let mut settings = accepted(alloc);
    settings.shape = shape;
    settings.nlx = nlx;
    settings.nly = nly;
    settings.hsl = hsl;
    settings.workers = 0;
    refusal(settings)
}

fn shape(format: Format, width: u32, height: u32) -> Shape {
    Shape {
        width,
        height,
        format,
        depth: 8,
    }
}

#[test]
fn the_first_of_several_is_refused(rt: HostRuntime) {
    let alloc = rt.alloc();
    let all = Some((Field::Workers, 0));
    assert!(rt; layout(alloc, shape(Format::Mono, 31, 3), 6, 3, 0) == Some((Field::Width, 31)));
    assert!(rt;
        layout(alloc, shape(Format::Mono, 8192, 2049), 6, 3, 0) == Some((Field::Height, 2049))
    );
    assert!(rt; layout(alloc, shape(Format::Mono, 8192, 2048), 6, 3, 0) == Some((Field::Nlx, 6)));
    assert!(rt; layout(alloc, shape(Format::Mono, 8192, 2048), 5, 3, 0) == Some((Field::Nly, 3)));
    assert!(rt; layout(alloc, shape(Format::Mono, 8192, 2048), 5, 2, 0) == Some((Field::Hsl, 0)));
    assert!(rt; layout(alloc, shape(Format::Mono, 8192, 2048), 5, 2, 1) == all);
    // each component may have 8192 columns
    assert!(rt; layout(alloc, shape(Format::C444, 8192, 4), 5, 2, 1) == all);
    assert!(rt; layout(alloc, shape(Format::C444, 8193, 4), 5, 2, 1) == Some((Field::Width, 8193)));
    // the narrowest component has 2 ^ nlx columns
    assert!(rt; layout(alloc, shape(Format::C422, 62, 4), 5, 2, 1) == Some((Field::Nlx, 5)));
    assert!(rt; layout(alloc, shape(Format::C422, 63, 4), 5, 2, 1) == all);
    // at most 2047 slices
    assert!(rt; layout(alloc, shape(Format::Mono, 32, 8189), 2, 2, 1) == Some((Field::Hsl, 1)));
    assert!(rt; layout(alloc, shape(Format::Mono, 32, 8188), 2, 2, 1) == all);
}

// What is refused of 1024 slices in the largest packets.
fn large(alloc: Global, share: u32) -> Option<(Field, u64)> {
    let mut settings = accepted(alloc);
    settings.shape.height = 8192;
    settings.hsl = 8;
    settings.chunk = 8192;
    settings.share = share;
    refusal(settings)
}

#[test]
fn a_codestream_has_room_for_its_length(rt: HostRuntime) {
    assert!(rt; large(rt.alloc(), 4194300).is_none());
    assert!(rt; large(rt.alloc(), 4194301) == Some((Field::Share, 4194301)));
}

// The value that is refused of two bands' weights.
fn weighed(alloc: Global, weights: &[Weight]) -> Result<Option<u64>, Memory> {
    let mut settings = accepted(alloc);
    settings.weights = Some(Weights::from_slice(alloc, weights)?);
    Ok(match refusal(settings) {
        Some((Field::Weights, value)) => Some(value),
        _ => None,
    })
}

#[test]
fn weights_are_one_for_each_band_and_in_range(rt: HostRuntime) -> Result<(), Fail> {
    let alloc = rt.alloc();
    let good = Weight {
        gain: 15,
        priority: 1,
    };
    let heavy = Weight {
        gain: 16,
        priority: 0,
    };
    let late = Weight {
        gain: 0,
        priority: 2,
    };
    assert!(rt; weighed(alloc, &[good, good])?.is_none());
    assert!(rt; weighed(alloc, &[heavy])? == Some(1));
    assert!(rt; weighed(alloc, &[good, good, good])? == Some(3));
    assert!(rt; weighed(alloc, &[late, heavy])? == Some(0));
    assert!(rt; weighed(alloc, &[good, heavy])? == Some(1));
    Ok(())
}

// The value that is refused of boxes.
fn boxed(alloc: Global, boxes: &[u8]) -> Result<Option<u64>, Memory> {
    let mut settings = accepted(alloc);
    settings.boxes = Octets::from_slice(alloc, boxes)?;
    Ok(match refusal(settings) {
        Some((Field::Boxes, value)) => Some(value),
        _ => None,
    })
}

#[test]
fn boxes_are_whole(rt: HostRuntime) -> Result<(), Fail> {
    let alloc = rt.alloc();
    let mut long = vec![in alloc; 0; 2049]?;
    long[2] = 8;
    assert!(rt; boxed(alloc, &[0, 0, 0, 8, 1, 2, 3, 4])?.is_none());
    assert!(rt; boxed(alloc, &[0, 0, 0, 8, 1, 2, 3, 4, 0, 0, 0, 9, 1, 2, 3, 4, 5])?.is_none());
    assert!(rt; boxed(alloc, &[0, 0, 0])? == Some(3));
    assert!(rt; boxed(alloc, &[0, 0, 0, 7, 1, 2, 3])? == Some(7));
    assert!(rt; boxed(alloc, &[0, 0, 0, 9, 1, 2, 3, 4])? == Some(8));
    assert!(rt; boxed(alloc, &[0, 0, 0, 8, 1, 2, 3, 4, 0])? == Some(9));
    assert!(rt; boxed(alloc, &[255, 255, 255, 255, 1, 2, 3, 4])? == Some(8));
    assert!(rt; boxed(alloc, &long[..2048])?.is_none());
    long[3] = 1;
    assert!(rt; boxed(alloc, long.as_slice())? == Some(2049));
    Ok(())
}

// The gains of the default weights, in one number, and whether the priorities are the bands' numbers.
fn default_gains(alloc: Global, components: u8) -> Result<(u128, bool), Memory>
    requires { (components ≡ 1) ⊎ (components ≡ 3) }
{
    let weights = default_weights(alloc, 5, 2, components)?;
    let mut gains = 0_u128;
    let mut numbered = true;
    for (band, weight) in weights.as_slice().iter().enumerate() {
        gains = (gains << 4) | u128::from(weight.gain);
        numbered = numbered && usize::from(weight.priority) == band;
    }
    Ok((gains, numbered))
}

#[test]
fn default_weights_by_hand(rt: HostRuntime) -> Result<(), Fail> {
    assert!(rt; default_gains(rt.alloc(), 1)? == (0x3322111000, true));
    assert!(rt; default_gains(rt.alloc(), 3)? == (0x333333222222111111111000000000, true));
    Ok(())
}

// The bits of a header, and the number of its weights.
fn header_of(alloc: Global, bits: u8) -> Result<Option<(u8, u8, usize)>, Memory> {
    let mut settings = accepted(alloc);
    settings.bits = bits;
    settings.nlx = 2;
    settings.nly = 2;
    let Ok(checked) = settings.check() else {
        return Ok(None);
    };
    let header = checked.header(alloc)?;
    Ok(Some((header.bw, header.fq, header.weights.as_slice().len())))
}

#[test]
fn a_header_says_what_the_settings_say(rt: HostRuntime) -> Result<(), Fail> {
    assert!(rt; header_of(rt.alloc(), 20)? == Some((20, 8, 7)));
    assert!(rt; header_of(rt.alloc(), 18)? == Some((18, 6, 7)));
    Ok(())
}

// Fills the second row of the last component of a picture of 33 columns: the answer, and the samples at both ends.
fn filled(alloc: Global, depth: u8, bytes: &[u8]) -> Result<(Result<(), usize>, u16, u16), Memory>
    requires depth { (depth ≡ 8) ⊎ (depth ≡ 10) }
    requires size { length bytes.now ≡ 17 * sample_size depth }
{
    let mut picture = Planes::blank(
        alloc,
        Shape {
            width: 33,
            height: 4,
            format: Format::C422,
            depth,
        },
    )?;
    let answer = picture.set_raw_row(2, 1, bytes);
    Ok((answer, picture.get(2, 1, 0), picture.get(2, 1, 16)))
}

#[test]
fn a_row_is_filled_from_raw_bytes(rt: HostRuntime) -> Result<(), Fail> {
    let mut bytes = [0; 34];
    bytes[0] = 7;
    bytes[33] = 3;
    assert!(rt; filled(rt.alloc(), 8, &bytes[17..])? == (Ok(()), 0, 3));
    assert!(rt; filled(rt.alloc(), 10, &bytes)? == (Ok(()), 7, 768));
    bytes[33] = 4;
    assert!(rt; filled(rt.alloc(), 10, &bytes)? == (Err(16), 0, 0));
    Ok(())
}

#[test]
fn a_picture_keeps_its_samples(rt: HostRuntime) -> Result<(), Fail> {
    let shape = Shape {
        width: 33,
        height: 4,
        format: Format::C422,
        depth: 10,
    };
    let mut picture = Planes::blank(rt.alloc(), shape)?;
    picture.set(0, 3, 32, 1023);
    picture.set_row(2, 3, &[9; 17]);
    assert!(rt; component_width(&shape, 0) == 33 && component_width(&shape, 2) == 17);
    assert!(rt; picture.get(0, 3, 32) == 1023 && picture.get(0, 3, 31) == 0);
    assert!(rt; picture.row(2, 3) == [9; 17].as_slice() && picture.get(2, 2, 16) == 0);
    Ok(())
}

#[test]
fn a_codestream_is_joined(rt: HostRuntime) -> Result<(), Fail> {
    let alloc = rt.alloc();
    let mut stream = Stream::new(alloc, Octets::from_slice(alloc, &[1, 2])?);
    assert!(rt; stream.bytes(alloc)?.as_slice() == [1, 2, 255, 17].as_slice());
    stream.push(Octets::from_slice(alloc, &[3])?)?;
    stream.push(Octets::new(alloc))?;
    stream.push(Octets::from_slice(alloc, &[4, 5])?)?;
    assert!(rt; stream.len() == 3 && stream.header().as_slice() == [1, 2].as_slice());
    assert!(rt; stream.bytes(alloc)?.as_slice() == [1, 2, 3, 4, 5, 255, 17].as_slice());
    Ok(())
}
