ghost use Rattle.std.specs.Prelude.{◌^◌, ◌<◌, ◌≤◌, length};

use std::alloc::Global;
use std::test::Fail;
use xs_io::{Memory, Octets};
use xs_markers::{HeadFault, HeadField, Header, read_header, skip_boxes, write_header};
use xs_params::{Format, Quant, Shape, Weight};

// The header of a grey picture of 32 by 4 samples, in a codestream of 215 bytes: the start marker; empty capabilities;
// the picture header; one component of 8 bits; two weights.
const GREY: [u8; 48] = [
    0xff, 0x10, //
    0xff, 0x50, 0, 2, //
    0xff, 0x12, 0, 0x1a, 0, 0, 0, 0xd7, 0, 0, 0, 0, 0, 0x20, 0, 4, 0, 0, 0, 4, 1, 4, 8, 0x14, 0x84,
    0, 0x10, 0, //
    0xff, 0x13, 0, 4, 8, 0x11, //
    0xff, 0x14, 0, 6, 0, 0, 0, 1,
];

// The header of a grey picture of 32 by 4 samples that is split five times across and twice down, in a codestream of
// 232 bytes, and the marker of a slice. It has ten bands.
const DEEP: [u8; 66] = [
    0xff, 0x10, //
    0xff, 0x50, 0, 2, //
    0xff, 0x12, 0, 0x1a, 0, 0, 0, 0xe8, 0, 0, 0, 0, 0, 0x20, 0, 4, 0, 0, 0, 4, 1, 4, 8, 0x14, 0x84,
    0, 0x52, 0, //
    0xff, 0x13, 0, 4, 8, 0x11, //
    0xff, 0x14, 0, 0x16, 4, 0, 3, 1, 3, 2, 2, 3, 11, 10, 13, 12, 15, 14, 0, 7, 0, 8, 0, 9, //
    0xff, 0x20,
];

// Its weights.
const DEEP_WEIGHTS: [Weight; 10] = [
    Weight {
        gain: 4,
        priority: 0,
    },
    Weight {
        gain: 3,
        priority: 1,
    },
    Weight {
        gain: 3,
        priority: 2,
    },
    Weight {
        gain: 2,
        priority: 3,
    },
    Weight {
        gain: 11,
        priority: 10,
    },
    Weight {
        gain: 13,
        priority: 12,
    },
    Weight {
        gain: 15,
        priority: 14,
    },
    Weight {
        gain: 0,
        priority: 7,
    },
    Weight {
        gain: 0,
        priority: 8,
    },
    Weight {
        gain: 0,
        priority: 9,
    },
];

// Whether the header that these bytes are is written as they are.
fn is_written_again(alloc: Global, bytes: &[u8]) -> Result<bool, HeadFault>
    requires { length bytes.now < 2 ^ 32 }
{
    let (header, size) = read_header(alloc, bytes)?;
    if header.long_heads || header.run_mode != 0 {
        return Ok(false);
    }
    Ok(write_header(alloc, &header)?.as_slice() == &bytes[..size])
}

#[test]
fn grey_headers_are_written(rt: HostRuntime) -> Result<(), Fail> {
    assert!(rt; is_written_again(rt.alloc(), &GREY)?);
    assert!(rt; is_written_again(rt.alloc(), &DEEP)?);
    // The first in 18 bits, of which 6 are rounded away.
    let mut narrow = GREY;
    narrow[29] = 0x12;
    narrow[30] = 0x64;
    assert!(rt; is_written_again(rt.alloc(), &narrow)?);
    Ok(())
}

// The grey header in a codestream of 232 bytes, and the marker of a slice.
const READ: [u8; 50] = [
    0xff, 0x10, //
    0xff, 0x50, 0, 2, //
    0xff, 0x12, 0, 0x1a, 0, 0, 0, 0xe8, 0, 0, 0, 0, 0, 0x20, 0, 4, 0, 0, 0, 4, 1, 4, 8, 0x14, 0x84,
    0, 0x10, 0, //
    0xff, 0x13, 0, 4, 8, 0x11, //
    0xff, 0x14, 0, 6, 0, 0, 0, 1, //
    0xff, 0x20,
];

// It with some bytes changed, each given with its place.
fn changed(changes: &[(usize, u8)]) -> [u8; 50] {
    let mut bytes = READ;
    change(&mut bytes, changes);
    bytes
}

// The header of ten bands with some bytes changed.
fn deep_changed(changes: &[(usize, u8)]) -> [u8; 66] {
    let mut bytes = DEEP;
    change(&mut bytes, changes);
    bytes
}

fn change(bytes: &mut [u8], changes: &[(usize, u8)]) {
    for (place, value) in changes {
        if let Some(byte) = bytes.get_mut(*place) {
            *byte = *value;
        }
    }
}

// Whether a header that is read is the grey one, with this profile of noise: long packet headers, and these gain and priority.
fn is_noisy(header: &Header) -> bool {
    let weights = [
        Weight {
            gain: 9,
            priority: 0,
        },
        Weight {
            gain: 0,
            priority: 8,
        },
    ];
    let shape = Shape {
        width: 32,
        height: 4,
        format: Format::Mono,
        depth: 8,
    };
    header.lcod == 232
        && header.shape == shape
        && (header.hsl, header.bw, header.fq) == (4, 20, 8)
        && (header.nlx, header.nly, header.run_mode) == (1, 0, 0)
        && header.quant == Quant::DeadZone
        && header.long_heads
        && !header.colour
        && !header.signs_apart
        && header.weights.as_slice() == weights.as_slice()
}

#[test]
fn a_grey_header_is_read(rt: HostRuntime) -> Result<(), Fail> {
    // Profile, level, long packet headers, the field Rl, a gain and a priority.
    let noise = [
        (14, 7),
        (15, 6),
        (16, 5),
        (17, 4),
        (33, 0xc0),
        (44, 9),
        (47, 8),
    ];
    let (header, size) = read_header(rt.alloc(), &changed(&noise))?;
    assert!(rt; size == 48 && is_noisy(&header));
    let (narrow, size) = read_header(rt.alloc(), &changed(&[(29, 18), (30, 0x64)]))?;
    assert!(rt; size == 48 && (narrow.bw, narrow.fq) == (18, 6));
    Ok(())
}

// Whether a header with this byte of the levels across and down is read, whose table of weights has this length, with so
// many bands and up to this place.
fn is_split(
    alloc: Global,
    levels: u8,
    length: u8,
    bands: usize,
    end: usize,
) -> Result<bool, HeadFault>
    requires bands { bands ≤ 10 }
    requires room { end < 2 ^ 16 }
{
    let next = [(32, levels), (43, length), (end, 0xff), (end + 1, 0x20)];
    let (header, size) = read_header(alloc, &deep_changed(&next))?;
    Ok(
        size == end
            && (header.nlx, header.nly) == (levels / 16, levels % 16)
            && header.weights.as_slice() == &DEEP_WEIGHTS[..bands],
    )
}

#[test]
fn headers_of_several_splits_are_read(rt: HostRuntime) -> Result<(), Fail> {
    let splits = [
        (0x10, 6, 2, 48),
        (0x11, 10, 4, 52),
        (0x20, 8, 3, 50),
        (0x22, 16, 7, 58),
        (0x31, 14, 6, 56),
        (0x40, 12, 5, 54),
        (0x50, 14, 6, 56),
        (0x52, 22, 10, 64),
    ];
    for (levels, length, bands, end) in splits {
        assert!(rt; is_split(rt.alloc(), levels, length, bands, end)?);
    }
    Ok(())
}

fn fault_of(alloc: Global, bytes: &[u8]) -> Option<HeadFault>
    requires { length bytes.now < 2 ^ 32 }
{
    read_header(alloc, bytes).err()
}

// What is refused of the grey header with some bytes changed, and of that of ten bands.
fn refusal_of(alloc: Global, changes: &[(usize, u8)]) -> Option<HeadFault> {
    fault_of(alloc, &changed(changes))
}

fn deep_refusal_of(alloc: Global, changes: &[(usize, u8)]) -> Option<HeadFault> {
    fault_of(alloc, &deep_changed(changes))
}

#[test]
fn tables_of_other_lengths_are_refused(rt: HostRuntime) {
    // The byte of the levels across and down, and the length of the table of weights: no weight, one less, one more, and
    // those of other levels.
    let lengths = [
        (0x52, 2),
        (0x52, 20),
        (0x52, 24),
        (0x51, 22),
        (0x42, 22),
        (0x11, 6),
        (0x11, 8),
        (0x10, 4),
    ];
    for (levels, length) in lengths {
        let fault = HeadFault::Length {
            code: 0xff14,
            length: u16::from(length),
        };
        assert!(rt; deep_refusal_of(rt.alloc(), &[(32, levels), (43, length)]) == Some(fault));
    }
}

// What is refused of a picture of 32 by 8192 samples, by its levels and the height of a slice.
fn tall_refusal_of(alloc: Global, levels: u8, slice: u8) -> Option<HeadFault> {
    deep_refusal_of(alloc, &[(20, 0x20), (21, 0), (25, slice), (32, levels)])
}

#[test]
fn few_slices_are_accepted(rt: HostRuntime) -> Result<(), Fail> {
    let refusals = [
        (0x52, 1, 2048),
        (0x51, 2, 2048),
        (0x11, 1, 4096),
        (0x50, 1, 8192),
        (0x10, 4, 2048),
    ];
    for (levels, slice, value) in refusals {
        let fault = HeadFault::Unsupported {
            field: HeadField::Slices,
            value,
        };
        assert!(rt; tall_refusal_of(rt.alloc(), levels, slice) == Some(fault));
    }
    // 1024 slices of four precincts of two lines.
    let tall = [
        (20, 0x20),
        (21, 0),
        (32, 0x11),
        (43, 10),
        (52, 0xff),
        (53, 0x20),
    ];
    let (header, size) = read_header(rt.alloc(), &deep_changed(&tall))?;
    assert!(rt; size == 52 && header.shape.height == 8192 && header.hsl == 4 && header.nly == 1);
    Ok(())
}

#[test]
fn cut_headers_are_refused(rt: HostRuntime) {
    for place in 0..48 {
        let fault = HeadFault::Truncated {
            place: place as u32,
        };
        assert!(rt; fault_of(rt.alloc(), &READ[..place]) == Some(fault));
    }
    assert!(rt; fault_of(rt.alloc(), &READ[..48]).is_none());
    assert!(rt; fault_of(rt.alloc(), &READ[..49]) == Some(HeadFault::Truncated { place: 49 }));
}

#[test]
fn other_lengths_are_refused(rt: HostRuntime) {
    // Each change, the code of the segment, and the length that the change makes.
    let lengths = [
        ((5, 1), 0xff50, 1),
        ((9, 27), 0xff12, 27),
        ((9, 25), 0xff12, 25),
        ((37, 5), 0xff13, 5),
        ((43, 7), 0xff14, 7),
    ];
    for (change, code, length) in lengths {
        assert!(rt; refusal_of(rt.alloc(), &[change]) == Some(HeadFault::Length { code, length }));
    }
}

// Segments of the header of ten bands, and others.
const SOC: &[u8] = &[0xff, 0x10];

const SLH: &[u8] = &[0xff, 0x20];

const EOC: &[u8] = &[0xff, 0x11];

const CAP: &[u8] = &[0xff, 0x50, 0, 4, 0xab, 0xcd];

const COM: &[u8] = &[0xff, 0x15, 0, 4, 0, 1];

const CRG: &[u8] = &[0xff, 0x19, 0, 2];

const NLT: &[u8] = &[0xff, 0x16, 0, 4, 0, 0];

const PIH: &[u8] = &[
    0xff, 0x12, 0, 0x1a, 0, 0, 0, 0xe8, 0, 0, 0, 0, 0, 0x20, 0, 4, 0, 0, 0, 4, 1, 4, 8, 0x14, 0x84,
    0, 0x52, 0,
];

const CDT: &[u8] = &[0xff, 0x13, 0, 4, 8, 0x11];

const WGT: &[u8] = &[
    0xff, 0x14, 0, 0x16, 4, 0, 3, 1, 3, 2, 2, 3, 11, 10, 13, 12, 15, 14, 0, 7, 0, 8, 0, 9,
];

// What is refused of segments, which have at most 200 bytes.
fn segments_fault(alloc: Global, segments: &[&[u8]]) -> Result<Option<HeadFault>, Memory> {
    let mut bytes = Octets::new(alloc);
    for segment in segments {
        bytes.extend(segment)?;
    }
    if bytes.len() > 200 {
        return Ok(None);
    }
    Ok(fault_of(alloc, bytes.as_slice()))
}

#[test]
fn segments_may_stand_in_any_order(rt: HostRuntime) -> Result<(), Fail> {
    let alloc = rt.alloc();
    assert!(rt; segments_fault(alloc, &[SOC, CAP, PIH, CDT, WGT])?.is_none());
    assert!(rt; segments_fault(alloc, &[SOC, COM, CAP, PIH, CDT, WGT, SLH])?.is_none());
    assert!(rt; segments_fault(alloc, &[SOC, PIH, WGT, COM, CDT, CRG, CAP, COM])?.is_none());
    Ok(())
}

#[test]
fn other_segments_are_refused(rt: HostRuntime) -> Result<(), Fail> {
    let alloc = rt.alloc();
    let unsupported = HeadFault::Segment {
        code: 0xff16,
        place: 36,
    };
    assert!(rt; segments_fault(alloc, &[SOC, CAP, PIH, NLT, CDT, WGT])? == Some(unsupported));
    let end = HeadFault::Marker {
        code: 0xff11,
        place: 60,
    };
    assert!(rt; segments_fault(alloc, &[SOC, PIH, CDT, WGT, EOC])? == Some(end));
    let start = HeadFault::Marker {
        code: 0xff10,
        place: 2,
    };
    assert!(rt; segments_fault(alloc, &[SOC, SOC, PIH, CDT, WGT])? == Some(start));
    let other = HeadFault::Marker {
        code: 0xfe10,
        place: 0,
    };
    assert!(rt; refusal_of(alloc, &[(0, 0xfe)]) == Some(other));
    Ok(())
}

#[test]
fn segments_stand_once(rt: HostRuntime) -> Result<(), Fail> {
    let alloc = rt.alloc();
    let picture = HeadFault::Twice { code: 0xff12 };
    assert!(rt; segments_fault(alloc, &[SOC, CAP, PIH, PIH, CDT, WGT])? == Some(picture));
    // The length of the second table is wrong too.
    let components = HeadFault::Twice { code: 0xff13 };
    assert!(rt; segments_fault(alloc, &[SOC, PIH, CDT, &[0xff, 0x13, 0, 9]])? == Some(components));
    let weights = HeadFault::Twice { code: 0xff14 };
    assert!(rt; segments_fault(alloc, &[SOC, PIH, WGT, WGT])? == Some(weights));
    Ok(())
}

#[test]
fn no_segment_may_lack(rt: HostRuntime) -> Result<(), Fail> {
    let alloc = rt.alloc();
    let picture = HeadFault::Absent { code: 0xff12 };
    assert!(rt; segments_fault(alloc, &[SOC, SLH])? == Some(picture));
    // The length of the table is wrong too.
    assert!(rt; segments_fault(alloc, &[SOC, &[0xff, 0x13, 0, 9]])? == Some(picture));
    let components = HeadFault::Absent { code: 0xff13 };
    assert!(rt; segments_fault(alloc, &[SOC, PIH, WGT, SLH])? == Some(components));
    let weights = HeadFault::Absent { code: 0xff14 };
    assert!(rt; segments_fault(alloc, &[SOC, CAP, PIH, CDT, SLH])? == Some(weights));
    // At the end of the bytes the header is cut.
    let cut = HeadFault::Truncated { place: 36 };
    assert!(rt; segments_fault(alloc, &[SOC, PIH, CDT])? == Some(cut));
    let body = HeadFault::Truncated { place: 39 };
    assert!(rt;
        segments_fault(
            alloc,
            &[SOC, PIH, &[0xff, 0x13, 0, 4, 8, 0x11, 0xff, 0x14, 0]]
        )? == Some(body)
    );
    Ok(())
}

#[test]
fn other_values_are_refused(rt: HostRuntime) {
    // Each change, the field, and the value that is refused.
    let values = [
        ((19, 16), HeadField::Wf, 16),
        ((19, 31), HeadField::Wf, 31),
        ((18, 0x20), HeadField::Wf, 8224),
        ((21, 3), HeadField::Hf, 3),
        ((23, 1), HeadField::Cw, 1),
        ((25, 0), HeadField::Hsl, 0),
        ((26, 2), HeadField::Nc, 2),
        ((27, 5), HeadField::Ng, 5),
        ((28, 4), HeadField::Ss, 4),
        ((29, 19), HeadField::Bw, 19),
        ((29, 18), HeadField::Fq, 8),
        ((30, 0x64), HeadField::Fq, 6),
        ((30, 0x85), HeadField::Br, 5),
        ((31, 0x80), HeadField::Fslc, 1),
        ((31, 0x10), HeadField::Ppoc, 1),
        ((31, 0x01), HeadField::Cpih, 1),
        ((32, 0x00), HeadField::Nlx, 0),
        ((32, 0x60), HeadField::Nlx, 6),
        ((32, 0x53), HeadField::Nly, 3),
        ((32, 0x12), HeadField::Nly, 2),
        ((33, 0x20), HeadField::Qpih, 2),
        ((33, 0x08), HeadField::Fs, 2),
        ((33, 0x02), HeadField::Rm, 2),
        ((38, 9), HeadField::Bc, 9),
        ((39, 0x21), HeadField::Sx, 2),
        ((39, 0x12), HeadField::Sy, 2),
    ];
    for (change, field, value) in values {
        let fault = HeadFault::Unsupported { field, value };
        assert!(rt; refusal_of(rt.alloc(), &[change]) == Some(fault));
    }
}

#[test]
fn other_sizes_are_refused(rt: HostRuntime) {
    // 8192 by 2052 samples, and slices of one line where there are 2052 lines.
    let area = HeadFault::Unsupported {
        field: HeadField::Area,
        value: 16_809_984,
    };
    assert!(rt; refusal_of(rt.alloc(), &[(18, 0x20), (19, 0), (20, 8)]) == Some(area));
    let slices = HeadFault::Unsupported {
        field: HeadField::Slices,
        value: 2052,
    };
    assert!(rt; refusal_of(rt.alloc(), &[(20, 8), (25, 1)]) == Some(slices));
}

// The header of a picture of 64 by 4 samples and three components of 10 bits, of which the second and third have half the
// columns. It is split once across and has six bands, the uniform quantiser, signs apart and the second run mode.
const HALVED: [u8; 56] = [
    0xff, 0x10, //
    0xff, 0x12, 0, 0x1a, 0, 0, 0, 0, 0, 0, 0, 0, 0, 0x40, 0, 4, 0, 0, 0, 4, 3, 4, 8, 0x14, 0x84, 0,
    0x10, 0x15, //
    0xff, 0x13, 0, 8, 10, 0x11, 10, 0x21, 10, 0x21, //
    0xff, 0x14, 0, 14, 0, 0, 0, 1, 0, 2, 0, 3, 0, 4, 0, 5,
];

// It with some bytes changed, each given with its place.
fn halved_changed(changes: &[(usize, u8)]) -> [u8; 56] {
    let mut bytes = HALVED;
    change(&mut bytes, changes);
    bytes
}

fn halved_refusal_of(alloc: Global, changes: &[(usize, u8)]) -> Option<HeadFault> {
    fault_of(alloc, &halved_changed(changes))
}

#[test]
fn headers_of_components_are_read(rt: HostRuntime) -> Result<(), Fail> {
    let (header, size) = read_header(rt.alloc(), &HALVED)?;
    let shape = Shape {
        width: 64,
        height: 4,
        format: Format::C422,
        depth: 10,
    };
    assert!(rt; size == 56 && header.shape == shape && !header.colour);
    assert!(rt; header.quant == Quant::Uniform && header.signs_apart && header.run_mode == 1);
    assert!(rt; header.weights.as_slice().len() == 6);
    // Three components of one size, with the colour transform.
    let (header, _) = read_header(
        rt.alloc(),
        &halved_changed(&[(27, 1), (37, 0x11), (39, 0x11)]),
    )?;
    assert!(rt; header.shape.format == Format::C444 && header.colour);
    Ok(())
}

#[test]
fn other_components_are_refused(rt: HostRuntime) {
    // Each change, the field, and the value that is refused.
    let values = [
        ((34, 11), HeadField::Bc, 11),
        ((36, 8), HeadField::Bc, 8),
        ((35, 0x21), HeadField::Sx, 2),
        ((37, 0x31), HeadField::Sx, 3),
        ((39, 0x11), HeadField::Sx, 1),
        ((39, 0x22), HeadField::Sy, 2),
        // The colour transform, and components of two sizes.
        ((27, 1), HeadField::Sx, 2),
        ((27, 2), HeadField::Cpih, 2),
        // 32 columns of the narrowest component, and then 16, which are split five times.
        ((15, 0x20), HeadField::Narrow, 16),
    ];
    for (change, field, value) in values {
        let fault = HeadFault::Unsupported { field, value };
        assert!(rt; halved_refusal_of(rt.alloc(), &[change, (28, 0x50)]) == Some(fault));
    }
}

#[test]
fn boxes_are_skipped(rt: HostRuntime) {
    assert!(rt; skip_boxes(&[0xff, 0x10]) == Ok(0));
    assert!(rt; skip_boxes(&[0, 0, 0, 12, 1, 2, 3, 4, 5, 6, 7, 8, 0xff, 0x10]) == Ok(12));
    assert!(rt;
        skip_boxes(&[0, 0, 0, 8, 1, 2, 3, 4, 0, 0, 0, 8, 5, 6, 7, 8, 0xff, 0x10]) == Ok(16)
    );
    let short = HeadFault::BoxLength {
        length: 7,
        place: 8,
    };
    assert!(rt; skip_boxes(&[0, 0, 0, 8, 1, 2, 3, 4, 0, 0, 0, 7]) == Err(short));
    assert!(rt; skip_boxes(&[0, 0, 0, 12, 1, 2, 3, 4]) == Err(HeadFault::Truncated { place: 8 }));
    assert!(rt; skip_boxes(&[0, 0, 0]) == Err(HeadFault::Truncated { place: 3 }));
    assert!(rt; skip_boxes(&[]) == Err(HeadFault::Truncated { place: 0 }));
}
