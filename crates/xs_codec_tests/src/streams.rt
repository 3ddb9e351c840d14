// Codestreams that are decoded, and the first fault of others.
ghost use Rattle.std.specs.Prelude.{◌^◌, ◌<◌, length};

use std::alloc::Global;
use xs_faults::{Part, PrecinctFault, SliceFault};
use xs_params::Planes;
use xs_picture::{StreamFault, decode_picture};

// A black picture of 32 by 4 samples in one slice of four precincts, whose bands have flags.
const FLAGGED: [u8; 215] = [
    0xff, 0x10, 0xff, 0x50, 0, 2, 0xff, 0x12, 0, 0x1a, 0, 0, 0, 0xd7, 0, 0, 0, 0, 0, 0x20, 0, 4, 0,
    0, 0, 4, 1, 4, 8, 0x14, 0x84, 0, 0x10, 0, //
    0xff, 0x13, 0, 4, 8, 0x11, 0xff, 0x14, 0, 6, 0, 0, 0, 1, //
    0xff, 0x20, 0, 4, 0, 0, //
    0, 0, 0x27, 0, 0, 0x20, 0, 0x1a, 0, 0x38, 0, 0x80, 0xff, 0xf7, 0xff, 0xbf, 0xfd, 0xff, 0xe0, //
    0xff, 0, 0, 0, 0, 0, 0x0f, 0xf0, 0, 0, 0, 0, 0, 0xff, 0, 0, 0, 0, 0, 0x0f, 0xf0, 0, 0, 0, 0, 0, //
    0, 0, 0x20, 0, 0, 0xe0, 0, 0x1a, 0, 0, 0, 0xc0, //
    0xff, 0, 0, 0, 0, 0, 0x0f, 0xf0, 0, 0, 0, 0, 0, 0xff, 0, 0, 0, 0, 0, 0x0f, 0xf0, 0, 0, 0, 0, 0, //
    0, 0, 0x20, 0, 0, 0xe0, 0, 0x1a, 0, 0, 0, 0xc0, //
    0xff, 0, 0, 0, 0, 0, 0x0f, 0xf0, 0, 0, 0, 0, 0, 0xff, 0, 0, 0, 0, 0, 0x0f, 0xf0, 0, 0, 0, 0, 0, //
    0, 0, 0x20, 0, 0, 0xe0, 0, 0x1a, 0, 0, 0, 0xc0, //
    0xff, 0, 0, 0, 0, 0, 0x0f, 0xf0, 0, 0, 0, 0, 0, 0xff, 0, 0, 0, 0, 0, 0x0f, 0xf0, 0, 0, 0, 0, 0, //
    0xff, 0x11,
];

// The same with mode 0 in every band.
const COUNTED: [u8; 232] = [
    0xff, 0x10, 0xff, 0x50, 0, 2, 0xff, 0x12, 0, 0x1a, 0, 0, 0, 0xe8, 0, 0, 0, 0, 0, 0x20, 0, 4, 0,
    0, 0, 4, 1, 4, 8, 0x14, 0x84, 0, 0x10, 0, //
    0xff, 0x13, 0, 4, 8, 0x11, 0xff, 0x14, 0, 6, 0, 0, 0, 1, //
    0xff, 0x20, 0, 4, 0, 0, //
    0, 0, 0x26, 0, 0, 0, 0, 0x1a, 0, 0x38, 0, 0xff, 0xf7, 0xff, 0xbf, 0xfd, 0xff, 0xe0, //
    0xff, 0, 0, 0, 0, 0, 0x0f, 0xf0, 0, 0, 0, 0, 0, 0xff, 0, 0, 0, 0, 0, 0x0f, 0xf0, 0, 0, 0, 0, 0, //
    0, 0, 0x26, 0, 0, 0, 0, 0x1a, 0, 0x38, 0, 0xff, 0xf7, 0xff, 0xbf, 0xfd, 0xff, 0xe0, //
    0xff, 0, 0, 0, 0, 0, 0x0f, 0xf0, 0, 0, 0, 0, 0, 0xff, 0, 0, 0, 0, 0, 0x0f, 0xf0, 0, 0, 0, 0, 0, //
    0, 0, 0x26, 0, 0, 0, 0, 0x1a, 0, 0x38, 0, 0xff, 0xf7, 0xff, 0xbf, 0xfd, 0xff, 0xe0, //
    0xff, 0, 0, 0, 0, 0, 0x0f, 0xf0, 0, 0, 0, 0, 0, 0xff, 0, 0, 0, 0, 0, 0x0f, 0xf0, 0, 0, 0, 0, 0, //
    0, 0, 0x26, 0, 0, 0, 0, 0x1a, 0, 0x38, 0, 0xff, 0xf7, 0xff, 0xbf, 0xfd, 0xff, 0xe0, //
    0xff, 0, 0, 0, 0, 0, 0x0f, 0xf0, 0, 0, 0, 0, 0, 0xff, 0, 0, 0, 0, 0, 0x0f, 0xf0, 0, 0, 0, 0, 0, //
    0xff, 0x11,
];

// With raw counts.
const RAW: [u8; 220] = [
    0xff, 0x10, 0xff, 0x50, 0, 2, 0xff, 0x12, 0, 0x1a, 0, 0, 0, 0xdc, 0, 0, 0, 0, 0, 0x20, 0, 4, 0,
    0, 0, 4, 1, 4, 8, 0x14, 0x84, 0, 0x10, 0, //
    0xff, 0x13, 0, 4, 8, 0x11, 0xff, 0x14, 0, 6, 0, 0, 0, 1, //
    0xff, 0x20, 0, 4, 0, 0, //
    0, 0, 0x23, 0, 0, 0, 0x80, 0x1a, 0, 0x20, 0, 0xcc, 0xcc, 0, 0, //
    0xff, 0, 0, 0, 0, 0, 0x0f, 0xf0, 0, 0, 0, 0, 0, 0xff, 0, 0, 0, 0, 0, 0x0f, 0xf0, 0, 0, 0, 0, 0, //
    0, 0, 0x23, 0, 0, 0, 0x80, 0x1a, 0, 0x20, 0, 0xcc, 0xcc, 0, 0, //
    0xff, 0, 0, 0, 0, 0, 0x0f, 0xf0, 0, 0, 0, 0, 0, 0xff, 0, 0, 0, 0, 0, 0x0f, 0xf0, 0, 0, 0, 0, 0, //
    0, 0, 0x23, 0, 0, 0, 0x80, 0x1a, 0, 0x20, 0, 0xcc, 0xcc, 0, 0, //
    0xff, 0, 0, 0, 0, 0, 0x0f, 0xf0, 0, 0, 0, 0, 0, 0xff, 0, 0, 0, 0, 0, 0x0f, 0xf0, 0, 0, 0, 0, 0, //
    0, 0, 0x23, 0, 0, 0, 0x80, 0x1a, 0, 0x20, 0, 0xcc, 0xcc, 0, 0, //
    0xff, 0, 0, 0, 0, 0, 0x0f, 0xf0, 0, 0, 0, 0, 0, 0xff, 0, 0, 0, 0, 0, 0x0f, 0xf0, 0, 0, 0, 0, 0, //
    0xff, 0x11,
];

// With the signs apart, and flags.
const APART: [u8; 215] = [
    0xff, 0x10, 0xff, 0x50, 0, 2, 0xff, 0x12, 0, 0x1a, 0, 0, 0, 0xd7, 0, 0, 0, 0, 0, 0x20, 0, 4, 0,
    0, 0, 4, 1, 4, 8, 0x14, 0x84, 0, 0x10, 4, //
    0xff, 0x13, 0, 4, 8, 0x11, 0xff, 0x14, 0, 6, 0, 0, 0, 1, //
    0xff, 0x20, 0, 4, 0, 0, //
    0, 0, 0x27, 0, 0, 0x20, 0, 0x18, 0, 0x38, 2, 0x80, 0xff, 0xf7, 0xff, 0xbf, 0xfd, 0xff, 0xe0, //
    0xf0, 0, 0, 0, 0, 0, 0xf0, 0, 0, 0, 0, 0, 0xf0, 0, 0, 0, 0, 0, 0xf0, 0, 0, 0, 0, 0, 0xff, 0xff, //
    0, 0, 0x20, 0, 0, 0xe0, 0, 0x18, 0, 0, 2, 0xc0, //
    0xf0, 0, 0, 0, 0, 0, 0xf0, 0, 0, 0, 0, 0, 0xf0, 0, 0, 0, 0, 0, 0xf0, 0, 0, 0, 0, 0, 0xff, 0xff, //
    0, 0, 0x20, 0, 0, 0xe0, 0, 0x18, 0, 0, 2, 0xc0, //
    0xf0, 0, 0, 0, 0, 0, 0xf0, 0, 0, 0, 0, 0, 0xf0, 0, 0, 0, 0, 0, 0xf0, 0, 0, 0, 0, 0, 0xff, 0xff, //
    0, 0, 0x20, 0, 0, 0xe0, 0, 0x18, 0, 0, 2, 0xc0, //
    0xf0, 0, 0, 0, 0, 0, 0xf0, 0, 0, 0, 0, 0, 0xf0, 0, 0, 0, 0, 0, 0xf0, 0, 0, 0, 0, 0, 0xff, 0xff, //
    0xff, 0x11,
];

// A grey picture of which nothing is coded but counts. In its first precinct Q is 5 and the counts are raw, in the second Q is 0 and
// the truncation above predicts them.
const PREDICTED: [u8; 116] = [
    0xff, 0x10, 0xff, 0x50, 0, 2, 0xff, 0x12, 0, 0x1a, 0, 0, 0, 0, 0, 0, 0, 0, 0, 0x20, 0, 4, 0, 0,
    0, 4, 1, 4, 8, 0x14, 0x84, 0, 0x10, 0, //
    0xff, 0x13, 0, 4, 8, 0x11, 0xff, 0x14, 0, 6, 0, 0, 0, 1, //
    0xff, 0x20, 0, 4, 0, 0, //
    0, 0, 9, 5, 0, 0, 0x80, 0, 0, 0x20, 0, 0, 0, 0, 0, //
    0, 0, 0x0f, 0, 0, 0x50, 0, 0, 0, 0x50, 0, 0xff, 0xbf, 0xef, 0xfb, 0xfe, 0xff, 0xbf, 0xef, 0xfb,
    0xfe, //
    0, 0, 6, 0, 0, 0, 0, 0, 0, 8, 0, 0, //
    0, 0, 6, 0, 0, 0, 0, 0, 0, 8, 0, 0, //
    0xff, 0x11,
];

// A place, and the byte that stands there in place of another.
type Change = (usize, u8);

fn change(bytes: &mut [u8], changes: &[Change]) {
    for (place, value) in changes {
        if let Some(byte) = bytes.get_mut(*place) {
            *byte = *value;
        }
    }
}

// Whether each sample of the first line is the one, and each of the others the other.
fn has_lines(picture: &Planes, first: u16, other: u16) -> bool {
    for row in 0..picture.shape().height {
        let wanted = if row == 0 { first } else { other };
        for sample in picture.row(0, row) {
            if *sample != wanted {
                return false;
            }
        }
    }
    true
}

// Whether bytes are a codestream of a grey picture of 32 by 4 samples with these lines, and nothing more.
fn decodes(alloc: Global, bytes: &[u8], first: u16, other: u16) -> bool
    requires few { length bytes.now < 2 ^ 32 }
{
    let Ok((picture, size)) = decode_picture(alloc, bytes) else {
        return false;
    };
    let shape = picture.shape();
    let whole = shape.width == 32 && shape.height == 4 && size == bytes.len();
    whole && has_lines(&picture, first, other)
}

fn flagged_decodes(alloc: Global, changes: &[Change], first: u16, other: u16) -> bool {
    let mut bytes = FLAGGED;
    change(&mut bytes, changes);
    decodes(alloc, &bytes, first, other)
}

fn counted_decodes(alloc: Global, changes: &[Change]) -> bool {
    let mut bytes = COUNTED;
    change(&mut bytes, changes);
    decodes(alloc, &bytes, 0, 0)
}

fn raw_decodes(alloc: Global, changes: &[Change]) -> bool {
    let mut bytes = RAW;
    change(&mut bytes, changes);
    decodes(alloc, &bytes, 0, 0)
}

fn predicted_decodes(alloc: Global, changes: &[Change]) -> bool {
    let mut bytes = PREDICTED;
    change(&mut bytes, changes);
    decodes(alloc, &bytes, 128, 128)
}

// 'Bit-plane counts': flags, raw counts, prediction. 'Truncation, data and signs'.
#[test]
fn pictures_of_each_form_are_decoded(rt: HostRuntime) {
    let alloc = rt.alloc();
    assert!(rt; flagged_decodes(alloc, &[], 0, 0));
    assert!(rt;
        flagged_decodes(alloc, &[(33, 1)], 0, 128),
        "counts under a flag are the truncation"
    );
    assert!(rt; counted_decodes(alloc, &[]));
    assert!(rt;
        counted_decodes(alloc, &[(63, 0x3f), (64, 0xff)]),
        "the bytes of signs that are not apart"
    );
    assert!(rt; raw_decodes(alloc, &[]));
    assert!(rt;
        raw_decodes(alloc, &[(59, 0xff), (100, 0xff), (141, 0xff), (182, 0xff)]),
        "modes of raw counts"
    );
    assert!(rt; decodes(alloc, &APART, 0, 0));
    assert!(rt; predicted_decodes(alloc, &[]));
    assert!(rt;
        predicted_decodes(alloc, &[(65, 0x33), (66, 0x33), (67, 0x33), (68, 0x33)]),
        "raw counts below the truncation"
    );
}

fn fault_of(alloc: Global, bytes: &[u8]) -> Option<StreamFault>
    requires few { length bytes.now < 2 ^ 32 }
{
    decode_picture(alloc, bytes).err()
}

fn flagged_fault(alloc: Global, changes: &[Change]) -> Option<StreamFault> {
    let mut bytes = FLAGGED;
    change(&mut bytes, changes);
    fault_of(alloc, &bytes)
}

fn counted_fault(alloc: Global, changes: &[Change]) -> Option<StreamFault> {
    let mut bytes = COUNTED;
    change(&mut bytes, changes);
    fault_of(alloc, &bytes)
}

// The fault of the one slice whose first precinct has this one.
fn in_precinct(fault: PrecinctFault) -> Option<StreamFault> {
    let fault = SliceFault::Precinct { precinct: 0, fault };
    Some(StreamFault::Slice { slice: 0, fault })
}

fn overrun(part: Part) -> Option<StreamFault> {
    in_precinct(PrecinctFault::Overrun { packet: 0, part })
}

fn of_slice(fault: SliceFault) -> Option<StreamFault> {
    Some(StreamFault::Slice { slice: 0, fault })
}

// Whether so many of its first bytes are told to be cut where they end.
fn is_cut(alloc: Global, count: usize) -> bool {
    let bytes = FLAGGED;
    let count = count.min(bytes.len());
    let place = count as u32;
    fault_of(alloc, &bytes[..count]) == Some(StreamFault::Cut { place })
}

#[test]
fn the_first_fault_is_told(rt: HostRuntime) {
    let alloc = rt.alloc();
    assert!(rt; is_cut(alloc, 100));
    assert!(rt; flagged_fault(alloc, &[(53, 1)]) == of_slice(SliceFault::Head));
    assert!(rt; flagged_fault(alloc, &[(56, 4)]) == overrun(Part::Head));
    assert!(rt; flagged_fault(alloc, &[(56, 5)]) == overrun(Part::Significance));
    assert!(rt; flagged_fault(alloc, &[(56, 12)]) == overrun(Part::Counts));
    assert!(rt; flagged_fault(alloc, &[(56, 38)]) == overrun(Part::Data));
    assert!(rt; flagged_fault(alloc, &[(214, 0x10)]) == Some(StreamFault::End { place: 213 }));
    assert!(rt;
        flagged_fault(alloc, &[(13, 216)])
            == Some(StreamFault::Lcod {
                stated: 216,
                length: 215
            })
    );
    assert!(rt; counted_fault(alloc, &[(61, 0x19)]) == overrun(Part::Data));
    assert!(rt; counted_fault(alloc, &[(63, 0x30)]) == overrun(Part::Counts));
    assert!(rt;
        counted_fault(alloc, &[(66, 0xff), (67, 0x7f)])
            == in_precinct(PrecinctFault::Count {
                packet: 0,
                value: 16
            }),
        "sixteen ones and a zero"
    );
}
