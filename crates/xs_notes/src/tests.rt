// Notes and their lines.
ghost use Rattle.std.specs.Prelude.{◌≢◌, IsTrue};
ghost use Rattle.xs_faults.specs.Names.{NamesSliceFault};

use crate::{Note, report};
use std::alloc::Global;
use std::test::Fail;
use xs_faults::{HeadFault, HeadField, Part, PrecinctFault, SliceFault};
use xs_io::{Memory, Octets};
use xs_params::{Field, Setting};

fn names_head(fault: HeadFault) -> bool
    ensures { IsTrue result → fault ≢ HeadFault.Memory }
{
    !matches!(fault, HeadFault::Memory)
}

fn names_precinct(fault: PrecinctFault) -> bool
    ensures { IsTrue result → fault ≢ PrecinctFault.Memory }
{
    !matches!(fault, PrecinctFault::Memory)
}

fn names_slice(fault: SliceFault) -> bool
    ensures { IsTrue result → NamesSliceFault fault }
{
    match fault {
        SliceFault::Precinct { fault, .. } => names_precinct(fault),
        SliceFault::Memory => false,
        SliceFault::Short | SliceFault::Head | SliceFault::Trailing { .. } | SliceFault::End =>
            true,
    }
}

// Reports a note of which the check does not see that its fault is named.
fn line_of(alloc: Global, note: &Note) -> Result<Octets, Memory> {
    match *note {
        Note::DamagedHeader { fault, .. } if !names_head(fault) => Err(Memory),
        Note::DamagedSlice { fault, .. } if !names_slice(fault) => Err(Memory),
        _ => report(alloc, note),
    }
}

#[test]
fn lines(rt: HostRuntime) -> Result<(), Fail> {
    let width = Setting {
        field: Field::Width,
        value: 31,
    };
    let slice = Setting {
        field: Field::Hsl,
        value: 65536,
    };
    let segment = HeadFault::Segment {
        code: 0xff16,
        place: 34,
    };
    let marker = HeadFault::Marker { code: 0, place: 0 };
    let absent = HeadFault::Absent { code: 0x0a12 };
    let fq = HeadFault::Unsupported {
        field: HeadField::Fq,
        value: 8,
    };
    let boxed = HeadFault::BoxLength {
        length: 7,
        place: 0,
    };
    let count = PrecinctFault::Count {
        packet: 0,
        value: 16,
    };
    let data = PrecinctFault::Overrun {
        packet: 0,
        part: Part::Data,
    };
    let counted = SliceFault::Precinct {
        precinct: 0,
        fault: count,
    };
    let overrun = SliceFault::Precinct {
        precinct: 0,
        fault: data,
    };
    let trailing = SliceFault::Trailing { place: 7 };
    let rows = [
        (Note::Words { place: 0 }, "words 0\n"),
        (Note::Setting(width), "setting width 31\n"),
        (Note::Setting(slice), "setting slice 65536\n"),
        (Note::InputCut { place: 440 }, "input cut 440\n"),
        (
            Note::InputLimit { limit: 1 << 30 },
            "input limit 1073741824\n",
        ),
        (Note::InputPictures { count: 257 }, "input pictures 257\n"),
        (
            Note::InputMagic { value: 0x000a_b20d },
            "input magic 000ab20d\n",
        ),
        (Note::InputLink { value: 113 }, "input link 113\n"),
        (
            Note::Budget {
                picture: 0,
                slice: 0,
                size: 274,
                share: 273,
            },
            "budget picture 0 slice 0 size 274 share 273\n",
        ),
        (
            Note::MissingHeader { picture: 0 },
            "missing picture 0 header\n",
        ),
        (
            Note::MissingSlice {
                picture: u32::MAX,
                slice: 1,
            },
            "missing picture 4294967295 slice 1\n",
        ),
        (
            Note::DamagedHeader {
                picture: 0,
                fault: segment,
            },
            "damaged picture 0 header segment ff16 34\n",
        ),
        (
            Note::DamagedHeader {
                picture: 0,
                fault: marker,
            },
            "damaged picture 0 header marker 0000 0\n",
        ),
        (
            Note::DamagedHeader {
                picture: 0,
                fault: absent,
            },
            "damaged picture 0 header absent 0a12\n",
        ),
        (
            Note::DamagedHeader {
                picture: 0,
                fault: fq,
            },
            "damaged picture 0 header unsupported fq 8\n",
        ),
        (
            Note::DamagedHeader {
                picture: 0,
                fault: boxed,
            },
            "damaged picture 0 header box 7 0\n",
        ),
        (
            Note::DamagedSlice {
                picture: 0,
                slice: 0,
                fault: counted,
            },
            "damaged picture 0 slice 0 precinct 0 packet 0 count 16\n",
        ),
        (
            Note::DamagedSlice {
                picture: 0,
                slice: 0,
                fault: overrun,
            },
            "damaged picture 0 slice 0 precinct 0 packet 0 overrun data\n",
        ),
        (
            Note::DamagedSlice {
                picture: 3,
                slice: 2,
                fault: trailing,
            },
            "damaged picture 3 slice 2 trailing 7\n",
        ),
        (
            Note::DamagedLength {
                picture: 0,
                stated: 1,
                actual: 365,
            },
            "damaged picture 0 length 1 365\n",
        ),
        (Note::Stepped { count: 2 }, "stepped 2\n"),
        (Note::ReadFault, "read fault\n"),
    ];
    for (note, line) in &rows {
        assert_eq!(rt; line_of(rt.alloc(), note)?.as_slice(), line.as_bytes());
    }
    Ok(())
}
