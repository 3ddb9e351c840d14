// The texts of names and faults inside a note.
ghost use Rattle.std.specs.Prelude.{◌≡◌, ◌/◌, ◌%◌, ◌^◌, Some};
ghost use Rattle.xs_notes.specs.Lines.{hex, setting_name, field_name, part_name, head_text, precinct_text, slice_text};

use std::fmt;
use xs_faults::{HeadFault, HeadField, Part, PrecinctFault, SliceFault};
use xs_params::Field;

/// A code in four hexadecimal digits.
#[derive(Drop)]
pub struct Code(pub u16);

impl fmt::Display for Code {
    ghost output = { λ code. Some (hex code.0) };

    fn fmt<W: fmt::Write>(&self, f: &mut fmt::Formatter<W>) -> fmt::Result {
        let [high, low] = self.0.to_be_bytes();
        write!(f, "{high:02x}{low:02x}")
    }
}

/// The upper and the lower half of a number.
pub fn halves_of(number: u32) -> (u16, u16)
    ensures high { result.0 ≡ number / 2 ^ 16 }
    ensures low { result.1 ≡ number % 2 ^ 16 }
{
    ((number / 0x1_0000) as u16, (number % 0x1_0000) as u16)
}

/// The name of a setting.
pub fn setting_name(field: Field) -> &'static str
    ensures { result.now ≡ setting_name field }
{
    match field {
        Field::Width => "width",
        Field::Height => "height",
        Field::Depth => "depth",
        Field::Bits => "bits",
        Field::Nlx => "nlx",
        Field::Nly => "nly",
        Field::Hsl => "slice",
        Field::Colour => "colour",
        Field::Weights => "weights",
        Field::Chunk => "chunk",
        Field::Share => "share",
        Field::PayloadType => "pt",
        Field::FirstTimestamp => "time",
        Field::Step => "step",
        Field::Boxes => "boxes",
        Field::Workers => "workers",
        Field::Feeders => "feeders",
        Field::Port => "port",
    }
}

/// The name of a field of a header.
pub fn field_name(field: HeadField) -> &'static str
    ensures { result.now ≡ field_name field }
{
    match field {
        HeadField::Wf => "wf",
        HeadField::Hf => "hf",
        HeadField::Area => "area",
        HeadField::Cw => "cw",
        HeadField::Hsl => "hsl",
        HeadField::Nc => "nc",
        HeadField::Ng => "ng",
        HeadField::Ss => "ss",
        HeadField::Bw => "bw",
        HeadField::Fq => "fq",
        HeadField::Br => "br",
        HeadField::Fslc => "fslc",
        HeadField::Ppoc => "ppoc",
        HeadField::Cpih => "cpih",
        HeadField::Nlx => "nlx",
        HeadField::Nly => "nly",
        HeadField::Slices => "slices",
        HeadField::Qpih => "qpih",
        HeadField::Fs => "fs",
        HeadField::Rm => "rm",
        HeadField::Bc => "bc",
        HeadField::Sx => "sx",
        HeadField::Sy => "sy",
        HeadField::Narrow => "narrow",
    }
}

/// The name of a part of a packet.
pub fn part_name(part: Part) -> &'static str
    ensures { result.now ≡ part_name part }
{
    match part {
        Part::Head => "head",
        Part::Significance => "significance",
        Part::Counts => "counts",
        Part::Data => "data",
        Part::Signs => "signs",
    }
}

/// The text of a header's fault.
#[derive(Drop)]
pub struct HeadText(pub HeadFault);

impl fmt::Display for HeadText {
    ghost output = { λ text. Some (head_text text.0) };

    fn fmt<W: fmt::Write>(&self, f: &mut fmt::Formatter<W>) -> fmt::Result {
        match self.0 {
            HeadFault::Truncated { place } => write!(f, "truncated {place}"),
            HeadFault::Marker { code, place } => write!(f, "marker {} {place}", Code(code)),
            HeadFault::Segment { code, place } => write!(f, "segment {} {place}", Code(code)),
            HeadFault::Length { code, length } => write!(f, "length {} {length}", Code(code)),
            HeadFault::Unsupported { field, value } => {
                write!(f, "unsupported {} {value}", field_name(field))
            }
            HeadFault::Twice { code } => write!(f, "twice {}", Code(code)),
            HeadFault::Absent { code } => write!(f, "absent {}", Code(code)),
            HeadFault::BoxLength { length, place } => write!(f, "box {length} {place}"),
            HeadFault::Memory => Ok(()),
        }
    }
}

/// The text of a precinct's fault.
#[derive(Drop)]
pub struct PrecinctText(pub PrecinctFault);

impl fmt::Display for PrecinctText {
    ghost output = { λ text. Some (precinct_text text.0) };

    fn fmt<W: fmt::Write>(&self, f: &mut fmt::Formatter<W>) -> fmt::Result {
        match self.0 {
            PrecinctFault::Truncated => write!(f, "truncated"),
            PrecinctFault::Overrun { packet, part } => {
                write!(f, "packet {packet} overrun {}", part_name(part))
            }
            PrecinctFault::Count { packet, value } => write!(f, "packet {packet} count {value}"),
            PrecinctFault::Memory => Ok(()),
        }
    }
}

/// The text of a slice's fault.
#[derive(Drop)]
pub struct SliceText(pub SliceFault);

impl fmt::Display for SliceText {
    ghost output = { λ text. Some (slice_text text.0) };

    fn fmt<W: fmt::Write>(&self, f: &mut fmt::Formatter<W>) -> fmt::Result {
        match self.0 {
            SliceFault::Short => write!(f, "short"),
            SliceFault::Head => write!(f, "head"),
            SliceFault::Precinct { precinct, fault } => {
                write!(f, "precinct {precinct} {}", PrecinctText(fault))
            }
            SliceFault::Trailing { place } => write!(f, "trailing {place}"),
            SliceFault::End => write!(f, "end"),
            SliceFault::Memory => Ok(()),
        }
    }
}
