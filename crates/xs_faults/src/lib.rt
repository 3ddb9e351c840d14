//! What can be wrong with headers, slices and codestreams of JPEG XS (ISO/IEC 21122-1), and what an encoder can refuse.
#![tactic(auto)]

ghost use Rattle.std.specs.Prelude.{◌≡◌};

use thiserror::Error;
use xs_io::Memory;

// What can be wrong with a header.

/// A field of the picture header or of the component table, or a quantity that such fields give together.
#[derive(Clone, Copy, Debug, PartialEq, Eq)]
pub enum HeadField {
    /// Width of the picture.
    Wf,
    /// Height of the picture.
    Hf,
    /// Width times height.
    Area,
    /// Width of a column of precincts.
    Cw,
    /// Height of a slice in precincts.
    Hsl,
    /// Number of components.
    Nc,
    /// Coefficients in a code group.
    Ng,
    /// Code groups in a significance group.
    Ss,
    /// Bits of the numbers that the transforms work on.
    Bw,
    /// Bits of them that are rounded away.
    Fq,
    /// Bits of a raw bit-plane count.
    Br,
    /// Coding of slices.
    Fslc,
    /// Order of the packets.
    Ppoc,
    /// Colour transform.
    Cpih,
    /// Wavelet levels across.
    Nlx,
    /// Wavelet levels down.
    Nly,
    /// Number of slices.
    Slices,
    /// Quantiser.
    Qpih,
    /// Coding of signs.
    Fs,
    /// Run mode.
    Rm,
    /// Precision of a component.
    Bc,
    /// Sampling of a component across.
    Sx,
    /// Sampling of a component down.
    Sy,
    /// Width of the narrowest component.
    Narrow,
}

/// Why bytes are no header: the first cause in their order. Places count from the first of these bytes.
#[derive(Clone, Copy, Debug, PartialEq, Eq, Error)]
pub enum HeadFault {
    /// The bytes end inside the header.
    #[error("the header is cut")]
    Truncated { place: u32 },
    /// A marker stands where no such marker may.
    #[error("a marker is out of place")]
    Marker { code: u16, place: u32 },
    /// A segment is not known.
    #[error("a segment is not known")]
    Segment { code: u16, place: u32 },
    /// A segment has a wrong length.
    #[error("a segment has a wrong length")]
    Length { code: u16, length: u16 },
    /// A field has a value that is not supported.
    #[error("a value is not supported")]
    Unsupported { field: HeadField, value: u32 },
    /// A segment stands for the second time.
    #[error("a segment stands twice")]
    Twice { code: u16 },
    /// A segment is not there, or too late.
    #[error("a segment is not there")]
    Absent { code: u16 },
    /// A box before the header has a wrong length.
    #[error("a box has a wrong length")]
    BoxLength { length: u32, place: u32 },
    /// Memory was wanting.
    #[error("out of memory")]
    Memory,
}

// What can be wrong with precincts, slices and codestreams.

/// Why bits are not the bit-plane counts of a line: the first cause in their order. Code groups are numbered from 0 in the
/// line.
#[derive(Clone, Copy, Debug, PartialEq, Eq, Error)]
pub enum CountFault {
    /// They end inside a count.
    #[error("the counts are cut")]
    Ended,
    /// A count is over 15; its value.
    #[error("a bit-plane count is out of range")]
    Range { group: u32, value: u32 },
    /// Memory was wanting.
    #[error("out of memory")]
    Memory,
}

/// A part of a packet.
#[derive(Clone, Copy, Debug, PartialEq, Eq)]
pub enum Part {
    Head,
    Significance,
    Counts,
    Data,
    Signs,
}

/// Why bytes are no precinct: the first cause in their order. Packets are numbered from 0 in the precinct.
#[derive(Clone, Copy, Debug, PartialEq, Eq, Error)]
pub enum PrecinctFault {
    /// The bytes end inside the precinct.
    #[error("the precinct is cut")]
    Truncated,
    /// A part of a packet goes past the bytes that it may have.
    #[error("a part of a packet is too long")]
    Overrun { packet: u32, part: Part },
    /// A bit-plane count is over 15.
    #[error("a bit-plane count is out of range")]
    Count { packet: u32, value: u32 },
    /// Memory was wanting.
    #[error("out of memory")]
    Memory,
}

/// Why bytes are no slice: the first cause in their order. Precincts are numbered from 0 in the picture.
#[derive(Clone, Copy, Debug, PartialEq, Eq, Error)]
pub enum SliceFault {
    /// There are fewer bytes than a slice header has.
    #[error("the slice is shorter than its header")]
    Short,
    /// The bytes do not begin with the slice's header.
    #[error("the slice header is wrong")]
    Head,
    /// A precinct is not in the grammar.
    #[error("a precinct is wrong")]
    Precinct { precinct: u32, fault: PrecinctFault },
    /// Bytes follow the slice, from this place on.
    #[error("bytes follow the slice")]
    Trailing { place: u32 },
    /// The last slice does not end with the end of the codestream.
    #[error("the end of the codestream is not there")]
    End,
    /// Memory was wanting.
    #[error("out of memory")]
    Memory,
}

/// Why bytes are no codestream: the first cause in their order.
#[derive(Clone, Copy, Debug, PartialEq, Eq, Error)]
pub enum StreamFault {
    /// The bytes end inside the codestream; the place is their number.
    #[error("the codestream is cut")]
    Cut { place: u32 },
    /// The header is wrong.
    #[error("the header is wrong")]
    Head(HeadFault),
    /// A slice is wrong.
    #[error("a slice is wrong")]
    Slice { slice: u32, fault: SliceFault },
    /// Two bytes after the last slice are not the end of a codestream.
    #[error("the end of the codestream is not there")]
    End { place: u32 },
    /// The length that the header states is not that of the codestream.
    #[error("the stated length is wrong")]
    Lcod { stated: u32, length: u32 },
    /// Memory was wanting.
    #[error("out of memory")]
    Memory,
}

// What an encoder can refuse.

/// A slice that is over its share with the coarsest candidate, and the bytes that it then has.
#[derive(Clone, Copy, Debug, PartialEq, Eq)]
pub struct Budget {
    pub slice: u32,
    pub size: u64,
    pub share: u32,
}

/// Why a slice, or a picture, was not written.
#[derive(Clone, Copy, Debug, PartialEq, Eq, Error)]
pub enum SliceRefusal {
    /// It does not fit its share.
    #[error("a slice is over its share")]
    Budget(Budget),
    /// Memory was wanting.
    #[error("out of memory")]
    Memory,
}

// Want of memory is a fault of each.

impl From<Memory> for HeadFault {
    ghost use Rattle.xs_faults.specs.declared.HeadFault.TheVariants.{Memory};

    ghost from_gives = { λ _ fault. fault ≡ Memory };

    fn from(_memory: Memory) -> HeadFault {
        HeadFault::Memory
    }
}

impl From<Memory> for CountFault {
    ghost use Rattle.xs_faults.specs.declared.CountFault.TheVariants.{Memory};

    ghost from_gives = { λ _ fault. fault ≡ Memory };

    fn from(_memory: Memory) -> CountFault {
        CountFault::Memory
    }
}

impl From<Memory> for PrecinctFault {
    ghost use Rattle.xs_faults.specs.declared.PrecinctFault.TheVariants.{Memory};

    ghost from_gives = { λ _ fault. fault ≡ Memory };

    fn from(_memory: Memory) -> PrecinctFault {
        PrecinctFault::Memory
    }
}

impl From<Memory> for SliceFault {
    ghost use Rattle.xs_faults.specs.declared.SliceFault.TheVariants.{Memory};

    ghost from_gives = { λ _ fault. fault ≡ Memory };

    fn from(_memory: Memory) -> SliceFault {
        SliceFault::Memory
    }
}

impl From<Memory> for StreamFault {
    ghost use Rattle.xs_faults.specs.declared.StreamFault.TheVariants.{Memory};

    ghost from_gives = { λ _ fault. fault ≡ Memory };

    fn from(_memory: Memory) -> StreamFault {
        StreamFault::Memory
    }
}

impl From<Memory> for SliceRefusal {
    ghost use Rattle.xs_faults.specs.declared.SliceRefusal.TheVariants.{Memory};

    ghost from_gives = { λ _ fault. fault ≡ Memory };

    fn from(_memory: Memory) -> SliceRefusal {
        SliceRefusal::Memory
    }
}
