// What an encoder is asked for.
use crate::header::Weights;
use xs_io::Octets;
use xs_layout::{Quant, Shape};

/// What an encoder, and the ends around it, are asked for.
#[derive(Debug, Drop)]
pub struct Settings {
    pub shape: Shape,
    /// Bits of the numbers that the transforms work on.
    pub bits: u8,
    /// Wavelet levels across.
    pub nlx: u8,
    /// Wavelet levels down.
    pub nly: u8,
    /// Height of a slice in precincts.
    pub hsl: u16,
    /// Whether three components are turned to luma and colour differences.
    pub colour: bool,
    pub quant: Quant,
    /// Whether the signs of a packet stand in a part of their own.
    pub signs_apart: bool,
    /// The weights of the bands; the default ones where none are given.
    pub weights: Option<Weights>,
    /// The most bytes that a slice may have.
    pub share: u32,
    /// Whether a slice is filled up to that many.
    pub fill: bool,
    /// The most bytes of a unit in one packet.
    pub chunk: u32,
    /// What a unit of the packets is.
    pub mode: Mode,
    /// RTP payload type.
    pub payload_type: u8,
    /// RTP synchronisation source.
    pub ssrc: u32,
    /// RTP timestamp of the first picture.
    pub first_timestamp: u32,
    /// From one picture's RTP timestamp to the next.
    pub step: u32,
    /// Boxes that are sent before the header.
    pub boxes: Octets,
    pub workers: u8,
    pub feeders: u8,
    /// UDP port of the packets.
    pub port: u32,
}

/// What a unit of the packets is.
#[derive(Clone, Copy, Debug)]
pub enum Mode {
    /// The header with the boxes before it, or a slice.
    Slice,
    /// The whole codestream with the boxes before it.
    Stream,
}

/// A setting that can be refused.
#[derive(Clone, Copy, Debug, PartialEq, Eq)]
pub enum Field {
    Width,
    Height,
    Depth,
    Bits,
    Nlx,
    Nly,
    Hsl,
    Colour,
    Weights,
    Chunk,
    Share,
    PayloadType,
    FirstTimestamp,
    Step,
    Boxes,
    Workers,
    Feeders,
    Port,
}

/// A setting that is refused, and its value.
#[derive(Clone, Copy, Debug, PartialEq, Eq)]
pub struct Setting {
    pub field: Field,
    pub value: u64,
}
