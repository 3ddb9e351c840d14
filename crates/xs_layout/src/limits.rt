//! The accepted values of settings and headers, each range once: the numbers of `specs/Limits`.

pub const LEAST_WIDTH: u32 = 32;

pub const MOST_WIDTH: u32 = 8192;

pub const LEAST_HEIGHT: u32 = 4;

pub const MOST_HEIGHT: u32 = 8192;
/// Samples of the first component.
pub const MOST_AREA: u64 = 1 << 24;
/// Wavelet levels across, of which there is one at least.
pub const MOST_ACROSS: u8 = 5;
/// Wavelet levels down.
pub const MOST_DOWN: u8 = 2;

pub const MOST_SLICES: u32 = 2047;
/// The greatest gain that settings may give.
pub const MOST_GAIN: u8 = 15;
/// How insignificant code groups are coded (Rm).
pub const MOST_RUN_MODE: u8 = 1;

/// Bytes of a unit in one packet.
pub const LEAST_CHUNK: u32 = 64;

pub const MOST_CHUNK: u32 = 8192;
/// Packets of a unit.
pub const MOST_PACKETS: u32 = 512;
/// Bytes of a slice.
pub const LEAST_SHARE: u32 = 64;
/// Bytes of a codestream, in which its header has at most [`HEADER_ROOM`].
pub const MOST_STREAM: u64 = 1 << 32;

pub const HEADER_ROOM: u64 = 4096;

pub const LEAST_PAYLOAD_TYPE: u8 = 96;

pub const MOST_PAYLOAD_TYPE: u8 = 127;

pub const MOST_FIRST_TIMESTAMP: u32 = 1 << 31;

pub const MOST_STEP: u32 = 4_194_304;
/// Bytes of boxes.
pub const MOST_BOXES: usize = 2048;

pub const MOST_WORKERS: u8 = 16;

pub const MOST_FEEDERS: u8 = 8;

pub const MOST_PORT: u32 = 65535;
