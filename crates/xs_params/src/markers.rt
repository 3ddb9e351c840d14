//! The markers that stand alone, or begin a slice, as bytes.

/// Begins a codestream (SOC).
pub const SOC: [u8; 2] = [0xff, 0x10];
/// Begins a slice (SLH).
pub const SLH: [u8; 2] = [0xff, 0x20];
/// Ends a codestream (EOC).
pub const EOC: [u8; 2] = [0xff, 0x11];
