// The codes of a header: docs/FORMAT.md, 'Codestream layout'.

/// The marker that begins a codestream.
pub const SOC: u16 = 0xff10;

/// Capabilities.
pub const CAP: u16 = 0xff50;

/// The picture header.
pub const PIH: u16 = 0xff12;

/// The table of components.
pub const CDT: u16 = 0xff13;

/// The table of weights.
pub const WGT: u16 = 0xff14;

/// A comment.
pub const COM: u16 = 0xff15;

/// Nonlinearity.
pub const NLT: u16 = 0xff16;

/// Component-dependent wavelet decomposition.
pub const CWD: u16 = 0xff17;

/// Colour transformation specification.
pub const CTS: u16 = 0xff18;

/// Component registration.
pub const CRG: u16 = 0xff19;

/// The marker that begins a slice.
pub const SLH: u16 = 0xff20;
