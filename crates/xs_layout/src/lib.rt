//! Band geometry and the rules that every band is coded by, as functions of plain numbers, with the small types that
//! they speak of.
#![tactic(auto)]

ghost use Rattle.std.specs.Prelude.{◌≡◌, ◌⊎◌, ◌<◌, ◌≤◌};
ghost use Rattle.xs_layout.specs.Geometry.{ceil_div, components_of};
ghost use Rattle.xs_layout.specs.Limits.{fq_of, is_depth, is_precision};
ghost use Rattle.xs_layout.specs.Laws.{SidesMakeUp, TypesCounted};

pub mod limits;

/// How the components of a picture are sampled.
#[derive(Clone, Copy, Debug, PartialEq, Eq)]
pub enum Format {
    /// One component.
    Mono,
    /// Three components; the second and third have half the columns, rounded up.
    C422,
    /// Three components of one size.
    C444,
}

impl Format {
    /// How many components a picture has.
    pub fn components(self) -> u32
        ensures count { result ≡ components_of self }
        ensures some { (result ≡ 1) ⊎ (result ≡ 3) }
    {
        match self {
            Format::Mono => 1,
            Format::C422 | Format::C444 => 3,
        }
    }
}

/// Width and height in samples of the first component, the format, and the bits of a sample.
#[derive(Clone, Copy, Debug, PartialEq, Eq)]
pub struct Shape {
    pub width: u32,
    pub height: u32,
    pub format: Format,
    pub depth: u8,
}

/// The two quantisers of ISO/IEC 21122-1.
#[derive(Clone, Copy, Debug, PartialEq, Eq)]
pub enum Quant {
    DeadZone,
    Uniform,
}

/// The gain of a band, by which it is quantised more finely, and its priority, by which it is refined: the lower, the
/// earlier.
#[derive(Clone, Copy, Debug, PartialEq, Eq)]
pub struct Weight {
    pub gain: u8,
    pub priority: u8,
}

/// The quantisation (Q) and the refinement (R) of a precinct.
#[derive(Clone, Copy, Debug, PartialEq, Eq)]
pub struct Candidate {
    pub q: u8,
    pub r: u8,
}

/// Whether samples may have so many bits.
pub fn is_depth(depth: u8) -> bool
    ensures { result ≡ is_depth depth }
{
    matches!(depth, 8 | 10 | 12)
}

/// Whether the numbers that the transforms work on may have so many bits (Bw).
pub fn is_precision(bw: u8) -> bool
    ensures { result ≡ is_precision bw }
{
    matches!(bw, 18 | 20)
}

/// The bits of such numbers that are rounded away (Fq).
pub fn fq_of(bw: u8) -> u8
    ensures { result ≡ fq_of bw }
{
    if bw == 18 { 6 } else { 8 }
}

/// A quotient rounded up.
pub fn ceil_div(dividend: u32, divisor: u32) -> u32
    requires { 0 < divisor }
    ensures { result ≡ ceil_div dividend divisor }
{
    dividend.div_ceil(divisor)
}

/// The two sides of a wavelet level make up the low side of the level before.
pub fn sides_make_up()
    ensures { SidesMakeUp }
{}

/// There are as many band types as the formula says.
pub fn types_counted()
    ensures { TypesCounted }
{}
