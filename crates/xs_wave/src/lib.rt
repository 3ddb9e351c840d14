//! The 5/3 wavelet: lines, and planes of every size that pictures have.
#![tactic(auto)]

ghost use Rattle.xs_wave.specs.Within.{TransformsWithin};

mod across;
mod analysis;
mod bands;
mod columns;
mod levels;
mod lifting;
mod lifts;
mod lines;
mod planes;
mod synthesis;

pub use analysis::analyse_plane;
pub use bands::BandPlanes;
pub use lines::{analyse_line, synthesise_line};
pub use planes::Plane;
pub use synthesis::synthesise_plane;

/// The transforms look at no entry outside a plane or its bands.
pub fn transforms_within()
    ensures { TransformsWithin }
{}
