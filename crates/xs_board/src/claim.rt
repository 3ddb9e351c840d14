// What becomes of a claim.
use crate::head::HeadRead;
use xs_io::Octets;

/// What became of the claim of the header unit.
#[derive(Drop)]
pub enum Claimed {
    /// The header unit, as it was read.
    Got(HeadRead),
    /// The unit's summary has only these words.
    NotWhole(u64),
    /// The unit was claimed before.
    Gone,
}

/// What became of the claim of a slice's unit.
#[derive(Drop)]
pub enum SliceClaim {
    /// The bytes of the unit, fewer than 2^32.
    Got(Octets),
    /// The unit's summary has only these words.
    NotWhole(u64),
    /// The unit was claimed before.
    Gone,
}
