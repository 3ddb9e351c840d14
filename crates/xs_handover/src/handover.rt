// The handover and its passes.
use crate::block::RowBlock;
use xs_lanes::{Lanes, Pass};

/// A handover for the slices of one picture. Threads share it by reference, each with a pass of its own.
#[derive(Drop)]
pub struct Handover {
    pub(crate) lanes: Lanes<RowBlock>,
}

/// What a thread hands rows over and claims stripes with. Contracts see in it what it did.
#[derive(Drop)]
pub struct HandPass {
    pub(crate) pass: Pass<RowBlock>,
}
