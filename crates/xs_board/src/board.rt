// The board and its passes.
ghost use Rattle.std.specs.Prelude.{◌≡◌, ◌<◌};
ghost use Rattle.xs_lanes.specs.Passes.{lane_count};

use crate::head::HeadRead;
use once_cell::race::{Note, OnceBox};
use xs_capture::Packet;
use xs_lanes::{Lanes, Pass};

/// A board for the packets of one picture. Unit 0 is the header's, and unit `1 + k` that of slice `k`. Threads share it by
/// reference, each with a pass of its own.
#[derive(Drop)]
pub struct Board {
    pub(crate) lanes: Lanes<Packet>,
    pub(crate) head: OnceBox<HeadRead>,
    pub(crate) units: u32,
    ghost has_unit: { 0 < units },
    ghost has_lanes: { lane_count lanes ≡ units },
}

/// What a thread files and claims with. Contracts see in it what it did, and the header that it knows.
#[derive(Drop)]
pub struct BoardPass {
    pub(crate) pass: Pass<Packet>,
    pub(crate) note: Note<HeadRead>,
}
