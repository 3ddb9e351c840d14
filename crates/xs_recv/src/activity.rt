// What one thread does of a picture.
use std::alloc::Global;
use std::marker::Model;
use xs_board::{BoardPass, ClosedBoard, HeadRead};
use xs_capture::Packet;
use xs_faults::SliceFault;
use xs_handover::{HandPass, Handover};
use xs_io::Octets;
use xs_stripe::Stripe;

// What is read of the unit of a slice.
#[derive(Drop)]
pub(crate) enum SliceReading {
    // The rows, which are handed.
    Handed,
    // The first fault.
    Bad(SliceFault),
    // It is still to be read.
    Unread,
}

// A slice that was claimed, the bytes of its unit, and what is read of them.
#[derive(Drop)]
pub(crate) struct SliceCopy {
    pub(crate) slice: u32,
    pub(crate) bytes: Octets,
    pub(crate) reading: SliceReading,
}

// A stripe that was claimed and synthesised.
#[derive(Drop)]
pub(crate) struct MadeStripe {
    pub(crate) slice: u32,
    pub(crate) stripe: Stripe,
}

// The packets of a part.
#[derive(Drop)]
pub(crate) struct Feed {
    pub(crate) part: Vec<Packet>,
}

// Whether an activity only files its part, or claims and reads too, and by which number.
#[derive(Clone, Copy)]
pub(crate) enum Role {
    Feeder,
    Worker(u32),
}

// The passes of one thread.
#[derive(Drop)]
pub(crate) struct Passes {
    pub(crate) pass: BoardPass,
    pub(crate) hand: HandPass,
}

// What one thread does: it files its part of the packets, or it claims the header and slices, keeps their bytes and hands their
// rows, and claims and keeps stripes. Where memory was wanting it is starved, and nothing is known of what it keeps.
#[derive(Drop)]
pub(crate) struct Activity {
    pub(crate) alloc: Global,
    pub(crate) pass: BoardPass,
    pub(crate) hand: HandPass,
    pub(crate) part: Vec<Packet>,
    pub(crate) role: Role,
    pub(crate) head: Option<HeadRead>,
    pub(crate) kept: Vec<SliceCopy>,
    pub(crate) stripes: Vec<MadeStripe>,
    pub(crate) starved: bool,
}

impl Model for Activity {
    ghost use Rattle.std.specs.Prelude.{◌≡◌, false};
    ghost use Rattle.xs_board.specs.Passes.{actor, knows};
    ghost use Rattle.xs_handover.specs.Passes.{actor as hand_actor};
    ghost use Rattle.xs_recv.specs.Activities.{Doing, Keeps, KeepsRows};

    ghost Value = { Doing };

    ghost view = { λ a. record { pass = a.pass; hand = a.hand; part = a.part.items; head = a.head; kept = a.kept.items; stripes = a.stripes.items; starved = a.starved } };

    ghost invariant = { λ a. a.starved ≡ false → Keeps (actor a.pass).got a.head a.kept.items × KeepsRows (knows a.pass) a.kept.items (hand_actor a.hand) a.stripes.items };
}

// The passes of the caller, and the activities to which passes were split off.
#[derive(Drop)]
pub(crate) struct Team {
    pub(crate) pass: BoardPass,
    pub(crate) hand: HandPass,
    pub(crate) others: Vec<Activity>,
}

// The caller's pass of the handover, and the stripes that were made.
#[derive(Drop)]
pub(crate) struct Stripes {
    pub(crate) hand: HandPass,
    pub(crate) made: Vec<MadeStripe>,
}

// What is kept at the end: the header unit, copies of slices, stripes, and whether what was read of the copies is trusted.
#[derive(Drop)]
pub(crate) struct Kept {
    pub(crate) head: Option<HeadRead>,
    pub(crate) copies: Vec<SliceCopy>,
    pub(crate) stripes: Stripes,
    pub(crate) trusted: bool,
}

// What is kept, the board that is closed, and the handover.
#[derive(Drop)]
pub(crate) struct SweepEnd {
    pub(crate) board: ClosedBoard,
    pub(crate) handover: Handover,
    pub(crate) kept: Kept,
}
