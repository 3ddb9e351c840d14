// What one thread does of a picture.
use crate::rows::ComponentRows;
use std::alloc::Global;
use xs_faults::Budget;
use xs_geometry::SliceRows;
use xs_io::Octets;
use xs_lanes::{Closed, Lanes, Pass};
use xs_params::{Header, Planes};
use xs_slice_write::SliceScratch;

// What all activities of a picture share: the lanes, and what is encoded.
#[derive(Clone, Copy)]
pub(crate) struct Job<'a> {
    pub(crate) lanes: &'a Lanes<ComponentRows>,
    pub(crate) picture: &'a Planes,
    pub(crate) header: &'a Header,
    pub(crate) share: u32,
    pub(crate) fill: bool,
}

// Whether an activity transforms a component, or codes slices, and by which number.
#[derive(Clone, Copy)]
pub(crate) enum Role {
    Component(u32),
    Coder(u32),
}

// What came of a slice: its bytes, or that it is over its share.
#[derive(Drop)]
pub(crate) enum CodedOutcome {
    Bytes(Octets),
    Over(Budget),
}

// A slice that was got and coded.
#[derive(Drop)]
pub(crate) struct CodedSlice {
    pub(crate) slice: u32,
    pub(crate) outcome: CodedOutcome,
}

// What one thread does: it files the rows of a component, or it claims slices and keeps what comes of them. Where memory was
// wanting it is starved.
#[derive(Drop)]
pub(crate) struct Activity {
    pub(crate) alloc: Global,
    pub(crate) pass: Pass<ComponentRows>,
    pub(crate) role: Role,
    pub(crate) kept: Vec<CodedSlice>,
    pub(crate) starved: bool,
}

// A coder's room, in which it codes one slice after the other.
#[derive(Drop)]
pub(crate) struct Room {
    pub(crate) rows: SliceRows,
    pub(crate) scratch: SliceScratch,
}

// The pass of the caller, and the activities to which passes were split off.
#[derive(Drop)]
pub(crate) struct Team {
    pub(crate) pass: Pass<ComponentRows>,
    pub(crate) others: Vec<Activity>,
}

// All slices of a picture, in the order in which they were coded, how many they are, and the lanes, which are closed.
#[derive(Drop)]
pub(crate) struct Coded {
    pub(crate) lanes: Closed<ComponentRows>,
    pub(crate) slices: Vec<CodedSlice>,
    pub(crate) count: u32,
}
