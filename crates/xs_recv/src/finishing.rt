// What the caller finishes a picture with.
use crate::activity::{SliceCopy, Stripes};
use std::alloc::Global;
use xs_board::HeadRead;
use xs_handover::Handover;

// The handover that no thread shares any more, and the stripes that are made of it.
#[derive(Drop)]
pub(crate) struct Finishing {
    pub(crate) handover: Handover,
    pub(crate) stripes: Stripes,
}

// What is kept beside the stripes.
#[derive(Drop)]
pub(crate) struct Left {
    pub(crate) head: Option<HeadRead>,
    pub(crate) copies: Vec<SliceCopy>,
    pub(crate) trusted: bool,
}

// The copies of slices in order, and whether what was read of them is trusted.
#[derive(Drop)]
pub(crate) struct Places {
    pub(crate) alloc: Global,
    pub(crate) list: Vec<Option<SliceCopy>>,
    pub(crate) trusted: bool,
}
