// Laws of captures, offers and selections.
ghost use Rattle.xs_capture.specs.Laws.{CutOrWhole, FramesAreOne, FrameIsRead, OneEnd, OneSelection, SelectionExists, SelectionOfSet, TimestampsExist};

/// Bytes are whole frames, or are cut at a place.
pub fn cut_or_whole()
    ensures { CutOrWhole }
{}

/// Bytes have one list of frames, and are cut at one place or not at all.
#[tactic(auto, using(crate::proofs::OneCapture::frames_are_one))]
pub fn frames_are_one()
    ensures { FramesAreOne }
{}

/// What is read at a place is the frame that stands there.
#[tactic(auto, using(crate::proofs::WholeFrames::frame_is_read))]
pub fn frame_is_read()
    ensures { FrameIsRead }
{}

/// The offers of a capture have a list of timestamps.
pub fn timestamps_exist()
    ensures { TimestampsExist }
{}

/// Offers have a selection.
#[tactic(auto, using(crate::proofs::Firsts::selection_exists))]
pub fn selection_exists()
    ensures { SelectionExists }
{}

/// A selection hangs on which offers there are, and neither on their order nor on how often each is there.
#[tactic(auto, using(crate::proofs::Selections::selection_of_set))]
pub fn selection_of_set()
    ensures { SelectionOfSet }
{}

/// Where offers agree there is one selection of them.
pub fn one_selection()
    ensures { OneSelection }
{}

/// A unit ends at one place.
#[tactic(auto, using(crate::proofs::Selections::one_end))]
pub fn one_end()
    ensures { OneEnd }
{}
