// The answer, of what is kept at the end.
ghost use Rattle.std.specs.Prelude.{◌≡◌, ◌≢◌, ◌⊎◌, [], Some, IfOk, IfSome, IsSome, MatchResult};
ghost use Rattle.xs_params.specs.Accepted.{IsAccepted};
ghost use Rattle.xs_params.specs.Geometry.{slice_count};
ghost use Rattle.xs_params.specs.Rows.{Rows};
ghost use Rattle.xs_lanes.specs.Knowing.{IsChoice};
ghost use Rattle.xs_lanes.specs.Settled.{IsDone};
ghost use Rattle.xs_capture.specs.Selection.{AreMissing};
ghost use Rattle.xs_stored.specs.Stored.{held_in};
ghost use Rattle.xs_handover.specs.Blocks.{blocks};
ghost use Rattle.xs_handover.specs.Passes.{actor};
ghost use Rattle.xs_recv.specs.Filed.{IsReceivable};
ghost use Rattle.xs_recv.specs.Received.{HasHeader, IsReceived, IsSynthesised};
ghost use Rattle.xs_recv.specs.Reading.{IsStop};
ghost use Rattle.xs_recv.specs.Sweeping.{IsGoodHead, IsHeadOf, IsKeptOf};
ghost use Rattle.xs_recv.specs.Finishing.{AreStripesOf, IsAnswerTo, IsFinished, IsFinishing, kept_of};

use crate::activity::{Kept, MadeStripe, SweepEnd};
use crate::finishing::{Finishing, Left};
use crate::head::spell_header;
use crate::picture::fill_picture;
use crate::received::{Damage, Received, Reception, Stop, damaged};
use std::alloc::Global;
use xs_board::{ClosedBoard, HeadRead, Reading};
use xs_geometry::Geometry;
use xs_io::{Memory, Numbers};
use xs_params::Header;

// What is received, of what is kept.
pub(crate) fn answer(alloc: Global, ended: SweepEnd) -> Result<Reception, Memory>
    requires receivable { IsReceivable (held_in ended.board.actor.stored) }
    requires kept { IsKeptOf (held_in ended.board.actor.stored) ended.handover ended.kept }
    ensures board { IfOk result (λ r. r.board.actor ≡ ended.board.actor) }
    ensures received { IfOk result (λ r. IsReceived (held_in ended.board.actor.stored) r.received) }
    ensures once { IfOk result (λ r. IsDone blocks r.stripes.actor) }
    ensures synthesised { IfOk result (λ r. IsSynthesised (held_in ended.board.actor.stored) r.received r.stripes.actor) }
{
    let SweepEnd {
        board,
        handover,
        kept,
    } = ended;
    let Kept {
        head,
        copies,
        stripes,
        trusted,
    } = kept;
    let mut finishing = Finishing { handover, stripes };
    let left = Left {
        head,
        copies,
        trusted,
    };
    let finished = finish(alloc, &board, &mut finishing, left);
    let (stripes, made) = finishing.close();
    let received = received_of(alloc, finished, made)?;
    Ok(Reception {
        received,
        board,
        stripes,
    })
}

// What is received: the picture of the stripes, or what stopped it.
fn received_of(
    alloc: Global,
    finished: Result<Header, Stop>,
    made: Vec<MadeStripe>,
) -> Result<Received, Memory>
    requires { IfOk finished (λ header. IsAccepted header × ((rows : Rows) × AreStripesOf header rows made.items)) }
    ensures { IfOk result (IsAnswerTo finished made.items) }
{
    match finished {
        Ok(header) => Ok(Received::Picture(fill_picture(alloc, &header, made)?)),
        Err(Stop::Answer(received)) => Ok(received),
        Err(Stop::Memory) => Err(Memory),
    }
}

// Hands what is left of the slices, and makes the stripes that are left. The header, where nothing stops the picture.
fn finish(
    alloc: Global,
    board: &ClosedBoard,
    finishing: &mut Finishing,
    left: Left,
) -> Result<Header, Stop>
    requires receivable { IsReceivable (held_in board.now.actor.stored) }
    requires kept { IsKeptOf (held_in board.now.actor.stored) finishing.old.handover (kept_of left finishing.old.stripes) }
    ensures pass { IsFinishing finishing.new }
    ensures finished { MatchResult result (λ header. IsFinished (held_in board.now.actor.stored) header (actor finishing.new.stripes.hand) finishing.new.stripes.made.items)
        (λ why. IsChoice blocks (actor finishing.new.stripes.hand) → IsStop (held_in board.now.actor.stored) why) }
{
    let Left {
        head,
        copies,
        trusted,
    } = left;
    let (header, size) = find_header(alloc, board, head)?;
    let places = finishing.start(alloc, &header, copies, trusted)?;
    let length = finishing.hand_all(board, &header, size, places)?;
    check_length(&header, length)?;
    finishing.make_all(alloc, &header)?;
    Ok(header)
}

// The header, and its length from SOC, where the units of all its slices are whole.
fn find_header(
    alloc: Global,
    board: &ClosedBoard,
    head: Option<HeadRead>,
) -> Result<(Header, u32), Stop>
    requires { IsHeadOf (held_in board.now.actor.stored) head }
    ensures found { MatchResult result (λ found. HasHeader (held_in board.now.actor.stored) found.0 found.1) (IsStop (held_in board.now.actor.stored)) }
    ensures whole { IfOk result (λ found. AreMissing (held_in board.now.actor.stored) (slice_count found.0) []) }
    ensures some { IfOk result (λ _. IsSome head) }
    ensures good { IfOk result (λ found. IfSome head (λ r. IsGoodHead r found.0)) }
{
    let Some(head) = head else {
        return Err(Stop::Answer(Received::Missing {
            header: true,
            slices: Numbers::new(alloc),
        }));
    };
    let HeadRead { bytes, reading } = head;
    spell_header(bytes.as_slice());
    match reading {
        Reading::Good { header, length } => {
            check_slices(alloc, board, &header, length)?;
            Ok((header, length))
        }
        Reading::Bad(fault) => Err(damaged(Damage::Head(fault))),
    }
}

// Whether the units of all slices are whole.
fn check_slices(alloc: Global, board: &ClosedBoard, header: &Header, size: u32) -> Result<(), Stop>
    requires headed { HasHeader (held_in board.now.actor.stored) header.now size }
    ensures { MatchResult result (λ _. AreMissing (held_in board.now.actor.stored) (slice_count header.now) []) (IsStop (held_in board.now.actor.stored)) }
{
    let missing = board.missing(alloc, Geometry::of(header).slices())?;
    if missing.len() == 0 {
        return Ok(());
    }
    Err(Stop::Answer(Received::Missing {
        header: false,
        slices: missing,
    }))
}

// Whether the header states the length of the codestream, or none.
fn check_length(header: &Header, length: u32) -> Result<(), Stop>
    ensures { MatchResult result (λ _. (header.now.lcod ≡ 0) ⊎ (header.now.lcod ≡ length))
        (λ why. (header.now.lcod ≢ 0) × (header.now.lcod ≢ length) × (why ≡ Stop.Answer (Received.Damaged (Damage.Lcod header.now.lcod length)))) }
{
    let stated = header.lcod;
    if stated != 0 && stated != length {
        return Err(damaged(Damage::Lcod { stated, length }));
    }
    Ok(())
}
