// An activity claims the header and slices, keeps their bytes, and hands the rows of slices.
ghost use Rattle.std.specs.Prelude.{◌≡◌, ◌+◌, ◌<◌, ◌≤◌, ◌^◌, ◌++◌, ◌∷◌, [], true, length, IfOk, IfSome, MatchResult};
ghost use Rattle.std.specs.Option.{option_copied};
ghost use Rattle.xs_params.specs.Accepted.{IsAccepted};
ghost use Rattle.xs_params.specs.Geometry.{slice_count};
ghost use Rattle.xs_lanes.specs.Knowing.{SameShare};
ghost use Rattle.xs_board.specs.Passes.{IsBoardPass, actor, knows, unit_count};
ghost use Rattle.xs_board.specs.Answers.{FilesNothing, GetsMore};
ghost use Rattle.xs_handover.specs.Passes.{IsHandPass, actor as hand_actor, stripe_count};
ghost use Rattle.xs_recv.specs.declared.activity.SliceReading.TheVariants.{Unread};
ghost use Rattle.xs_recv.specs.Activities.{HandsBy, HandsIf, HasHand, IsReadable};
ghost use Rattle.xs_recv.specs.Sweeping.{GetsWhole, StarvesNot};

use crate::activity::{Activity, SliceCopy, SliceReading};
use crate::exchange::Exchange;
use std::alloc::Global;
use xs_board::{Claimed, SliceClaim};
use xs_handover::{HandFault, HandPass, Handover};
use xs_io::{Memory, Octets};
use xs_params::Header;

// What became of a claim.
#[derive(Clone, Copy)]
pub(crate) enum Tried {
    Got,
    NotWhole,
    Gone,
    // Memory was wanting.
    Starved,
}

impl SliceCopy {
    // One that is still to be read.
    fn unread(slice: u32, bytes: Octets) -> SliceCopy
        ensures { result ≡ record { slice = slice; bytes = bytes; reading = Unread } }
    {
        SliceCopy {
            slice,
            bytes,
            reading: SliceReading::Unread,
        }
    }
}

// Reads a slice by the header, and hands its rows.
fn hand_rows(
    alloc: Global,
    handover: &Handover,
    hand: &mut HandPass,
    header: &Header,
    copy: &SliceCopy,
) -> Result<SliceReading, Memory>
    requires pass { IsHandPass handover.now hand.old }
    requires accepted { IsAccepted header.now }
    requires there { copy.now.slice < slice_count header.now }
    requires stripes { slice_count header.now ≤ stripe_count handover.now }
    requires few { length copy.now.bytes < 2 ^ 32 }
    ensures pass { IsHandPass handover.now hand.new }
    ensures share { SameShare (hand_actor hand.old) (hand_actor hand.new) }
    ensures hands { IfOk result (λ reading. HandsBy header.now copy.now.slice copy.now.bytes reading (hand_actor hand.old) (hand_actor hand.new)) }
{
    let bytes = Octets::from_slice(alloc, copy.bytes.as_slice())?;
    match handover.hand(alloc, hand, header, copy.slice, bytes) {
        Ok(()) => Ok(SliceReading::Handed),
        Err(HandFault::Slice(fault)) => Ok(SliceReading::Bad(fault)),
        Err(HandFault::Memory) => Err(Memory),
    }
}

// Reads a slice, where there is a header, and hands its rows.
fn read_copy(
    alloc: Global,
    handover: &Handover,
    hand: &mut HandPass,
    header: Option<&Header>,
    copy: SliceCopy,
) -> Result<SliceCopy, Memory>
    requires pass { IsHandPass handover.now hand.old }
    requires header { IfSome header (λ h. IsAccepted h.now × (copy.slice < slice_count h.now)) }
    requires stripes { IfSome header (λ h. slice_count h.now ≤ stripe_count handover.now) }
    requires few { length copy.bytes < 2 ^ 32 }
    requires unread { copy.reading ≡ Unread }
    ensures pass { IsHandPass handover.now hand.new }
    ensures share { SameShare (hand_actor hand.old) (hand_actor hand.new) }
    ensures slice { IfOk result (λ c. c.slice ≡ copy.slice) }
    ensures bytes { IfOk result (λ c. c.bytes ≡ copy.bytes) }
    ensures hands { IfOk result (λ c. HandsIf (option_copied header.entry) copy.slice copy.bytes c.reading (hand_actor hand.old) (hand_actor hand.new)) }
{
    let Some(header) = header else {
        return Ok(copy);
    };
    let reading = hand_rows(alloc, handover, hand, header, &copy)?;
    Ok(SliceCopy {
        slice: copy.slice,
        bytes: copy.bytes,
        reading,
    })
}

// Puts a copy at the end. False where memory is wanting.
fn add_copy(kept: &mut Vec<SliceCopy>, copy: Result<SliceCopy, Memory>) -> bool
    ensures { result ≡ true → MatchResult copy (λ c. kept.new.items ≡ kept.old.items ++ c ∷ []) (λ _. ⊥) }
{
    match copy {
        Ok(copy) => kept.push(copy).is_ok(),
        Err(Memory) => false,
    }
}

impl Activity {
    // Claims the header unit, and keeps what is read of it.
    pub(crate) fn try_header(&mut self, exchange: &Exchange) -> Tried
        requires pass { IsBoardPass exchange.now.board self.old.pass }
        ensures pass { IsBoardPass exchange.now.board self.new.pass }
        ensures share { SameShare (actor self.old.pass) (actor self.new.pass) }
        ensures files { FilesNothing (actor self.old.pass) (actor self.new.pass) }
        ensures grows { GetsMore (actor self.old.pass) (actor self.new.pass) }
        ensures hand { self.new.hand ≡ self.old.hand }
        ensures starved { StarvesNot self.old self.new }
        ensures swept { GetsWhole 0 self.old self.new }
    {
        match exchange.board.claim_header(self.alloc, &mut self.pass) {
            Ok(Claimed::Got(read)) => {
                self.head = Some(read);
                Tried::Got
            }
            Ok(Claimed::NotWhole(_)) => Tried::NotWhole,
            Ok(Claimed::Gone) => Tried::Gone,
            Err(Memory) => {
                self.starved = true;
                Tried::Starved
            }
        }
    }

    // Claims a slice, keeps a copy of its bytes, and hands its rows where there is a header.
    pub(crate) fn try_slice(
        &mut self,
        exchange: &Exchange,
        header: Option<&Header>,
        slice: u32,
    ) -> Tried
        requires pass { IsBoardPass exchange.now.board self.old.pass }
        requires hand { IsHandPass exchange.now.handover self.old.hand }
        requires slice { slice + 1 < unit_count exchange.now.board }
        requires header { IfSome header (λ h. IsReadable (knows self.old.pass) h.now slice) }
        requires stripes { IfSome header (λ h. slice_count h.now ≤ stripe_count exchange.now.handover) }
        ensures pass { IsBoardPass exchange.now.board self.new.pass }
        ensures share { SameShare (actor self.old.pass) (actor self.new.pass) }
        ensures files { FilesNothing (actor self.old.pass) (actor self.new.pass) }
        ensures knows { knows self.new.pass ≡ knows self.old.pass }
        ensures grows { GetsMore (actor self.old.pass) (actor self.new.pass) }
        ensures hand { HasHand exchange.now.handover self.old.hand self.new.hand }
        ensures starved { StarvesNot self.old self.new }
        ensures swept { GetsWhole (slice + 1) self.old self.new }
    {
        let board = &exchange.board;
        match board.claim_slice(self.alloc, &mut self.pass, slice) {
            Ok(SliceClaim::Got(bytes)) => {
                let copy = SliceCopy::unread(slice, bytes);
                let read = read_copy(self.alloc, &exchange.handover, &mut self.hand, header, copy);
                if add_copy(&mut self.kept, read) {
                    return Tried::Got;
                }
                self.starved = true;
                Tried::Starved
            }
            Ok(SliceClaim::NotWhole(_)) => Tried::NotWhole,
            Ok(SliceClaim::Gone) => Tried::Gone,
            Err(Memory) => {
                self.starved = true;
                Tried::Starved
            }
        }
    }
}
