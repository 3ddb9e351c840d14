// The claims of units.
ghost use Rattle.std.specs.Prelude.{◌≡◌, ◌+◌, ◌<◌, ◌^◌, length, IfOk, IsSome};
ghost use Rattle.xs_lanes.specs.Knowing.{SameShare};
ghost use Rattle.xs_board.specs.Passes.{IsBoardPass, KnowsStill, unit_count, actor, knows};
ghost use Rattle.xs_board.specs.Answers.{FilesNothing, GetsMore, HasLearned, HeaderAnswers, SliceAnswers, UnitAnswers};

use crate::board::{Board, BoardPass};
use crate::claim::{Claimed, SliceClaim};
use crate::head::HeadRead;
use crate::units::join_packets;
use arrayvec::ArrayVec;
use std::alloc::Global;
use xs_capture::Packet;
use xs_io::{Memory, Octets};
use xs_lane_core::EVERY_WORD;
use xs_lanes::{Claim, PLACES};

impl Board {
    // Claims the unit, and joins the bytes of its packets.
    fn claim_packets(
        &self,
        alloc: Global,
        pass: &mut BoardPass,
        unit: u32,
    ) -> Result<SliceClaim, Memory>
        requires pass { IsBoardPass self.now pass.old }
        requires unit { unit < unit_count self.now }
        ensures pass { IsBoardPass self.now pass.new }
        ensures share { SameShare (actor pass.old) (actor pass.new) }
        ensures files { FilesNothing (actor pass.old) (actor pass.new) }
        ensures grows { GetsMore (actor pass.old) (actor pass.new) }
        ensures knows { knows pass.new ≡ knows pass.old }
        ensures answer { IfOk result (λ r. UnitAnswers (actor pass.old) unit r (actor pass.new)) }
    {
        let mut packets: ArrayVec<Packet, PLACES, Global> = ArrayVec::new_in(alloc);
        match self.lanes.claim(&mut pass.pass, unit, &mut packets) {
            Claim::Got => Ok(SliceClaim::Got(join_packets(alloc, packets.as_slice())?)),
            Claim::NotWhole(seen) => Ok(SliceClaim::NotWhole(seen)),
            Claim::Gone => Ok(SliceClaim::Gone),
        }
    }

    // Claims the unit where a look finds it whole, so that no room is made for packets that are not there.
    fn claim_unit(
        &self,
        alloc: Global,
        pass: &mut BoardPass,
        unit: u32,
    ) -> Result<SliceClaim, Memory>
        requires pass { IsBoardPass self.now pass.old }
        requires unit { unit < unit_count self.now }
        ensures pass { IsBoardPass self.now pass.new }
        ensures share { SameShare (actor pass.old) (actor pass.new) }
        ensures files { FilesNothing (actor pass.old) (actor pass.new) }
        ensures grows { GetsMore (actor pass.old) (actor pass.new) }
        ensures knows { knows pass.new ≡ knows pass.old }
        ensures answer { IfOk result (λ r. SliceAnswers (actor pass.old) unit r (actor pass.new)) }
    {
        let seen = self.lanes.look(&mut pass.pass, unit);
        if seen != EVERY_WORD {
            return Ok(SliceClaim::NotWhole(seen));
        }
        self.claim_packets(alloc, pass, unit)
    }

    // Reads the header unit, and shows what is read to all passes where nothing is shown yet.
    fn read_head(
        &self,
        alloc: Global,
        pass: &mut BoardPass,
        bytes: Octets,
    ) -> Result<HeadRead, Memory>
        requires pass { IsBoardPass self.now pass.old }
        requires few { length bytes < 2 ^ 32 }
        ensures pass { IsBoardPass self.now pass.new }
        ensures same { actor pass.new ≡ actor pass.old }
        ensures knows { KnowsStill (knows pass.old) (knows pass.new) }
        ensures read { IfOk result (λ read. read.bytes ≡ bytes) }
        ensures learned { IfOk result (λ _. IsSome (knows pass.new)) }
    {
        let copy = HeadRead::read(alloc, Octets::from_slice(alloc, bytes.as_slice())?)?;
        let shown = Box::new(alloc, copy).map_err(|_| Memory)?;
        let read = HeadRead::read(alloc, bytes)?;
        drop(self.head.set_as(shown, &mut pass.note));
        Ok(read)
    }

    /// Claims the header unit, and reads its header. Where memory is wanting after the claim, the packets are given up and the
    /// unit stays claimed.
    pub fn claim_header(&self, alloc: Global, pass: &mut BoardPass) -> Result<Claimed, Memory>
        requires pass { IsBoardPass self.now pass.old }
        ensures pass { IsBoardPass self.now pass.new }
        ensures share { SameShare (actor pass.old) (actor pass.new) }
        ensures files { FilesNothing (actor pass.old) (actor pass.new) }
        ensures grows { GetsMore (actor pass.old) (actor pass.new) }
        ensures knows { KnowsStill (knows pass.old) (knows pass.new) }
        ensures answer { IfOk result (λ r. HeaderAnswers (actor pass.old) r (actor pass.new)) }
        ensures learned { IfOk result (λ r. HasLearned r (knows pass.new)) }
    {
        match self.claim_unit(alloc, pass, 0)? {
            SliceClaim::Got(bytes) => Ok(Claimed::Got(self.read_head(alloc, pass, bytes)?)),
            SliceClaim::NotWhole(seen) => Ok(Claimed::NotWhole(seen)),
            SliceClaim::Gone => Ok(Claimed::Gone),
        }
    }

    /// Claims the unit of a slice, and joins its bytes. Where memory is wanting after the claim, the packets are given up and
    /// the unit stays claimed.
    pub fn claim_slice(
        &self,
        alloc: Global,
        pass: &mut BoardPass,
        slice: u32,
    ) -> Result<SliceClaim, Memory>
        requires pass { IsBoardPass self.now pass.old }
        requires slice { slice + 1 < unit_count self.now }
        ensures pass { IsBoardPass self.now pass.new }
        ensures share { SameShare (actor pass.old) (actor pass.new) }
        ensures files { FilesNothing (actor pass.old) (actor pass.new) }
        ensures grows { GetsMore (actor pass.old) (actor pass.new) }
        ensures knows { knows pass.new ≡ knows pass.old }
        ensures answer { IfOk result (λ r. SliceAnswers (actor pass.old) (slice + 1) r (actor pass.new)) }
    {
        self.claim_unit(alloc, pass, slice + 1)
    }
}
