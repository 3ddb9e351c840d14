// The slices are handed in their order, as far as no worker did it.
ghost use Rattle.std.specs.Prelude.{◌≡◌, ◌<◌, ◌≤◌, ◌^◌, [], true, false, None, Some, length, IfOk, OnOk, MatchResult, slice_index_or, slice_set};
ghost use Rattle.xs_params.specs.Accepted.{IsAccepted};
ghost use Rattle.xs_params.specs.Geometry.{slice_count};
ghost use Rattle.xs_lanes.specs.Knowing.{IsChoice};
ghost use Rattle.xs_capture.specs.Selection.{AreMissing, Held};
ghost use Rattle.xs_stored.specs.Stored.{held_in};
ghost use Rattle.xs_handover.specs.Blocks.{blocks};
ghost use Rattle.xs_handover.specs.Handing.{source_of};
ghost use Rattle.xs_handover.specs.Passes.{actor, stripe_count};
ghost use Rattle.xs_recv.specs.Filed.{IsReceivable};
ghost use Rattle.xs_recv.specs.Received.{HasHeader};
ghost use Rattle.xs_recv.specs.Handed.{AreHanded, AreStripesBy};
ghost use Rattle.xs_recv.specs.Activities.{IsReadBy};
ghost use Rattle.xs_recv.specs.Reading.{AreHandedUpTo, AreInOrder, HandsOnly, IsSliceStop, IsStop};
ghost use Rattle.xs_recv.specs.Finishing.{AreKeptBy, AreStarted, IsFinishing, IsRenewed};

use crate::activity::{SliceCopy, SliceReading, Stripes};
use crate::finishing::{Finishing, Places};
use crate::received::{Damage, Stop, damaged};
use std::alloc::Global;
use xs_board::ClosedBoard;
use xs_geometry::Geometry;
use xs_handover::{HandFault, Handover};
use xs_io::{Memory, Octets};
use xs_params::Header;

// So many empty places.
fn no_copies(alloc: Global, count: u32) -> Result<Vec<Option<SliceCopy>>, Memory>
    ensures { IfOk result (λ places. AreInOrder [] count places.items) }
{
    let mut places = Vec::new(alloc);
    'making: for _ in 0..count {
        if places.push(None).is_err() {
            return Err(Memory);
        }
    }
    Ok(places)
}

// Puts the copy at its place, where it has one.
fn put_copy(places: &mut Vec<Option<SliceCopy>>, copy: SliceCopy)
    ensures placed { copy.slice < length places.old.items → places.new.items ≡ slice_set places.old.items copy.slice (Some copy) }
    ensures past { (copy.slice < length places.old.items → ⊥) → places.new.items ≡ places.old.items }
{
    let at = copy.slice as usize;
    if at < places.len() {
        places[at] = Some(copy);
    }
}

// The copies of the slices below a number, in order.
fn in_order(
    alloc: Global,
    copies: Vec<SliceCopy>,
    count: u32,
) -> Result<Vec<Option<SliceCopy>>, Memory>
    ensures { IfOk result (λ places. AreInOrder copies.items count places.items) }
{
    let mut places = no_copies(alloc, count)?;
    'placing: for copy in copies {
        put_copy(&mut places, copy);
    }
    Ok(places)
}

// The copy at a place, which has none afterwards.
fn take_copy(places: &mut Vec<Option<SliceCopy>>, slice: u32) -> Option<SliceCopy>
    requires { slice < length places.old.items }
    ensures taken { result ≡ slice_index_or places.old.items slice None }
    ensures left { places.new.items ≡ slice_set places.old.items slice None }
{
    places[slice as usize].take()
}

impl Finishing {
    // Begins anew, with a handover of so many stripes.
    fn renew(&mut self, alloc: Global, stripes: u32) -> Result<(), Memory>
        requires stripes { (1 ≤ stripes) × (stripes ≤ 2047) }
        requires pass { IsFinishing self.old }
        ensures pass { IsFinishing self.new }
        ensures renewed { OnOk result (IsRenewed self.new) }
        ensures room { OnOk result (stripe_count self.new.handover ≡ stripes) }
    {
        let (handover, hand) = Handover::new(alloc, stripes)?;
        self.handover = handover;
        self.stripes = Stripes {
            hand,
            made: Vec::new(alloc),
        };
        Ok(())
    }

    // Begins anew, unless what was read and made is trusted.
    fn renew_unless(&mut self, alloc: Global, stripes: u32, trusted: bool) -> Result<(), Memory>
        requires stripes { (1 ≤ stripes) × (stripes ≤ 2047) }
        requires pass { IsFinishing self.old }
        ensures pass { IsFinishing self.new }
        ensures trusted { trusted ≡ true → self.new ≡ self.old }
        ensures renewed { trusted ≡ false → OnOk result (IsRenewed self.new) }
        ensures room { trusted ≡ false → OnOk result (stripe_count self.new.handover ≡ stripes) }
    {
        if trusted {
            return Ok(());
        }
        self.renew(alloc, stripes)
    }

    // The copies of the slices in order. Where what was read of them is not trusted, all are handed anew.
    pub(crate) fn start(
        &mut self,
        alloc: Global,
        header: &Header,
        copies: Vec<SliceCopy>,
        trusted: bool,
    ) -> Result<Places, Memory>
        requires pass { IsFinishing self.old }
        requires accepted { IsAccepted header.now }
        ensures pass { IsFinishing self.new }
        ensures started { (held : Held) → AreKeptBy held header.now self.old copies.items trusted → IfOk result (AreStarted held header.now self.new) }
    {
        let slices = Geometry::of(header).slices();
        let list = in_order(alloc, copies, slices)?;
        self.renew_unless(alloc, slices, trusted)?;
        Ok(Places {
            alloc,
            list,
            trusted,
        })
    }

    // Reads the unit of a slice, and hands its rows.
    fn hand(
        &mut self,
        alloc: Global,
        header: &Header,
        slice: u32,
        bytes: Octets,
    ) -> Result<(), Stop>
        requires pass { IsFinishing self.old }
        requires few { length bytes < 2 ^ 32 }
        requires accepted { IsAccepted header.now }
        requires there { slice < slice_count header.now }
        requires room { slice_count header.now ≤ stripe_count self.old.handover }
        ensures pass { IsFinishing self.new }
        ensures same { (self.new.handover ≡ self.old.handover) × (self.new.stripes.made.items ≡ self.old.stripes.made.items) }
        ensures only { HandsOnly (source_of header.now slice bytes) (actor self.old.stripes.hand) (actor self.new.stripes.hand) }
        ensures handed { MatchResult result (λ _. AreHanded header.now slice bytes (actor self.new.stripes.hand)) (IsSliceStop header.now slice bytes) }
    {
        match self
            .handover
            .hand(alloc, &mut self.stripes.hand, header, slice, bytes)
        {
            Ok(()) => Ok(()),
            Err(HandFault::Slice(fault)) => Err(damaged(Damage::Slice { slice, fault })),
            Err(HandFault::Memory) => Err(Stop::Memory),
        }
    }

    // Hands the rows of a slice, where that was not done.
    fn hand_copy(
        &mut self,
        alloc: Global,
        header: &Header,
        copy: SliceCopy,
        trusted: bool,
    ) -> Result<(), Stop>
        requires pass { IsFinishing self.old }
        requires few { length copy.bytes < 2 ^ 32 }
        requires accepted { IsAccepted header.now }
        requires there { copy.slice < slice_count header.now }
        requires room { slice_count header.now ≤ stripe_count self.old.handover }
        requires trusted { trusted ≡ true → IsReadBy header.now (actor self.old.stripes.hand) copy.slice copy.bytes copy.reading }
        ensures pass { IsFinishing self.new }
        ensures same { (self.new.handover ≡ self.old.handover) × (self.new.stripes.made.items ≡ self.old.stripes.made.items) }
        ensures only { HandsOnly (source_of header.now copy.slice copy.bytes) (actor self.old.stripes.hand) (actor self.new.stripes.hand) }
        ensures handed { MatchResult result (λ _. AreHanded header.now copy.slice copy.bytes (actor self.new.stripes.hand)) (IsSliceStop header.now copy.slice copy.bytes) }
    {
        let SliceCopy {
            slice,
            bytes,
            reading,
        } = copy;
        if !trusted {
            return self.hand(alloc, header, slice, bytes);
        }
        match reading {
            SliceReading::Handed => Ok(()),
            SliceReading::Bad(fault) => Err(damaged(Damage::Slice { slice, fault })),
            SliceReading::Unread => self.hand(alloc, header, slice, bytes),
        }
    }

    // Hands the rows of all slices, as far as that was not done, and makes each stripe that was not claimed before as soon as its
    // rows are handed, but for the last. The length of the codestream.
    pub(crate) fn hand_all(
        &mut self,
        board: &ClosedBoard,
        header: &Header,
        size: u32,
        places: Places,
    ) -> Result<u32, Stop>
        requires pass { IsFinishing self.old }
        requires receivable { IsReceivable (held_in board.now.actor.stored) }
        requires headed { HasHeader (held_in board.now.actor.stored) header.now size }
        requires whole { AreMissing (held_in board.now.actor.stored) (slice_count header.now) [] }
        requires started { AreStarted (held_in board.now.actor.stored) header.now self.old places }
        ensures pass { IsFinishing self.new }
        ensures room { slice_count header.now ≤ stripe_count self.new.handover }
        ensures stripes { OnOk result (AreStripesBy (held_in board.now.actor.stored) header.now (actor self.new.stripes.hand) self.new.stripes.made.items) }
        ensures handed { MatchResult result (λ total. AreHandedUpTo (held_in board.now.actor.stored) header.now size (slice_count header.now) (actor self.new.stripes.hand) total)
            (λ why. IsChoice blocks (actor self.new.stripes.hand) → IsStop (held_in board.now.actor.stored) why) }
    {
        let Places {
            alloc,
            mut list,
            trusted,
        } = places;
        let mut length = size;
        'slices: for slice in 0..Geometry::of(header).slices() {
            let Some(copy) = take_copy(&mut list, slice) else {
                unreachable!()
            };
            let more = copy.bytes.len() as u32;
            self.hand_copy(alloc, header, copy, trusted)?;
            self.make_before(alloc, header, slice)?;
            length += more;
        }
        Ok(length)
    }
}
