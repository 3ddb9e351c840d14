// An activity claims slices, and keeps what comes of them.
ghost use Rattle.std.specs.Prelude.{◌≡◌, ◌<◌, [], false};
ghost use Rattle.xs_params.specs.Geometry.{slice_count};
ghost use Rattle.xs_slice_write.specs.Coded.{HasSliceRoom};
ghost use Rattle.xs_lanes.specs.Knowing.{SameShare};
ghost use Rattle.xs_lanes.specs.Passes.{IsPassOf, view};
ghost use Rattle.xs_enc_lanes.specs.Claimed.{Tells};
ghost use Rattle.xs_enc_lanes.specs.Working.{FilesNothing, Goes, IsReadyToCode, IsWork, Sweeps};

use crate::activity::{Activity, Job, Room};
use crate::code::add_slice;
use crate::rows::{Blank, ComponentRows};
use arrayvec::ArrayVec;
use xs_lane_core::EVERY_WORD;
use xs_lanes::{Claim, PLACES, Pass};

// What became of a claim.
#[derive(Clone, Copy)]
pub(crate) enum Tried {
    Got,
    NotWhole,
    Gone,
    // Memory was wanting.
    Starved,
}

// Claims a slice.
fn claim_values(
    job: &Job<'_>,
    pass: &mut Pass<ComponentRows>,
    slice: u32,
    values: &mut ArrayVec<ComponentRows, PLACES, Blank>,
) -> Tried
    requires work { IsWork job.now }
    requires pass { IsPassOf job.now.lanes.now pass.old }
    requires slice { slice < slice_count job.now.header.now }
    requires empty { values.old.items ≡ [] }
    ensures pass { IsPassOf job.now.lanes.now pass.new }
    ensures share { SameShare (view pass.old) (view pass.new) }
    ensures files { FilesNothing (view pass.old) (view pass.new) }
    ensures told { Tells (view pass.old) slice result values.new.items (view pass.new) }
{
    match job.lanes.claim(pass, slice, values) {
        Claim::Got => Tried::Got,
        Claim::NotWhole(_) => Tried::NotWhole,
        Claim::Gone => Tried::Gone,
    }
}

impl Activity {
    // Whether the lane of a slice is whole.
    pub(crate) fn sees_whole(&mut self, job: &Job<'_>, slice: u32) -> bool
        requires work { IsWork job.now }
        requires slice { slice < slice_count job.now.header.now }
        requires ready { IsReadyToCode job.now self.old }
        ensures goes { Goes job.now self.old self.new }
        ensures swept { result ≡ false → Sweeps slice self.old self.new }
    {
        job.lanes.look(&mut self.pass, slice) == EVERY_WORD
    }

    // Claims a slice that was seen whole, and codes it.
    fn claim_whole(&mut self, job: &Job<'_>, slice: u32, room: &mut Room) -> Tried
        requires work { IsWork job.now }
        requires slice { slice < slice_count job.now.header.now }
        requires room { HasSliceRoom job.now.header.now room.old.scratch }
        requires ready { IsReadyToCode job.now self.old }
        ensures goes { Goes job.now self.old self.new }
        ensures room { HasSliceRoom job.now.header.now room.new.scratch }
        ensures swept { Sweeps slice self.old self.new }
    {
        let mut values: ArrayVec<ComponentRows, PLACES, Blank> = ArrayVec::new_in(Blank);
        let tried = claim_values(job, &mut self.pass, slice, &mut values);
        if let Tried::Got = tried {
            if !add_slice(&mut self.kept, job, slice, values.as_slice(), room) {
                self.starved = true;
                return Tried::Starved;
            }
        }
        tried
    }

    // Claims a slice, and codes it. Where its lane is not whole, there is one look at it.
    pub(crate) fn try_slice(&mut self, job: &Job<'_>, slice: u32, room: &mut Room) -> Tried
        requires work { IsWork job.now }
        requires slice { slice < slice_count job.now.header.now }
        requires room { HasSliceRoom job.now.header.now room.old.scratch }
        requires ready { IsReadyToCode job.now self.old }
        ensures goes { Goes job.now self.old self.new }
        ensures room { HasSliceRoom job.now.header.now room.new.scratch }
        ensures swept { Sweeps slice self.old self.new }
    {
        if self.sees_whole(job, slice) {
            self.claim_whole(job, slice, room)
        } else {
            Tried::NotWhole
        }
    }
}
