// A slice is coded of the values that were got of it.
ghost use Rattle.std.specs.Prelude.{◌≡◌, ◌<◌, true, false, IfOk};
ghost use Rattle.xs_params.specs.Geometry.{slice_count};
ghost use Rattle.xs_slice_write.specs.Coded.{HasSliceRoom};
ghost use Rattle.xs_enc_lanes.specs.Coded.{HasAdded, IsCodedFrom, IsJob};

use crate::activity::{CodedOutcome, CodedSlice, Job, Room};
use crate::put::put_values;
use crate::rows::ComponentRows;
use std::alloc::Global;
use xs_faults::SliceRefusal;
use xs_geometry::{Geometry, SliceRows};
use xs_io::Memory;
use xs_slice_write::{SliceScratch, WantedSlice, write_slice_in};

impl Room {
    // Room for the slices of a picture.
    pub(crate) fn of(alloc: Global, job: &Job<'_>) -> Result<Room, Memory>
        requires { IsJob job.now }
        ensures { IfOk result (λ room. HasSliceRoom job.now.header.now room.scratch) }
    {
        Ok(Room {
            rows: SliceRows::blank(alloc, &Geometry::of(job.header), 0)?,
            scratch: SliceScratch::of(alloc, job.header)?,
        })
    }
}

// What comes of a slice.
fn code_slice(
    alloc: Global,
    job: &Job<'_>,
    slice: u32,
    values: &[ComponentRows],
    room: &mut Room,
) -> Result<CodedOutcome, Memory>
    requires job { IsJob job.now }
    requires slice { slice < slice_count job.now.header.now }
    requires room { HasSliceRoom job.now.header.now room.old.scratch }
    ensures coded { IfOk result (IsCodedFrom job.now slice values.now) }
    ensures room { HasSliceRoom job.now.header.now room.new.scratch }
{
    put_values(job.header, slice, values, &mut room.rows)?;
    let wanted = WantedSlice {
        rows: &room.rows,
        slice,
        share: job.share,
        fill: job.fill,
    };
    match write_slice_in(alloc, job.header, &wanted, &mut room.scratch) {
        Ok(bytes) => Ok(CodedOutcome::Bytes(bytes)),
        Err(SliceRefusal::Budget(budget)) => Ok(CodedOutcome::Over(budget)),
        Err(SliceRefusal::Memory) => Err(Memory),
    }
}

// Codes a slice, and puts it at the end. False where memory is wanting.
pub(crate) fn add_slice(
    kept: &mut Vec<CodedSlice>,
    job: &Job<'_>,
    slice: u32,
    values: &[ComponentRows],
    room: &mut Room,
) -> bool
    requires job { IsJob job.now }
    requires slice { slice < slice_count job.now.header.now }
    requires room { HasSliceRoom job.now.header.now room.old.scratch }
    ensures room { HasSliceRoom job.now.header.now room.new.scratch }
    ensures added { result ≡ true → HasAdded job.now slice values.now kept.old.items kept.new.items }
    ensures lost { result ≡ false → kept.new.items ≡ kept.old.items }
{
    let alloc = *kept.allocator();
    let Ok(outcome) = code_slice(alloc, job, slice, values, room) else {
        return false;
    };
    kept.push(CodedSlice { slice, outcome }).is_ok()
}
