// An activity runs: it transforms a component, or scans for slices.
ghost use Rattle.std.specs.Prelude.{◌≡◌, ◌<◌};
ghost use Rattle.xs_layout.specs.Geometry.{components_of};
ghost use Rattle.xs_params.specs.Geometry.{slice_count};
ghost use Rattle.xs_slice_write.specs.Coded.{HasSliceRoom};
ghost use Rattle.xs_enc_lanes.specs.declared.activity.Role.TheVariants.{Component};
ghost use Rattle.xs_enc_lanes.specs.Working.{Goes, HasRun, IsIdle, IsReadyToCode, IsWork};

use crate::activity::{Activity, Job, Role, Room};
use crate::file::file_component;
use crate::worker::{SCANS, Worker};
use std::thread;
use xs_geometry::Geometry;
use xs_io::{Gate, Memory};

// A coder's own: its room, and what it counts.
#[derive(Drop)]
struct Coder {
    room: Room,
    worker: Worker,
}

impl Activity {
    // Leaves the processor to others so many times at most, up to the first look that finds the slice whole.
    fn rest(&mut self, job: &Job<'_>, slice: u32, looks: u32)
        requires work { IsWork job.now }
        requires slice { slice < slice_count job.now.header.now }
        requires ready { IsReadyToCode job.now self.old }
        ensures goes { Goes job.now self.old self.new }
    {
        'looking: for _ in 0..looks {
            if self.sees_whole(job, slice) {
                break;
            }
            thread::yield_now();
        }
    }

    // One look at each slice that the coder does not know to be claimed, up to the first that is not whole: those behind it come
    // later. False where the coder ends.
    fn scan<G: Gate>(&mut self, job: &Job<'_>, coder: &mut Coder, gate: &G) -> bool
        requires work { IsWork job.now }
        requires ready { IsReadyToCode job.now self.old }
        requires room { HasSliceRoom job.now.header.now coder.old.room.scratch }
        ensures goes { Goes job.now self.old self.new }
        ensures room { HasSliceRoom job.now.header.now coder.new.room.scratch }
    {
        coder.worker.begin();
        'scanning: for slice in 0..Geometry::of(job.header).slices() {
            if coder.worker.is_done(slice) {
                continue;
            }
            let tried = self.try_slice(job, slice, &mut coder.room);
            if !coder.worker.notes(slice, tried, gate) {
                return false;
            }
            if coder.worker.waits() {
                self.rest(job, slice, coder.worker.looks());
                break;
            }
        }
        coder.worker.ends(gate)
    }

    // Scans until the gate, or want of memory, ends it.
    fn code<G: Gate>(&mut self, job: &Job<'_>, number: u32, gate: &G)
        requires work { IsWork job.now }
        requires ready { IsReadyToCode job.now self.old }
        ensures goes { Goes job.now self.old self.new }
    {
        let Ok(room) = Room::of(self.alloc, job) else {
            self.starved = true;
            gate.pass(number, 0, 0);
            return;
        };
        let mut coder = Coder {
            room,
            worker: Worker::new(number),
        };
        'coding: for _ in 0..SCANS {
            if !self.scan(job, &mut coder, gate) {
                break;
            }
        }
    }

    // Transforms the component, and files its rows.
    fn transform(&mut self, job: &Job<'_>, number: u32)
        requires work { IsWork job.now }
        requires idle { IsIdle job.now.lanes.now (components_of job.now.header.now.shape.format) self.old }
        requires role { self.old.role ≡ Component number }
        ensures { HasRun job.now self.old self.new }
    {
        match file_component(self.alloc, job, &mut self.pass, number) {
            Ok(()) => {}
            Err(Memory) => self.starved = true,
        }
    }

    // Does what its role is.
    pub(crate) fn run<G: Gate>(&mut self, job: &Job<'_>, gate: &G)
        requires work { IsWork job.now }
        requires idle { IsIdle job.now.lanes.now (components_of job.now.header.now.shape.format) self.old }
        ensures { HasRun job.now self.old self.new }
    {
        match self.role {
            Role::Component(number) => self.transform(job, number),
            Role::Coder(number) => self.code(job, number, gate),
        }
    }
}
