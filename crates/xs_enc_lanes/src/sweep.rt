// What no coder claimed is claimed by the caller.
ghost use Rattle.std.specs.Prelude.{◌≡◌};
ghost use Rattle.xs_params.specs.Geometry.{slice_count};
ghost use Rattle.xs_enc_lanes.specs.Working.{Goes, IsReadyToCode, IsWork, SweepsTo};

use crate::activity::{Activity, Job, Room};
use xs_geometry::Geometry;

impl Activity {
    // Claims each slice that is left, and codes it.
    pub(crate) fn sweep(&mut self, job: &Job<'_>)
        requires work { IsWork job.now }
        requires ready { IsReadyToCode job.now self.old }
        ensures goes { Goes job.now self.old self.new }
        ensures all { SweepsTo (slice_count job.now.header.now) self.old self.new }
    {
        let Ok(mut room) = Room::of(self.alloc, job) else {
            self.starved = true;
            return;
        };
        'sweeping: for slice in 0..Geometry::of(job.header).slices() {
            self.try_slice(job, slice, &mut room);
        }
    }
}
