// The activities of a picture, one for each component and one for each coder.
ghost use Rattle.std.specs.Prelude.{◌≡◌, ◌<◌, ◌++◌, ◌∷◌, ℕ, [], All, false, length, OnOk, slice_index_or};
ghost use Rattle.xs_layout.specs.Geometry.{components_of};
ghost use Rattle.xs_lane_core.specs.Machine.{newcomer};
ghost use Rattle.xs_lanes.specs.Passes.{IsPassOf, view};
ghost use Rattle.xs_enc_lanes.specs.declared.activity.Role.TheVariants.{Component};
ghost use Rattle.xs_enc_lanes.specs.Working.{AreForked, HasRole, HasRun, IsIdle, IsRoleOf, IsUnusedPass, IsWork};

use crate::activity::{Activity, Job, Role, Team};
use crate::rows::ComponentRows;
use std::alloc::Global;
use std::thread;
use std::thread::Threads;
use xs_io::{Gate, Memory};
use xs_lanes::{Lanes, Pass};

impl Activity {
    // One that did nothing.
    pub(crate) fn new(alloc: Global, pass: Pass<ComponentRows>, role: Role) -> Activity
        ensures pass { result.pass ≡ pass }
        ensures role { result.role ≡ role }
        ensures kept { result.kept.items ≡ [] }
        ensures sated { result.starved ≡ false }
    {
        Activity {
            alloc,
            pass,
            role,
            kept: Vec::new(alloc),
            starved: false,
        }
    }
}

// One activity more.
fn add_activity(others: &mut Vec<Activity>, activity: Activity) -> Result<(), Memory>
    ensures added { OnOk result (others.new.items ≡ others.old.items ++ activity ∷ []) }
{
    others.push(activity).map_err(|_| Memory)
}

impl Team {
    // No activity yet.
    pub(crate) fn new(
        alloc: Global,
        lanes: &Lanes<ComponentRows>,
        pass: Pass<ComponentRows>,
    ) -> Team
        requires pass { IsPassOf lanes.now pass }
        requires first { view pass ≡ newcomer }
        ensures { (components : ℕ) → AreForked lanes.now components result.pass result.others.items }
    {
        Team {
            pass,
            others: Vec::new(alloc),
        }
    }

    // One activity more.
    fn add(&mut self, lanes: &Lanes<ComponentRows>, role: Role) -> Result<(), Memory>
        requires pass { IsPassOf lanes.now self.old.pass }
        ensures pass { IsPassOf lanes.now self.new.pass }
        ensures forked { OnOk result ((components : ℕ) → IsRoleOf components role → AreForked lanes.now components self.old.pass self.old.others.items → AreForked lanes.now components self.new.pass self.new.others.items) }
        ensures there { OnOk result ((c : ℕ) → role ≡ Component c → HasRole self.new.others.items c) }
        ensures others { OnOk result ((c : ℕ) → HasRole self.old.others.items c → HasRole self.new.others.items c) }
    {
        let alloc = *self.others.allocator();
        let pass = lanes.split(&mut self.pass);
        let activity = Activity::new(alloc, pass, role);
        add_activity(&mut self.others, activity)?;
        Ok(())
    }

    // One activity for each component.
    fn add_components(
        &mut self,
        lanes: &Lanes<ComponentRows>,
        components: u32,
    ) -> Result<(), Memory>
        requires forked { AreForked lanes.now components self.old.pass self.old.others.items }
        ensures forked { OnOk result (AreForked lanes.now components self.new.pass self.new.others.items) }
        ensures roles { OnOk result ((c : ℕ) → c < components → HasRole self.new.others.items c) }
    {
        'adding: for component in 0..components {
            self.add(lanes, Role::Component(component))?;
        }
        Ok(())
    }

    // So many activities that code.
    fn add_coders(&mut self, lanes: &Lanes<ComponentRows>, coders: u32) -> Result<(), Memory>
        requires pass { IsPassOf lanes.now self.old.pass }
        ensures forked { OnOk result ((components : ℕ) → AreForked lanes.now components self.old.pass self.old.others.items → AreForked lanes.now components self.new.pass self.new.others.items) }
        ensures others { OnOk result ((c : ℕ) → HasRole self.old.others.items c → HasRole self.new.others.items c) }
    {
        'adding: for number in 0..coders {
            self.add(lanes, Role::Coder(number))?;
        }
        Ok(())
    }

    // One activity for each component, and then so many that code.
    pub(crate) fn fork(
        &mut self,
        lanes: &Lanes<ComponentRows>,
        components: u32,
        coders: u32,
    ) -> Result<(), Memory>
        requires forked { AreForked lanes.now components self.old.pass self.old.others.items }
        ensures forked { OnOk result (AreForked lanes.now components self.new.pass self.new.others.items) }
        ensures roles { OnOk result ((c : ℕ) → c < components → HasRole self.new.others.items c) }
    {
        self.add_components(lanes, components)?;
        self.add_coders(lanes, coders)?;
        Ok(())
    }
}

// Each activity runs in a thread of its own, where one can be made.
pub(crate) fn run_all<T: Threads + Sync, G: Gate>(
    threads: &T,
    job: &Job<'_>,
    gate: &G,
    activities: &mut [Activity],
)
    requires work { IsWork job.now }
    requires idle { All (IsIdle job.now.lanes.now (components_of job.now.header.now.shape.format)) activities.old }
    ensures { (i : ℕ) (d : _) → i < length activities.old → HasRun job.now (slice_index_or activities.old i d) (slice_index_or activities.new i d) }
{
    if activities.is_empty() {
        return;
    }
    let count = activities.len();
    thread::for_each_mut(
        threads,
        activities,
        count,
        &|_: usize, activity: &mut Activity|
            requires { IsWork job.now × IsIdle job.now.lanes.now (components_of job.now.header.now.shape.format) activity.old }
            ensures { HasRun job.entry.now activity.old activity.new }
        { activity.run(job, gate) },
    );
}
