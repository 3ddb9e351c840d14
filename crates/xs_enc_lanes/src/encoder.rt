//! A picture is encoded by several threads.
ghost use Rattle.std.specs.Prelude.{◌≡◌, ◌<◌, ℕ, IfOk};
ghost use Rattle.xs_layout.specs.Geometry.{components_of};
ghost use Rattle.xs_params.specs.Check.{AreInRange};
ghost use Rattle.xs_params.specs.Geometry.{slice_count};
ghost use Rattle.xs_params.specs.Headers.{header_of};
ghost use Rattle.xs_rate.specs.Coefficients.{rows_of_picture};
ghost use Rattle.xs_rate.specs.Encoding.{encoding_of};
ghost use Rattle.xs_lane_core.specs.Sound.{IsAlone};
ghost use Rattle.xs_lanes.specs.Passes.{IsPassOf, view};
ghost use Rattle.xs_lanes.specs.Settled.{IsDone};
ghost use Rattle.xs_enc_lanes.specs.Rows.{parts};
ghost use Rattle.xs_enc_lanes.specs.Answered.{AreSliced};
ghost use Rattle.xs_enc_lanes.specs.Working.{AreForked, HasRole, HasSwept, IsWork};
ghost use Rattle.xs_enc_lanes.specs.Encoded.{IsEncodedOrMemory};
ghost use Rattle.xs_enc_lanes.specs.Finished.{GotEachOnce, StoresPicture};

use crate::activity::{Activity, Coded, Job, Role, Team};
use crate::answer::{bytes_of, in_order};
use crate::rows::ComponentRows;
use crate::team::run_all;
use std::alloc::Global;
use std::thread::Threads;
use xs_faults::SliceRefusal;
use xs_geometry::Geometry;
use xs_io::{Gate, Memory};
use xs_lanes::{Closed, Lanes};
use xs_params::{Checked, Planes, Stream};
use xs_picture::assemble_stream;

/// A codestream, and the lanes in which the rows of its slices were filed.
#[derive(Drop)]
pub struct Encoded {
    pub stream: Stream,
    pub lanes: Closed<ComponentRows>,
}

/// The codestream of a picture, as `xs_picture::encode_picture` gives it, or the first slice that is over its share at the
/// coarsest candidate. A thread for each component transforms it from the top, and files the rows of each slice as soon as
/// they are known; so many coders as the settings have workers claim the slices that are whole, and code them, and the caller
/// codes what they leave. Neither their number nor the gate has an effect on the answer.
pub fn encode_threaded<T: Threads + Sync, G: Gate>(
    threads: &T,
    alloc: Global,
    planes: &Planes,
    settings: &Checked,
    gate: &G,
) -> Result<Encoded, SliceRefusal>
    requires shape { planes.now.shape ≡ settings.now.shape }
    ensures encoding { IsEncodedOrMemory (encoding_of settings.now planes.now) result }
    ensures stored { IfOk result (λ e. StoresPicture (header_of settings.now) planes.now e.lanes.actor) }
    ensures got { IfOk result (λ e. GotEachOnce (header_of settings.now) e.lanes.actor) }
    ensures done { IfOk result (λ e. IsDone parts e.lanes.actor) }
{
    let Coded {
        lanes,
        slices,
        count,
    } = code_picture(threads, alloc, planes, settings, gate)?;
    let places = in_order(alloc, slices, count)?;
    let slices = bytes_of(alloc, places)?;
    let stream = assemble_stream(alloc, settings, slices)?;
    Ok(Encoded { stream, lanes })
}

// What comes of each slice of a picture.
fn code_picture<T: Threads + Sync, G: Gate>(
    threads: &T,
    alloc: Global,
    planes: &Planes,
    settings: &Checked,
    gate: &G,
) -> Result<Coded, Memory>
    requires shape { planes.now.shape ≡ settings.now.shape }
    ensures in_range { AreInRange settings.now }
    ensures count { IfOk result (λ c. c.count ≡ slice_count (header_of settings.now)) }
    ensures slices { IfOk result (λ c. AreSliced (header_of settings.now) (rows_of_picture (header_of settings.now) planes.now) settings.now.share settings.now.fill c.slices.items) }
    ensures stored { IfOk result (λ c. StoresPicture (header_of settings.now) planes.now c.lanes.actor) }
    ensures got { IfOk result (λ c. GotEachOnce (header_of settings.now) c.lanes.actor) }
    ensures done { IfOk result (λ c. IsDone parts c.lanes.actor) }
{
    let asked = settings.settings();
    let header = settings.header(alloc)?;
    let count = Geometry::of(&header).slices();
    let (lanes, pass) = Lanes::new(alloc, count)?;
    let job = Job {
        lanes: &lanes,
        picture: planes,
        header: &header,
        share: asked.share,
        fill: asked.fill,
    };
    let mut team = Team::new(alloc, &lanes, pass);
    let components = header.shape.format.components();
    team.fork(&lanes, components, u32::from(asked.workers))?;
    let caller = run_team(threads, alloc, &job, team, gate)?;
    Ok(end(caller, lanes, count))
}

// All activities run, and the caller takes over what they did and keep, and does what they left.
fn run_team<T: Threads + Sync, G: Gate>(
    threads: &T,
    alloc: Global,
    job: &Job<'_>,
    team: Team,
    gate: &G,
) -> Result<Activity, Memory>
    requires work { IsWork job.now }
    requires forked { AreForked job.now.lanes.now (components_of job.now.header.now.shape.format) team.pass team.others.items }
    requires roles { (c : ℕ) → c < components_of job.now.header.now.shape.format → HasRole team.others.items c }
    ensures { IfOk result (HasSwept job.now) }
{
    let Team { pass, mut others } = team;
    run_all(threads, job, gate, others.as_mut_slice());
    let mut caller = Activity::new(alloc, pass, Role::Coder(0));
    caller.gather(job, others);
    caller.sweep(job);
    if caller.starved {
        return Err(Memory);
    }
    Ok(caller)
}

// Closes the lanes.
fn end(caller: Activity, lanes: Lanes<ComponentRows>, count: u32) -> Coded
    requires pass { IsPassOf lanes caller.pass }
    requires alone { IsAlone (view caller.pass) }
    ensures actor { result.lanes.actor ≡ view caller.pass }
    ensures done { IsDone parts (view caller.pass) }
    ensures slices { result.slices ≡ caller.kept }
    ensures count { result.count ≡ count }
{
    let Activity {
        alloc: _,
        pass,
        role: _,
        kept,
        starved: _,
    } = caller;
    Coded {
        lanes: lanes.close(pass),
        slices: kept,
        count,
    }
}
