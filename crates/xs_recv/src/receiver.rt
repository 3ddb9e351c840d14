// A picture is received.
ghost use Rattle.std.specs.Prelude.{◌<◌, ◌≤◌, ◌^◌, length, IfOk};
ghost use Rattle.xs_lanes.specs.Settled.{IsDone};
ghost use Rattle.xs_capture.specs.Selection.{IsSelection};
ghost use Rattle.xs_stored.specs.Stored.{held_in, packets};
ghost use Rattle.xs_handover.specs.Blocks.{blocks};
ghost use Rattle.xs_recv.specs.Received.{IsReceived, IsSynthesised, offered_bytes, offers_of_parts};
ghost use Rattle.xs_recv.specs.Sweeping.{GotWholes, IsKeptOf, IsSettled};

use crate::activity::{Activity, Passes, Role, SweepEnd, Team};
use crate::answer::answer;
use crate::exchange::Exchange;
use crate::feeds::feeds_of;
use crate::received::Reception;
use crate::team::run_all;
use std::alloc::Global;
use std::thread::Threads;
use xs_capture::Parts;
use xs_io::{Gate, Memory};

/// Receives a picture of its packets, which come in any order, and each as often as one likes: 'RTP packets and captures'. All
/// are of one timestamp. Where two differ at one unit and place, one of them is taken. A thread for each part files its packets
/// on a board; so many workers claim the slices that are whole there, hand their rows over, and make the samples of stripes that
/// are whole in the handover; the caller does what they leave, and copies the lines. Neither the number of threads nor the gate
/// decides more than which of two such packets is taken. Where memory is wanting, the packets are given up.
pub fn receive_picture<T: Threads + Sync, G: Gate>(
    threads: &T,
    alloc: Global,
    parts: Parts,
    workers: u32,
    gate: &G,
) -> Result<Reception, Memory>
    requires parts { length parts ≤ 8 }
    requires bytes { offered_bytes (offers_of_parts parts) < 2 ^ 32 }
    ensures selection { IfOk result (λ r. IsSelection (offers_of_parts parts) (held_in r.board.actor.stored)) }
    ensures received { IfOk result (λ r. IsReceived (held_in r.board.actor.stored) r.received) }
    ensures done { IfOk result (λ r. IsDone packets r.board.actor) }
    ensures got { IfOk result (λ r. GotWholes r.board.actor) }
    ensures once { IfOk result (λ r. IsDone blocks r.stripes.actor) }
    ensures synthesised { IfOk result (λ r. IsSynthesised (held_in r.board.actor.stored) r.received r.stripes.actor) }
{
    answer(alloc, collect(threads, alloc, parts, workers, gate)?)
}

// Files all packets, and claims all units that are whole.
fn collect<T: Threads + Sync, G: Gate>(
    threads: &T,
    alloc: Global,
    parts: Parts,
    workers: u32,
    gate: &G,
) -> Result<SweepEnd, Memory>
    requires parts { length parts ≤ 8 }
    requires bytes { offered_bytes (offers_of_parts parts) < 2 ^ 32 }
    ensures kept { IfOk result (λ e. IsKeptOf (held_in e.board.actor.stored) e.handover e.kept) }
    ensures settled { IfOk result (λ e. IsSettled (offers_of_parts parts) e.board.actor) }
{
    let (feeds, units) = feeds_of(alloc, parts)?;
    let (exchange, passes) = Exchange::new(alloc, units)?;
    let mut team = Team::new(alloc, &exchange, passes);
    team.fork(&exchange, feeds, workers)?;
    let Team {
        pass,
        hand,
        mut others,
    } = team;
    run_all(threads, &exchange, gate, others.as_mut_slice());
    let passes = Passes { pass, hand };
    let mut caller = Activity::new(alloc, passes, Vec::new(alloc), Role::Feeder);
    caller.gather(&exchange, others);
    caller.sweep(&exchange);
    if caller.is_starved() {
        return Err(Memory);
    }
    Ok(caller.end(exchange))
}
