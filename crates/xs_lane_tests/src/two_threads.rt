// Two threads at the same lanes.
ghost use Rattle.std.specs.Prelude.{◌≡◌, ◌<◌, ℕ, All, length, slice_index_or};
ghost use Rattle.xs_lane_core.specs.Machine.{joined};
ghost use Rattle.xs_lane_core.specs.Places.{places};
ghost use Rattle.xs_lanes.specs.Knowing.{SameShare};
ghost use Rattle.xs_lanes.specs.Passes.{IsPassOf, view, lane_count};

use crate::values::{Item, told, value_at};
use arrayvec::ArrayVec;
use std::alloc::Global;
use std::test::Fail;
use std::thread;
use std::thread::Threads;
use xs_io::Memory;
use xs_lanes::{Claim, Lanes, PLACES, Pass};

// How many lanes two workers fill.
const LANES: u32 = 64;

// What one thread does: it puts a value at each place of lane 0, or every other value of each lane, and claims the lanes
// that it finds whole.
#[derive(Drop)]
struct Worker {
    pass: Pass<Item>,
    number: u32,
    stored: u32,
    back: u32,
    claims: u32,
    in_order: u64,
}

// Whether the values have the places 0, 1 and so on, of this lane.
fn are_in_order(values: &[Item], lane: u32) -> bool {
    let mut next: u32 = 0;
    for value in values {
        if value.lane != lane || value.place != next {
            return false;
        }
        next = next.saturating_add(1);
    }
    next > 0
}

impl Worker {
    fn new(pass: Pass<Item>, number: u32) -> Worker
        ensures { result.pass ≡ pass }
    {
        Worker {
            pass,
            number,
            stored: 0,
            back: 0,
            claims: 0,
            in_order: 0,
        }
    }

    fn put(&mut self, lanes: &Lanes<Item>, item: Item)
        requires { IsPassOf lanes.now self.old.pass × (item.lane < lane_count lanes.now) × (item.place < places) }
        ensures pass { IsPassOf lanes.now self.new.pass }
        ensures share { SameShare (view self.old.pass) (view self.new.pass) }
    {
        if told(lanes.put(&mut self.pass, item)) < 2 {
            self.stored = self.stored.saturating_add(1);
        } else {
            self.back = self.back.saturating_add(1);
        }
    }

    fn feed(&mut self, lanes: &Lanes<Item>)
        requires { IsPassOf lanes.now self.old.pass × (lane_count lanes.now ≡ 64) }
        ensures pass { IsPassOf lanes.now self.new.pass }
        ensures share { SameShare (view self.old.pass) (view self.new.pass) }
    {
        let number = self.number;
        'feeding: for place in 0..512 {
            self.put(lanes, value_at(place, place == 511, number));
        }
    }

    fn put_all(&mut self, lanes: &Lanes<Item>)
        requires { IsPassOf lanes.now self.old.pass × (lane_count lanes.now ≡ 64) }
        ensures pass { IsPassOf lanes.now self.new.pass }
        ensures share { SameShare (view self.old.pass) (view self.new.pass) }
    {
        let first = self.number % 2;
        'putting: for number in 0..128 {
            let place = number % 2 * 2 + first;
            self.put(
                lanes,
                Item {
                    lane: number / 2,
                    place,
                    closes: place == 3,
                    feeder: 2,
                },
            );
        }
    }

    fn claim(&mut self, lanes: &Lanes<Item>, lane: u32)
        requires { IsPassOf lanes.now self.old.pass × (lane < lane_count lanes.now) × (lane < 64) }
        ensures pass { IsPassOf lanes.now self.new.pass }
        ensures share { SameShare (view self.old.pass) (view self.new.pass) }
    {
        let mut values: ArrayVec<Item, PLACES> = ArrayVec::new();
        if lanes.claim(&mut self.pass, lane, &mut values) == Claim::Got {
            self.claims = self.claims.saturating_add(1);
            if are_in_order(values.as_slice(), lane) {
                self.in_order |= 1 << lane;
            }
        }
    }

    fn claim_all(&mut self, lanes: &Lanes<Item>)
        requires { IsPassOf lanes.now self.old.pass × (lane_count lanes.now ≡ 64) }
        ensures pass { IsPassOf lanes.now self.new.pass }
        ensures share { SameShare (view self.old.pass) (view self.new.pass) }
    {
        'claiming: for lane in 0..LANES {
            self.claim(lanes, lane);
        }
    }

    // Feeds lane 0 where `one_lane` says so, else fills all lanes and claims them.
    fn work(&mut self, lanes: &Lanes<Item>, one_lane: bool)
        requires { IsPassOf lanes.now self.old.pass × (lane_count lanes.now ≡ 64) }
        ensures pass { IsPassOf lanes.now self.new.pass }
        ensures share { SameShare (view self.old.pass) (view self.new.pass) }
    {
        if one_lane {
            self.feed(lanes);
        } else {
            self.put_all(lanes);
            self.claim_all(lanes);
        }
    }

    fn take_in(&mut self, lanes: &Lanes<Item>, other: Worker)
        requires { IsPassOf lanes.now self.old.pass × IsPassOf lanes.now other.pass }
        ensures pass { IsPassOf lanes.now self.new.pass }
        ensures union { view self.new.pass ≡ joined (view self.old.pass) (view other.pass) }
    {
        let Worker {
            pass,
            number: _,
            stored,
            back,
            claims,
            in_order,
        } = other;
        lanes.join(&mut self.pass, pass);
        self.stored = self.stored.saturating_add(stored);
        self.back = self.back.saturating_add(back);
        self.claims = self.claims.saturating_add(claims);
        self.in_order |= in_order;
    }
}

fn work_all<R: Threads + Sync>(rt: &R, lanes: &Lanes<Item>, workers: &mut [Worker], one_lane: bool)
    requires { All (λ w. IsPassOf lanes.now w.pass) workers.old × (lane_count lanes.now ≡ 64) }
    ensures { (i : ℕ) (d : _) → i < length workers.old → IsPassOf lanes.now (slice_index_or workers.new i d).pass
        × SameShare (view (slice_index_or workers.old i d).pass) (view (slice_index_or workers.new i d).pass) }
{
    thread::for_each_mut(
        rt,
        workers,
        2,
        &|_: usize, worker: &mut Worker| worker.work(lanes, one_lane),
    );
}

// How many values two threads stored and were handed back, how many lanes they claimed and with all values in order, and
// what the closed lanes tell of the first and the last one.
pub fn two_workers<R: Threads + Sync>(
    rt: &R,
    alloc: Global,
    one_lane: bool,
) -> Result<(u32, u32, u32, u64, bool, bool), Memory> {
    let (lanes, mut pass) = Lanes::new(alloc, LANES)?;
    let mut workers = [
        Worker::new(lanes.split(&mut pass), 2),
        Worker::new(lanes.split(&mut pass), 3),
    ];
    work_all(rt, &lanes, &mut workers, one_lane);
    let [first, second] = workers;
    let mut all = Worker::new(pass, 0);
    all.take_in(&lanes, second);
    all.take_in(&lanes, first);
    // A lane may have come home behind both scans.
    all.claim_all(&lanes);
    let Worker {
        pass,
        number: _,
        stored,
        back,
        claims,
        in_order,
    } = all;
    let closed = lanes.close(pass);
    let first_lane = closed.whole(0) && closed.claimed(0) && closed.held(0, 3);
    let last_lane = closed.whole(63) && closed.claimed(63) && !closed.held(63, 4);
    Ok((stored, back, claims, in_order, first_lane, last_lane))
}

#[test]
fn two_threads_put_the_same_places(rt: HostRuntime) -> Result<(), Fail> {
    let told = two_workers(&rt, rt.alloc(), true)?;
    assert!(rt; told == (512, 512, 1, 1, true, false));
    Ok(())
}

#[test]
fn two_threads_claim_each_lane_once(rt: HostRuntime) -> Result<(), Fail> {
    let told = two_workers(&rt, rt.alloc(), false)?;
    assert!(rt; told == (256, 0, 64, u64::MAX, true, true));
    Ok(())
}
