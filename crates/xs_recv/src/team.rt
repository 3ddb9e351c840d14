// The activities of a picture, one for each part and one for each worker.
ghost use Rattle.std.specs.Prelude.{◌≡◌, ◌<◌, ◌++◌, ◌∷◌, [], ℕ, All, List, length, OnOk, slice_index_or};
ghost use Rattle.xs_lane_core.specs.Machine.{newcomer};
ghost use Rattle.xs_capture.specs.Offer.{Offer};
ghost use Rattle.xs_board.specs.Passes.{IsBoardPass, actor, unit_count};
ghost use Rattle.xs_handover.specs.Passes.{IsHandPass, actor as hand_actor};
ghost use Rattle.xs_recv.specs.Filing.{AreForked, AreOfUnits, HandsForked, HasRun, IsUnusedPass, fed};

use crate::activity::{Activity, Feed, Passes, Role, Team};
use crate::exchange::Exchange;
use std::alloc::Global;
use std::thread;
use std::thread::Threads;
use xs_capture::Packet;
use xs_io::{Gate, Memory};

impl Activity {
    // One that did nothing.
    pub(crate) fn new(alloc: Global, passes: Passes, part: Vec<Packet>, role: Role) -> Activity
        requires pass { IsUnusedPass (actor passes.pass) }
        requires hand { IsUnusedPass (hand_actor passes.hand) }
        ensures pass { result.pass ≡ passes.pass }
        ensures hand { result.hand ≡ passes.hand }
        ensures part { result.part ≡ part.items }
    {
        Activity {
            alloc,
            pass: passes.pass,
            hand: passes.hand,
            part,
            role,
            head: None,
            kept: Vec::new(alloc),
            stripes: Vec::new(alloc),
            starved: false,
        }
    }
}

// Puts an activity at the end.
fn push_activity(others: &mut Vec<Activity>, activity: Activity) -> Result<(), Memory>
    ensures { OnOk result (others.new.items ≡ others.old.items ++ activity ∷ []) }
{
    others.push(activity).map_err(|_| Memory)
}

impl Team {
    // One activity more.
    fn add(&mut self, exchange: &Exchange, part: Vec<Packet>, role: Role) -> Result<(), Memory>
        requires pass { IsBoardPass exchange.now.board self.old.pass }
        requires hands { HandsForked exchange.now.handover self.old.hand self.old.others.items }
        requires units { All (λ p. p.unit < unit_count exchange.now.board) part.items }
        ensures pass { IsBoardPass exchange.now.board self.new.pass }
        ensures hands { OnOk result (HandsForked exchange.now.handover self.new.hand self.new.others.items) }
        ensures forked { OnOk result ((offers : List Offer) → AreForked exchange.now.board offers self.old.pass self.old.others.items → AreForked exchange.now.board (part.items ++ offers) self.new.pass self.new.others.items) }
    {
        let alloc = *self.others.allocator();
        let passes = Passes {
            pass: exchange.board.split(&mut self.pass),
            hand: exchange.handover.split(&mut self.hand),
        };
        let activity = Activity::new(alloc, passes, part, role);
        push_activity(&mut self.others, activity)
    }

    // One activity for each part.
    fn add_feeders(&mut self, exchange: &Exchange, mut feeds: Vec<Feed>) -> Result<(), Memory>
        requires forked { AreForked exchange.now.board [] self.old.pass self.old.others.items }
        requires hands { HandsForked exchange.now.handover self.old.hand self.old.others.items }
        requires units { AreOfUnits (unit_count exchange.now.board) feeds.items }
        ensures pass { IsBoardPass exchange.now.board self.new.pass }
        ensures forked { OnOk result (AreForked exchange.now.board (fed feeds.items) self.new.pass self.new.others.items) }
        ensures hands { OnOk result (HandsForked exchange.now.handover self.new.hand self.new.others.items) }
    {
        'feeding: while let Some(feed) = feeds.pop() {
            self.add(exchange, feed.part, Role::Feeder)?;
        }
        Ok(())
    }

    // So many activities that work.
    fn add_workers(&mut self, exchange: &Exchange, workers: u32) -> Result<(), Memory>
        requires pass { IsBoardPass exchange.now.board self.old.pass }
        requires hands { HandsForked exchange.now.handover self.old.hand self.old.others.items }
        ensures pass { IsBoardPass exchange.now.board self.new.pass }
        ensures forked { OnOk result ((offers : List Offer) → AreForked exchange.now.board offers self.old.pass self.old.others.items → AreForked exchange.now.board offers self.new.pass self.new.others.items) }
        ensures hands { OnOk result (HandsForked exchange.now.handover self.new.hand self.new.others.items) }
    {
        let alloc = *self.others.allocator();
        'working: for number in 0..workers {
            self.add(exchange, Vec::new(alloc), Role::Worker(number))?;
        }
        Ok(())
    }

    // One activity for each part, and then so many that work.
    pub(crate) fn fork(
        &mut self,
        exchange: &Exchange,
        feeds: Vec<Feed>,
        workers: u32,
    ) -> Result<(), Memory>
        requires forked { AreForked exchange.now.board [] self.old.pass self.old.others.items }
        requires hands { HandsForked exchange.now.handover self.old.hand self.old.others.items }
        requires units { AreOfUnits (unit_count exchange.now.board) feeds.items }
        ensures forked { OnOk result (AreForked exchange.now.board (fed feeds.items) self.new.pass self.new.others.items) }
        ensures hands { OnOk result (HandsForked exchange.now.handover self.new.hand self.new.others.items) }
    {
        self.add_feeders(exchange, feeds)?;
        self.add_workers(exchange, workers)
    }

    // No activity yet.
    pub(crate) fn new(alloc: Global, exchange: &Exchange, passes: Passes) -> Team
        requires pass { IsBoardPass exchange.now.board passes.pass }
        requires first { actor passes.pass ≡ newcomer }
        requires hand { IsHandPass exchange.now.handover passes.hand }
        requires fresh { hand_actor passes.hand ≡ newcomer }
        ensures forked { AreForked exchange.now.board [] result.pass result.others.items }
        ensures hands { HandsForked exchange.now.handover result.hand result.others.items }
    {
        let Passes { pass, hand } = passes;
        Team {
            pass,
            hand,
            others: Vec::new(alloc),
        }
    }
}

// Each activity runs in a thread of its own, where one can be made.
pub(crate) fn run_all<T: Threads + Sync, G: Gate>(
    threads: &T,
    exchange: &Exchange,
    gate: &G,
    activities: &mut [Activity],
)
    requires passes { All (λ a. IsBoardPass exchange.now.board a.pass) activities.old }
    requires hands { All (λ a. IsHandPass exchange.now.handover a.hand) activities.old }
    requires units { All (λ a. All (λ (p : Offer). p.unit < unit_count exchange.now.board) a.part) activities.old }
    ensures { (i : ℕ) (d : _) → i < length activities.old → HasRun exchange.now (slice_index_or activities.old i d) (slice_index_or activities.new i d) }
{
    if activities.is_empty() {
        return;
    }
    let count = activities.len();
    thread::for_each_mut(
        threads,
        activities,
        count,
        &|_: usize, activity: &mut Activity|
            requires { IsBoardPass exchange.now.board activity.old.pass × IsHandPass exchange.now.handover activity.old.hand × All (λ (p : Offer). p.unit < unit_count exchange.now.board) activity.old.part }
            ensures { HasRun exchange.entry.now activity.old activity.new }
        { activity.run(exchange, gate) },
    );
}
