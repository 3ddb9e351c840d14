ghost use Rattle.std.specs.Prelude.{◌≡◌, ◌≤◌, ◌↔◌, false, IfOk, OnErr, Ok};
ghost use Rattle.xs_lane_core.specs.declared.values.Numbered.{Numbered};
ghost use Rattle.xs_lane_core.specs.declared.values.Outcome.TheVariants.{Refused};
ghost use Rattle.xs_lane_core.specs.Machine.{Machine, start};
ghost use Rattle.xs_lane_core.specs.Sound.{IsSound};
ghost use Rattle.xs_lane_core.specs.LaneStep.{numbered, lane_step, allows};

use crate::state::State;
use crate::values::{Event, Outcome};
use std::alloc::Global;
use std::marker::Model;
use xs_io::Memory;

/// The lane machine over numbered values. Contracts see its lanes and its actors, which are always sound: each place
/// that was taken has one value for good, and each lane is claimed at most once.
#[derive(Drop)]
pub struct Core {
    state: State,
}

impl Model for Core {
    ghost Value = { Machine Numbered };

    ghost view = { λ c. c.state };

    ghost invariant = { λ c. IsSound numbered c.state };
}

impl Core {
    /// A machine of 1 to 2048 empty lanes, with one actor, which has the number 0 and the whole share.
    pub fn new(alloc: Global, lanes: u32) -> Result<Core, Memory>
        requires lanes { (1 ≤ lanes) × (lanes ≤ 2048) }
        ensures first { IfOk result (λ core. core ≡ start lanes) }
        ensures sound { IfOk result (λ core. IsSound numbered core) }
    {
        let state = State::new(alloc, lanes)?;
        Ok(Core { state })
    }

    /// One step of the machine. Where memory is wanting nothing has changed, and the event may be tried again.
    pub fn step(&mut self, event: Event) -> Result<Outcome, Memory>
        ensures step { IfOk result (λ outcome. (self.new, outcome) ≡ lane_step self.old event) }
        ensures refused { IfOk result (λ outcome. (outcome ≡ Refused) ↔ (allows self.old event ≡ false)) }
        ensures unchanged { result ≡ Ok Refused → self.new ≡ self.old }
        ensures memory { OnErr result (self.new ≡ self.old) }
        ensures sound { IsSound numbered self.new }
    {
        self.state.step(event)
    }
}
