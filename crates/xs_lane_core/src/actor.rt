// One actor, and what each event changes in it.
ghost use Rattle.std.specs.Prelude.{◌≡◌, ◌++◌, IfOk, OnOk, OnErr};
ghost use Rattle.xs_lane_core.specs.declared.values.Numbered.{Numbered};
ghost use Rattle.xs_lane_core.specs.Machine.{Actor, newcomer, nobody, stands, repeats, stores, sees, finds_gone, gets, halves, copied, joined};
ghost use Rattle.xs_lane_core.specs.Steps.{is_free};

use crate::growing::{copy_of, keep};
use crate::share::Share;
use crate::values::{Numbered, Stand};
use std::alloc::Global;
use std::marker::Model;
use xs_io::Memory;

#[derive(Drop)]
pub struct ActorState {
    stand: Stand<Numbered>,
    stored: Vec<Numbered>,
    repeated: Vec<(u32, u32)>,
    got: Vec<Numbered>,
    gone: Vec<u32>,
    seen: Vec<(u32, u64)>,
    share: Share,
}

impl Model for ActorState {
    ghost Value = { Actor Numbered };

    ghost view = { λ s. record { stand = s.stand; stored = s.stored.items; repeated = s.repeated.items; got = s.got.items; gone = s.gone.items; seen = s.seen.items; parts = s.share.parts; halved = s.share.halved } };
}

// A list of what the first and then the second has.
fn both<T: Copy + Drop>(alloc: Global, first: &[T], second: &[T]) -> Result<Vec<T>, Memory>
    ensures { IfOk result (λ v. v.items ≡ first.now ++ second.now) }
{
    let mut list = copy_of(alloc, first)?;
    list.extend_from_slice(second).map_err(|_| Memory)?;
    Ok(list)
}

impl ActorState {
    pub fn first(alloc: Global) -> Result<ActorState, Memory>
        ensures { IfOk result (λ a. a ≡ newcomer) }
    {
        let share = Share::whole(alloc)?;
        Ok(ActorState {
            stand: Stand::Idle,
            stored: Vec::new(alloc),
            repeated: Vec::new(alloc),
            got: Vec::new(alloc),
            gone: Vec::new(alloc),
            seen: Vec::new(alloc),
            share,
        })
    }

    pub fn spent(alloc: Global) -> ActorState
        ensures { result ≡ nobody }
    {
        ActorState {
            stand: Stand::Spent,
            stored: Vec::new(alloc),
            repeated: Vec::new(alloc),
            got: Vec::new(alloc),
            gone: Vec::new(alloc),
            seen: Vec::new(alloc),
            share: Share::none(alloc),
        }
    }

    pub fn stand(&self) -> Stand<Numbered>
        ensures { result ≡ self.now.stand }
    {
        self.stand
    }

    pub fn is_free(&self) -> bool
        ensures { result ≡ is_free self.now.stand }
    {
        match self.stand {
            Stand::Idle | Stand::Saw { .. } => true,
            Stand::Holding { .. } | Stand::Laid { .. } | Stand::Owing { .. } => false,
            Stand::Pulling { .. } | Stand::Spent => false,
        }
    }

    pub fn set_stand(&mut self, stand: Stand<Numbered>)
        ensures { self.new ≡ stands stand self.old }
    {
        self.stand = stand;
    }

    pub fn repeat(&mut self, lane: u32, place: u32) -> Result<(), Memory>
        ensures ok { OnOk result (self.new ≡ repeats lane place self.old) }
        ensures err { OnErr result (self.new ≡ self.old) }
    {
        keep(&mut self.repeated, (lane, place))?;
        self.stand = Stand::Idle;
        Ok(())
    }

    pub fn store(&mut self, value: Numbered, stand: Stand<Numbered>) -> Result<(), Memory>
        ensures ok { OnOk result (self.new ≡ stores value stand self.old) }
        ensures err { OnErr result (self.new ≡ self.old) }
    {
        keep(&mut self.stored, value)?;
        self.stand = stand;
        Ok(())
    }

    pub fn see(&mut self, stand: Stand<Numbered>, lane: u32, summary: u64) -> Result<(), Memory>
        ensures ok { OnOk result (self.new ≡ sees stand lane summary self.old) }
        ensures err { OnErr result (self.new ≡ self.old) }
    {
        keep(&mut self.seen, (lane, summary))?;
        self.stand = stand;
        Ok(())
    }

    pub fn find_gone(&mut self, lane: u32) -> Result<(), Memory>
        ensures ok { OnOk result (self.new ≡ finds_gone lane self.old) }
        ensures err { OnErr result (self.new ≡ self.old) }
    {
        keep(&mut self.gone, lane)?;
        self.stand = Stand::Idle;
        Ok(())
    }

    pub fn get(&mut self, value: Numbered, stand: Stand<Numbered>) -> Result<(), Memory>
        ensures ok { OnOk result (self.new ≡ gets value stand self.old) }
        ensures err { OnErr result (self.new ≡ self.old) }
    {
        keep(&mut self.got, value)?;
        self.stand = stand;
        Ok(())
    }

    // The new actor of a split. This one keeps the other half of the share.
    pub fn split(&mut self, alloc: Global) -> Result<ActorState, Memory>
        ensures new { IfOk result (λ a. a ≡ copied self.old) }
        ensures ok { OnOk result (self.new ≡ halves self.old) }
        ensures err { OnErr result (self.new ≡ self.old) }
    {
        let gone = copy_of(alloc, self.gone.as_slice())?;
        let seen = copy_of(alloc, self.seen.as_slice())?;
        let share = self.share.split(alloc)?;
        Ok(ActorState {
            stand: Stand::Idle,
            stored: Vec::new(alloc),
            repeated: Vec::new(alloc),
            got: Vec::new(alloc),
            gone,
            seen,
            share,
        })
    }

    pub fn joined(&self, alloc: Global, other: &ActorState) -> Result<ActorState, Memory>
        ensures { IfOk result (λ a. a ≡ joined self.now other.now) }
    {
        let stored = both(alloc, self.stored.as_slice(), other.stored.as_slice())?;
        let repeated = both(alloc, self.repeated.as_slice(), other.repeated.as_slice())?;
        let got = both(alloc, self.got.as_slice(), other.got.as_slice())?;
        let gone = both(alloc, self.gone.as_slice(), other.gone.as_slice())?;
        let seen = both(alloc, self.seen.as_slice(), other.seen.as_slice())?;
        let share = self.share.joined(alloc, &other.share)?;
        Ok(ActorState {
            stand: self.stand,
            stored,
            repeated,
            got,
            gone,
            seen,
            share,
        })
    }
}
