// The machine's lanes and actors, and each event as steps of code. What is kept true of them stands one file up.
ghost use Rattle.std.specs.Prelude.{◌≡◌, ◌+◌, ◌<◌, length, nat_eq, if◌then◌else◌, IfOk, OnOk, OnErr};
ghost use Rattle.xs_lane_core.specs.Places.{places, set_words, every_word};
ghost use Rattle.xs_lane_core.specs.declared.values.Numbered.{Numbered};
ghost use Rattle.xs_lane_core.specs.Machine.{Machine, start, lane_at, actor_at, acted, with_taken, with_home, with_summary, with_claim, with_value, stands, repeats, stores, sees, finds_gone, gets, stand_owing};
ghost use Rattle.xs_lane_core.specs.Steps.{sum_answer, takes, puts, homes, sums, looks, claims, pulls, splits, joins};
ghost use Rattle.xs_lane_core.specs.LaneStep.{numbered, outcome_of, told, lane_step};
ghost use Rattle.xs_lane_core.specs.declared.values.Stand.TheVariants.{Idle, Saw, Pulling};
ghost use Rattle.xs_lane_core.specs.Kept.{with_lane};

use crate::actor::ActorState;
use crate::growing::keep;
use crate::lane::{EVERY_WORD, LaneState, PLACES, home_bits, makes_whole, owed, word_of};
use crate::values::{Event, Numbered, Outcome, Stand};
use std::alloc::Global;
use std::marker::Model;
use xs_io::Memory;

#[derive(Drop)]
pub struct State {
    alloc: Global,
    lanes: Vec<LaneState>,
    actors: Vec<ActorState>,
}

impl Model for State {
    ghost Value = { Machine Numbered };

    ghost view = { λ s. record { lanes = s.lanes.items; actors = s.actors.items } };
}

fn empty_lanes(alloc: Global, count: u32) -> Result<Vec<LaneState>, Memory>
    ensures { IfOk result (λ v. v.items ≡ (start count).lanes) }
{
    let mut lanes = Vec::new(alloc);
    'making: for _ in 0..count {
        keep(&mut lanes, LaneState::empty())?;
    }
    Ok(lanes)
}

fn sum_outcome(before: u64, after: u64) -> Outcome
    ensures { result ≡ outcome_of (sum_answer before after) }
{
    if makes_whole(before, after) {
        Outcome::Made
    } else {
        Outcome::Stored
    }
}

fn stand_after_home(lane: u32, words: u64) -> Stand<Numbered>
    ensures { result ≡ stand_owing lane words }
{
    if words == 0 {
        Stand::Idle
    } else {
        Stand::Owing { lane, words }
    }
}

fn stand_after_look(lane: u32, summary: u64) -> Stand<Numbered>
    ensures { result ≡ (if nat_eq summary every_word then Saw lane else Idle) }
{
    if summary == EVERY_WORD {
        Stand::Saw { lane }
    } else {
        Stand::Idle
    }
}

fn stand_after_pull(value: Numbered, lane: u32, place: u32) -> Stand<Numbered>
    requires { place < places }
    ensures { result ≡ (if value.closes then Idle else Pulling lane (place + 1)) }
{
    if value.closes {
        Stand::Idle
    } else {
        Stand::Pulling {
            lane,
            place: place + 1,
        }
    }
}

impl State {
    pub fn new(alloc: Global, lanes: u32) -> Result<State, Memory>
        ensures { IfOk result (λ s. s ≡ start lanes) }
    {
        let lanes = empty_lanes(alloc, lanes)?;
        let mut actors = Vec::new(alloc);
        keep(&mut actors, ActorState::first(alloc)?)?;
        Ok(State {
            alloc,
            lanes,
            actors,
        })
    }

    fn lane(&self, lane: usize) -> &LaneState
        requires { lane < length self.now.lanes }
        ensures { result.now ≡ lane_at self.now lane }
    {
        &self.lanes[lane]
    }

    fn actor(&self, actor: usize) -> &ActorState
        requires { actor < length self.now.actors }
        ensures { result.now ≡ actor_at self.now actor }
    {
        &self.actors[actor]
    }

    fn take_place(&mut self, lane: usize, place: u32)
        requires { (lane < length self.old.lanes) × (place < places) }
        ensures { self.new ≡ with_lane self.old lane (with_taken (lane_at self.old lane) place) }
    {
        self.lanes[lane].take(place);
    }

    fn bring(&mut self, lane: usize, word: u32, more: u64)
        requires { (lane < length self.old.lanes) × (word < set_words) }
        ensures { self.new ≡ with_lane self.old lane (with_home (lane_at self.old lane) word more) }
    {
        self.lanes[lane].bring(word, more);
    }

    fn sum_up(&mut self, lane: usize, more: u64)
        requires { lane < length self.old.lanes }
        ensures { self.new ≡ with_lane self.old lane (with_summary (lane_at self.old lane) more) }
    {
        self.lanes[lane].sum(more);
    }

    fn claim_lane(&mut self, lane: usize)
        requires { lane < length self.old.lanes }
        ensures { self.new ≡ with_lane self.old lane (with_claim (lane_at self.old lane)) }
    {
        self.lanes[lane].claim();
    }

    fn set_value(&mut self, lane: usize, place: u32, value: Option<Numbered>)
        requires { (lane < length self.old.lanes) × (place < places) }
        ensures { self.new ≡ with_lane self.old lane (with_value (lane_at self.old lane) place value) }
    {
        self.lanes[lane].set_value(place, value);
    }

    fn set_stand(&mut self, actor: usize, stand: Stand<Numbered>)
        requires { actor < length self.old.actors }
        ensures { self.new ≡ acted self.old actor (stands stand (actor_at self.old actor)) }
    {
        self.actors[actor].set_stand(stand);
    }

    fn repeat(&mut self, actor: usize, lane: u32, place: u32) -> Result<(), Memory>
        requires { actor < length self.old.actors }
        ensures ok { OnOk result (self.new ≡ acted self.old actor (repeats lane place (actor_at self.old actor))) }
        ensures err { OnErr result (self.new ≡ self.old) }
    {
        self.actors[actor].repeat(lane, place)
    }

    fn store(&mut self, actor: usize, value: Numbered, stand: Stand<Numbered>) -> Result<(), Memory>
        requires { actor < length self.old.actors }
        ensures ok { OnOk result (self.new ≡ acted self.old actor (stores value stand (actor_at self.old actor))) }
        ensures err { OnErr result (self.new ≡ self.old) }
    {
        self.actors[actor].store(value, stand)
    }

    fn see(
        &mut self,
        actor: usize,
        stand: Stand<Numbered>,
        lane: u32,
        summary: u64,
    ) -> Result<(), Memory>
        requires { actor < length self.old.actors }
        ensures ok { OnOk result (self.new ≡ acted self.old actor (sees stand lane summary (actor_at self.old actor))) }
        ensures err { OnErr result (self.new ≡ self.old) }
    {
        self.actors[actor].see(stand, lane, summary)
    }

    fn find_gone(&mut self, actor: usize, lane: u32) -> Result<(), Memory>
        requires { actor < length self.old.actors }
        ensures ok { OnOk result (self.new ≡ acted self.old actor (finds_gone lane (actor_at self.old actor))) }
        ensures err { OnErr result (self.new ≡ self.old) }
    {
        self.actors[actor].find_gone(lane)
    }

    fn get(&mut self, actor: usize, value: Numbered, stand: Stand<Numbered>) -> Result<(), Memory>
        requires { actor < length self.old.actors }
        ensures ok { OnOk result (self.new ≡ acted self.old actor (gets value stand (actor_at self.old actor))) }
        ensures err { OnErr result (self.new ≡ self.old) }
    {
        self.actors[actor].get(value, stand)
    }

    pub fn take(&mut self, actor: usize, value: Numbered) -> Result<Outcome, Memory>
        ensures step { IfOk result (λ o. (self.new, o) ≡ told (takes numbered self.old actor value)) }
        ensures err { OnErr result (self.new ≡ self.old) }
    {
        let lane = value.lane as usize;
        if actor >= self.actors.len()
            || lane >= self.lanes.len()
            || value.place as usize >= PLACES
            || !self.actor(actor).is_free()
        {
            return Ok(Outcome::Refused);
        }
        if self.lane(lane).is_taken(value.place) {
            self.repeat(actor, value.lane, value.place)?;
            return Ok(Outcome::Back { value });
        }
        self.take_place(lane, value.place);
        self.set_stand(actor, Stand::Holding { value });
        Ok(Outcome::Taken)
    }

    pub fn put(&mut self, actor: usize) -> Outcome
        ensures { (self.new, result) ≡ told (puts numbered self.old actor) }
    {
        if actor >= self.actors.len() {
            return Outcome::Refused;
        }
        let Stand::Holding { value } = self.actor(actor).stand() else {
            return Outcome::Refused;
        };
        let lane = value.lane as usize;
        if lane >= self.lanes.len() || value.place as usize >= PLACES {
            return Outcome::Refused;
        }
        self.set_value(lane, value.place, Some(value));
        self.set_stand(actor, Stand::Laid { value });
        Outcome::Laid
    }

    pub fn home(&mut self, actor: usize) -> Result<Outcome, Memory>
        ensures step { IfOk result (λ o. (self.new, o) ≡ told (homes numbered self.old actor)) }
        ensures err { OnErr result (self.new ≡ self.old) }
    {
        if actor >= self.actors.len() {
            return Ok(Outcome::Refused);
        }
        let Stand::Laid { value } = self.actor(actor).stand() else {
            return Ok(Outcome::Refused);
        };
        let lane = value.lane as usize;
        if lane >= self.lanes.len() || value.place as usize >= PLACES {
            return Ok(Outcome::Refused);
        }
        let word = word_of(value.place);
        let more = home_bits(value.closes, value.place);
        let before = self.lane(lane).home(word);
        let words = owed(value.closes, word, before, before | more);
        self.store(actor, value, stand_after_home(value.lane, words))?;
        self.bring(lane, word, more);
        Ok(if words == 0 {
            Outcome::Stored
        } else {
            Outcome::Owing
        })
    }

    pub fn sum(&mut self, actor: usize) -> Result<Outcome, Memory>
        ensures step { IfOk result (λ o. (self.new, o) ≡ told (sums self.old actor)) }
        ensures err { OnErr result (self.new ≡ self.old) }
    {
        if actor >= self.actors.len() {
            return Ok(Outcome::Refused);
        }
        let Stand::Owing { lane, words } = self.actor(actor).stand() else {
            return Ok(Outcome::Refused);
        };
        let at = lane as usize;
        if at >= self.lanes.len() {
            return Ok(Outcome::Refused);
        }
        let before = self.lane(at).summary();
        let summary = before | words;
        self.see(actor, Stand::Idle, lane, summary)?;
        self.sum_up(at, words);
        Ok(sum_outcome(before, summary))
    }

    pub fn look(&mut self, actor: usize, lane: u32) -> Result<Outcome, Memory>
        ensures step { IfOk result (λ o. (self.new, o) ≡ told (looks self.old actor lane)) }
        ensures err { OnErr result (self.new ≡ self.old) }
    {
        let at = lane as usize;
        if actor >= self.actors.len() || at >= self.lanes.len() || !self.actor(actor).is_free() {
            return Ok(Outcome::Refused);
        }
        let summary = self.lane(at).summary();
        self.see(actor, stand_after_look(lane, summary), lane, summary)?;
        Ok(Outcome::Seen { mask: summary })
    }

    pub fn claim(&mut self, actor: usize) -> Result<Outcome, Memory>
        ensures step { IfOk result (λ o. (self.new, o) ≡ told (claims self.old actor)) }
        ensures err { OnErr result (self.new ≡ self.old) }
    {
        if actor >= self.actors.len() {
            return Ok(Outcome::Refused);
        }
        let Stand::Saw { lane } = self.actor(actor).stand() else {
            return Ok(Outcome::Refused);
        };
        let at = lane as usize;
        if at >= self.lanes.len() {
            return Ok(Outcome::Refused);
        }
        if self.lane(at).is_claimed() {
            self.find_gone(actor, lane)?;
            return Ok(Outcome::Gone);
        }
        self.claim_lane(at);
        self.set_stand(actor, Stand::Pulling { lane, place: 0 });
        Ok(Outcome::Claimed)
    }

    pub fn pull(&mut self, actor: usize) -> Result<Outcome, Memory>
        ensures step { IfOk result (λ o. (self.new, o) ≡ told (pulls numbered self.old actor)) }
        ensures err { OnErr result (self.new ≡ self.old) }
    {
        if actor >= self.actors.len() {
            return Ok(Outcome::Refused);
        }
        let Stand::Pulling { lane, place } = self.actor(actor).stand() else {
            return Ok(Outcome::Refused);
        };
        let at = lane as usize;
        if at >= self.lanes.len() || place as usize >= PLACES {
            return Ok(Outcome::Refused);
        }
        let Some(value) = self.lane(at).value(place) else {
            return Ok(Outcome::Refused);
        };
        self.get(actor, value, stand_after_pull(value, lane, place))?;
        self.set_value(at, place, None);
        Ok(Outcome::Pulled { value })
    }

    pub fn split(&mut self, actor: usize) -> Result<Outcome, Memory>
        ensures step { IfOk result (λ o. (self.new, o) ≡ told (splits self.old actor)) }
        ensures err { OnErr result (self.new ≡ self.old) }
    {
        if actor >= self.actors.len() || !self.actor(actor).is_free() {
            return Ok(Outcome::Refused);
        }
        let number = self.actors.len() as u64;
        self.actors.reserve(1).map_err(|_| Memory)?;
        let other = self.actors[actor].split(self.alloc)?;
        self.actors.push_reserved(other);
        Ok(Outcome::Split { actor: number })
    }

    fn replace(&mut self, actor: usize, actor_state: ActorState)
        requires { actor < length self.old.actors }
        ensures { self.new ≡ acted self.old actor actor_state }
    {
        self.actors[actor] = actor_state;
    }

    pub fn join(&mut self, actor: usize, other: usize) -> Result<Outcome, Memory>
        ensures step { IfOk result (λ o. (self.new, o) ≡ told (joins self.old actor other)) }
        ensures err { OnErr result (self.new ≡ self.old) }
    {
        let there = actor < self.actors.len() && other < self.actors.len() && actor != other;
        if !there || !self.actor(actor).is_free() || !self.actor(other).is_free() {
            return Ok(Outcome::Refused);
        }
        let joined = self.actor(actor).joined(self.alloc, self.actor(other))?;
        self.replace(actor, joined);
        self.replace(other, ActorState::spent(self.alloc));
        Ok(Outcome::Joined)
    }

    pub fn step(&mut self, event: Event) -> Result<Outcome, Memory>
        ensures step { IfOk result (λ o. (self.new, o) ≡ lane_step self.old event) }
        ensures err { OnErr result (self.new ≡ self.old) }
    {
        match event {
            Event::Take { actor, value } => self.take(actor as usize, value),
            Event::Put { actor } => Ok(self.put(actor as usize)),
            Event::Home { actor } => self.home(actor as usize),
            Event::Sum { actor } => self.sum(actor as usize),
            Event::Look { actor, lane } => self.look(actor as usize, lane),
            Event::Claim { actor } => self.claim(actor as usize),
            Event::Pull { actor } => self.pull(actor as usize),
            Event::Split { actor } => self.split(actor as usize),
            Event::Join { actor, other } => self.join(actor as usize, other as usize),
        }
    }
}
