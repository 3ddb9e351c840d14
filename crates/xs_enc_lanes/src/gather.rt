// Activities are joined.
ghost use Rattle.std.specs.Prelude.{◌≡◌, ◌++◌, length, true, false};
ghost use Rattle.xs_lane_core.specs.Machine.{joined};
ghost use Rattle.xs_lane_core.specs.Sound.{IsAlone};
ghost use Rattle.xs_lanes.specs.Passes.{IsPassOf, view};
ghost use Rattle.xs_enc_lanes.specs.Working.{AreJoined, HasAllFiled, HasJoined, MayJoin};

use crate::activity::{Activity, CodedSlice, Job};
use crate::rows::ComponentRows;
use xs_lanes::Lanes;

// Moves all slices to the end, or answers false where memory is wanting.
fn keep_all(kept: &mut Vec<CodedSlice>, more: Vec<CodedSlice>) -> bool
    ensures kept { result ≡ true → kept.new.items ≡ kept.old.items ++ more.items }
    ensures lost { result ≡ false → kept.new.items ≡ kept.old.items }
{
    let mut more = more;
    kept.append(&mut more).is_ok()
}

impl Activity {
    // Takes over what the other did and keeps.
    fn absorb(&mut self, lanes: &Lanes<ComponentRows>, other: Activity)
        requires mine { IsPassOf lanes.now self.old.pass }
        requires theirs { IsPassOf lanes.now other.pass }
        ensures pass { IsPassOf lanes.now self.new.pass }
        ensures joined { HasJoined self.old other self.new }
    {
        let Activity {
            alloc: _,
            pass,
            role: _,
            kept,
            starved,
        } = other;
        lanes.join(&mut self.pass, pass);
        let all = keep_all(&mut self.kept, kept);
        self.starved = !all || self.starved || starved;
    }

    // Takes over what all others did and keep, the last one first.
    pub(crate) fn gather(&mut self, job: &Job<'_>, mut others: Vec<Activity>)
        requires join { MayJoin job.now.lanes.now (length others.items) self.old.pass others.items }
        requires joined { AreJoined job.now self.old others.items }
        ensures pass { IsPassOf job.now.lanes.now self.new.pass }
        ensures alone { IsAlone (view self.new.pass) }
        ensures all { HasAllFiled job.now self.new }
    {
        'gathering: while let Some(other) = others.pop() {
            self.absorb(job.lanes, other);
        }
    }
}
