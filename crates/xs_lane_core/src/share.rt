// The share of an actor. Only contracts read it.
ghost use Rattle.std.specs.Prelude.{◌≡◌, ◌+◌, ◌*◌, ◌^◌, ◌++◌, ◌∷◌, [], max, IfOk, OnOk, OnErr};
ghost use Rattle.xs_lane_core.specs.Share.{Portion, portion, parts_of};
ghost use Rattle.xs_lane_core.specs.Machine.{joined_parts};

use crate::growing::{copy_of, keep};
use std::alloc::Global;
use std::marker::Model;
use xs_io::Memory;

// The parts are a sum of powers of two, of which the exponents are kept: so a share has no limit.
#[derive(Drop)]
pub struct Share {
    powers: Vec<u64>,
    halved: u64,
}

impl Model for Share {
    ghost Value = { Portion };

    ghost view = { λ s. portion (parts_of s.powers.items) s.halved };
}

fn raised(power: u64, by: u64) -> Result<u64, Memory>
    ensures { IfOk result (λ raised. raised ≡ power + by) }
{
    power.checked_add(by).ok_or(Memory)
}

// Adds the powers, each `by` higher.
fn add_raised(into: &mut Vec<u64>, powers: &[u64], by: u64) -> Result<(), Memory>
    ensures sum { OnOk result (parts_of into.new.items ≡ parts_of into.old.items + parts_of powers.now * 2 ^ by) }
{
    'adding: for power in powers {
        let higher = raised(*power, by)?;
        keep(into, higher)?;
    }
    Ok(())
}

impl Share {
    /// The whole share.
    pub fn whole(alloc: Global) -> Result<Share, Memory>
        ensures { IfOk result (λ s. s ≡ portion 1 0) }
    {
        let mut powers = Vec::new(alloc);
        keep(&mut powers, 0)?;
        Ok(Share { powers, halved: 0 })
    }

    /// No share.
    pub fn none(alloc: Global) -> Share
        ensures { result ≡ portion 0 0 }
    {
        Share {
            powers: Vec::new(alloc),
            halved: 0,
        }
    }

    // One half. The other stays.
    pub fn split(&mut self, alloc: Global) -> Result<Share, Memory>
        ensures new { IfOk result (λ s. s ≡ portion self.old.parts (self.old.halved + 1)) }
        ensures ok { OnOk result (self.new ≡ portion self.old.parts (self.old.halved + 1)) }
        ensures err { OnErr result (self.new ≡ self.old) }
    {
        let halved = self.halved.checked_add(1).ok_or(Memory)?;
        let powers = copy_of(alloc, self.powers.as_slice())?;
        self.halved = halved;
        Ok(Share { powers, halved })
    }

    pub fn joined(&self, alloc: Global, other: &Share) -> Result<Share, Memory>
        ensures { IfOk result (λ s. s ≡ portion (joined_parts self.now.parts self.now.halved other.now.parts other.now.halved) (max self.now.halved other.now.halved)) }
    {
        let halved = self.halved.max(other.halved);
        let mut powers = Vec::new(alloc);
        add_raised(&mut powers, self.powers.as_slice(), halved - self.halved)?;
        add_raised(&mut powers, other.powers.as_slice(), halved - other.halved)?;
        Ok(Share { powers, halved })
    }
}
