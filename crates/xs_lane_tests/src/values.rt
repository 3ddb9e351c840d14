// Values that are filed, and what is answered as numbers.
ghost use Rattle.std.specs.Prelude.{◌≡◌};

use xs_lanes::{Claim, Placed, Put};

#[derive(Default, Drop)]
pub struct Item {
    pub lane: u32,
    pub place: u32,
    pub closes: bool,
    pub feeder: u32,
}

impl Placed for Item {
    ghost lane_of = { λ i. i.lane };

    ghost slot_of = { λ i. i.place };

    ghost closes_of = { λ i. i.closes };

    fn lane(&self) -> u32 {
        self.lane
    }

    fn slot(&self) -> u32 {
        self.place
    }

    fn closes(&self) -> bool {
        self.closes
    }
}

// A value of lane 0.
pub fn value_at(place: u32, closes: bool, feeder: u32) -> Item
    ensures { (result.lane ≡ 0) × (result.place ≡ place) × (result.closes ≡ closes) }
{
    Item {
        lane: 0,
        place,
        closes,
        feeder,
    }
}

// What a put answered: 0 for Stored, 1 for Made, else the feeder whose value is handed back.
pub fn told(put: Put<Item>) -> u64 {
    match put {
        Put::Stored => 0,
        Put::Made => 1,
        Put::Repeat(back) => u64::from(back.feeder),
    }
}

// What a claim answered: 1000 for Got, 1001 for Gone, else the summary.
pub fn claimed(claim: Claim) -> u64 {
    match claim {
        Claim::Got => 1000,
        Claim::NotWhole(summary) => summary,
        Claim::Gone => 1001,
    }
}

// The feeders of the values, in order, two digits each.
pub fn feeders_of(values: &[Item]) -> u64 {
    let mut feeders: u64 = 0;
    for value in values {
        feeders = feeders
            .saturating_mul(100)
            .saturating_add(u64::from(value.feeder));
    }
    feeders
}
