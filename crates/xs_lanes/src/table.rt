// The rule of the table, and the names of its steps.
ghost use Rattle.std.specs.Prelude.{◌≡◌, ◌<◌, ◌*◌};

use atomic_table::{Join, Play, Seat, Split, Table, TableRule};
use std::alloc::Global;
use std::marker::{Model, PhantomData};
use xs_io::Placed;

/// What a pass knows: contracts see an actor of the lane machine. No value of it is made.
pub struct Known<T> {
    marker: PhantomData<T>,
}

impl<T> Model for Known<T> {
    ghost use Rattle.xs_lane_core.specs.Machine.{Actor, newcomer};

    ghost Value = { Actor T };

    ghost view = { λ _. newcomer };
}

/// What a thread files with. It has no bytes, and contracts see in it what it stored, repeated and saw.
pub type Pass<T> = Seat<Option<T>, Known<T>>;

pub struct Filing;

impl<T: Placed> TableRule<Option<T>, Known<T>, ()> for Filing {
    ghost use Rattle.xs_lanes.specs.Filing.{Filed, placing};
    ghost use Rattle.xs_lane_core.specs.Machine.{newcomer};

    ghost holds = { λ _. Filed (placing T.lane_of T.slot_of T.closes_of) };

    ghost first = { λ _. newcomer };
}

pub struct Take;

impl<T: Placed> Play<Option<T>, Known<T>> for Take {
    ghost use Rattle.xs_lanes.specs.Filing.{placing};
    ghost use Rattle.xs_lanes.specs.Plays.{took};

    ghost then = { took (placing T.lane_of T.slot_of T.closes_of) };
}

pub struct Home;

impl<T: Placed> Play<Option<T>, Known<T>> for Home {
    ghost use Rattle.xs_lanes.specs.Filing.{placing};
    ghost use Rattle.xs_lanes.specs.Plays.{came_home};

    ghost then = { came_home (placing T.lane_of T.slot_of T.closes_of) };
}

pub struct Sum;

impl<T: Placed> Play<Option<T>, Known<T>> for Sum {
    ghost use Rattle.xs_lanes.specs.Filing.{placing};
    ghost use Rattle.xs_lanes.specs.Plays.{summed};

    ghost then = { summed (placing T.lane_of T.slot_of T.closes_of) };
}

pub struct Look;

impl<T: Placed> Play<Option<T>, Known<T>> for Look {
    ghost use Rattle.xs_lanes.specs.Filing.{placing};
    ghost use Rattle.xs_lanes.specs.Plays.{looked};

    ghost then = { looked (placing T.lane_of T.slot_of T.closes_of) };
}

pub struct Win;

impl<T: Placed> Play<Option<T>, Known<T>> for Win {
    ghost use Rattle.xs_lanes.specs.Filing.{placing};
    ghost use Rattle.xs_lanes.specs.Plays.{claimed};

    ghost then = { claimed (placing T.lane_of T.slot_of T.closes_of) };
}

pub struct Pull;

impl<T: Placed> Play<Option<T>, Known<T>> for Pull {
    ghost use Rattle.xs_lanes.specs.Filing.{placing};
    ghost use Rattle.xs_lanes.specs.Plays.{drew};

    ghost then = { drew (placing T.lane_of T.slot_of T.closes_of) };
}

pub struct GiveBack;

impl<T: Placed> Play<Option<T>, Known<T>> for GiveBack {
    ghost use Rattle.xs_lanes.specs.Filing.{placing};
    ghost use Rattle.xs_lanes.specs.Plays.{gave_back};

    ghost then = { gave_back (placing T.lane_of T.slot_of T.closes_of) };
}

pub struct Halves;

impl<T> Split<Known<T>> for Halves {
    ghost use Rattle.xs_lane_core.specs.Machine.{halves, copied};

    ghost left = { halves };

    ghost right = { copied };
}

impl<T> Join<Known<T>> for Halves {
    ghost use Rattle.xs_lane_core.specs.Machine.{joined, nobody};

    ghost both = { joined };

    ghost spent = { nobody };
}

/// Lanes of 512 places each. Threads share them by reference, each with a pass of its own.
#[derive(Drop)]
pub struct Lanes<T: Placed + Send + Drop> {
    pub(crate) table: Table<Option<T>, Known<T>, (), Filing, Global>,
    pub(crate) count: u32,
    ghost has_lane: { 0 < count },
    ghost has_words: { table.shared.table_id.words ≡ 19 * count },
    ghost has_slots: { table.shared.table_id.slots ≡ 512 * count },
}
