// The calls of the lanes that are no single step.
ghost use Rattle.std.specs.Prelude.{◌≡◌, ◌≤◌, ◌*◌, IfOk, replicate};
ghost use Rattle.xs_lane_core.specs.Machine.{newcomer, halves, copied, joined};
ghost use Rattle.xs_lanes.specs.Passes.{IsPassOf, view, lane_count};

use crate::table::{Halves, Lanes, Pass};
use crate::words::LANE_WORDS;
use atomic_table::Table;
use std::alloc::Global;
use xs_io::{Memory, Placed};
use xs_lane_core::PLACES;

/// What became of a value that was put.
#[derive(Drop)]
pub enum Put<T> {
    /// It is stored.
    Stored,
    /// It is stored, and its lane is whole by it.
    Made,
    /// A value of the same place was there before. This one is handed back.
    Repeat(T),
}

fn zeros(alloc: Global, count: usize) -> Result<Vec<u64>, Memory>
    ensures { IfOk result (λ v. v.items ≡ replicate count 0) }
{
    Vec::from_elem(alloc, 0, count).map_err(|_| Memory)
}

impl<T: Placed + Send + Drop> Lanes<T> {
    /// 1 to 2048 empty lanes, and a pass with the whole share. This takes all memory that the lanes ever need.
    pub fn new(alloc: Global, lanes: u32) -> Result<(Lanes<T>, Pass<T>), Memory>
        requires lanes { (1 ≤ lanes) × (lanes ≤ 2048) }
        ensures pass { IfOk result (λ r. IsPassOf r.0 r.1) }
        ensures first { IfOk result (λ r. view r.1 ≡ newcomer) }
        ensures count { IfOk result (λ r. lane_count r.0 ≡ lanes) }
    {
        let words = zeros(alloc, LANE_WORDS * lanes as usize)?;
        let (table, pass) = Table::vacant(
            alloc,
            words.as_slice(),
            PLACES * lanes as usize,
            &(),
        ).map_err(|_| Memory)?;
        Ok((
            Lanes {
                table,
                count: lanes,
            },
            pass,
        ))
    }

    /// A pass for another thread, with half of this one's share. It knows what this one saw.
    pub fn split(&self, pass: &mut Pass<T>) -> Pass<T>
        requires pass { IsPassOf self.now pass.old }
        ensures old { IsPassOf self.now pass.new × (view pass.new ≡ halves (view pass.old)) }
        ensures new { IsPassOf self.now result × (view result ≡ copied (view pass.old)) }
    {
        self.table.shared.split_seat::<Halves>(pass)
    }

    /// Takes in what the other pass did and saw, and its share.
    pub fn join(&self, pass: &mut Pass<T>, other: Pass<T>)
        requires pass { IsPassOf self.now pass.old }
        requires other { IsPassOf self.now other }
        ensures pass { IsPassOf self.now pass.new }
        ensures union { view pass.new ≡ joined (view pass.old) (view other) }
    {
        self.table.shared.join_seat::<Halves>(pass, other);
    }
}
