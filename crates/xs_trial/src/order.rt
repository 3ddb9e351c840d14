// An order of packets, each of which stands twice in it: 'Trial'.
ghost use Rattle.std.specs.Prelude.{◌≡◌, ◌+◌, ◌-◌, ◌*◌, ◌/◌, ◌%◌, ◌^◌, ◌<◌, ◌≤◌, ◌++◌, IfOk, OnOk, length};
ghost use Rattle.xs_lists.specs.Spelling.{upto};
ghost use Rattle.xs_trial.specs.Generator.{place_of, shuffle_of, shuffled};

use crate::generator::next_state;
use std::alloc::Global;
use xs_io::{Memory, Numbers};

/// The order of so many packets, which are listed once and then once again, by the generator's state: the packet's number
/// at each of the `2 * count` entries.
pub fn shuffle(alloc: Global, count: u32, state: u64) -> Result<Numbers, Memory>
    requires { count < 2 ^ 31 }
    ensures { IfOk result (λ order. order ≡ shuffle_of count state) }
{
    let mut entries = listed_twice(alloc, count)?;
    mix(entries.as_mut_slice(), state);
    Numbers::from_slice(alloc, entries.as_slice())
}

/// The numbers below one, and then once again.
fn listed_twice(alloc: Global, count: u32) -> Result<Vec<u32>, Memory>
    requires { count < 2 ^ 31 }
    ensures { IfOk result (λ list. list.items ≡ upto count ++ upto count) }
{
    let mut entries = Vec::new(alloc);
    list(&mut entries, count)?;
    list(&mut entries, count)?;
    Ok(entries)
}

/// Appends the numbers below one.
fn list(entries: &mut Vec<u32>, count: u32) -> Result<(), Memory>
    ensures { OnOk result (entries.new.items ≡ entries.old.items ++ upto count) }
{
    'listing: for number in 0..count {
        entries.push(number).map_err(|_| Memory)?;
    }
    Ok(())
}

/// From the last entry down to entry 1, each changes places with one that is not after it.
fn mix(entries: &mut [u32], start: u64)
    requires { length entries.old < 2 ^ 32 }
    ensures { entries.new ≡ shuffled (length entries.old - 1) start entries.old }
{
    let mut state = start;
    let mut last = entries.len();
    'mixing: while last > 1 {
        last -= 1;
        state = next_state(state);
        entries.swap(last, place_of(state, last));
    }
}

/// The entry, not after the last, with which that one changes places.
fn place_of(state: u64, last: usize) -> usize
    requires { last < 2 ^ 32 }
    ensures place { result ≡ place_of state last }
    ensures within { result ≤ last }
{
    ((state >> 33) % (last as u64 + 1)) as usize
}
