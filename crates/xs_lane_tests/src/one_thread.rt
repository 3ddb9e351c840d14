// Passes of one thread.
use crate::values::{Item, claimed, feeders_of, told, value_at};
use arrayvec::ArrayVec;
use std::alloc::Global;
use std::test::Fail;
use xs_io::Memory;
use xs_lanes::{Lanes, PLACES};

// Two passes put at place 0, and place 1 closes the lane. Then both claim it, and one an empty lane.
fn two_passes(alloc: Global) -> Result<[u64; 7], Memory> {
    let (lanes, mut first) = Lanes::new(alloc, 2)?;
    let mut second = lanes.split(&mut first);
    let stored = told(lanes.put(&mut first, value_at(0, false, 10)));
    let back = told(lanes.put(&mut second, value_at(0, false, 20)));
    let made = told(lanes.put(&mut second, value_at(1, true, 30)));
    let mut values: ArrayVec<Item, PLACES> = ArrayVec::new();
    let got = claimed(lanes.claim(&mut first, 0, &mut values));
    let feeders = feeders_of(values.as_slice());
    let mut none: ArrayVec<Item, PLACES> = ArrayVec::new();
    let gone = claimed(lanes.claim(&mut second, 0, &mut none));
    let mut no_more: ArrayVec<Item, PLACES> = ArrayVec::new();
    let empty = claimed(lanes.claim(&mut second, 1, &mut no_more));
    Ok([stored, back, made, got, feeders, gone, empty])
}

#[test]
fn two_passes_come_to_one_place(rt: HostRuntime) -> Result<(), Fail> {
    assert!(rt; two_passes(rt.alloc())? == [0, 20, 1, 1000, 1030, 1001, 0]);
    Ok(())
}

// A value that closes the lane comes first, and then one before it. After each put the summary is looked at.
fn closing_first(alloc: Global) -> Result<[u64; 4], Memory> {
    let (lanes, mut pass) = Lanes::new(alloc, 1)?;
    let stored = told(lanes.put(&mut pass, value_at(1, true, 0)));
    let part = lanes.look(&mut pass, 0);
    let made = told(lanes.put(&mut pass, value_at(0, false, 0)));
    let whole = lanes.look(&mut pass, 0);
    Ok([stored, part, made, whole])
}

#[test]
fn closing_value_comes_first(rt: HostRuntime) -> Result<(), Fail> {
    assert!(rt; closing_first(rt.alloc())? == [0, 254, 1, 255]);
    Ok(())
}
