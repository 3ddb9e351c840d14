// What closed lanes do with the values that nobody claimed.
ghost use Rattle.std.specs.Prelude.{◌≡◌};

use arrayvec::ArrayVec;
use std::alloc::Global;
use std::sync::atomic::{AtomicU32, Ordering};
use std::test::Fail;
use xs_io::Memory;
use xs_lanes::{Lanes, PLACES, Placed};

// A value that adds its weight where it is dropped. A default one adds nothing.
#[derive(Default)]
struct Weighed<'a> {
    lane: u32,
    place: u32,
    weight: u32,
    dropped: Option<&'a AtomicU32>,
}

impl Drop for Weighed<'_> {
    fn drop(self) {
        let Weighed {
            lane: _,
            place: _,
            weight,
            dropped,
        } = self;
        if let Some(sum) = dropped {
            sum.fetch_add(weight, Ordering::SeqCst);
        }
    }
}

impl Placed for Weighed<'_> {
    ghost use Rattle.std.specs.Prelude.{nat_eq};

    ghost lane_of = { λ i. i.lane };

    ghost slot_of = { λ i. i.place };

    ghost closes_of = { λ i. nat_eq i.lane 1 };

    fn lane(&self) -> u32 {
        self.lane
    }

    fn slot(&self) -> u32 {
        self.place
    }

    fn closes(&self) -> bool {
        self.lane == 1
    }
}

fn with_weight(lane: u32, place: u32, weight: u32, dropped: &AtomicU32) -> Weighed<'_>
    ensures { (result.lane ≡ lane) × (result.place ≡ place) }
{
    Weighed {
        lane,
        place,
        weight,
        dropped: Some(dropped),
    }
}

// The weight that was dropped after the puts, after the close, after the closed lanes, and after what was claimed.
fn weights(alloc: Global) -> Result<[u32; 4], Memory> {
    let dropped = AtomicU32::new(0);
    let (lanes, mut pass) = Lanes::new(alloc, 2)?;
    drop(lanes.put(&mut pass, with_weight(0, 0, 1, &dropped)));
    drop(lanes.put(&mut pass, with_weight(0, 511, 10, &dropped)));
    drop(lanes.put(&mut pass, with_weight(0, 511, 100, &dropped)));
    drop(lanes.put(&mut pass, with_weight(1, 0, 1000, &dropped)));
    let filed = dropped.load(Ordering::SeqCst);
    let mut values: ArrayVec<Weighed<'_>, PLACES> = ArrayVec::new();
    lanes.claim(&mut pass, 1, &mut values);
    let lanes = lanes.close(pass);
    let closed = dropped.load(Ordering::SeqCst);
    drop(lanes);
    let freed = dropped.load(Ordering::SeqCst);
    drop(values);
    Ok([filed, closed, freed, dropped.load(Ordering::SeqCst)])
}

#[test]
fn each_value_is_dropped_once(rt: HostRuntime) -> Result<(), Fail> {
    assert!(rt; weights(rt.alloc())? == [100, 100, 111, 1111]);
    Ok(())
}
