// The lane machine.
ghost use Rattle.std.specs.Prelude.{◌≤◌};

use std::alloc::Global;
use std::test::Fail;
use xs_io::Memory;
use xs_lane_core::{Core, Event, Numbered, Outcome};

// A value of lane 0.
const fn value(place: u32, closes: bool, number: u64) -> Numbered {
    Numbered {
        lane: 0,
        place,
        closes,
        number,
    }
}

// Whether a machine of so many lanes answers so to each event, one after the other.
fn answers_so(alloc: Global, lanes: u32, story: &[(Event, Outcome)]) -> Result<bool, Memory>
    requires { (1 ≤ lanes) × (lanes ≤ 2048) }
{
    let mut core = Core::new(alloc, lanes)?;
    for (event, outcome) in story {
        if core.step(*event)? != *outcome {
            return Ok(false);
        }
    }
    Ok(true)
}

#[test]
fn two_actors_come_to_one_place(rt: HostRuntime) -> Result<(), Fail> {
    let first = value(0, false, 10);
    let second = value(0, false, 20);
    let last = value(1, true, 30);
    let story = [
        (Event::Split { actor: 0 }, Outcome::Split { actor: 1 }),
        (
            Event::Take {
                actor: 0,
                value: first,
            },
            Outcome::Taken,
        ),
        (Event::Put { actor: 0 }, Outcome::Laid),
        (Event::Home { actor: 0 }, Outcome::Stored),
        (
            Event::Take {
                actor: 1,
                value: second,
            },
            Outcome::Back { value: second },
        ),
        (
            Event::Take {
                actor: 1,
                value: last,
            },
            Outcome::Taken,
        ),
        (Event::Put { actor: 1 }, Outcome::Laid),
        (Event::Home { actor: 1 }, Outcome::Owing),
        (Event::Look { actor: 0, lane: 0 }, Outcome::Seen { mask: 0 }),
        (Event::Sum { actor: 1 }, Outcome::Made),
        (
            Event::Look { actor: 0, lane: 0 },
            Outcome::Seen { mask: 255 },
        ),
        (
            Event::Look { actor: 1, lane: 0 },
            Outcome::Seen { mask: 255 },
        ),
        (Event::Claim { actor: 0 }, Outcome::Claimed),
        (Event::Pull { actor: 0 }, Outcome::Pulled { value: first }),
        (Event::Pull { actor: 0 }, Outcome::Pulled { value: last }),
        (Event::Claim { actor: 1 }, Outcome::Gone),
        (Event::Look { actor: 0, lane: 1 }, Outcome::Seen { mask: 0 }),
        (Event::Claim { actor: 0 }, Outcome::Refused),
        (Event::Join { actor: 0, other: 1 }, Outcome::Joined),
        (Event::Look { actor: 1, lane: 0 }, Outcome::Refused),
    ];
    assert!(rt; answers_so(rt.alloc(), 2, &story)?);
    Ok(())
}
