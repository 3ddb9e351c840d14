// Trials: a picture that is made of a number is sent twice, in another order, and received.
use crate::rows::{Failing, holds, run_on};
use std::alloc::Global;
use std::test::Fail;
use std::thread::Threads;
use xs_io::{Memory, Octets};

// The same each time, with any number of workers and feeders.
const ALIKE: &str = "\
trial --seed 0
trial --seed 0
trial --seed 0 --workers 1 --feeders 1
trial --feeders 8 --workers 16 --seed 0000000000";

// A slice has 4 precincts of 4 lines, and the picture 128 lines.
const LINES: &str = "slices 8\nbytes 31666\npackets 25\nrepeats 25\nworst 6\nsum 8567246\n";

// What a trial writes where it says nothing and ends with status 0.
fn lines_of<T: Threads + Sync>(threads: &T, alloc: Global, words: &str) -> Result<Octets, Memory> {
    let outcome = run_on(
        threads,
        alloc,
        words,
        Octets::new(alloc),
        Failing::none(alloc),
    )?;
    if outcome.status != 0 || !outcome.notes.held().is_empty() {
        return Ok(Octets::new(alloc));
    }
    Octets::from_slice(alloc, outcome.output.held())
}

#[test]
fn trials_are_alike(rt: HostRuntime) -> Result<(), Fail> {
    for words in ALIKE.split('\n') {
        let lines = lines_of(&rt, rt.alloc(), words)?;
        assert!(rt; lines.as_slice() == LINES.as_bytes(), "{words}");
    }
    Ok(())
}

// What is refused; a source that would fail is not asked.
const REFUSED: &str = "\
--width 31 | 128*0 @ 0 | 2 | | setting width 31
--width 62 | | 2 | | setting nlx 5
--height 3 | | 2 | | setting height 3
--share 63 | | 2 | | setting share 63
--workers 17 | | 2 | | setting workers 17
--workers 260 | | 2 | | setting workers 260
--feeders 0 | | 2 | | setting feeders 0
--feeders 9 | | 2 | | setting feeders 9
--feeders 258 | | 2 | | setting feeders 258
--feeders 0 --workers 0 | | 2 | | setting workers 0
--share 64 | | 4 | | budget picture 0 slice 0 size 302 share 64
--share 301 | | 4 | | budget picture 0 slice 0 size 302 share 301
--depth 8 | | 1 | | words 1
--seed 4294967296 | | 1 | | words 2
--seed | | 1 | | words 2
--width 32 --width 32 | | 1 | | words 3";

#[test]
fn bad_trials_are_refused(rt: HostRuntime) {
    for row in REFUSED.split('\n') {
        assert!(rt; holds(&rt, rt.alloc(), "trial", row), "{row}");
    }
}
