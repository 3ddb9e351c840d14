// Runs over sources and sinks that tell nothing.
ghost use Rattle.std.specs.Prelude.{None};

use crate::bytes::bytes_of;
use crate::rows::words_of;
use std::alloc::Global;
use std::test::Fail;
use std::thread::Threads;
use xs_cli::run;
use xs_io::{Failed, MemSink, MemSource, Memory, Numbers, Sink, SinkFault, Source, StopGate};

// A sink that fails.
#[derive(Drop)]
struct Mute {
    faults: u64,
}

impl Sink for Mute {
    ghost held = { λ _. None };

    ghost faults = { λ s. s.faults };

    fn give(&mut self, _piece: &[u8]) -> Result<usize, SinkFault> {
        self.faults = self.faults.saturating_add(1);
        Err(SinkFault::Failed)
    }
}

// A source that fails.
#[derive(Drop)]
struct Broken {
    faults: u64,
}

impl Source for Broken {
    ghost left = { λ _. None };

    ghost faults = { λ s. s.faults };

    fn take(&mut self, _into: &mut [u8]) -> Result<usize, Failed> {
        self.faults = self.faults.saturating_add(1);
        Err(Failed)
    }
}

// A source that never ends.
#[derive(Drop)]
struct Endless;

impl Source for Endless {
    ghost left = { λ _. None };

    ghost faults = { λ _. 0 };

    fn take(&mut self, into: &mut [u8]) -> Result<usize, Failed> {
        Ok(into.len())
    }
}

const GREY: &str =
    "encode --form xs --width 32 --height 4 --format mono --nlx 1 --nly 0 --quant deadzone --share 400";

const DEEP: &str = "encode --width 32 --height 4 --format mono --share 400";

// The status of a run on a source that never ends and has zeros alone, with a sink that fails as its notes or else as its output,
// and how often that failed.
fn ends_with<T: Threads + Sync>(
    threads: &T,
    alloc: Global,
    words: &str,
    told: bool,
) -> Result<(u8, u64), Memory> {
    let words = words_of(alloc, words)?;
    let mut mute = Mute { faults: 0 };
    let mut sink = MemSink::new(alloc, Numbers::new(alloc));
    let words = words.as_slice();
    let status = if told {
        run(
            threads,
            alloc,
            words,
            &mut Endless,
            &mut sink,
            &mut mute,
            &StopGate,
        )
    } else {
        run(
            threads,
            alloc,
            words,
            &mut Endless,
            &mut mute,
            &mut sink,
            &StopGate,
        )
    };
    Ok((status, mute.faults))
}

#[test]
fn a_source_that_never_ends(rt: HostRuntime) -> Result<(), Fail> {
    assert!(rt; ends_with(&rt, rt.alloc(), "", true)? == (8, 1));
    assert!(rt; ends_with(&rt, rt.alloc(), GREY, true)? == (8, 1));
    assert!(rt; ends_with(&rt, rt.alloc(), GREY, false)? == (8, 1));
    assert!(rt; ends_with(&rt, rt.alloc(), DEEP, true)? == (8, 1));
    assert!(rt; ends_with(&rt, rt.alloc(), DEEP, false)? == (8, 1));
    Ok(())
}

// A call of a sink that failed is not made again.
#[test]
fn an_output_that_fails(rt: HostRuntime) -> Result<(), Fail> {
    let mut input = MemSource::new(bytes_of(rt.alloc(), "128*0")?, Numbers::new(rt.alloc()));
    let mut output = Mute { faults: 0 };
    let mut notes = MemSink::new(rt.alloc(), Numbers::new(rt.alloc()));
    let words = words_of(rt.alloc(), GREY)?;
    let status = run(
        &rt,
        rt.alloc(),
        words.as_slice(),
        &mut input,
        &mut output,
        &mut notes,
        &StopGate,
    );
    assert!(rt; status == 8 && output.faults == 1 && notes.held().is_empty());
    Ok(())
}

// The status of a run on a source that fails, how often that failed, and how many bytes its note has.
fn broken_input<T: Threads + Sync>(
    threads: &T,
    alloc: Global,
    words: &str,
) -> Result<(u8, u64, usize), Memory> {
    let mut input = Broken { faults: 0 };
    let mut output = MemSink::new(alloc, Numbers::new(alloc));
    let mut notes = MemSink::new(alloc, Numbers::new(alloc));
    let words = words_of(alloc, words)?;
    let status = run(
        threads,
        alloc,
        words.as_slice(),
        &mut input,
        &mut output,
        &mut notes,
        &StopGate,
    );
    Ok((status, input.faults, notes.held().len()))
}

// A call of a source that failed is not made again.
#[test]
fn an_input_that_fails(rt: HostRuntime) -> Result<(), Fail> {
    assert!(rt; broken_input(&rt, rt.alloc(), GREY)? == (7, 1, 11));
    assert!(rt; broken_input(&rt, rt.alloc(), "decode")? == (7, 1, 11));
    Ok(())
}
