// Bytes that come in and go out, and who may go on.
use std::alloc::Global;
use std::io::ErrorKind;
use std::test::Fail;
use std::{io, thread};
use xs_io::{
    Gate, MemSink, MemSource, Memory, Numbers, Octets, OpenGate, ReadAdapter, Sink, SinkFault,
    StopGate, SureSink, SureSource, TakeFault, TurnstileGate, WriteAdapter, give_all, take_all,
    take_exact,
};

// A reader of three bytes a call, whose third call fails.
#[derive(Drop)]
struct Faulty<'a> {
    calls: u32,
    bytes: &'a [u8],
}

impl<'a> io::Read for Faulty<'a> {
    fn read(&mut self, buf: &mut [u8]) -> io::Result<usize> {
        self.calls = self.calls.saturating_add(1);
        if self.calls == 3 {
            return Err(io::Error::from(ErrorKind::TimedOut));
        }
        let count = self.bytes.len().min(buf.len()).min(3);
        buf[..count].copy_from_slice(&self.bytes[..count]);
        self.bytes = &self.bytes[count..];
        Ok(count)
    }
}

// A writer that takes three bytes a call, and from its third call on nothing.
#[derive(Drop)]
struct Full {
    calls: u32,
    bytes: Vec<u8>,
}

impl io::Write for Full {
    fn write(&mut self, buf: &[u8]) -> io::Result<usize> {
        self.calls = self.calls.saturating_add(1);
        if self.calls >= 3 {
            return Ok(0);
        }
        let count = buf.len().min(3);
        match self.bytes.extend_from_slice(&buf[..count]) {
            Ok(()) => Ok(count),
            Err(_) => Err(io::Error::from(ErrorKind::OutOfMemory)),
        }
    }

    fn flush(&mut self) -> io::Result<()> {
        Ok(())
    }
}

#[test]
fn lists_hold_what_they_are_given(rt: HostRuntime) -> Result<(), Fail> {
    let alloc = rt.alloc();
    let mut octets = Octets::from_slice(alloc, &[1, 2])?;
    octets.reserve(3)?;
    octets.push(255)?;
    octets.extend(&[0, 3])?;
    assert!(rt; octets.as_slice() == [1, 2, 255, 0, 3].as_slice() && octets.len() == 5);
    let mut numbers = Numbers::from_slice(alloc, &[7])?;
    numbers.extend(&[4_000_000_000, 0])?;
    assert!(rt; numbers.as_slice() == [7, 4_000_000_000, 0].as_slice() && numbers.len() == 3);
    assert!(rt; Octets::new(alloc).len() == 0 && Numbers::new(alloc).len() == 0);
    Ok(())
}

const BYTES: [u8; 8] = [9, 0, 255, 128, 7, 6, 5, 4];

#[test]
fn a_reader_gives_its_bytes_and_its_fault(rt: HostRuntime) -> Result<(), Fail> {
    let alloc = rt.alloc();
    let mut input = ReadAdapter::new(BYTES.as_slice());
    assert!(rt; take_exact(alloc, &mut input, 3)?.as_slice() == &BYTES[..3]);
    assert!(rt; take_all(alloc, &mut input, 5)?.as_slice() == &BYTES[3..]);
    assert!(rt; take_exact(alloc, &mut input, 1)?.len() == 0);
    let mut faulty = ReadAdapter::new(Faulty {
        calls: 0,
        bytes: &BYTES,
    });
    assert!(rt; matches!(take_all(alloc, &mut faulty, 8), Err(TakeFault::Failed)));
    assert!(rt; take_all(alloc, &mut faulty, 8)?.as_slice() == &BYTES[6..]);
    Ok(())
}

#[test]
fn a_writer_takes_its_bytes_and_fails_where_it_is_full(rt: HostRuntime) -> Result<(), Fail> {
    let mut held = Vec::new(rt.alloc());
    let mut output = WriteAdapter::new(&mut held);
    give_all(&mut output, &BYTES)?;
    give_all(&mut output, &[])?;
    drop(output);
    assert!(rt; held.as_slice() == BYTES.as_slice());
    let mut full = Full {
        calls: 0,
        bytes: Vec::new(rt.alloc()),
    };
    let given = give_all(&mut WriteAdapter::new(&mut full), &BYTES);
    assert!(rt; matches!(given, Err(SinkFault::Failed)) && full.bytes.as_slice() == &BYTES[..6]);
    Ok(())
}

// How many of eight bytes are taken within a limit, where it is not too low.
fn taken_within(alloc: Global, limit: u64) -> Result<usize, TakeFault> {
    let mut source = SureSource::new(Octets::from_slice(alloc, &BYTES)?);
    Ok(take_all(alloc, &mut source, limit)?.len())
}

#[test]
fn a_limit_is_kept(rt: HostRuntime) {
    let alloc = rt.alloc();
    assert!(rt; matches!(taken_within(alloc, 0), Err(TakeFault::Limit)));
    assert!(rt; matches!(taken_within(alloc, 7), Err(TakeFault::Limit)));
    assert!(rt; matches!(taken_within(alloc, 8), Ok(8)));
    assert!(rt; matches!(taken_within(alloc, u64::MAX), Ok(8)));
}

// The second call of source and sink fails, and nothing is lost.
#[test]
fn listed_calls_fail(rt: HostRuntime) -> Result<(), Fail> {
    let alloc = rt.alloc();
    let second = Numbers::from_slice(alloc, &[1])?;
    let mut source = MemSource::new(Octets::from_slice(alloc, &BYTES)?, second);
    assert!(rt; take_exact(alloc, &mut source, 2)?.as_slice() == &BYTES[..2]);
    assert!(rt; matches!(take_exact(alloc, &mut source, 2), Err(TakeFault::Failed)));
    assert!(rt; take_exact(alloc, &mut source, 8)?.as_slice() == &BYTES[2..]);
    let mut sink = MemSink::new(alloc, Numbers::from_slice(alloc, &[1])?);
    give_all(&mut sink, &[5])?;
    assert!(rt; matches!(sink.give(&[6]), Err(SinkFault::Failed)));
    give_all(&mut sink, &[7, 8])?;
    assert!(rt; sink.held() == [5, 7, 8].as_slice());
    let mut sure = SureSink::new(alloc);
    give_all(&mut sure, &BYTES)?;
    assert!(rt; sure.held() == BYTES.as_slice());
    Ok(())
}

#[derive(Drop)]
struct Worker {
    number: u32,
    passed: bool,
}

fn idle(number: u32) -> Worker {
    Worker {
        number,
        passed: false,
    }
}

// Each looks until all three have won something: a first pass that looked but once would see too few flags.
#[test]
fn three_workers_meet_at_a_turnstile(rt: HostRuntime) {
    let gate = TurnstileGate::new(3);
    let mut workers = [idle(0), idle(1), idle(2)];
    thread::for_each_mut(
        &rt,
        &mut workers,
        3,
        &|_: usize, worker: &mut Worker| worker.passed = gate.pass(worker.number, 0, 1),
    );
    assert!(rt; workers[0].passed && workers[1].passed && workers[2].passed && gate.met() == 3);
    assert!(rt; gate.pass(1, 0, 2) && !gate.pass(3, 0, 1) && !gate.pass(3, 0, 0));
    assert!(rt; OpenGate.pass(0, 9, 0) && !StopGate.pass(0, 0, 1));
}

// The first pass gives up. A later one looks once: a thousand that looked as often as the first would take minutes.
#[test]
fn a_missing_worker_is_waited_for_once(rt: HostRuntime) {
    let gate = TurnstileGate::new(2);
    assert!(rt; gate.pass(0, 0, 0) && !gate.pass(0, 0, 1));
    for turn in 0..1000 {
        assert!(rt; !gate.pass(0, turn, 2));
    }
    assert!(rt; gate.met() == 0);
    assert!(rt; gate.pass(1, 0, 1) && gate.pass(0, 0, 3) && gate.met() == 1);
}
