// Sources and sinks in memory, which tell their bytes.
ghost use Rattle.std.specs.Prelude.{◌≡◌, ◌<◌, ◌≤◌, ◌↔◌, ℕ, List, [], Some, ◌++◌, length, take, drop, min, IfOk, IsOk, IsErr, IsTrue, IsErrOf, Contains, is_err, if◌then◌else◌};
ghost use Rattle.std.specs.Io.{ReadsAtMost};
ghost use Rattle.std.specs.Io.KnownBytes.{ReadConsumes, WriteAppends};
ghost use Rattle.xs_io.specs.Causes.{HasCause, HasSinkCause, one_more};

use crate::lists::{Numbers, Octets};
use crate::traits::{Failed, Sink, SinkFault, Source};
use std::alloc::Global;
use std::marker::Model;

// Copies the front of the bytes, as much as there is room for.
fn copy_front(bytes: &[u8], into: &mut [u8]) -> usize
    ensures count { result ≡ min (length bytes.now) (length into.old) }
    ensures copied { take result into.new ≡ take result bytes.now }
{
    let count = bytes.len().min(into.len());
    into[..count].copy_from_slice(&bytes[..count]);
    count
}

// Whether the call is one of those that fail.
fn is_listed(fails: &[u32], call: u64) -> bool
    ensures { IsTrue result ↔ Contains fails.now call }
{
    match u32::try_from(call) {
        Ok(call) => fails.contains(&call),
        Err(_) => false,
    }
}

// A list of bytes, of which a front was taken. Contracts see the bytes that are left.
#[derive(Drop)]
struct Supply {
    bytes: Octets,
    at: usize,
}

impl Model for Supply {
    ghost Value = { List ℕ };

    ghost view = { λ s. drop s.at s.bytes };

    ghost invariant = { λ s. s.at ≤ length s.bytes };
}

impl Supply {
    fn new(bytes: Octets) -> Supply
        ensures { result ≡ bytes }
    {
        Supply { bytes, at: 0 }
    }

    // Takes as many of the bytes as there is room for.
    fn take_front(&mut self, into: &mut [u8]) -> usize
        ensures count { result ≡ min (length self.old) (length into.old) }
        ensures taken { self.old ≡ take result into.new ++ self.new }
    {
        let count = copy_front(&self.bytes.as_slice()[self.at..], into);
        self.at += count;
        count
    }
}

/// A source over a list of bytes. The calls numbered in `fails`, from 0, fail.
#[derive(Drop)]
pub struct MemSource {
    supply: Supply,
    fails: Numbers,
    calls: u64,
    faults: u64,
}

impl MemSource {
    ghost use Rattle.xs_io.specs.Memories.{source_left, source_faults, source_calls, source_fails};

    pub fn new(bytes: Octets, fails: Numbers) -> MemSource
        ensures left { source_left result ≡ bytes }
        ensures faults { source_faults result ≡ 0 }
        ensures calls { source_calls result ≡ 0 }
        ensures fails { source_fails result ≡ fails }
    {
        MemSource {
            supply: Supply::new(bytes),
            fails,
            calls: 0,
            faults: 0,
        }
    }
}

impl Source for MemSource {
    ghost use Rattle.xs_io.specs.Memories.{source_left, source_faults, source_calls, source_fails};

    ghost left = { λ s. Some s.supply };

    ghost faults = { λ s. s.faults };

    fn take(&mut self, into: &mut [u8]) -> Result<usize, Failed>
        // The trait's clauses, repeated.
        requires room { 0 < length into.old }
        ensures bound { ReadsAtMost result into.new }
        ensures bytes { ReadConsumes (Some (source_left self.old)) (Some (source_left self.new)) result into.new }
        ensures cause { HasCause (source_faults self.old) (source_faults self.new) result }
        // The type's own.
        ensures listed { IsErr result ↔ Contains (source_fails self.old) (source_calls self.old) }
        ensures most { IfOk result (λ count. count ≡ min (length (source_left self.old)) (length into.old)) }
        ensures counted { source_faults self.new ≡ (if is_err result then one_more (source_faults self.old) else source_faults self.old) }
        ensures calls { source_calls self.new ≡ one_more (source_calls self.old) }
        ensures fails { source_fails self.new ≡ source_fails self.old }
    {
        let call = self.calls;
        self.calls = call.saturating_add(1);
        if is_listed(self.fails.as_slice(), call) {
            self.faults = self.faults.saturating_add(1);
            return Err(Failed);
        }
        Ok(self.supply.take_front(into))
    }
}

/// A source over a list of bytes that never fails.
#[derive(Drop)]
pub struct SureSource {
    supply: Supply,
}

impl SureSource {
    ghost use Rattle.xs_io.specs.Memories.{sure_left};

    pub fn new(bytes: Octets) -> SureSource
        ensures left { sure_left result ≡ bytes }
    {
        SureSource {
            supply: Supply::new(bytes),
        }
    }
}

impl Source for SureSource {
    ghost use Rattle.xs_io.specs.Memories.{sure_left};

    ghost left = { λ s. Some s.supply };

    ghost faults = { λ _. 0 };

    fn take(&mut self, into: &mut [u8]) -> Result<usize, Failed>
        // The trait's clauses, repeated.
        requires room { 0 < length into.old }
        ensures bound { ReadsAtMost result into.new }
        ensures bytes { ReadConsumes (Some (sure_left self.old)) (Some (sure_left self.new)) result into.new }
        ensures cause { HasCause 0 0 result }
        // The type's own.
        ensures sure { IsOk result }
        ensures most { IfOk result (λ count. count ≡ min (length (sure_left self.old)) (length into.old)) }
    {
        Ok(self.supply.take_front(into))
    }
}

/// A sink in memory that takes each piece whole. The calls numbered in `fails`, from 0, fail.
#[derive(Drop)]
pub struct MemSink {
    bytes: Octets,
    fails: Numbers,
    calls: u64,
    faults: u64,
}

impl MemSink {
    ghost use Rattle.xs_io.specs.Memories.{sink_bytes, sink_faults, sink_calls, sink_fails};

    pub fn new(alloc: Global, fails: Numbers) -> MemSink
        ensures held { sink_bytes result ≡ [] }
        ensures faults { sink_faults result ≡ 0 }
        ensures calls { sink_calls result ≡ 0 }
        ensures fails { sink_fails result ≡ fails }
    {
        MemSink {
            bytes: Octets::new(alloc),
            fails,
            calls: 0,
            faults: 0,
        }
    }

    /// The bytes that it took so far.
    pub fn held(&self) -> &[u8]
        ensures { result.now ≡ sink_bytes self.now }
    {
        self.bytes.as_slice()
    }
}

impl Sink for MemSink {
    ghost use Rattle.xs_io.specs.Memories.{sink_bytes, sink_faults, sink_calls, sink_fails};

    ghost held = { λ s. Some s.bytes };

    ghost faults = { λ s. s.faults };

    fn give(&mut self, piece: &[u8]) -> Result<usize, SinkFault>
        // The trait's clauses, repeated.
        requires some { 0 < length piece.now }
        ensures bound { IfOk result (λ count. (0 < count) × (count ≤ length piece.now)) }
        ensures bytes { WriteAppends (Some (sink_bytes self.old)) (Some (sink_bytes self.new)) result piece.now }
        ensures cause { HasSinkCause (sink_faults self.old) (sink_faults self.new) result }
        // The type's own.
        ensures whole { IfOk result (λ count. count ≡ length piece.now) }
        ensures listed { IsErrOf result SinkFault.Failed ↔ Contains (sink_fails self.old) (sink_calls self.old) }
        ensures counted { IsErrOf result SinkFault.Failed → sink_faults self.new ≡ one_more (sink_faults self.old) }
        ensures calls { sink_calls self.new ≡ one_more (sink_calls self.old) }
        ensures fails { sink_fails self.new ≡ sink_fails self.old }
    {
        let call = self.calls;
        self.calls = call.saturating_add(1);
        if is_listed(self.fails.as_slice(), call) {
            self.faults = self.faults.saturating_add(1);
            return Err(SinkFault::Failed);
        }
        self.bytes.extend(piece)?;
        Ok(piece.len())
    }
}

/// A sink in memory that takes each piece whole and never fails, but for want of memory.
#[derive(Drop)]
pub struct SureSink {
    bytes: Octets,
}

impl SureSink {
    ghost use Rattle.xs_io.specs.Memories.{sure_bytes};

    pub fn new(alloc: Global) -> SureSink
        ensures held { sure_bytes result ≡ [] }
    {
        SureSink {
            bytes: Octets::new(alloc),
        }
    }

    /// The bytes that it took so far.
    pub fn held(&self) -> &[u8]
        ensures { result.now ≡ sure_bytes self.now }
    {
        self.bytes.as_slice()
    }
}

impl Sink for SureSink {
    ghost use Rattle.std.specs.Prelude.{IfErr};
    ghost use Rattle.xs_io.specs.Memories.{sure_bytes};

    ghost held = { λ s. Some s.bytes };

    ghost faults = { λ _. 0 };

    fn give(&mut self, piece: &[u8]) -> Result<usize, SinkFault>
        // The trait's clauses, repeated.
        requires some { 0 < length piece.now }
        ensures bound { IfOk result (λ count. (0 < count) × (count ≤ length piece.now)) }
        ensures bytes { WriteAppends (Some (sure_bytes self.old)) (Some (sure_bytes self.new)) result piece.now }
        ensures cause { HasSinkCause 0 0 result }
        // The type's own.
        ensures whole { IfOk result (λ count. count ≡ length piece.now) }
        ensures sure { IfErr result (λ fault. fault ≡ SinkFault.Memory) }
    {
        self.bytes.extend(piece)?;
        Ok(piece.len())
    }
}
