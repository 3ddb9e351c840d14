// The edge to the real streams. They tell no bytes.
ghost use Rattle.std.specs.Prelude.{◌≡◌, ◌<◌, ◌≤◌, ℕ, None, length, IfOk, is_err, is_ok, if◌then◌else◌};
ghost use Rattle.std.specs.Io.{ReadsAtMost};
ghost use Rattle.std.specs.Io.KnownBytes.{ReadConsumes, WriteAppends};
ghost use Rattle.xs_io.specs.Causes.{HasCause, HasSinkCause, one_more};

use crate::traits::{Failed, Sink, SinkFault, Source};
use std::io::{Read, Write};

/// A source over a reader, which keeps a count of its errors.
#[derive(Drop)]
pub struct ReadAdapter<R> {
    inner: R,
    faults: u64,
}

impl<R: Read> ReadAdapter<R> {
    ghost use Rattle.xs_io.specs.Streams.{read_inner, read_faults};

    pub fn new(inner: R) -> ReadAdapter<R>
        ensures inner { read_inner result ≡ inner }
        ensures faults { read_faults result ≡ 0 }
    {
        ReadAdapter { inner, faults: 0 }
    }
}

impl<R: Read> Source for ReadAdapter<R> {
    ghost use Rattle.xs_io.specs.Streams.{read_inner, read_faults};

    ghost left = { λ _. None };

    ghost faults = { λ s. s.faults };

    fn take(&mut self, into: &mut [u8]) -> Result<usize, Failed>
        // The trait's clauses, repeated.
        requires room { 0 < length into.old }
        ensures bound { ReadsAtMost result into.new }
        ensures bytes { ReadConsumes None None result into.new }
        ensures cause { HasCause (read_faults self.old) (read_faults self.new) result }
        // The type's own: what the reader does to the bytes that it knows, and each of its errors counts.
        ensures inner { ReadConsumes (R.remaining (read_inner self.old)) (R.remaining (read_inner self.new)) result into.new }
        ensures counted { read_faults self.new ≡ (if is_err result then one_more (read_faults self.old) else read_faults self.old) }
    {
        match self.inner.read(into) {
            Ok(count) => Ok(count),
            Err(_) => {
                self.faults = self.faults.saturating_add(1);
                Err(Failed)
            }
        }
    }
}

/// A sink over a writer, which keeps a count of its errors. To take nothing counts as one.
#[derive(Drop)]
pub struct WriteAdapter<W> {
    inner: W,
    faults: u64,
}

impl<W: Write> WriteAdapter<W> {
    ghost use Rattle.xs_io.specs.Streams.{write_inner, write_faults};

    pub fn new(inner: W) -> WriteAdapter<W>
        ensures inner { write_inner result ≡ inner }
        ensures faults { write_faults result ≡ 0 }
    {
        WriteAdapter { inner, faults: 0 }
    }
}

impl<W: Write> Sink for WriteAdapter<W> {
    ghost use Rattle.xs_io.specs.Streams.{write_inner, write_faults};

    ghost held = { λ _. None };

    ghost faults = { λ s. s.faults };

    fn give(&mut self, piece: &[u8]) -> Result<usize, SinkFault>
        // The trait's clauses, repeated.
        requires some { 0 < length piece.now }
        ensures bound { IfOk result (λ count. (0 < count) × (count ≤ length piece.now)) }
        ensures bytes { WriteAppends None None result piece.now }
        ensures cause { HasSinkCause (write_faults self.old) (write_faults self.new) result }
        // The type's own: what the writer does to the bytes that it knows, and each of its errors counts.
        ensures inner { WriteAppends (W.contents (write_inner self.old)) (W.contents (write_inner self.new)) result piece.now }
        ensures counted { write_faults self.new ≡ (if is_ok result then write_faults self.old else one_more (write_faults self.old)) }
    {
        match self.inner.write(piece) {
            Ok(count) if count > 0 => Ok(count),
            _ => {
                self.faults = self.faults.saturating_add(1);
                Err(SinkFault::Failed)
            }
        }
    }
}
