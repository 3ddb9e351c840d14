// Whole pieces, in as many calls as it takes.
ghost use Rattle.std.specs.Prelude.{◌≡◌, ◌≢◌, ◌<◌, ◌≤◌, ◌+◌, ℕ, List, length, take, IfOk, IfErr, OnOk, OnErr, IsErrOf};
ghost use Rattle.std.specs.Io.KnownBytes.{Appends, Consumes, IsAtEnd};
ghost use Rattle.xs_io.specs.Causes.{HasSinkCause, HasTakeCause};

use crate::lists::Octets;
use crate::traits::{Sink, SinkFault, Source, TakeFault};
use std::alloc::Global;

const CHUNK: usize = 8192;

/// Gives the whole piece; an empty one makes no call. After a refusal the sink holds a front of it, appended.
pub fn give_all<K: Sink>(sink: &mut K, piece: &[u8]) -> Result<(), SinkFault>
    ensures given { OnOk result (Appends (K.held sink.old) (K.held sink.new) piece.now) }
    ensures refused { OnErr result ((count : ℕ) × (count < length piece.now) × Appends (K.held sink.old) (K.held sink.new) (take count piece.now)) }
    ensures empty { length piece.now ≡ 0 → sink.new ≡ sink.old }
    ensures cause { HasSinkCause (K.faults sink.old) (K.faults sink.new) result }
{
    let mut given = 0;
    'giving: while given < piece.len() {
        given += sink.give(&piece[given..])?;
    }
    Ok(())
}

/// Takes bytes until there are `want` of them or the input ends. After a refusal those taken are a front of what was left.
pub fn take_exact<S: Source>(
    alloc: Global,
    source: &mut S,
    want: usize,
) -> Result<Octets, TakeFault>
    ensures taken { IfOk result (Consumes (S.left source.old) (S.left source.new)) }
    ensures most { IfOk result (λ list. length list ≤ want) }
    ensures end { IfOk result (λ list. length list < want → IsAtEnd (S.left source.new)) }
    ensures refused { OnErr result ((front : List ℕ) × (length front ≤ want) × Consumes (S.left source.old) (S.left source.new) front) }
    ensures failed { IsErrOf result TakeFault.Failed → (front : List ℕ) × (length front < want) × Consumes (S.left source.old) (S.left source.new) front }
    ensures unlimited { IfErr result (λ fault. fault ≢ TakeFault.Limit) }
    ensures cause { HasTakeCause (S.faults source.old) (S.faults source.new) result }
{
    let mut list = Octets::new(alloc);
    let mut buffer = [0; CHUNK];
    'taking: while list.len() < want {
        let room = (want - list.len()).min(CHUNK);
        let count = source.take(&mut buffer[..room])?;
        if count == 0 {
            break;
        }
        list.extend(&buffer[..count])?;
    }
    Ok(list)
}

/// Takes all bytes that are left, at most `limit`. It stops at the byte past the limit, which is then taken as well.
/// After a refusal the bytes taken are a front of what was left.
pub fn take_all<S: Source>(alloc: Global, source: &mut S, limit: u64) -> Result<Octets, TakeFault>
    ensures taken { IfOk result (Consumes (S.left source.old) (S.left source.new)) }
    ensures most { IfOk result (λ list. length list ≤ limit) }
    ensures end { OnOk result (IsAtEnd (S.left source.new)) }
    ensures over { IsErrOf result TakeFault.Limit → (front : List ℕ) × (length front ≡ limit + 1) × Consumes (S.left source.old) (S.left source.new) front }
    ensures failed { IsErrOf result TakeFault.Failed → (front : List ℕ) × (length front ≤ limit) × Consumes (S.left source.old) (S.left source.new) front }
    ensures memory { IsErrOf result TakeFault.Memory → (front : List ℕ) × (length front ≤ limit) × Consumes (S.left source.old) (S.left source.new) front }
    ensures cause { HasTakeCause (S.faults source.old) (S.faults source.new) result }
{
    let mut list = Octets::new(alloc);
    let mut buffer = [0; CHUNK];
    let mut spare = limit;
    'taking: loop {
        let room = spare.min(CHUNK as u64 - 1) as usize + 1;
        let count = source.take(&mut buffer[..room])?;
        if count == 0 {
            return Ok(list);
        }
        if count as u64 > spare {
            return Err(TakeFault::Limit);
        }
        list.extend(&buffer[..count])?;
        spare -= count as u64;
    }
}
