// Rows of a table of runs: words, input, status, output and notes, with bars between them, and between two notes `;`.
//
// Input and output are bytes as `bytes_of` reads them. Behind the input stand, each after a `@`, the call that fails of the
// input, of the output and of the notes, where one does. An output `#N` is any of so many bytes.
use crate::bytes::{bytes_of, number};
use std::alloc::Global;
use std::thread::Threads;
use xs_cli::run;
use xs_io::{Gate, MemSink, MemSource, Memory, Numbers, Octets, OpenGate};

/// What a run left.
#[derive(Drop)]
pub struct RunOutcome {
    pub status: u8,
    pub output: MemSink,
    pub notes: MemSink,
}

/// The calls that fail of the input, of the output and of the notes.
#[derive(Drop)]
pub struct Failing {
    pub input: Numbers,
    pub output: Numbers,
    pub notes: Numbers,
}

impl Failing {
    /// No call fails.
    pub fn none(alloc: Global) -> Failing {
        Failing {
            input: Numbers::new(alloc),
            output: Numbers::new(alloc),
            notes: Numbers::new(alloc),
        }
    }
}

/// The words of a text, which stand between blanks.
pub fn words_of(alloc: Global, text: &str) -> Result<Vec<String>, Memory> {
    let mut words = Vec::new(alloc);
    for word in text.split(' ') {
        if !word.is_empty() {
            let word = String::from_str(alloc, word).map_err(|_| Memory)?;
            words.push(word).map_err(|_| Memory)?;
        }
    }
    Ok(words)
}

/// Runs words on an input, where no worker is sent away.
pub fn run_on<T: Threads + Sync>(
    threads: &T,
    alloc: Global,
    words: &str,
    input: Octets,
    failing: Failing,
) -> Result<RunOutcome, Memory> {
    run_by(threads, alloc, words, (input, failing), &OpenGate)
}

// Runs words on an input of which some calls fail, where the gate says which workers go on.
fn run_by<T: Threads + Sync, G: Gate>(
    threads: &T,
    alloc: Global,
    words: &str,
    given: (Octets, Failing),
    gate: &G,
) -> Result<RunOutcome, Memory> {
    let (input, failing) = given;
    let words = words_of(alloc, words)?;
    let mut input = MemSource::new(input, failing.input);
    let mut output = MemSink::new(alloc, failing.output);
    let mut notes = MemSink::new(alloc, failing.notes);
    let status = run(
        threads,
        alloc,
        words.as_slice(),
        &mut input,
        &mut output,
        &mut notes,
        gate,
    );
    Ok(RunOutcome {
        status,
        output,
        notes,
    })
}

fn call_of(alloc: Global, text: &str) -> Result<Numbers, Memory> {
    match text.trim().parse::<u32>() {
        Ok(call) => Numbers::from_slice(alloc, &[call]),
        Err(_) => Ok(Numbers::new(alloc)),
    }
}

// The bytes of an input, and what fails.
fn given_of(alloc: Global, text: &str) -> Result<(Octets, Failing), Memory> {
    let mut parts = text.split('@');
    let bytes = bytes_of(alloc, parts.next().unwrap_or(""))?;
    let failing = Failing {
        input: call_of(alloc, parts.next().unwrap_or(""))?,
        output: call_of(alloc, parts.next().unwrap_or(""))?,
        notes: call_of(alloc, parts.next().unwrap_or(""))?,
    };
    Ok((bytes, failing))
}

// Whether these bytes were written.
fn is_written(alloc: Global, held: &[u8], text: &str) -> Result<bool, Memory> {
    match text.trim().strip_prefix('#') {
        Some(size) => Ok(held.len() == number(size)),
        None => Ok(bytes_of(alloc, text)?.as_slice() == held),
    }
}

// Whether these are the lines that were said.
fn is_said(alloc: Global, held: &[u8], lines: &str) -> Result<bool, Memory> {
    let mut said = Octets::new(alloc);
    for line in lines.split(';') {
        if !line.trim().is_empty() {
            said.extend(line.trim().as_bytes())?;
            said.push(b'\n')?;
        }
    }
    Ok(said.as_slice() == held)
}

/// Whether a run left what the parts of a row say: status, output and notes.
pub fn has_left(
    alloc: Global,
    left: &RunOutcome,
    status: &str,
    output: &str,
    notes: &str,
) -> Result<bool, Memory> {
    Ok(
        usize::from(left.status) == number(status)
            && is_written(alloc, left.output.held(), output)?
            && is_said(alloc, left.notes.held(), notes)?,
    )
}

fn runs_as<T: Threads + Sync, G: Gate>(
    threads: &T,
    alloc: Global,
    first: &str,
    row: &str,
    gate: &G,
) -> Result<bool, Memory> {
    let mut parts = row.split('|');
    let words = format!(in alloc; "{first} {}", parts.next().unwrap_or("")).map_err(|_| Memory)?;
    let given = given_of(alloc, parts.next().unwrap_or(""))?;
    let left = run_by(threads, alloc, words.as_str(), given, gate)?;
    let status = parts.next().unwrap_or("");
    let output = parts.next().unwrap_or("");
    let notes = parts.next().unwrap_or("");
    has_left(alloc, &left, status, output, notes)
}

/// Whether a run of these words, and further words in the row, goes as the row says.
pub fn holds<T: Threads + Sync>(threads: &T, alloc: Global, first: &str, row: &str) -> bool {
    holds_by(threads, alloc, first, row, &OpenGate)
}

/// The same where the gate says which workers go on.
pub fn holds_by<T: Threads + Sync, G: Gate>(
    threads: &T,
    alloc: Global,
    first: &str,
    row: &str,
    gate: &G,
) -> bool {
    match runs_as(threads, alloc, first, row, gate) {
        Ok(held) => held,
        Err(Memory) => false,
    }
}
