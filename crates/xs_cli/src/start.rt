// The program: the words that it is started with, and its streams.
ghost use Rattle.std.specs.Prelude.{◌≡◌, IfOk, drop};
ghost use Rattle.std.specs.Vec.Iter.{into_iter_items};
ghost use Rattle.xs_endings.specs.Ends.{change_of, ends_of};
ghost use Rattle.xs_cli.specs.Program.{IsProgram, wordless_status};

use crate::top::run;
use std::alloc::Global;
use std::env::Args;
use std::io;
use std::io::ErrorKind;
use std::thread::Threads;
use xs_io::{Memory, OpenGate, Sink, Source};

/// A word is not UTF-8.
const BAD_WORDS: u8 = 1;

const NO_MEMORY: u8 = 9;

/// Runs the command of the arguments, of which the first is the program's name, and answers the status to end with: that
/// of `run`, 1 where an argument is not UTF-8, of which there is no note, and 9 where memory is wanting for the arguments.
/// Every worker goes on with its scans.
pub fn program<T: Threads + Sync, R: Source, W: Sink, N: Sink>(
    threads: &T,
    alloc: Global,
    args: io::Result<Args>,
    input: &mut R,
    output: &mut W,
    errors: &mut N,
) -> u8
    ensures { IsProgram args (ends_of
        (change_of (R.left input.old) (R.left input.new) (R.faults input.old) (R.faults input.new))
        (change_of (W.held output.old) (W.held output.new) (W.faults output.old) (W.faults output.new))
        (change_of (N.held errors.old) (N.held errors.new) (N.faults errors.old) (N.faults errors.new))) result }
{
    let args = match args {
        Ok(args) => args,
        Err(error) => return wordless_status(error.kind()),
    };
    match words_of(alloc, args) {
        Ok(words) => run(
            threads,
            alloc,
            words.as_slice(),
            input,
            output,
            errors,
            &OpenGate,
        ),
        Err(Memory) => NO_MEMORY,
    }
}

/// The words after the program's name.
fn words_of(alloc: Global, args: Args) -> Result<Vec<String>, Memory>
    ensures { IfOk result (λ words. words.items ≡ drop 1 (into_iter_items args)) }
{
    let mut args = args;
    args.next();
    let mut words = Vec::new(alloc);
    'words: while let Some(word) = args.next() {
        words.push(word).map_err(|_| Memory)?;
    }
    Ok(words)
}

/// The status where no words came in, by the kind of the error.
fn wordless_status(kind: ErrorKind) -> u8
    ensures { result ≡ wordless_status kind }
{
    match kind {
        ErrorKind::OutOfMemory => NO_MEMORY,
        _ => BAD_WORDS,
    }
}
