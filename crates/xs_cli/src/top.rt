// The top call.
ghost use Rattle.std.specs.Prelude.{◌≡◌, map};
ghost use Rattle.std.specs.String.{string_bytes};
ghost use Rattle.xs_endings.specs.Ends.{change_of, ends_of};
ghost use Rattle.xs_cli.specs.Answer.{refusal_note};
ghost use Rattle.xs_cli.specs.Run.{IsRun};
ghost use Rattle.xs_cli.specs.Steps.{IsExecuted};

use crate::decoding::Decoder;
use crate::encoding::Encoder;
use crate::receiving::{Crew, Receiver};
use crate::trial::Trial;
use std::alloc::Global;
use std::thread::Threads;
use xs_endings::{Stop, close};
use xs_io::{Gate, Sink, Source};
use xs_notes::Note;
use xs_words::{Command, Refusal, command_of};

/// Runs the command that the words name, and answers the status: 0, or 1 for words that are no command, 2 for a setting
/// out of range, 3 for an input of another form, 4 for a slice over its share, 5 for a picture of which packets are
/// missing, 6 for a damaged one, 7 where the input failed, 8 where the output or the notes failed, 9 where memory was
/// wanting. The words are those after the program's name. Each codestream, packet, raw picture and note is given as one
/// piece, as soon as it is there. The call always returns. Threads start where a picture is encoded, one for each component and
/// the workers, and where one is received, feeders and workers; none of them outlives its picture.
pub fn run<T: Threads + Sync, R: Source, W: Sink, N: Sink, G: Gate>(
    threads: &T,
    alloc: Global,
    words: &[String],
    input: &mut R,
    output: &mut W,
    notes: &mut N,
    gate: &G,
) -> u8
    ensures { IsRun (map string_bytes words.now) (ends_of
        (change_of (R.left input.old) (R.left input.new) (R.faults input.old) (R.faults input.new))
        (change_of (W.held output.old) (W.held output.new) (W.faults output.old) (W.faults output.new))
        (change_of (N.held notes.old) (N.held notes.new) (N.faults notes.old) (N.faults notes.new))) result }
{
    let done = execute(threads, alloc, words, input, output, notes, gate);
    close(alloc, notes, done)
}

/// Reads the words and does what they say, but for the last note.
fn execute<T: Threads + Sync, R: Source, W: Sink, N: Sink, G: Gate>(
    threads: &T,
    alloc: Global,
    words: &[String],
    input: &mut R,
    output: &mut W,
    notes: &mut N,
    gate: &G,
) -> Result<u8, Stop>
    ensures { IsExecuted (map string_bytes words.now) (ends_of
        (change_of (R.left input.old) (R.left input.new) (R.faults input.old) (R.faults input.new))
        (change_of (W.held output.old) (W.held output.new) (W.faults output.old) (W.faults output.new))
        (change_of (N.held notes.old) (N.held notes.new) (N.faults notes.old) (N.faults notes.new))) result }
{
    match command_of(alloc, words) {
        Ok(Command::Encode { settings, form }) => {
            let encoder = Encoder {
                threads,
                alloc,
                gate,
                settings: &settings,
                form,
            };
            encoder.run(input, output)
        }
        Ok(
            Command::Decode {
                form,
                workers,
                feeders,
            },
        ) => {
            let crew = Crew { workers, feeders };
            let receiver = Receiver {
                threads,
                alloc,
                gate,
                crew,
            };
            let decoder = Decoder { form, receiver };
            decoder.decode(input, output, notes)
        }
        Ok(Command::Trial { settings, seed }) => {
            let trial = Trial {
                threads,
                alloc,
                gate,
                settings: &settings,
            };
            trial.run(seed, output)
        }
        Err(refusal) => Err(Stop::Told(note_of(refusal))),
    }
}

/// The note on words that are refused.
fn note_of(refusal: Refusal) -> Note
    ensures { result ≡ refusal_note refusal }
{
    match refusal {
        Refusal::Words { place } => Note::Words { place },
        Refusal::Setting(setting) => Note::Setting(setting),
    }
}
