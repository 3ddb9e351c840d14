// Pieces and notes, each given as one whole.
ghost use Rattle.std.specs.Prelude.{◌≡◌, IfErr};
ghost use Rattle.xs_notes.specs.Lines.{NamesFault, note_line};
ghost use Rattle.xs_endings.specs.Ends.{change_of};
ghost use Rattle.xs_endings.specs.Said.{note_status};
ghost use Rattle.xs_endings.specs.Steps.{IsClosed, IsGiven, NamesStop, Tells};

use crate::stop::{Stop, note_status};
use std::alloc::Global;
use xs_io::{Sink, give_all};
use xs_notes::{Note, report};

const WRITE_FAULT: u8 = 8;

const NO_MEMORY: u8 = 9;

/// Gives a piece. A sink that failed is not asked again.
pub fn give<K: Sink>(sink: &mut K, piece: &[u8]) -> Result<(), Stop>
    ensures { IsGiven (change_of (K.held sink.old) (K.held sink.new) (K.faults sink.old) (K.faults sink.new)) piece.now result }
{
    match give_all(sink, piece) {
        Ok(()) => Ok(()),
        Err(fault) => Err(Stop::from(fault)),
    }
}

/// Gives the line of a note.
pub fn tell<N: Sink>(alloc: Global, notes: &mut N, note: &Note) -> Result<(), Stop>
    requires { NamesFault note.now }
    ensures { IsGiven (change_of (N.held notes.old) (N.held notes.new) (N.faults notes.old) (N.faults notes.new)) (note_line note.now) result }
{
    let line = report(alloc, note)?;
    give(notes, line.as_slice())
}

/// Gives the note that is left to be told, if there is one, and answers the status: that of a command that is done, or of
/// why it stopped.
pub fn close<N: Sink>(alloc: Global, notes: &mut N, done: Result<u8, Stop>) -> u8
    requires { IfErr done NamesStop }
    ensures { IsClosed (change_of (N.held notes.old) (N.held notes.new) (N.faults notes.old) (N.faults notes.new)) done result }
{
    match done {
        Ok(status) => status,
        Err(Stop::Told(note)) => tell_last(alloc, notes, &note),
        Err(Stop::ReadFault) => tell_last(alloc, notes, &Note::ReadFault),
        Err(Stop::WriteFault) => WRITE_FAULT,
        Err(Stop::Memory) => NO_MEMORY,
    }
}

/// Gives the line of the last note, and answers its status, or that of why it was not given.
fn tell_last<N: Sink>(alloc: Global, notes: &mut N, note: &Note) -> u8
    requires { NamesFault note.now }
    ensures { Tells (change_of (N.held notes.old) (N.held notes.new) (N.faults notes.old) (N.faults notes.new)) (note_line note.now) (note_status note.now) result }
{
    match tell(alloc, notes, note) {
        Ok(()) => note_status(note),
        Err(Stop::Memory) => NO_MEMORY,
        Err(_) => WRITE_FAULT,
    }
}
