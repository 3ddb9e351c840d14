// Notes as lines.
ghost use Rattle.std.specs.Prelude.{◌≡◌, IfOk, Some};
ghost use Rattle.xs_notes.specs.Lines.{note_line, note_text, NamesFault};

use crate::note::Note;
use crate::texts::{Code, HeadText, SliceText, halves_of, setting_name};
use std::alloc::Global;
use std::fmt;
use xs_io::{Memory, Octets};

/// The line of a note, which ends with a line feed.
pub fn report(alloc: Global, note: &Note) -> Result<Octets, Memory>
    requires { NamesFault note.now }
    ensures { IfOk result (λ line. line ≡ note_line note.now) }
{
    match format!(in alloc; "{note}\n") {
        Ok(line) => Octets::from_slice(alloc, line.as_bytes()),
        Err(_) => Err(Memory),
    }
}

impl fmt::Display for Note {
    ghost output = { λ note. Some (note_text note) };

    fn fmt<W: fmt::Write>(&self, f: &mut fmt::Formatter<W>) -> fmt::Result {
        match *self {
            Note::Words { place } => write!(f, "words {place}"),
            Note::Setting(setting) => {
                let name = setting_name(setting.field);
                write!(f, "setting {name} {}", setting.value)
            }
            Note::InputCut { place } => write!(f, "input cut {place}"),
            Note::InputSample { place } => write!(f, "input sample {place}"),
            Note::InputLimit { limit } => write!(f, "input limit {limit}"),
            Note::InputPictures { count } => write!(f, "input pictures {count}"),
            Note::InputMagic { value } => {
                let (high, low) = halves_of(value);
                write!(f, "input magic {}{}", Code(high), Code(low))
            }
            Note::InputLink { value } => write!(f, "input link {value}"),
            Note::Budget {
                picture,
                slice,
                size,
                share,
            } => {
                write!(
                    f,
                    "budget picture {picture} slice {slice} size {size} share {share}"
                )
            }
            Note::MissingHeader { picture } => write!(f, "missing picture {picture} header"),
            Note::MissingSlice { picture, slice } => {
                write!(f, "missing picture {picture} slice {slice}")
            }
            Note::DamagedHeader { picture, fault } => {
                write!(f, "damaged picture {picture} header {}", HeadText(fault))
            }
            Note::DamagedSlice {
                picture,
                slice,
                fault,
            } => {
                write!(
                    f,
                    "damaged picture {picture} slice {slice} {}",
                    SliceText(fault)
                )
            }
            Note::DamagedLength {
                picture,
                stated,
                actual,
            } => { write!(f, "damaged picture {picture} length {stated} {actual}") }
            Note::Stepped { count } => write!(f, "stepped {count}"),
            Note::ReadFault => write!(f, "read fault"),
        }
    }
}
