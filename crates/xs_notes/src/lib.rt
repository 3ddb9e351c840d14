//! What a run says beside its output: notes, each of one line.
#![tactic(auto)]

mod note;
mod printing;
#[cfg(test)]
mod tests;
mod texts;

pub use note::Note;
pub use printing::report;
