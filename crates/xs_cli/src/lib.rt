//! What the program does: the top call, over any source, sinks and gate, and the program round it.
#![tactic(auto)]

ghost use Rattle.xs_cli.specs.Laws.{AnswersExist};

mod captures;
mod decoding;
mod encoding;
mod input;
mod raw_input;
mod raw_output;
mod receiving;
mod start;
mod top;
mod trial;

pub use captures::{captures_answered, file_is_written, one_captured, one_file, sent_is_written};
pub use start::program;
pub use top::run;
pub use trial::{one_trial, trials_answered};

/// Whatever the words are, each input of bytes has an answer.
#[tactic(auto, using(crate::proofs::Done::has_answer))]
pub fn answers_exist()
    ensures { AnswersExist }
{}
