//! The words of a command: whether they are one, and what they ask for.
#![tactic(auto)]

mod command;
mod grammar;
mod option;

pub use command::{Command, Form, Refusal, command_of};
