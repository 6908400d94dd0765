//! The words of the command line, and the command that they give.
#![tactic(auto)]

mod command;
mod options;
mod parts;
mod values;
mod words;

pub use command::{Command, Item, Run, Turns, Wanted, World, source_text};
pub use words::command_of;
