//! The top call: a command from its words to the bytes that it prints.
#![tactic(auto)]

mod answer;
mod checking;
mod generate;
pub mod laws;
mod machine;
mod modules;
mod outcome;
mod printed;
mod reading;
mod refusal;
mod source;
mod top;
mod world_lines;
mod worlds;

pub use top::cascc;
