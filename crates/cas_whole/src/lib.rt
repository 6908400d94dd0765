//! Programs in code: typed modules that settle, with their globals and locks, the functions at which threads begin,
//! and what each item stands for. `Program::new` makes a program, or refuses the modules as `settle` does.
//! `specs/Whole` and `Program_of` say which program of resolved modules one of the code stands for, `Bodies` what a
//! step needs of a function, and `Names` how names are looked up.
#![tactic(auto)]

mod body;
mod items;
pub mod laws;
mod names;
mod program;
mod roster;
mod words;

pub use body::Body;
pub use program::Program;
pub use words::initial_words;
