//! Programs of checked modules, which are race-free, and their worlds in code: threads that take turns over shared
//! words and locks. `join` makes a program of checked modules (`joined`). A `World` begins at a program's start, and
//! turns of its threads change it (`world`; one turn in `turn`, schedules and rounds in `rounds`). `specs/Shown` and
//! `World_of` say which world of a program one of the code stands for, `Answers` what turns answer, and `Schedules`
//! what schedules are.
#![tactic(auto)]

mod answer;
mod effect;
mod first;
mod item;
mod joined;
pub mod laws;
mod rounds;
mod standing;
mod turn;
mod world;

pub use answer::{ThreadState, WorldAnswer};
pub use item::Item;
pub use joined::join;
pub use world::World;
