//! The step of a thread in code. A thread is its activations with their memory (`config`). A continuation has the
//! numbers of rows (`continuation`), and `control` computes the continuation after an item. A step takes the first
//! item (`first`) and evaluates its effect (`effect`); then it carries out the effect (`take`), or calls a function
//! (`call`, `enter`); `step` puts this together.
//!
//! The crate offers a thread's start (`starting`), its next step (`thread`), the act of that step without taking it
//! (`acting`), the step's place (`place`), the lock that it takes (`locking`), and whether it outputs a word
//! (`printing`). Contracts speak of the definitions of `cas_step`; `specs/Thread` says which thread one of the code
//! stands for.
#![tactic(auto)]

mod acting;
mod call;
mod config;
mod continuation;
mod control;
mod effect;
mod enter;
mod first;
pub mod laws;
mod locking;
mod place;
mod printing;
mod starting;
mod step;
mod take;
mod thread;

pub use acting::act_of;
pub use config::Config;
pub use locking::next_lock;
pub use place::place_of;
pub use printing::next_prints;
pub use starting::start;
pub use thread::{Shared, thread_step};
