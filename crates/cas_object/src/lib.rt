//! Texts of objects: read whole, or refused with the first fault and its line. It stands on the crates of lines and of
//! objects.
#![tactic(auto)]

mod body;
mod draft;
mod fault;
mod inside;
mod labels;
mod next;
mod read;

pub use fault::{ObjectCode, ObjectFault};
pub use read::read_objects;
