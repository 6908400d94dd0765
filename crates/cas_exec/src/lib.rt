//! What `exec` and `sim` do with an image: an ended timed run in rounds, or the choices of a schedule; the report of
//! it; and how all threads of a report ended together.
#![tactic(auto)]

mod ending;
pub mod laws;
mod runs;
mod schedule;

pub use ending::{Ending, ending_of};
pub use runs::{executed, simulated};
pub use schedule::{Item, follow};
