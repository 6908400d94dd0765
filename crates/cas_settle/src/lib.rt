//! Which modules fit together: the rosters of their declarations, and the one rule by which they settle. It gives
//! the words of globals and locks and the entries of a program, or else the first refusal.
#![tactic(auto)]

mod definitions;
mod link;
mod roster;

pub use link::{CellRow, Count, LOCK_LIMIT, LinkFault, Settled, WORD_LIMIT, settle};
pub use roster::Roster;
