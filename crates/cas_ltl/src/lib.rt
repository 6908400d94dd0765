//! LTL: functions as graphs of nodes over registers and slots. It is the language of graphs of `cas_rtl` over these
//! places, with the calling convention: the first three arguments are in eax, edx and ecx, and what is returned is in
//! eax. These three are lost at each node but a move, since machine instructions need them; no pseudo-register lives
//! there.
#![tactic(auto)]

pub mod laws;
pub mod price;
mod tree;

pub use tree::{Loc, Locs, LtlFun, LtlNode};
