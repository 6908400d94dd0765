//! RTL: functions as graphs of nodes over pseudo-registers. The language of graphs (`specs/Graph`) is told over any
//! places, since LTL is the same over registers and slots. It stands on `cas_sel`, whose operators, addressing modes
//! and conditions its nodes have.
#![tactic(auto)]

pub mod laws;
pub mod price;
mod tree;

pub use tree::{Operands, RtlFun, RtlNode};
