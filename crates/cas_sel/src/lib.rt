//! CminorSel: the statements of Cminor over operators with immediates, addressing modes, and conditions apart from
//! values. What operators, modes and conditions give is told over the values of their operands (`specs/Operations`),
//! for CminorSel and for the languages of graphs. It stands on `cas_mid`.
#![tactic(auto)]

pub mod laws;
pub mod price;
mod tree;

pub use tree::{Cond, Mode, Op, SelAddress, SelExpr, SelFun, SelStmt, SelTest};
