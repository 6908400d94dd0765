//! RTLgen: from CminorSel to RTL. Statements become nodes of a graph, temporary t becomes pseudo-register t, and each
//! value between has a pseudo-register of its own. So
//!
//! ```text
//! int f(int n) { Block { Loop { IfElse(n > 9, n = n - 1, Exit 0) } } return n; }
//! ```
//!
//! becomes, where n is temporary 0, a graph whose entry is node 5:
//!
//! ```text
//! 0: Return                     3: #0 = #0 - 1, then 2
//! 1: Return #0                  4: Test(#0 > 9), then 3 or 1
//! 2: Nop, then 4                5: Nop, then 2
//! ```
//!
//! Nodes are made from the last to the first, so that a node's successors have their numbers, each once, and so in time
//! linear in the size of the function. What is made is told twice in `specs/`: as a relation that looks at one node at
//! a time (`Makes`), of which the simulation is proved, and as a function (`Making`), which the code computes. It stands
//! on `cas_sel` and `cas_rtl`.
#![tactic(auto)]

mod draft;
mod exits;
mod expr;
mod function;
pub mod laws;
mod stmt;
mod unit;

pub use unit::rtlgen;
