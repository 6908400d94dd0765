//! Tailcall: a call whose result is only returned becomes a tail call, in a function without a block and with at most
//! three arguments. So
//!
//! ```text
//! 0: Return #1          2: Call f(#0) to #1, then 1
//! 1: Nop, then 0        3: #0 = #0 - 1, then 2
//! ```
//!
//! becomes the same graph, whose node 2 is `Tail f(#0)`. Nodes that nothing leads to any more stay; Renumber leaves them
//! out. It stands on `cas_rtl`, and on `cas_graphs` for the nodes that stay.
#![tactic(auto)]

mod function;
pub mod laws;

pub use function::tailcall;
