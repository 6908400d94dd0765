//! Typed modules: the rules of types, and resolved trees, in which names are numbers and conversions are explicit. The
//! definitions are in `specs/`; read them in this order:
//!
//! - `Resolved`: the resolved trees as plain data; `Numbered`: the rows that stand for their statements in the code;
//! - `Types`, `Scopes`, `Typing`, `Modules`: types, what a name means, and the rules of expressions, statements and
//!   items;
//! - `Counts`: what has a limit in a module;
//! - `Resolving`, `Faults`, `Walk`: the walk that finds the first fault of a module.
//!
//! The contracts of `laws` are proved: the walk ends without a fault exactly if the rules hold, with the same
//! resolved module (`modules_are_typed_or_refused`); what is resolved is well sorted (`Sorts`) and has one function
//! for each body (`Bodies`); typing keeps what holds of each module that a text is read as (`Formed`, `Literals`).
//! The code has the typed modules (`typed`, `rows`, `tree`) and the codes of faults (`fault`).
#![tactic(auto)]

mod declaration;
mod fault;
pub mod laws;
mod rows;
mod tree;
mod typed;

pub use declaration::{declared, return_type};
pub use fault::{TypeCode, TypeCount};
pub use rows::{Local, StmtRow, StmtRowForm, TypedFun};
pub use tree::{Destination, Signedness, TypedExpr, TypedTarget};
pub use typed::Typed;
