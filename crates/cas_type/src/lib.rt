//! The typer: it resolves a module, or reports the module's first fault. `type_module` is the only call. Each function
//! computes one function of the walk in `cas_typed`, and its contract says so.
//!
//! - Expressions: `kinds`, `found`, `operators` and `forms` combine what is found of operands; `scope` and `locals` say
//!   what names mean, and `names` reports their faults; `resolve` and `targets` resolve expressions and targets.
//! - Statements: `values`, `calls`, `plain` and `declare` type statements without parts, `body` types bodies; `rows`
//!   holds the rows of statements.
//! - Items: `named` and `holds` check names, `counts` the limits, `item` the items; `marks` and `pointers` find the
//!   locals whose addresses are taken; `function` and `module` type functions and modules.
//!
//! `specs/View`, `Parts` and `Rows` say what the typer's values stand for; `Answer` and `Whole_walk` relate its
//! answers to the walk: an answered fault is the walk's, and running out of memory says nothing.
#![tactic(auto)]

mod body;
mod calls;
mod counts;
mod declare;
mod fault;
mod forms;
mod found;
mod function;
mod holds;
mod item;
mod kinds;
mod locals;
mod marks;
mod module;
mod named;
mod names;
mod operators;
mod plain;
mod pointers;
mod resolve;
mod rows;
mod scope;
mod targets;
mod values;
mod within;

pub use fault::TypeFault;
pub use module::type_module;
