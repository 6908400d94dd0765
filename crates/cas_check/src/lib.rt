//! The ownership check of typed modules in code. `check_module` is the only call. It has sets of locks (`locks`),
//! the locks and guards of a module's declarations (`items`), the names in expressions and the locks that calls need
//! (`uses`), the results of walks (`flow`), sets that have to be equal (`loops`), statements without parts
//! (`simple`) and with parts (`walk`), and functions, items and modules (`module`). The definitions are those of
//! `cas_own`; `specs/View` and `Fits` relate the code to them.
#![tactic(auto)]

mod flow;
mod items;
mod locks;
mod loops;
mod module;
mod simple;
mod uses;
mod walk;

pub use module::check_module;
