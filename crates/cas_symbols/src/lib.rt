//! Symbol tables: the declarations of a module's items, found by their names. The typer (`cas_type`) and the check
//! of ownership (`cas_check`) share them. A name means what the first item of the name declares; `specs/Meanings`
//! relates the table to the definition of meanings in `cas_typed`.
#![tactic(auto)]

mod table;

pub use table::{Symbol, Symbols};
