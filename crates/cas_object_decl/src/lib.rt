//! The lines of an objects text outside functions: declarations with their data, the first line of a function, and
//! the last line of an object. It stands on `cas_base`, `cas_asm`, `cas_pieces` and `cas_object_line`.
#![tactic(auto)]

mod data;
mod field;
mod head;
mod kind;
mod line;

pub use data::is_number;
pub use field::{Field, fields};
pub use kind::GlobalType;
pub use line::{DeclLine, Sort, decl_line};
