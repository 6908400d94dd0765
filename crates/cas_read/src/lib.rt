//! The reader of module texts: `read_module` answers the module that the grammar gives a text, or the text's first
//! fault. The functions here read items, over the readers of expressions and statements below; each follows the machine
//! of `cas_parse`, by an equation on the machine's verdict (`specs/FollowItems.antt`). The laws of `cas_parse` then say
//! that the machine takes what the grammar spells and nothing else. It depends on `cas_base`, `cas_lex`, `cas_syntax`,
//! `cas_parse`, `cas_read_expr` and `cas_read_stmt`.
#![tactic(auto)]

mod cells;
mod function;
mod held;
mod item;
mod param;
mod read;
mod values;

pub use cas_lex::ReadCode;
pub use read::{ReadFault, read_module};
