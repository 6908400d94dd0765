//! The reader of statements. As the reader of expressions, each function follows the machine of `cas_parse`. It
//! depends on `cas_base`, `cas_lex`, `cas_syntax`, `cas_parse` and `cas_read_expr`.
#![tactic(auto)]

mod depth;
mod head;
mod local;
mod parts;
mod plain;
mod simple;
pub mod stmt;
mod target;
