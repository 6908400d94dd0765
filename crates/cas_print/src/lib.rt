//! The canonical text of modules: one text for each tree, which is read as that tree but for places. The
//! definitions are in `specs/`: the tokens of a canonical text and the text that they make (`Pieces`), and which
//! tokens a tree has (`Expressions`, `Statements`, `Items`). It depends on `cas_base`, `cas_lex` and `cas_syntax`.
#![tactic(auto)]

mod expr;
mod item;
mod page;
mod part;
mod print;
mod stmt;

pub use print::print_module;
