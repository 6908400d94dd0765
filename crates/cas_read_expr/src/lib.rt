//! The reader of expressions, of the words of kinds and of calls. Each function follows the machine of
//! `cas_parse`, by an equation on the machine's verdict (`specs/Follow.antt`). The readers of statements and of
//! items depend on it, and take from it how reading stops (`stop`) and what is at the front of tokens (`front`).
//! It depends on `cas_base`, `cas_lex`, `cas_syntax` and `cas_parse`.
#![tactic(auto)]

mod build;
pub mod call;
pub mod expr;
pub mod front;
pub mod keep;
pub mod kind;
mod limit;
mod operator;
pub mod stop;
