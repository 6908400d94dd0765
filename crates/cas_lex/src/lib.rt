//! The tokens of module texts. The characters, the tokens by longest match with their places, and the first
//! lexical fault are defined in `specs/`; `lex` answers exactly that. It depends on `cas_base`.
#![tactic(auto)]

mod code;
mod comment;
mod fault;
mod front;
pub mod laws;
mod lexing;
mod literal;
mod place;
mod sign;
mod token;
mod word;

pub use code::ReadCode;
pub use fault::LexFault;
pub use lexing::lex;
pub use place::end_of;
pub use token::{Sign, Token, TokenKind, Word};
