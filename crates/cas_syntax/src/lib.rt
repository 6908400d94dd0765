//! The text of modules: their trees, and the grammar that relates tokens to trees. The definitions are in
//! `specs/`: the trees as plain data (`Tree`), equality but for places (`Alike`), the grammar (`Expressions`,
//! `Statements`, `Items`, over `Tokens`, `Operators` and `Limits`), the first fault of a text and what a text is
//! read as (`Reading`). It depends on `cas_base` and `cas_lex`.
#![tactic(auto)]

mod levels;
mod limits;
mod tree;

pub use levels::{AND_LEVEL, CONDITIONAL_LEVEL, OPERAND_LEVEL, OR_LEVEL, level};
pub use limits::{DEPTH_LIMIT, TOKEN_LIMIT};
pub use tree::{
    BinaryOperator, Expr, Fun, Ident, Init, Item, LValue, Module, Stmt, StmtForm, UnaryOperator,
};
