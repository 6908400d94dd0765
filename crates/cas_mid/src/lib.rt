//! The languages with statements between Clight and RTL.
#![tactic(auto)]

pub mod laws;
pub mod price;
mod tree;

pub use tree::{
    Address, AddressOf, Binop, CminorAddress, CminorExpr, CminorFun, CminorStmt, CsharpAddress,
    CsharpExpr, CsharpFun, CsharpStmt, Expr, StackAddress, Stmt, Unop,
};
