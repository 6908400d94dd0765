//! Cshmgen: from Clight to Csharpminor. All locals stay blocks of memory, and each statement is made of its own; loops
//! become Loops in Blocks, `&&`, `||` and `?:` become Ifs. So
//!
//! ```text
//! int f(int n) { while (n > 9) { n -= 1; } return n; }
//! ```
//!
//! becomes, where `n` is variable 0 and comes in temporary 0,
//!
//! ```text
//! Seq { Store(AddressOf 0, Temp 0);
//!       Block { Loop { Seq { IfElse(Load(AddressOf 0) > 9, Skip, Exit 0);
//!                            Block { Seq { Store(AddressOf 0, Narrow(Load(AddressOf 0) - 1)) } } } } };
//!       Return(Narrow(Load(AddressOf 0)));
//!       Return(0) }
//! ```
//!
//! The definitions stand in `specs/`: what is made of each form (`Makes`) and of a module (`Made`), and where
//! activations of both languages stand for one another (`Match`). It stands on `cas_clight` and `cas_mid`.
#![tactic(auto)]

mod expr;
mod function;
pub mod laws;
mod parts;
mod stmt;
mod unit;

pub use unit::cshmgen;
