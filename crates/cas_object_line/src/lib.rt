//! The lines of an objects text: instructions, declarations with their data, and what begins and ends objects and
//! functions. It stands on `cas_base`, `cas_asm` and `cas_pieces`.
#![tactic(auto)]

mod code;
mod fault;
mod group;
mod instr;
mod mnemonic;
mod number;
mod operand;
mod tables;

pub use code::{CodeLine, code_line, instruction};
pub use fault::LineFault;
pub use instr::{bare, binary, name_of, unary};
pub use mnemonic::Mnemonic;
pub use number::word_of;
pub use operand::{Address, Numeral, Operand, is_positive, operand_of};
pub use tables::Tables;
