//! The canonical text of objects: one spelling for each object. It stands on `cas_base`, `cas_asm` and
//! `cas_object_text`.
#![tactic(auto)]

mod instr;
mod mnemonic;
mod object;
mod operand;
mod page;

pub use object::print_object;
