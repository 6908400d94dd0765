//! Functions of instructions, as an object has them.

use crate::instr::Instr;
use cas_base::{Name, Seq};

/// A line of a function.
#[derive(Debug, Drop, PartialEq, Eq)]
pub enum Line {
    /// Sets a label at the place of the next instruction.
    Label(u32),
    /// An instruction.
    Run(Instr),
}

/// A function: its name, and its labels and instructions in order.
#[derive(Debug, Drop, PartialEq, Eq)]
pub struct AsmFun {
    /// Its name.
    pub name: Name,
    /// Its lines.
    pub lines: Seq<Line>,
}
