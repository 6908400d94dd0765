//! The machine's instructions: registers, flags, memory operands and the forms of a subset of IA-32, one table of what
//! each instruction does, images of linked code, and one processor that executes an image. The table (`Effect`) is
//! read by the processor here and by the definitions of runs above: what an instruction reads, computes and writes is
//! said once.
#![tactic(auto)]

mod after;
mod ask;
mod cond;
mod cpu;
mod division;
mod effect;
mod flags;
mod image;
mod instr;
pub mod laws;
mod line;
mod regs;
mod table;

pub use ask::{Ask, BadWhy, Spot, cpu_ask, cpu_step};
pub use cond::Cond;
pub use cpu::{Cpu, NO_RETURN, STACK_BASE, STACK_LIMIT};
pub use division::Division;
pub use effect::{Computed, Destination, Effect, FlagRule, Location, Next, Operand, Operator};
pub use flags::Flags;
pub use image::{
    CODE_LIMIT, ENTRY_LIMIT, Image, LOCK_PLACE, UNLOCK_PLACE, WORD_BASE, WORD_COUNT_LIMIT,
};
pub use instr::{
    Callee, Count, Extension, Instr, Mem, Operation, ShiftKind, Source, Target, Value,
};
pub use line::{AsmFun, Line};
pub use regs::{Core, Regs, Write};
