//! What an instruction does, as data: a row of the table of instructions. The types here have no meaning of their own;
//! `specs/After.antt` says what a row reads, computes and writes.

use crate::cond::Cond;
use crate::instr::{Extension, Operation, ShiftKind};
use cas_base::Reg;

/// An address: a word, a base register and an index register, which may be scaled by 4, added modulo 2^32.
#[derive(Clone, Copy)]
pub struct Location {
    /// The word.
    pub word: u32,
    /// The base register.
    pub base: Option<Reg>,
    /// The index register, and whether it is scaled by 4.
    pub index: Option<(Reg, bool)>,
}

/// What a row computes with.
#[derive(Clone, Copy)]
pub enum Operand {
    /// A word.
    Number(u32),
    /// The word of a register.
    Register(Reg),
    /// An address itself.
    Address(Location),
    /// The word at an address.
    Memory(Location),
    /// The word at the top of the stack.
    Top,
    /// The place of the next instruction.
    NextPlace,
}

/// How a row's result comes from its operands.
#[derive(Clone, Copy)]
pub enum Operator {
    /// It is the right operand.
    Copies,
    /// It is the right operand, extended.
    Extends(Extension),
    /// It is the complement of the right operand.
    Complements,
    /// An operation of both.
    Operates(Operation),
    /// The left operand, shifted by the right one modulo 32.
    Shifts(ShiftKind),
    /// It is 1 where the condition holds before the instruction, else 0.
    Tests(Cond),
}

/// What becomes of the flags.
#[derive(Clone, Copy)]
pub enum FlagRule {
    /// They stay.
    Kept,
    /// They are all 0.
    Cleared,
    /// They are those of the operands' sum.
    OfSum,
    /// They are those of the operands' difference.
    OfDifference,
    /// They are those of the result of a bitwise operation.
    OfLogic,
    /// They are those of a locked decrement, which keeps the carry.
    OfDecrement,
}

/// Where a row's result goes.
#[derive(Clone, Copy)]
pub enum Destination {
    /// Nowhere.
    Nowhere,
    /// Into a register.
    Register(Reg),
    /// Into memory.
    Memory(Location),
    /// Into memory, in one step with its reading.
    Locked(Location),
    /// Below the top of the stack, which is then the top.
    Pushed,
    /// Out.
    Output,
}

/// Where the code goes on.
#[derive(Clone, Copy)]
pub enum Next {
    /// At the next instruction.
    Following,
    /// At this place.
    To(u32),
    /// At this place where the condition holds before the instruction, else at the next instruction.
    ToIf(Cond, u32),
    /// At the place that is the result.
    ToResult,
}

/// A row with one result. At most one operand is in memory.
#[derive(Clone, Copy)]
pub struct Computed {
    /// The left operand.
    pub left: Operand,
    /// The right operand.
    pub right: Operand,
    /// How the result comes from them.
    pub operator: Operator,
    /// What becomes of the flags.
    pub flags: FlagRule,
    /// Whether the word at the top of the stack is taken off before the result goes anywhere.
    pub pops: bool,
    /// Where the result goes.
    pub to: Destination,
    /// Where the code goes on.
    pub next: Next,
}

/// What an instruction does.
#[derive(Clone, Copy)]
pub enum Effect {
    /// It has one result.
    Computes(Computed),
    /// It divides edx:eax by a register, signed where the flag says so: the quotient goes into eax and the remainder
    /// into edx, and all flags are 0.
    Divides(bool, Reg),
}
