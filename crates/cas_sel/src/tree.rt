//! The trees of CminorSel: the statements of Cminor over expressions of operators, addressing modes and conditions.

ghost use Rattle.std.specs.Prelude.{◌≡◌, IfOk};

use cas_base::{Decl, Name, NoMemory};
use cas_mid::{Binop, Stmt, Unop};
use cas_syntax::BinaryOperator;
use cas_typed::Signedness;
use std::alloc::Global;

/// An operator, by what it gives on the values of its operands.
#[derive(Clone, Copy, Debug, PartialEq, Eq)]
pub enum Op {
    /// This word; it has no operand.
    Constant(u32),
    /// The address of the word of the block at this offset; it has no operand.
    StackAddress(u32),
    /// The operand itself.
    Move,
    Unary(Unop),
    Binary(Binop),
    /// An operator whose second operand is this number.
    WithNumber(Binop, u32),
}

/// The address of a word, by its operands. Offsets and indices count words.
#[derive(Debug, Drop)]
pub enum Mode {
    /// A pointer, and a number.
    Based(i32),
    /// A pointer, an index, which is read so, and a number.
    Indexed(Signedness, i32),
    /// The word of a global at an offset.
    Global(Name, u32),
    /// The word of a global at an index, which is read so, and a number.
    IndexedGlobal(Name, Signedness, i32),
    /// The word of the block at an offset.
    Stack(u32),
}

impl Mode {
    /// The same mode once more.
    ///
    /// # Errors
    ///
    /// `NoMemory` for want of memory.
    pub fn copy(&self, alloc: Global) -> Result<Mode, NoMemory>
        ensures { IfOk result (λ mode. mode ≡ self.now) }
    {
        match self {
            Mode::Based(offset) => Ok(Mode::Based(*offset)),
            Mode::Indexed(sign, offset) => Ok(Mode::Indexed(*sign, *offset)),
            Mode::Global(name, offset) => Ok(Mode::Global(name.copy(alloc)?, *offset)),
            Mode::IndexedGlobal(name, sign, offset) => {
                Ok(Mode::IndexedGlobal(name.copy(alloc)?, *sign, *offset))
            }
            Mode::Stack(offset) => Ok(Mode::Stack(*offset)),
        }
    }
}

/// A condition on its operands.
#[derive(Clone, Copy, Debug, PartialEq, Eq)]
pub enum Cond {
    /// The operand is a word other than 0, or a pointer.
    IsTrue,
    /// The operand is the word 0.
    IsFalse,
    /// An operator on two words, which it reads so, gives a word other than 0.
    Words(BinaryOperator, Signedness),
    /// The same, where the second operand is this number.
    WithNumber(BinaryOperator, Signedness, u32),
    /// Two pointers, or a pointer and null, are equal or in this order.
    Values(BinaryOperator),
}

/// An expression.
#[cycle(expression)]
#[derive(Debug, Drop)]
pub enum SelExpr {
    /// The value of a temporary.
    Temp(u32),
    Operation(Op, Vec<SelExpr>),
    /// The word that an addressing mode names.
    Load(Mode, Vec<SelExpr>),
    /// The second where the test holds, else the third.
    If(Box<SelTest>, Box<SelExpr>, Box<SelExpr>),
}

/// A condition over expressions.
#[cycle(expression)]
#[derive(Debug, Drop)]
pub enum SelTest {
    Holds(Cond, Vec<SelExpr>),
    /// It holds always, or never.
    Always(bool),
    /// The second where the first holds, else the third.
    If(Box<SelTest>, Box<SelTest>, Box<SelTest>),
}

/// What a Store writes.
#[derive(Debug, Drop)]
pub struct SelAddress {
    pub mode: Mode,
    pub operands: Vec<SelExpr>,
}

/// A statement of CminorSel.
pub type SelStmt = Stmt<SelExpr, SelAddress, SelTest>;

/// A function of CminorSel, which has one block of memory.
#[derive(Debug, Drop)]
pub struct SelFun {
    pub decl: Decl,
    /// The size of its block, in words.
    pub block: u32,
    /// How many temporaries it has.
    pub temps: u32,
    pub body: SelStmt,
}
