//! Instructions, generic in how symbols are named: by a `Name` in an object, by an address or a place in an image.

use crate::cond::Cond;
use cas_base::{Name, Reg};

/// A memory operand. Its address is the sum, modulo 2^32, of the symbol's address, the base register, the index
/// register (times 4 where the flag says so) and the displacement.
#[derive(Clone, Copy, Debug, Drop, PartialEq, Eq)]
pub struct Mem<S = Name> {
    /// The symbol of a global or lock.
    pub sym: Option<S>,
    /// The base register.
    pub base: Option<Reg>,
    /// The index register, and whether it is scaled by 4.
    pub index: Option<(Reg, bool)>,
    /// The displacement, in bytes.
    pub disp: i32,
}

/// A register or a number.
#[derive(Clone, Copy, Debug, PartialEq, Eq)]
pub enum Value {
    /// The word of a register.
    Reg(Reg),
    /// A word.
    Num(u32),
}

/// A register, a number or a word in memory.
#[derive(Clone, Copy, Debug, Drop, PartialEq, Eq)]
pub enum Source<S = Name> {
    /// The word of a register.
    Reg(Reg),
    /// A word.
    Num(u32),
    /// The word at an address.
    Mem(Mem<S>),
}

/// How the low bits of a register are extended to 32 bits.
#[derive(Clone, Copy, Debug, PartialEq, Eq)]
pub enum Extension {
    /// `movsx8`: the low 8 bits, by their sign.
    Sign8,
    /// `movsx16`: the low 16 bits, by their sign.
    Sign16,
    /// `movzx8`: the low 8 bits, by zeros.
    Zero8,
    /// `movzx16`: the low 16 bits, by zeros.
    Zero16,
}

/// A binary operation of arithmetic or logic.
#[derive(Clone, Copy, Debug, PartialEq, Eq)]
pub enum Operation {
    /// The sum.
    Add,
    /// The difference.
    Sub,
    /// The bits that both have.
    And,
    /// The bits that one of them has.
    Or,
    /// The bits that exactly one of them has.
    Xor,
    /// The low 32 bits of the product.
    Imul,
}

/// A shift.
#[derive(Clone, Copy, Debug, PartialEq, Eq)]
pub enum ShiftKind {
    /// To the left.
    Shl,
    /// To the right, zeros shifted in.
    Shr,
    /// To the right, the sign shifted in.
    Sar,
}

/// By how much a shift shifts.
#[derive(Clone, Copy, Debug, PartialEq, Eq)]
pub enum Count {
    /// By a number from 0 to 31.
    Fixed(u32),
    /// By the low five bits of ecx.
    Ecx,
}

/// Where `jmp` goes.
#[derive(Clone, Copy, Debug, Drop, PartialEq, Eq)]
pub enum Target<S = Name> {
    /// To a label: in an image, its place.
    Label(u32),
    /// To the first instruction of a function.
    Function(S),
}

/// What `call` calls.
#[derive(Clone, Copy, Debug, Drop, PartialEq, Eq)]
pub enum Callee<S = Name> {
    /// The lock object's `lock`, of the lock whose address is in eax.
    Lock,
    /// The lock object's `unlock`, of the lock whose address is in eax.
    Unlock,
    /// A function.
    Function(S),
}

/// An instruction. `S` names globals, locks and functions: an object has names there; an image has addresses in memory
/// operands and places after `call` and `jmp`.
#[derive(Clone, Copy, Debug, Drop, PartialEq, Eq)]
pub enum Instr<S = Name> {
    /// `mov r, ..`: copies into a register.
    Mov(Reg, Source<S>),
    /// `mov m, ..`: stores a register or a number.
    Store(Mem<S>, Value),
    /// `movsx8`, `movsx16`, `movzx8`, `movzx16`: extends into the first register from the second.
    Extend(Extension, Reg, Reg),
    /// `lea`: the address into a register.
    Lea(Reg, Mem<S>),
    /// `add`, `sub`, `and`, `or`, `xor`, `imul`: into the register that is the left operand.
    Operate(Operation, Reg, Source<S>),
    /// `cmp r, ..`: the flags of the difference.
    Cmp(Reg, Source<S>),
    /// `cmp m, i`: the flags of the difference.
    CmpMem(Mem<S>, u32),
    /// `test`: the flags of the common bits.
    Test(Reg, Value),
    /// `neg`: 0 minus the register.
    Neg(Reg),
    /// `not`: the complement.
    Not(Reg),
    /// `shl`, `shr`, `sar`.
    Shift(ShiftKind, Reg, Count),
    /// `cdq`: the sign of eax in all bits of edx.
    Cdq,
    /// `idiv`: edx:eax by a register, signed; the quotient into eax and the remainder into edx.
    Idiv(Reg),
    /// `div`: the same, unsigned.
    Div(Reg),
    /// `push`: stores a register below the top of the stack.
    Push(Reg),
    /// `pop`: loads a register from the top of the stack.
    Pop(Reg),
    /// `jmp`.
    Jmp(Target<S>),
    /// `jo` to `jg`: goes to the label where the condition holds.
    JumpIf(Cond, u32),
    /// `call`: pushes the next place and goes to the callee.
    Call(Callee<S>),
    /// `ret`: pops a place and goes there.
    Ret,
    /// `out eax`: puts the word of eax out.
    Out,
    /// `lockdec`: takes 1 from a word in memory, in one step.
    LockDec(Mem<S>),
    /// `set`: 1 into the register where the condition holds, else 0.
    Set(Cond, Reg),
}
