//! What the steps of RTL cost: the constant of a node, and those of the pseudo-registers that it reads. An operator
//! costs what it costs in CminorSel, less what an expression pays for being an operand. `docs/DECISIONS.md` has the
//! table of all languages.

/// A pseudo-register that a node reads.
pub const OPERAND: u32 = 2;
/// What is passed to a call or returned, besides being read.
pub const ARGUMENT: u32 = 8;
/// A constant, or an address of the block.
pub const CONSTANT: u32 = 11;
/// A move.
pub const MOVE: u32 = 8;
/// An operator that no other constant names.
pub const OPERATOR: u32 = 11;
/// A shift, and the difference of two pointers.
pub const SHIFT: u32 = 12;
/// A pointer moved back.
pub const POINTER_MINUS: u32 = 13;
/// A division or a remainder.
pub const DIVISION: u32 = 15;
/// A Load.
pub const LOAD: u32 = 11;
/// A Store.
pub const STORE: u32 = 9;
/// A Test.
pub const TEST: u32 = 9;
/// A Call, a Tail or a Return.
pub const CALL: u32 = 13;
/// A Lock or an Unlock.
pub const LOCK: u32 = 10;
/// An Out.
pub const OUT: u32 = 9;
/// A Nop.
pub const NOP: u32 = 7;
/// For each word of a block and each parameter, and for eight more, where an activation begins.
pub const ENTRY: u32 = 15;
