//! What the steps of LTL cost: the constant of a node, and those of the places that it reads. A node of RTL pays for its
//! node of LTL and for a move.

/// A place that a node reads.
pub const OPERAND: u32 = 2;
/// What is passed to a call or returned, besides being read.
pub const ARGUMENT: u32 = 3;
/// A constant, or an address of the block.
pub const CONSTANT: u32 = 6;
/// A move.
pub const MOVE: u32 = 3;
/// An operator that no other constant names.
pub const OPERATOR: u32 = 6;
/// A shift, and the difference of two pointers.
pub const SHIFT: u32 = 7;
/// A pointer moved back.
pub const POINTER_MINUS: u32 = 8;
/// A division or a remainder.
pub const DIVISION: u32 = 10;
/// A Load.
pub const LOAD: u32 = 6;
/// A Store.
pub const STORE: u32 = 4;
/// A Test.
pub const TEST: u32 = 4;
/// A Call.
pub const CALL: u32 = 7;
/// A Tail or a Return.
pub const RETURN: u32 = 8;
/// A Lock or an Unlock.
pub const LOCK: u32 = 5;
/// An Out.
pub const OUT: u32 = 4;
/// A Nop.
pub const NOP: u32 = 2;
/// For each word of a block and each parameter, and for eight more, where an activation begins.
pub const ENTRY: u32 = 13;
