//! What the steps of Csharpminor and Cminor cost. A step costs the constant of its statement and those of the
//! expressions that it takes; the weight of a function is the sum over its body. Both languages have the same
//! constants, which pay for all that the later passes make of a form: `docs/DECISIONS.md` has the table of all
//! languages.

/// A constant, or the address of a variable or of a word of the block.
pub const CONSTANT: u32 = 13;
/// The value of a temporary.
pub const TEMP: u32 = 10;
/// A word of a global or of a block, loaded.
pub const LOAD: u32 = 13;
/// An operator that no other constant names.
pub const OPERATOR: u32 = 13;
/// A shift, and the difference of two pointers.
pub const SHIFT: u32 = 14;
/// A pointer moved back.
pub const POINTER_MINUS: u32 = 15;
/// A division or a remainder.
pub const DIVISION: u32 = 17;
/// An If in an expression.
pub const IF: u32 = 11;
/// What is passed to a call or returned, besides its expression.
pub const ARGUMENT: u32 = 8;
/// Skip, Set, Seq, Block, the end of a Block, and Exit.
pub const PLAIN: u32 = 1;
/// A Store.
pub const STORE: u32 = 9;
/// An IfElse.
pub const IF_ELSE: u32 = 10;
/// A Loop.
pub const LOOP: u32 = 7;
/// A Call.
pub const CALL: u32 = 13;
/// A Return, and falling off the end of a function.
pub const RETURN: u32 = 13;
/// A Lock or an Unlock.
pub const LOCK: u32 = 10;
/// A Print.
pub const PRINT: u32 = 9;
/// For each word of a block, each name and each parameter, and for eight more, where an activation begins.
pub const ENTRY: u32 = 18;
