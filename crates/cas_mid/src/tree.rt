//! The trees of Csharpminor and Cminor. Both have the same expressions, but for one leaf: an address of an activation's
//! own words is that of a variable in Csharpminor, and that of a word of the only block in Cminor. Statements are one
//! type over expressions, addresses and conditions, which later languages take too.

use cas_base::{Decl, Kind, Name, Seq};
use cas_syntax::{BinaryOperator, UnaryOperator};
use cas_typed::Signedness;

/// An operator on one word.
#[derive(Clone, Copy, Debug, PartialEq, Eq)]
pub enum Unop {
    /// `-`, `+`, `~` or `!`.
    OnWord(UnaryOperator),
    /// The value of the kind that equals the word modulo the kind's size.
    Narrow(Kind),
}

/// An operator on two values.
#[derive(Clone, Copy, Debug, PartialEq, Eq)]
pub enum Binop {
    /// An operator on two words, which it reads so.
    OnWords(BinaryOperator, Signedness),
    /// A pointer moved forward by a number of words.
    PointerPlus(Signedness),
    /// The same with the number first.
    PlusPointer(Signedness),
    /// A pointer moved back by a number of words.
    PointerMinus(Signedness),
    /// How many words lie between two pointers.
    PointerDifference,
    /// Whether two pointers, or a pointer and null, are equal or in this order: 1 or 0.
    Compare(BinaryOperator),
}

/// The address of a variable, by its number.
#[derive(Clone, Copy, Debug, PartialEq, Eq)]
pub struct AddressOf(pub u32);

/// The address of a word of the block, by its offset.
#[derive(Clone, Copy, Debug, PartialEq, Eq)]
pub struct StackAddress(pub u32);

/// An expression, whose leaves `A` are the addresses of its activation's own words.
#[derive(Debug, Drop)]
pub enum Expr<A> {
    /// This word. Null is the word 0.
    Word(u32),
    /// The value of a temporary.
    Temp(u32),
    /// The address of a variable, or of a word of the block.
    Own(A),
    /// The first word of a global.
    Global(Name),
    /// The word of a global at an index, which is read so.
    Element(Name, Signedness, Box<Expr<A>>),
    /// The word at which a pointer points.
    Load(Box<Expr<A>>),
    Unop(Unop, Box<Expr<A>>),
    Binop(Binop, Box<Expr<A>>, Box<Expr<A>>),
    /// The second where the first is a word other than 0 or a pointer, else the third.
    If(Box<Expr<A>>, Box<Expr<A>>, Box<Expr<A>>),
}

/// What a Store writes.
#[derive(Debug, Drop)]
pub enum Address<A> {
    /// The first word of a global.
    Global(Name),
    /// The word of a global at an index, which is read so.
    Element(Name, Signedness, Expr<A>),
    /// The word at which a pointer points.
    Pointer(Expr<A>),
}

/// A statement over expressions `E`, addresses `M` and conditions `C`.
#[derive(Debug, Drop)]
pub enum Stmt<E, M, C> {
    Skip,
    /// A temporary gets a value.
    Set(u32, E),
    /// A word of a global or of a block gets a value.
    Store(M, E),
    /// A call of the function with this name; its result goes to the temporary.
    Call(Option<u32>, Name, Seq<E>),
    /// Statements one after another.
    Seq(Vec<Stmt<E, M, C>>),
    /// The first statement where the condition is true, else the second.
    IfElse(C, Box<Stmt<E, M, C>>, Box<Stmt<E, M, C>>),
    /// The statement again and again, until an Exit or a Return leaves it.
    Loop(Box<Stmt<E, M, C>>),
    /// The statement, which an Exit may leave.
    Block(Box<Stmt<E, M, C>>),
    /// Leaves this many Blocks and one more.
    Exit(u32),
    Return(Option<E>),
    Lock(Name),
    Unlock(Name),
    /// Puts out a word.
    Print(E),
}

/// An expression of Csharpminor.
pub type CsharpExpr = Expr<AddressOf>;

/// What a Store of Csharpminor writes.
pub type CsharpAddress = Address<AddressOf>;

/// A statement of Csharpminor.
pub type CsharpStmt = Stmt<CsharpExpr, CsharpAddress, CsharpExpr>;

/// An expression of Cminor.
pub type CminorExpr = Expr<StackAddress>;

/// What a Store of Cminor writes.
pub type CminorAddress = Address<StackAddress>;

/// A statement of Cminor.
pub type CminorStmt = Stmt<CminorExpr, CminorAddress, CminorExpr>;

/// A function of Csharpminor. Its variables are blocks of memory, of these sizes; parameters come in the first of its
/// temporaries, and the others begin at 0.
#[derive(Debug, Drop)]
pub struct CsharpFun {
    pub decl: Decl,
    /// The sizes of its variables, in words.
    pub vars: Seq<u32>,
    /// How many temporaries it has.
    pub temps: u32,
    pub body: CsharpStmt,
}

/// A function of Cminor, which has one block of memory.
#[derive(Debug, Drop)]
pub struct CminorFun {
    pub decl: Decl,
    /// The size of its block, in words.
    pub block: u32,
    /// How many temporaries it has.
    pub temps: u32,
    pub body: CminorStmt,
}
