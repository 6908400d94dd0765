//! The trees of modules. (Clight's, in a profile with locks.)

ghost use Rattle.std.specs.Prelude.{◌≡◌, IfOk};

use cas_base::{Decl, Kind, Name, NoMemory, Place, Seq, Ty};
use std::alloc::Global;

/// A name at its place in a text.
#[derive(Debug, Drop)]
pub struct Ident {
    pub name: Name,
    pub place: Place,
}

impl Ident {
    /// The same name at the same place.
    pub fn copy(&self, alloc: Global) -> Result<Ident, NoMemory>
        ensures { IfOk result (λ copied. copied ≡ self.now) }
    {
        Ok(Ident {
            name: self.name.copy(alloc)?,
            place: self.place,
        })
    }
}

/// The operators that take one operand and give a number.
#[derive(Clone, Copy, Debug, PartialEq, Eq)]
pub enum UnaryOperator {
    /// `-`
    Neg,
    /// `+`
    Plus,
    /// `~`
    BitNot,
    /// `!`
    Not,
}

/// The operators that take two operands and always both.
#[derive(Clone, Copy, Debug, PartialEq, Eq)]
pub enum BinaryOperator {
    /// `+`
    Add,
    /// `-`
    Sub,
    /// `*`
    Mul,
    /// `/`
    Div,
    /// `%`
    Mod,
    /// `<<`
    Shl,
    /// `>>`
    Shr,
    /// `&`
    BitAnd,
    /// `|`
    BitOr,
    /// `^`
    BitXor,
    /// `==`
    Eq,
    /// `!=`
    Ne,
    /// `<`
    Lt,
    /// `<=`
    Le,
    /// `>`
    Gt,
    /// `>=`
    Ge,
}

/// An expression, which has no side effect.
#[derive(Debug, Drop)]
pub enum Expr {
    /// A literal: its value, and its kind (I32 or U32).
    Lit(u32, Kind),
    /// A variable, or an array's first element.
    Name(Ident),
    /// `x[e]`
    Index(Ident, Box<Expr>),
    /// `*e`
    Deref(Box<Expr>),
    /// `&x`
    Addr(Ident),
    /// `&x[e]`
    AddrIndex(Ident, Box<Expr>),
    Unary(UnaryOperator, Box<Expr>),
    /// `(int) e`, and so for each kind
    Cast(Kind, Box<Expr>),
    Binary(BinaryOperator, Box<Expr>, Box<Expr>),
    /// `a && b`, which takes its second operand only if the first is true.
    And(Box<Expr>, Box<Expr>),
    /// `a || b`, which takes its second operand only if the first is false.
    Or(Box<Expr>, Box<Expr>),
    /// `a ? b : c`
    Cond(Box<Expr>, Box<Expr>, Box<Expr>),
}

/// What an assignment writes.
#[derive(Debug, Drop)]
pub enum LValue {
    Name(Ident),
    /// `x[e]`
    Index(Ident, Expr),
    /// `*e`
    Deref(Expr),
}

/// What a local begins with.
#[derive(Debug, Drop)]
pub enum Init {
    /// No value is given.
    Nothing,
    Value(Expr),
    /// What this function returns for these arguments.
    Call(Ident, Seq<Expr>),
}

/// A statement, at the place of its first token; a declaration at that of the name that it declares.
#[cycle(tree)]
#[derive(Debug, Drop)]
pub struct Stmt {
    pub place: Place,
    pub form: StmtForm,
}

/// What a statement does.
#[cycle(tree)]
#[derive(Debug, Drop)]
pub enum StmtForm {
    /// `;`
    Skip,
    /// A local.
    Declare(Ty, Ident, Init),
    /// `x = e`, or `x op= e`.
    Assign(LValue, Option<BinaryOperator>, Expr),
    /// `f(..)`, or `x = f(..)`.
    Call(Option<Ident>, Ident, Seq<Expr>),
    Block(Vec<Stmt>),
    If(Expr, Box<Stmt>, Option<Box<Stmt>>),
    While(Expr, Box<Stmt>),
    Do(Box<Stmt>, Expr),
    /// What is done first, the condition, what is done after each turn, and the body.
    For(Option<Box<Stmt>>, Option<Expr>, Option<Box<Stmt>>, Box<Stmt>),
    Break,
    Continue,
    Return(Option<Expr>),
    Lock(Ident),
    Unlock(Ident),
    /// Puts out the value, converted to `int`.
    Print(Expr),
}

/// A function with a body.
#[derive(Debug, Drop)]
pub struct Fun {
    pub decl: Decl,
    /// The parameters' names, in order. Their types are the declaration's.
    pub params: Seq<Ident>,
    /// The places of the locks that the declaration `holds`, in order.
    pub held: Seq<Place>,
    pub body: Seq<Stmt>,
    /// The place of the function's name.
    pub place: Place,
    /// The place of the brace that ends the body.
    pub closing: Place,
}

/// An item of a module, at the place of the name that it declares.
#[derive(Debug, Drop)]
pub enum Item {
    /// A lock, a shared global or a table, with the initial values that the text gives, each as a word of its
    /// kind.
    Global {
        decl: Decl,
        values: Seq<u32>,
        place: Place,
    },
    /// A function without its body, with the places of the locks that the declaration `holds`, in order.
    Prototype {
        decl: Decl,
        held: Seq<Place>,
        place: Place,
    },
    Define(Fun),
}

/// A module: its items in order of text.
#[derive(Debug, Drop)]
pub struct Module {
    pub items: Seq<Item>,
}
