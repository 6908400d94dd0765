//! Resolved functions: their locals, and their statements as rows in order of text. A statement's parts are named by
//! the numbers of their rows, which are greater than its own.

use crate::tree::{Destination, TypedExpr, TypedTarget};
use cas_base::{Place, Seq, Ty};

/// A parameter or local of a function.
#[derive(Clone, Copy, Debug, PartialEq, Eq, Hash)]
pub struct Local {
    pub ty: Ty,
    /// How many cells the locals before it have.
    pub first: u32,
    /// Whether a pointer to it is made: by `&`, or, of an array, by its name.
    pub addressed: bool,
}

/// A statement, at the place of its first token, or of the name that it declares.
#[derive(Debug, Drop)]
pub struct StmtRow {
    pub place: Place,
    pub form: StmtRowForm,
}

/// A statement whose names are resolved, and whose values are converted to the types of what takes them.
#[derive(Debug, Drop)]
pub enum StmtRowForm {
    Skip,
    Assign(TypedTarget, TypedExpr),
    /// A call of the function with this number, which is named at this place.
    Call(Option<Destination>, u32, Place, Seq<TypedExpr>),
    Block(Seq<u32>),
    If(TypedExpr, u32, Option<u32>),
    While(TypedExpr, u32),
    Do(u32, TypedExpr),
    /// What is done first, the condition, what is done after each turn, and the body.
    For(Option<u32>, Option<TypedExpr>, Option<u32>, u32),
    Break,
    Continue,
    /// With a value exactly in a function that returns one.
    Return(Option<TypedExpr>),
    Lock(u32),
    Unlock(u32),
    Print(TypedExpr),
}

/// A function with a body.
#[derive(Debug, Drop)]
pub struct TypedFun {
    /// The number of its item.
    pub item: u32,
    /// Its locals in order of declaration, parameters first.
    pub locals: Seq<Local>,
    /// Its statements, in order of text.
    pub rows: Seq<StmtRow>,
    /// The rows of the statements that its body consists of.
    pub body: Seq<u32>,
}
