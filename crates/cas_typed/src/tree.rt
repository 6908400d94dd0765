//! Resolved expressions. A local is named by its number in its function, parameters first; a global, a lock and a
//! function by the number of the first item of the module that declares it, with the place where the text has its name.
//! Each operator says how it reads its words, and each conversion that can change a word stands as an expression of its
//! own.

use cas_base::{Kind, Place, Ty};
use cas_syntax::{BinaryOperator, UnaryOperator};

/// How a word is read as a number.
#[derive(Clone, Copy, Debug, PartialEq, Eq, Hash)]
pub enum Signedness {
    Signed,
    Unsigned,
}

/// An expression whose names are resolved and whose conversions are plain. Its value is a word or a pointer.
#[derive(Debug, Drop)]
pub enum TypedExpr {
    /// This word.
    Literal(u32),
    /// The null pointer.
    Null,
    /// The cell of a local integer or pointer.
    Local(u32),
    /// The cell of a global integer.
    Global(u32, Place),
    /// An element of a global array, by its index.
    Element(u32, Place, Signedness, Box<TypedExpr>),
    /// A pointer to a local integer, or to the first element of a local array.
    PlaceOf(u32),
    /// The cell behind a pointer, of this kind.
    Behind(Kind, Box<TypedExpr>),
    /// A pointer moved forward by a number of elements.
    PointerPlus(Signedness, Box<TypedExpr>, Box<TypedExpr>),
    /// The same with the number first.
    PlusPointer(Signedness, Box<TypedExpr>, Box<TypedExpr>),
    /// A pointer moved back by a number of elements.
    PointerMinus(Signedness, Box<TypedExpr>, Box<TypedExpr>),
    /// How many elements lie between two pointers.
    PointerDifference(Box<TypedExpr>, Box<TypedExpr>),
    /// Whether two pointers are equal, or in this order: 1 or 0.
    Compare(BinaryOperator, Box<TypedExpr>, Box<TypedExpr>),
    /// An operator on a word.
    Unary(UnaryOperator, Box<TypedExpr>),
    /// An operator on two words. A shift reads its left one so, each other operator both.
    Binary(BinaryOperator, Signedness, Box<TypedExpr>, Box<TypedExpr>),
    /// The value of the kind that equals the word modulo the kind's size.
    Narrow(Kind, Box<TypedExpr>),
    /// 1 where both words differ from 0, else 0. The second is taken only if the first differs from 0.
    And(Box<TypedExpr>, Box<TypedExpr>),
    /// 0 where both words are 0, else 1. The second is taken only if the first is 0.
    Or(Box<TypedExpr>, Box<TypedExpr>),
    /// The second where the first differs from 0, else the third.
    Choose(Box<TypedExpr>, Box<TypedExpr>, Box<TypedExpr>),
}

/// The cell that an assignment writes.
#[derive(Debug, Drop)]
pub enum TypedTarget {
    /// The cell of a local integer or pointer.
    Local(u32),
    /// The cell of a shared integer.
    Global(u32, Place),
    /// An element of a shared array, by its index.
    Element(u32, Place, Signedness, TypedExpr),
    /// The cell behind a pointer, of this kind.
    Behind(Kind, TypedExpr),
}

/// The local that takes what a function returns, and its type: an integer is narrowed to it.
#[derive(Clone, Copy, Debug, PartialEq, Eq, Hash)]
pub struct Destination {
    pub local: u32,
    pub ty: Ty,
}
