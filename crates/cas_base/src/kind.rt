//! Kinds of integer cells, and the types of the source language.

ghost use Rattle.std.specs.Prelude.{◌≡◌};
ghost use Rattle.cas_base.specs.Ty.{same_kind, same_ty, words_of_ty};

use std::fmt;

/// The kind of an integer cell: its size in bits, and whether its values are signed. (C's integer types at
/// the sizes of IA-32.)
#[derive(Clone, Copy, Debug, PartialEq, Eq, Hash)]
pub enum Kind {
    /// `char`, from -128 to 127.
    I8,
    /// `unsigned char`, from 0 to 255.
    U8,
    /// `short`, from -32768 to 32767.
    I16,
    /// `unsigned short`, from 0 to 65535.
    U16,
    /// `int`, from -2147483648 to 2147483647.
    I32,
    /// `unsigned`, from 0 to 4294967295.
    U32,
}

/// A type of the source language.
#[derive(Clone, Copy, Debug, PartialEq, Eq, Hash)]
pub enum Ty {
    /// No value, as what a function returns.
    Void,
    /// An integer of a kind.
    Int(Kind),
    /// A pointer to a cell of a kind.
    Ptr(Kind),
    /// An array of cells of a kind, with its length in cells.
    Array(Kind, u32),
}

impl Kind {
    /// Whether the two are the same.
    pub fn same(self, other: Kind) -> bool
        ensures { result ≡ same_kind self other }
    {
        self == other
    }
}

impl Ty {
    /// Whether the two are the same.
    pub fn same(self, other: Ty) -> bool
        ensures { result ≡ same_ty self other }
    {
        self == other
    }

    /// How many words a global of this type has: one, or one for each element of an array.
    pub fn words(self) -> u32
        ensures { result ≡ words_of_ty self }
    {
        match self {
            Ty::Void => 0,
            Ty::Int(_) | Ty::Ptr(_) => 1,
            Ty::Array(_, len) => len,
        }
    }
}

// As objects spell it, which isn't how module texts do.
impl fmt::Display for Kind {
    ghost use Rattle.std.specs.Prelude.{Some};
    ghost use Rattle.cas_base.specs.Print.{kind_text};

    ghost output = { λ kind. Some (kind_text kind) };

    fn fmt<W: fmt::Write>(&self, f: &mut fmt::Formatter<W>) -> fmt::Result {
        f.write_str(match *self {
            Kind::I8 => "i8",
            Kind::U8 => "u8",
            Kind::I16 => "i16",
            Kind::U16 => "u16",
            Kind::I32 => "int",
            Kind::U32 => "unsigned",
        })
    }
}

// As objects spell it.
impl fmt::Display for Ty {
    ghost use Rattle.std.specs.Prelude.{Some};
    ghost use Rattle.cas_base.specs.Print.{ty_text};

    ghost output = { λ ty. Some (ty_text ty) };

    fn fmt<W: fmt::Write>(&self, f: &mut fmt::Formatter<W>) -> fmt::Result {
        match *self {
            Ty::Void => write!(f, "void"),
            Ty::Int(kind) => write!(f, "{kind}"),
            Ty::Ptr(kind) => write!(f, "{kind}*"),
            Ty::Array(kind, len) => write!(f, "{kind}[{len}]"),
        }
    }
}
