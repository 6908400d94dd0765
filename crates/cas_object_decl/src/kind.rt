//! Types as they are written.

ghost use Rattle.std.specs.Prelude.{◌≡◌};
ghost use Rattle.cas_object_decl.specs.Types as spec;
ghost use Rattle.cas_pieces.specs.Numbers.{capped};

use crate::field::Field;
use cas_base::{Kind, Ty};
use cas_object_line::LineFault;
use cas_pieces::Word;

/// The type of a global as it is written: a kind, and for an array its length.
#[derive(Debug, Drop)]
pub struct GlobalType<'a> {
    /// The elements' kind.
    pub kind: Kind,
    /// The digits of the length.
    pub len: Option<Word<'a>>,
}

/// The type of a global.
pub fn global_type<'a>(field: &Field<'a>) -> Option<GlobalType<'a>>
    ensures { result ≡ spec.global_type field.now }
{
    match field {
        Field::Word(word) => global_of(kind_of(word.as_str()), None),
        Field::Array(word, len) if len.is_numeral() => {
            global_of(kind_of(word.as_str()), Some(len.again()))
        }
        _ => None,
    }
}

fn global_of<'a>(kind: Option<Kind>, len: Option<Word<'a>>) -> Option<GlobalType<'a>>
    ensures { result ≡ spec.global_of len.entry kind }
{
    match kind {
        Some(kind) => Some(GlobalType { kind, len }),
        None => None,
    }
}

// The kind with a word.
fn kind_of(word: &str) -> Option<Kind>
    ensures { result ≡ spec.kind_of word.now }
{
    if word == "i8" {
        Some(Kind::I8)
    } else if word == "u8" {
        Some(Kind::U8)
    } else if word == "i16" {
        Some(Kind::I16)
    } else if word == "u16" {
        Some(Kind::U16)
    } else if word == "int" {
        Some(Kind::I32)
    } else if word == "unsigned" {
        Some(Kind::U32)
    } else {
        None
    }
}

impl<'a> GlobalType<'a> {
    /// How many elements it has, or the largest `u64` where there are more.
    pub fn elements(&self) -> u64
        ensures { result ≡ capped (spec.elements self.now) }
    {
        match &self.len {
            None => 1,
            Some(len) => match len.number() {
                Some(number) => number,
                None => 0,
            },
        }
    }

    /// The type.
    ///
    /// # Errors
    ///
    /// `Range` exactly where the length isn't from 1 to 65536.
    #[tactic(auto, using(crate::proofs::Capped::small_array_capped))]
    pub fn ty(&self) -> Result<Ty, LineFault>
        ensures { result ≡ spec.ty_of self.now }
    {
        match &self.len {
            None => Ok(Ty::Int(self.kind)),
            Some(len) => match len.number() {
                Some(number) => small_array(self.kind, number),
                None => Err(LineFault::Form),
            },
        }
    }
}

fn small_array(kind: Kind, len: u64) -> Result<Ty, LineFault>
    ensures { result ≡ spec.small_array kind len }
{
    if 0 < len && len <= 65536 {
        Ok(Ty::Array(kind, len as u32))
    } else {
        Err(LineFault::Range)
    }
}

/// The type of a parameter.
pub fn param_type(field: &Field) -> Result<Ty, LineFault>
    ensures { result ≡ spec.param_type field.now }
{
    match field {
        Field::Word(word) => match kind_of(word.as_str()) {
            Some(kind) => Ok(Ty::Int(kind)),
            None => Err(LineFault::Form),
        },
        Field::Pointer(word) => match kind_of(word.as_str()) {
            Some(kind) => Ok(Ty::Ptr(kind)),
            None => Err(LineFault::Form),
        },
        _ => Err(LineFault::Form),
    }
}

/// The type of a return.
pub fn return_type(field: &Field) -> Result<Ty, LineFault>
    ensures { result ≡ spec.return_type field.now }
{
    match field {
        Field::Word(word) if word.as_str() == "void" => Ok(Ty::Void),
        _ => param_type(field),
    }
}
