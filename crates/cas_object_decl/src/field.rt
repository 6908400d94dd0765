//! The fields of a line.

ghost use Rattle.std.specs.Prelude.{◌≡◌, IfOk};
ghost use Rattle.cas_object_decl.specs.Fields as spec;

use cas_base::NoMemory;
use cas_pieces::{Mark, Piece, Word};
use std::alloc::Global;

/// A field of a line: a part between spaces.
#[derive(Debug, Drop)]
pub enum Field<'a> {
    /// A word, which may be a number.
    Word(Word<'a>),
    /// A word with `-` before it.
    Negative(Word<'a>),
    /// A word with `*` after it.
    Pointer(Word<'a>),
    /// A word, and another in brackets after it.
    Array(Word<'a>, Word<'a>),
    /// None of these.
    Other,
}

/// The fields of a line with these pieces. Time is linear in the pieces.
///
/// # Errors
///
/// `NoMemory` for want of memory.
pub fn fields<'a>(alloc: Global, pieces: &[Piece<'a>]) -> Result<Vec<Field<'a>>, NoMemory>
    ensures { IfOk result (λ fields. fields.items ≡ spec.fields pieces.now) }
{
    let mut found = Vec::new(alloc);
    for part in pieces.split(|piece| piece.is_mark(Mark::Space)) {
        found.push(field_of(part))?;
    }
    Ok(found)
}

// The field that these pieces are.
fn field_of<'a>(pieces: &[Piece<'a>]) -> Field<'a>
    ensures { result ≡ spec.field_of pieces.now }
{
    match pieces {
        [piece] => word(piece),
        [first, second] => two_pieces(first, second),
        [piece, left, len, right] if left.is_mark(Mark::Open) && right.is_mark(Mark::Close) => {
            array(piece, len)
        }
        _ => Field::Other,
    }
}

fn word<'a>(piece: &Piece<'a>) -> Field<'a>
    ensures { result ≡ spec.word piece.now }
{
    match piece {
        Piece::Word(word) => Field::Word(word.again()),
        Piece::Mark(_) => Field::Other,
    }
}

// A word with a mark after it or before it.
fn two_pieces<'a>(first: &Piece<'a>, second: &Piece<'a>) -> Field<'a>
    ensures { result ≡ spec.two_pieces first.now second.now }
{
    match first {
        Piece::Word(word) if second.is_mark(Mark::Star) => Field::Pointer(word.again()),
        Piece::Mark(Mark::Minus) => negative(second),
        _ => Field::Other,
    }
}

fn negative<'a>(piece: &Piece<'a>) -> Field<'a>
    ensures { result ≡ spec.negative piece.now }
{
    match piece {
        Piece::Word(word) => Field::Negative(word.again()),
        Piece::Mark(_) => Field::Other,
    }
}

// A word, and a word in brackets.
fn array<'a>(piece: &Piece<'a>, len: &Piece<'a>) -> Field<'a>
    ensures { result ≡ spec.array piece.now len.now }
{
    match piece {
        Piece::Word(word) => array_of(word, len),
        Piece::Mark(_) => Field::Other,
    }
}

fn array_of<'a>(word: &Word<'a>, len: &Piece<'a>) -> Field<'a>
    ensures { result ≡ spec.array_of word.now len.now }
{
    match len {
        Piece::Word(len) => Field::Array(word.again(), len.again()),
        Piece::Mark(_) => Field::Other,
    }
}

impl<'a> Field<'a> {
    /// Whether it is this word.
    pub fn spells(&self, text: &str) -> bool
        ensures { result ≡ spec.spells self.now text.now }
    {
        match self {
            Field::Word(word) => word.as_str() == text,
            _ => false,
        }
    }
}
