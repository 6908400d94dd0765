//! Which piece is which.

ghost use Rattle.std.specs.Prelude.{◌≡◌};
ghost use Rattle.cas_pieces.specs.Marks as spec;

use crate::piece::{Mark, Piece};

impl<'a> Piece<'a> {
    /// Whether it is this mark.
    pub fn is_mark(&self, mark: Mark) -> bool
        ensures { result ≡ spec.is_mark self.now mark }
    {
        match self {
            Piece::Word(_) => false,
            Piece::Mark(found) => *found == mark,
        }
    }

    /// Whether it is this word.
    pub fn spells(&self, text: &str) -> bool
        ensures { result ≡ spec.spells self.now text.now }
    {
        match self {
            Piece::Word(word) => word.as_str() == text,
            Piece::Mark(_) => false,
        }
    }

    /// The same piece.
    pub fn again(&self) -> Piece<'a>
        ensures { result ≡ self.now }
    {
        match self {
            Piece::Word(word) => Piece::Word(word.again()),
            Piece::Mark(mark) => Piece::Mark(*mark),
        }
    }
}
