//! Pieces of a line.

ghost use Rattle.std.specs.Prelude.{◌≡◌, IsTrue};
ghost use Rattle.cas_pieces.specs.Words as spec;

use std::marker::Model;

/// A word: letters, digits and `_`, at least one of them. Contracts see it as its bytes. It borrows the line.
#[derive(Debug, Drop)]
pub struct Word<'a> {
    text: &'a str,
}

impl<'a> Model for Word<'a> {
    ghost use Rattle.std.specs.Prelude.{List, ℕ, IsTrue};
    ghost use Rattle.cas_pieces.specs.Words.{is_word};

    ghost Value = { List ℕ };

    ghost view = { λ w. w.text.now };

    ghost invariant = { λ w. IsTrue (is_word w.text.now) };
}

/// What isn't a word: each other byte.
#[derive(Clone, Copy, Debug, PartialEq, Eq)]
pub enum Mark {
    /// A space.
    Space,
    /// `,`
    Comma,
    /// `:`
    Colon,
    /// `;`
    Semicolon,
    /// `@`
    At,
    /// `.`
    Dot,
    /// `+`
    Plus,
    /// `-`
    Minus,
    /// `*`
    Star,
    /// `[`
    Open,
    /// `]`
    Close,
    /// A byte that is none of these, and none of a word.
    Other(u8),
}

/// A piece of a line.
#[derive(Debug, Drop)]
pub enum Piece<'a> {
    /// A word, as long as it goes.
    Word(Word<'a>),
    /// A byte that is none of a word.
    Mark(Mark),
}

impl<'a> Word<'a> {
    /// The word with this text.
    pub fn of(text: &'a str) -> Word<'a>
        requires { IsTrue (spec.is_word text.now) }
        ensures { result ≡ text.now }
    {
        Word { text }
    }

    /// The word's text.
    pub fn as_str(&self) -> &'a str
        ensures text { result.now ≡ self.now }
        ensures word { IsTrue (spec.is_word self.now) }
    {
        self.text
    }

    /// The same word.
    pub fn again(&self) -> Word<'a>
        ensures { result ≡ self.now }
    {
        Word { text: self.text }
    }
}
