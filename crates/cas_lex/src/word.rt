//! The table of the words of the language and of the words that are left out.

ghost use Rattle.std.specs.Prelude.{◌≡◌, ◌↔◌, slice_get, MatchOption, ℕ};
ghost use Rattle.cas_base.specs.Names.{IsRow};
ghost use Rattle.cas_lex.specs.Spellings.{reserved, words};

use crate::token::Word;
use cas_base::{Names, cases};

const ROW_COUNT: usize = 40;

const ROWS: &str =
    "void char short int unsigned signed const extern if else while do for break continue return lock unlock shared holds print float double long struct union enum typedef goto switch case default sizeof static volatile register auto inline restrict trylock";

// The bytes of the shortest row and of the longest.
const SHORTEST: usize = 2;

const LONGEST: usize = 8;

/// The words of the language, and then those that are left out.
#[derive(Debug, Drop)]
pub struct WordTable {
    names: Names<'static, ROW_COUNT>,
    ghost rows: { names ≡ reserved },
}

impl WordTable {
    /// The table.
    pub fn new() -> WordTable {
        match Names::new(ROWS) {
            Some(names) => WordTable { names },
            None => unreachable!(),
        }
    }

    /// The row with this text.
    pub fn find(&self, text: &str) -> Option<usize>
        ensures { MatchOption result ((k : ℕ) → ¬ (IsRow reserved k text.now)) (λ k. IsRow reserved k text.now) }
    {
        if text.len() < SHORTEST || LONGEST < text.len() {
            return None;
        }
        self.names.find(text)
    }
}

/// The word with this row, or none if the row is left out.
pub fn word_at(row: usize) -> Option<Word>
    ensures { result ≡ slice_get words row }
{
    cases!(case_at row;
        0 => Word::Void,
        1 => Word::Char,
        2 => Word::Short,
        3 => Word::Int,
        4 => Word::Unsigned,
        5 => Word::Signed,
        6 => Word::Const,
        7 => Word::Extern,
        8 => Word::If,
        9 => Word::Else,
        10 => Word::While,
        11 => Word::Do,
        12 => Word::For,
        13 => Word::Break,
        14 => Word::Continue,
        15 => Word::Return,
        16 => Word::Lock,
        17 => Word::Unlock,
        18 => Word::Shared,
        19 => Word::Holds,
        20 => Word::Print,
    )
}
