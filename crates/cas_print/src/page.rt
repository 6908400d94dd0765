//! The page that a canonical text is written on.

ghost use Rattle.std.specs.Prelude.{◌≡◌, ◌∷◌, ◌++◌, IfOk, List, codes, string_bytes};
ghost use Rattle.std.specs.Fmt.{decimal};
ghost use Rattle.cas_print.specs.Page.{followed_by};
ghost use Rattle.cas_print.specs.Pieces as pieces;

use cas_base::{Kind, Name, NoMemory};
use cas_lex::{Sign, Word};
use std::alloc::Global;
use std::fmt::Write;
use std::marker::Model;

/// What is written of a canonical text. Contracts see it as its bytes.
#[derive(Debug, Drop)]
pub struct Page {
    text: String,
}

impl Model for Page {
    ghost use Rattle.std.specs.Prelude.{List, ℕ, string_bytes};

    ghost Value = { List ℕ };

    ghost view = { λ p. string_bytes p.text };
}

impl Page {
    /// An empty page.
    pub fn new(alloc: Global) -> Self
        ensures { result ≡ codes "" }
    {
        Page {
            text: String::new(alloc),
        }
    }

    /// The text that is written.
    pub fn into_string(self) -> String
        ensures { string_bytes result ≡ self }
    {
        let Page { text } = self;
        text
    }

    /// Writes a word.
    #[tactic(auto, using(crate::proofs::Pages::word_written))]
    pub fn word(&mut self, word: Word) -> Result<(), NoMemory>
        ensures { (rest : List pieces.Piece)
            → IfOk result (λ _. followed_by self.new rest ≡ followed_by self.old (pieces.word word ∷ rest)) }
    {
        self.spelt(word.as_str(), " ")
    }

    /// Writes a sign.
    #[tactic(auto, using(crate::proofs::Pages::sign_written))]
    pub fn sign(&mut self, sign: Sign) -> Result<(), NoMemory>
        ensures { (rest : List pieces.Piece)
            → IfOk result (λ _. followed_by self.new rest ≡ followed_by self.old (pieces.sign sign ∷ rest)) }
    {
        self.spelt(sign.as_str(), " ")
    }

    /// Writes a sign that ends its line.
    #[tactic(auto, using(crate::proofs::Pages::line_written))]
    pub fn end_of_line(&mut self, sign: Sign) -> Result<(), NoMemory>
        ensures { (rest : List pieces.Piece)
            → IfOk result (λ _. followed_by self.new rest ≡ followed_by self.old (pieces.end_of_line sign ∷ rest)) }
    {
        self.spelt(sign.as_str(), "\n")
    }

    /// Writes a name.
    #[tactic(auto, using(crate::proofs::Pages::name_written))]
    pub fn name(&mut self, name: &Name) -> Result<(), NoMemory>
        ensures { (rest : List pieces.Piece)
            → IfOk result (λ _. followed_by self.new rest ≡ followed_by self.old (pieces.named name.now ∷ rest)) }
    {
        self.spelt(name.as_str(), " ")
    }

    /// Writes a literal of an expression.
    #[tactic(auto, using(crate::proofs::Pages::number_written))]
    pub fn number(&mut self, value: u32, kind: Kind) -> Result<(), NoMemory>
        ensures { (rest : List pieces.Piece)
            → IfOk result (λ _. followed_by self.new rest ≡ followed_by self.old (pieces.number value kind ∷ rest)) }
    {
        self.digits(value, behind_number(kind))
    }

    /// Writes a length, or the digits of an initial value.
    #[tactic(auto, using(crate::proofs::Pages::plain_number_written))]
    pub fn plain_number(&mut self, value: u32) -> Result<(), NoMemory>
        ensures { (rest : List pieces.Piece)
            → IfOk result (λ _. followed_by self.new rest ≡ followed_by self.old (pieces.plain_number value ∷ rest)) }
    {
        self.digits(value, " ")
    }

    // Writes a token that is spelt so, and what follows it.
    fn spelt(&mut self, spelling: &str, behind: &str) -> Result<(), NoMemory>
        ensures { IfOk result (λ _. self.new ≡ self.old ++ (spelling.now ++ behind.now)) }
    {
        self.text.push_str(spelling)?;
        self.text.push_str(behind)?;
        Ok(())
    }

    // Writes a number in decimal, and what follows it.
    fn digits(&mut self, value: u32, behind: &str) -> Result<(), NoMemory>
        ensures { IfOk result (λ _. self.new ≡ self.old ++ (decimal value ++ behind.now)) }
    {
        write!(self.text, "{value}{behind}")?;
        Ok(())
    }
}

// What follows the digits of a literal of this kind.
fn behind_number(kind: Kind) -> &'static str
    ensures { result.now ≡ pieces.suffix kind ++ codes " " }
{
    match kind {
        Kind::U32 => "u ",
        _ => " ",
    }
}
