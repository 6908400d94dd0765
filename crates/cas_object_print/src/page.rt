//! The page that a text is written on.

ghost use Rattle.std.specs.Prelude.{◌≡◌, ◌++◌, ℕ, IfOk, List, codes, string_bytes};
ghost use Rattle.std.specs.Fmt.{decimal, signed_decimal};
ghost use Rattle.cas_object_print.specs.Page.{followed_by, integer};

use cas_base::NoMemory;
use std::alloc::Global;
use std::fmt::Write;
use std::marker::Model;

/// What is written of a text. Contracts see it as its bytes.
#[derive(Debug, Drop)]
pub struct Page {
    text: String,
}

impl Model for Page {
    ghost use Rattle.std.specs.Prelude.{List, ℕ, string_bytes};

    ghost Value = { List ℕ };

    ghost view = { λ p. string_bytes p.text };
}

impl Page {
    /// An empty page.
    pub fn new(alloc: Global) -> Self
        ensures { result ≡ codes "" }
    {
        Page {
            text: String::new(alloc),
        }
    }

    /// The text that is written.
    pub fn into_string(self) -> String
        ensures { string_bytes result ≡ self }
    {
        let Page { text } = self;
        text
    }

    /// Writes a text.
    #[tactic(auto, using(crate::proofs::Pages::text_written))]
    pub fn text(&mut self, text: &str) -> Result<(), NoMemory>
        ensures { (rest : List ℕ)
            → IfOk result (λ _. followed_by self.new rest ≡ followed_by self.old (text.now ++ rest)) }
    {
        self.put(text)
    }

    /// Writes a number in decimal.
    #[tactic(auto, using(crate::proofs::Pages::text_written))]
    pub fn number(&mut self, value: u32) -> Result<(), NoMemory>
        ensures { (rest : List ℕ)
            → IfOk result (λ _. followed_by self.new rest ≡ followed_by self.old (decimal value ++ rest)) }
    {
        self.put_number(value)
    }

    /// Writes an integer in decimal.
    #[tactic(auto, using(crate::proofs::Pages::integer_written))]
    pub fn integer(&mut self, value: &i32) -> Result<(), NoMemory>
        ensures { (rest : List ℕ)
            → IfOk result (λ _. followed_by self.new rest ≡ followed_by self.old (integer value.now rest)) }
    {
        self.put_integer(value)
    }

    fn put(&mut self, text: &str) -> Result<(), NoMemory>
        ensures { IfOk result (λ _. self.new ≡ self.old ++ text.now) }
    {
        self.text.push_str(text)?;
        Ok(())
    }

    fn put_number(&mut self, value: u32) -> Result<(), NoMemory>
        ensures { IfOk result (λ _. self.new ≡ self.old ++ decimal value) }
    {
        write!(self.text, "{value}")?;
        Ok(())
    }

    fn put_integer(&mut self, value: &i32) -> Result<(), NoMemory>
        ensures { IfOk result (λ _. self.new ≡ self.old ++ signed_decimal value.now) }
    {
        let value = *value;
        write!(self.text, "{value}")?;
        Ok(())
    }
}
