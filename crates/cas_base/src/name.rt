//! Names of the source language.

ghost use Rattle.std.specs.Prelude.{◌≡◌, ◌↔◌, IfOk, OnOk, IsErrOf, IsTrue, false};
ghost use Rattle.std.specs.List.{list_all};
ghost use Rattle.cas_base.specs.Name.{is_name, is_first_byte, is_name_byte};
ghost use Rattle.cas_base.specs.declared.name.NameFault.TheVariants.{Memory};

use crate::memory::NoMemory;
use std::alloc::{AllocError, Global};
use std::marker::Model;

/// The most bytes that a name has.
pub const NAME_LIMIT: usize = 63;

/// A name of the source language: a letter or `_`, then letters, digits and `_`, of at most 63 bytes in
/// all. Contracts see it as its bytes.
#[derive(Debug, Drop)]
pub struct Name {
    text: String,
}

impl Model for Name {
    ghost use Rattle.std.specs.Prelude.{List, ℕ, IsTrue, string_bytes};
    ghost use Rattle.cas_base.specs.Name.{is_name};

    ghost Value = { List ℕ };

    ghost view = { λ n. string_bytes n.text };

    ghost invariant = { λ n. IsTrue (is_name (string_bytes n.text)) };
}

/// Why a text gives no name.
#[derive(Clone, Copy, Debug, PartialEq, Eq, Hash)]
pub enum NameFault {
    /// The text isn't of a name's shape, or is longer than 63 bytes.
    Shape,
    /// It ran out of memory.
    Memory,
}

impl From<AllocError> for NameFault {
    ghost from_gives = { λ _ fault. fault ≡ Memory };

    fn from(_error: AllocError) -> Self {
        NameFault::Memory
    }
}

impl Name {
    /// Whether a text has the shape of a name, and no more than a name's bytes.
    pub fn has_shape(text: &str) -> bool
        ensures { result ≡ is_name text.now }
    {
        has_name_shape(text.as_bytes())
    }

    /// The name with this text.
    ///
    /// Errors: `Shape` exactly if the text is no name; `Memory`.
    pub fn new(alloc: Global, text: &str) -> Result<Name, NameFault>
        ensures named { IfOk result (λ name. name ≡ text.now) }
        ensures shaped { OnOk result (IsTrue (is_name text.now)) }
        ensures misshapen { IsErrOf result NameFault.Shape ↔ (is_name text.now ≡ false) }
    {
        if !Name::has_shape(text) {
            return Err(NameFault::Shape);
        }
        let text = String::from_str(alloc, text)?;
        Ok(Name { text })
    }

    /// Another name with the same text.
    pub fn copy(&self, alloc: Global) -> Result<Name, NoMemory>
        ensures { IfOk result (λ name. name ≡ self.now) }
    {
        let text = String::from_str(alloc, self.text.as_str())?;
        Ok(Name { text })
    }

    /// The name's text.
    pub fn as_str(&self) -> &str
        ensures text { result.now ≡ self.now }
        ensures shaped { IsTrue (is_name result.now) }
    {
        self.text.as_str()
    }
}

// Whether these are the bytes of a name.
fn has_name_shape(bytes: &[u8]) -> bool
    ensures { result ≡ is_name bytes.now }
{
    match bytes {
        [first, rest @ ..] => bytes.len() <= NAME_LIMIT && begins_name(*first) && goes_on(rest),
        [] => false,
    }
}

// Whether a name may begin with this byte.
fn begins_name(byte: u8) -> bool
    ensures { result ≡ is_first_byte byte }
{
    byte.is_ascii_alphabetic() || byte == b'_'
}

// Whether a name may go on with these bytes.
fn goes_on(bytes: &[u8]) -> bool
    ensures { result ≡ list_all is_name_byte bytes.now }
{
    bytes
        .iter()
        .all(|byte| byte.is_ascii_alphanumeric() || *byte == b'_')
}
