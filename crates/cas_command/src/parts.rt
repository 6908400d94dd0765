//! Words apart: names, and options with their values.

ghost use Rattle.std.specs.Prelude.{◌≡◌, ℕ, ◌<◌, List, [], ◌∷◌, ◌++◌, None, IfOk, OnOk, false, map, codes};
ghost use Rattle.std.specs.Option.{option_map};
ghost use Rattle.std.specs.Str.{bytes_eq};
ghost use Rattle.cas_command.specs.Words.{cut_at, has_dash, parts_of};
ghost use Rattle.cas_command.specs.Parts.{followed_by, given_view, text_of, texts};

use cas_base::{NoMemory, Text};
use std::alloc::Global;
use std::marker::Model;

/// An option as it is written, with its dashes, and its value.
#[derive(Clone, Copy)]
pub(crate) struct Given<'a> {
    pub(crate) option: &'a str,
    pub(crate) value: &'a str,
}

/// Words apart. Contracts see them as the lists of names and options.
#[derive(Drop)]
pub(crate) struct Parts<'a> {
    names: Vec<&'a str>,
    options: Vec<Given<'a>>,
}

impl<'a> Model for Parts<'a> {
    ghost use Rattle.std.specs.Prelude.{map};
    ghost use Rattle.cas_command.specs.Words.{Parts};
    ghost use Rattle.cas_command.specs.Parts.{given_view, texts};

    ghost Value = { Parts };

    ghost view = { λ p. record { names = texts p.names.items; options = map given_view p.options.items } };
}

impl<'a> Parts<'a> {
    fn new(alloc: Global) -> Parts<'a>
        ensures { result ≡ record { names = []; options = [] } }
    {
        Parts {
            names: Vec::new(alloc),
            options: Vec::new(alloc),
        }
    }

    pub(crate) fn names(&self) -> &[&'a str]
        ensures { texts result.now ≡ self.now.names }
    {
        &self.names
    }

    pub(crate) fn into_names(self) -> Vec<&'a str>
        ensures { texts result.items ≡ self.entry.names }
    {
        let Parts { names, options: _ } = self;
        names
    }

    pub(crate) fn options(&self) -> &[Given<'a>]
        ensures { map given_view result.now ≡ self.now.options }
    {
        &self.options
    }

    fn add_name(&mut self, name: &'a str) -> Result<(), NoMemory>
        ensures { OnOk result (self.new ≡ record
            { names = self.old.names ++ name.entry.now ∷ []; options = self.old.options }) }
    {
        self.names.push(name)?;
        Ok(())
    }

    fn add_names(&mut self, words: &'a [Text]) -> Result<(), NoMemory>
        ensures { OnOk result (self.new ≡ record
            { names = self.old.names ++ words.entry.now; options = self.old.options }) }
    {
        for word in words {
            self.add_name(word.as_str())?;
        }
        Ok(())
    }

    fn add_option(&mut self, option: &'a str, value: &'a str) -> Result<(), NoMemory>
        ensures { OnOk result (self.new ≡ record {
          names = self.old.names;
          options = self.old.options ++ record
              { option = option.entry.now; value = value.entry.now } ∷ [];
        }) }
    {
        self.options.push(Given { option, value })?;
        Ok(())
    }

    // One more word, which isn't `--`: the option that waits for a value after it, if one does.
    #[tactic(auto, using(crate::proofs::Gathering::step_name, crate::proofs::Gathering::step_option, crate::proofs::Gathering::step_waiting))]
    fn add_word(&mut self, word: &'a str) -> Result<Option<&'a str>, NoMemory>
        requires { bytes_eq word.now (codes "--") ≡ false }
        ensures { IfOk result (λ waiting. (words : List (List ℕ)) →
            followed_by self.new (parts_of (text_of waiting) words)
            ≡ followed_by self.old (parts_of None (word.entry.now ∷ words))) }
    {
        if !has_dash(word) {
            self.add_name(word)?;
            return Ok(None);
        }
        match cut_at(word, '=') {
            Some((option, value)) => {
                self.add_option(option, value)?;
                Ok(None)
            }
            None => Ok(Some(word)),
        }
    }
}

/// The words apart, if they can be: an option without its value is at the end of none.
#[tactic(auto, using(crate::proofs::Gathering::step_value, crate::proofs::Gathering::step_dashes, crate::proofs::Gathering::followed_by_nothing))]
pub(crate) fn parts_of(alloc: Global, words: &[Text]) -> Result<Option<Parts<'_>>, NoMemory>
    ensures { IfOk result (λ parts. parts ≡ parts_of None words.entry.now) }
{
    let mut parts = Parts::new(alloc);
    let mut waiting: Option<&str> = None;
    let mut rest = words;
    'each: while let Some((word, others)) = rest.split_first() {
        let word = word.as_str();
        match waiting {
            Some(option) => {
                if has_dash(word) {
                    return Ok(None);
                }
                parts.add_option(option, word)?;
                waiting = None;
            }
            None => {
                if word == "--" {
                    parts.add_names(others)?;
                    return Ok(Some(parts));
                }
                waiting = parts.add_word(word)?;
            }
        }
        rest = others;
    }
    match waiting {
        Some(_) => Ok(None),
        None => Ok(Some(parts)),
    }
}

/// Whether a word begins with `-`.
pub(crate) fn has_dash(word: &str) -> bool
    ensures { result ≡ has_dash word.now }
{
    match word.as_bytes() {
        [first, ..] => *first == b'-',
        [] => false,
    }
}

/// What is before the first such character of a text and what is after it, if it is there. The character is
/// of one byte.
pub(crate) fn cut_at(text: &str, character: char) -> Option<(&str, &str)>
    requires { character < 128 }
    ensures { option_map (λ cut. (cut.0.now, cut.1.now)) result ≡ cut_at character text.entry.now }
{
    text.split_once(character)
}
