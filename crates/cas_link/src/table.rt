//! Numbers found by names, and by numbers. The first row with a key is the one that is found.

ghost use Rattle.std.specs.Prelude.{◌≡◌, [], ◌∷◌, ◌++◌, OnOk, is_some};
ghost use Rattle.cas_link.specs.Rows.{FindSame, FindSameNumber, found, found_number};

use cas_base::{Name, NoMemory};
use indexmap::IndexMap;
use std::alloc::Global;
use std::marker::Model;

/// Numbers found by names. Contracts see the rows.
#[derive(Drop)]
pub(crate) struct Symbols<'a> {
    table: IndexMap<&'a str, u32>,
}

impl<'a> Model for Symbols<'a> {
    ghost use Rattle.std.specs.Prelude.{List, ℕ, map};

    ghost Value = { List (List ℕ × ℕ) };

    ghost view = { λ s. map (λ entry. (entry.0.now, entry.1)) s.table.entries };
}

impl<'a> Symbols<'a> {
    /// No rows.
    pub fn new(alloc: Global) -> Symbols<'a>
        ensures { result ≡ [] }
    {
        Symbols {
            table: IndexMap::new(alloc),
        }
    }

    /// One row more.
    pub fn add(&mut self, name: &'a Name, number: u32) -> Result<(), NoMemory>
        ensures { OnOk result (FindSame self.new (self.old ++ (name.now, number) ∷ [])) }
    {
        let text = name.as_str();
        if self.has(text) {
            return Ok(());
        }
        self.push(text, number)
    }

    // A row with a name that no row has.
    fn push(&mut self, name: &'a str, number: u32) -> Result<(), NoMemory>
        requires { found self.old name.now ≡ None }
        ensures { OnOk result (self.new ≡ self.old ++ (name.now, number) ∷ []) }
    {
        self.table.insert(name, number)?;
        Ok(())
    }

    /// Whether there is a row with the name.
    pub fn has(&self, name: &str) -> bool
        ensures { result ≡ is_some (found self.now name.now) }
    {
        self.find(name).is_some()
    }

    /// The number in the first row with the name.
    pub fn find(&self, name: &str) -> Option<u32>
        ensures { result ≡ found self.now name.now }
    {
        self.table.get(name).copied()
    }
}

/// Numbers found by numbers. Contracts see the rows.
#[derive(Drop)]
pub(crate) struct Labels {
    table: IndexMap<u32, u32>,
}

impl Model for Labels {
    ghost use Rattle.std.specs.Prelude.{List, ℕ};

    ghost Value = { List (ℕ × ℕ) };

    ghost view = { λ s. s.table.entries };
}

impl Labels {
    /// No rows.
    pub fn new(alloc: Global) -> Labels
        ensures { result ≡ [] }
    {
        Labels {
            table: IndexMap::new(alloc),
        }
    }

    /// One row more.
    pub fn add(&mut self, label: u32, place: u32) -> Result<(), NoMemory>
        ensures { OnOk result (FindSameNumber self.new (self.old ++ (label, place) ∷ [])) }
    {
        if self.find(label).is_some() {
            return Ok(());
        }
        self.push(label, place)
    }

    // A row with a number that no row has.
    fn push(&mut self, label: u32, place: u32) -> Result<(), NoMemory>
        requires { found_number self.old label ≡ None }
        ensures { OnOk result (self.new ≡ self.old ++ (label, place) ∷ []) }
    {
        self.table.insert(label, place)?;
        Ok(())
    }

    /// The place in the first row with the label.
    pub fn find(&self, label: u32) -> Option<u32>
        ensures { result ≡ found_number self.now label }
    {
        self.table.get(&label).copied()
    }
}
