//! The declarations of units, as `settle` takes them.

ghost use Rattle.std.specs.Prelude.{◌≡◌, ◌<◌, [], ◌∷◌, ◌++◌, length, OnErr, OnOk};
ghost use Rattle.cas_settle.specs.Roster.{add_to_last};

use cas_base::{Decl, NoMemory};
use std::alloc::Global;
use std::marker::Model;

/// The declarations of one unit. Contracts see them as a list.
#[derive(Debug, Drop)]
pub(crate) struct Decls {
    items: Vec<Decl>,
}

impl Model for Decls {
    ghost use Rattle.std.specs.Prelude.{List};
    ghost use Rattle.cas_base.specs.declared.decl.Decl.{Decl};

    ghost Value = { List Decl };

    ghost view = { λ d. d.items.items };
}

impl Decls {
    fn new(alloc: Global) -> Decls
        ensures { result ≡ [] }
    {
        Decls {
            items: Vec::new(alloc),
        }
    }

    fn push(&mut self, decl: Decl) -> Result<(), NoMemory>
        ensures added { OnOk result (self.new ≡ self.old ++ decl ∷ []) }
        ensures err { OnErr result (self.new ≡ self.old) }
    {
        self.items.push(decl)?;
        Ok(())
    }

    pub(crate) fn as_slice(&self) -> &[Decl]
        ensures { result.now ≡ self.now }
    {
        &self.items
    }
}

/// The declarations of several units, in order. Contracts see them as a list of units, each a list of
/// declarations.
#[derive(Debug, Drop)]
pub struct Roster {
    alloc: Global,
    units: Vec<Decls>,
}

impl Model for Roster {
    ghost use Rattle.std.specs.Prelude.{List};
    ghost use Rattle.cas_base.specs.declared.decl.Decl.{Decl};

    ghost Value = { List (List Decl) };

    ghost view = { λ r. r.units.items };
}

impl Roster {
    /// A roster without units, which takes its memory from `alloc`.
    pub fn new(alloc: Global) -> Roster
        ensures { result ≡ [] }
    {
        Roster {
            alloc,
            units: Vec::new(alloc),
        }
    }

    /// One more unit, without declarations, at the end.
    pub fn unit(&mut self) -> Result<(), NoMemory>
        ensures added { OnOk result (self.new ≡ self.old ++ [] ∷ []) }
        ensures err { OnErr result (self.new ≡ self.old) }
    {
        let decls = Decls::new(self.alloc);
        self.units.push(decls)?;
        Ok(())
    }

    /// A copy of the declaration at the end of the last unit.
    pub fn add(&mut self, decl: &Decl) -> Result<(), NoMemory>
        requires { 0 < length self.old }
        ensures added { OnOk result (self.new ≡ add_to_last self.old decl.now) }
        ensures count { length self.new ≡ length self.old }
        ensures err { OnErr result (self.new ≡ self.old) }
    {
        let copied = decl.copy(self.alloc)?;
        let last = self.units.len() - 1;
        self.units[last].push(copied)
    }

    pub(crate) fn units(&self) -> &[Decls]
        ensures { result.now ≡ self.now }
    {
        &self.units
    }
}
