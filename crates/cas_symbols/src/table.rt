//! The symbol table of a module.

ghost use Rattle.std.specs.Prelude.{OnErr, OnOk, Some, length, map, ◌++◌, ◌∷◌, ◌≡◌, []};
ghost use Rattle.std.specs.List.{list_any};
ghost use Rattle.cas_base.specs.Decl.{definitions, is_named};
ghost use Rattle.cas_symbols.specs.Meanings.{is_defined, symbol_meaning};
ghost use Rattle.cas_typed.specs.Scopes.{item_named};

use cas_base::{Decl, Form, Name, NoMemory};
use indexmap::IndexMap;
use std::alloc::Global;
use std::marker::Model;

/// What a module declares by a name.
#[derive(Clone, Copy)]
pub struct Symbol<'a> {
    /// The number of the first item of the name.
    pub number: u32,
    /// What that item declares.
    pub form: &'a Form,
    /// Whether an item defines the name.
    pub defined: bool,
}

/// The symbol table of a module, or of its items up to a place. Contracts see it as the list of declarations.
#[derive(Drop)]
pub struct Symbols<'a> {
    decls: Vec<&'a Decl>,
    table: IndexMap<&'a str, Symbol<'a>>,
}

impl<'a> Model for Symbols<'a> {
    ghost use Rattle.std.specs.Prelude.{List, map, length, ◌<◌, ◌^◌};
    ghost use Rattle.cas_base.specs.declared.decl.Decl.{Decl};
    ghost use Rattle.cas_symbols.specs.Meanings.{IsIndex};

    ghost Value = { List Decl };

    ghost view = { λ s. map (λ decl. decl.now) s.decls.items };

    ghost invariant = { λ s. (length s.decls.items < 2 ^ 32) ×
        IsIndex (map (λ decl. decl.now) s.decls.items) s.table.entries };
}

impl<'a> Symbols<'a> {
    /// An empty table.
    pub fn new(alloc: Global) -> Symbols<'a>
        ensures { result ≡ [] }
    {
        Symbols {
            decls: Vec::new(alloc),
            table: IndexMap::new(alloc),
        }
    }

    /// The number of declarations.
    pub fn len(&self) -> u32
        ensures { result ≡ length self.now }
    {
        self.decls.len() as u32
    }

    /// The declarations, in order of text.
    pub fn decls(&self) -> &[&'a Decl]
        ensures { map (λ decl. decl.now) result.now ≡ self.now }
    {
        &self.decls
    }

    /// What is declared by a name, if anything is.
    pub fn get(&self, name: &str) -> Option<Symbol<'a>>
        ensures meaning { symbol_meaning result ≡ item_named 0 self.now name.now }
        ensures defined { is_defined result ≡ list_any (is_named name.now) (definitions self.now) }
    {
        self.table.get(name).copied()
    }

    // What is declared by a declaration's name after that declaration.
    fn get_with(&self, decl: &'a Decl) -> Symbol<'a>
        ensures meaning { symbol_meaning (Some result) ≡ item_named 0 (self.now ++ decl.now ∷ []) decl.now.name }
        ensures defined { is_defined (Some result) ≡ list_any (is_named decl.now.name)
            (definitions (self.now ++ decl.now ∷ [])) }
    {
        match self.get(decl.name.as_str()) {
            Some(first) => Symbol {
                number: first.number,
                form: first.form,
                defined: first.defined || decl.defined,
            },
            None => Symbol {
                number: self.len(),
                form: &decl.form,
                defined: decl.defined,
            },
        }
    }

    /// Adds a declaration. If it runs out of memory, or has `u32::MAX` declarations, the table stays as it is.
    pub fn declare(&mut self, decl: &'a Decl) -> Result<(), NoMemory>
        ensures added { OnOk result (self.new ≡ self.old ++ decl.now ∷ []) }
        ensures kept { OnErr result (self.new ≡ self.old) }
    {
        if self.len() == u32::MAX {
            return Err(NoMemory);
        }
        let symbol = self.get_with(decl);
        self.decls.push(decl)?;
        match self.table.insert(decl.name.as_str(), symbol) {
            Ok(_) => Ok(()),
            Err(_) => {
                self.decls.pop();
                Err(NoMemory)
            }
        }
    }

    /// Whether a name is declared.
    pub fn is_declared(&self, name: &Name) -> bool
        ensures { result ≡ list_any (is_named name.now) self.now }
    {
        self.get(name.as_str()).is_some()
    }

    /// Whether a name is defined.
    pub fn is_defined(&self, name: &Name) -> bool
        ensures { result ≡ list_any (is_named name.now) (definitions self.now) }
    {
        match self.get(name.as_str()) {
            Some(symbol) => symbol.defined,
            None => false,
        }
    }
}
