//! The definitions of several units, found by their names: the table from which the units are settled. Its
//! clauses speak of the list of definitions with their places.
ghost use Rattle.std.specs.Prelude.{◌≡◌, ◌+◌, ◌-◌, ◌^◌, ◌<◌, [], ◌∷◌, ◌++◌, false, min, map, length, All, OnOk, IfOk, IfSome, None, Some, if◌then◌else◌};
ghost use Rattle.std.specs.List.{cons_option, list_any};
ghost use Rattle.std.specs.Option.{option_and_then, option_map};
ghost use Rattle.std.specs.Str.{bytes_eq};
ghost use Rattle.cas_settle.specs.declared.link.LinkFault.TheVariants.{Twice};
ghost use Rattle.cas_base.specs.Decl.{definitions, definition_of, functions_of, guard_of, is_lock};
ghost use Rattle.cas_settle.specs.Settle.{all_decls, cell_of, first_repeated, locks_of, names_of, twice_fault, words_of};
ghost use Rattle.cas_settle.specs.Located.{cells_in, decls_in, located, located_from, located_in, location_of, lock_word_in, names_in};
ghost use Rattle.cas_settle.specs.Refusal.{IsRefusedBy};

use crate::link::{CellRow, LinkFault};
use crate::roster::Roster;
use cas_base::{Decl, Form, Name, NoMemory, Seq};
use indexmap::IndexMap;
use std::alloc::Global;
use std::marker::Model;

/// A definition with its places in the program.
#[derive(Debug, Drop)]
pub(crate) struct Definition<'a> {
    pub decl: &'a Decl,
    /// The number of its unit.
    pub unit: u32,
    /// How many functions its unit defines before it.
    pub place: u32,
    /// How many words the definitions before it have, at most the greatest `u32`.
    pub word: u32,
}

/// The definitions of units in order, found by their names. Contracts see them as the list of definitions
/// with their places.
#[derive(Drop)]
pub(crate) struct Definitions<'a> {
    table: IndexMap<&'a str, Definition<'a>>,
    words: u64,
    locks: u64,
}

impl<'a> Model for Definitions<'a> {
    ghost use Rattle.std.specs.Prelude.{◌≡◌, ◌-◌, ◌^◌, List, map, min};
    ghost use Rattle.cas_settle.specs.Located.{IsKeyed, Located, decls_in, located};
    ghost use Rattle.cas_settle.specs.Settle.{locks_of, words_of};

    ghost Value = { List Located };

    ghost view = { λ d. map (λ entry. located entry.1) d.table.entries };

    ghost invariant = { λ d. record {
      keyed : IsKeyed d.table.entries;
      words : d.words ≡ min (words_of (decls_in (map (λ entry. located entry.1) d.table.entries))) (2 ^ 64 - 1);
      locks : d.locks ≡ min (locks_of (decls_in (map (λ entry. located entry.1) d.table.entries))) (2 ^ 64 - 1);
    } };
}

impl<'a> Definitions<'a> {
    /// The definitions of the units. Refused if a name is defined twice.
    pub fn of(alloc: Global, units: &'a Roster) -> Result<Definitions<'a>, LinkFault>
        requires few_units { length units.now < 2 ^ 32 }
        requires few_functions { All (λ unit. length (functions_of unit) < 2 ^ 32) units.now }
        ensures found { IfOk result (λ found. found ≡ located_from 0 0 units.now) }
        ensures refused { IsRefusedBy result (twice_fault (definitions (all_decls units.now))) }
    {
        let mut found = Definitions::new(alloc);
        for (unit, decls) in units.units().iter().enumerate() {
            found.add_unit(alloc, decls.as_slice(), unit as u32)?;
        }
        Ok(found)
    }

    fn new(alloc: Global) -> Definitions<'a>
        ensures { result ≡ [] }
    {
        Definitions {
            table: IndexMap::new(alloc),
            words: 0,
            locks: 0,
        }
    }

    // Adds the definitions of a unit.
    fn add_unit(&mut self, alloc: Global, decls: &'a [Decl], unit: u32) -> Result<(), LinkFault>
        requires { length (functions_of decls.now) < 2 ^ 32 }
        ensures added { OnOk result (self.new
            ≡ self.old ++ located_in unit 0 (words_of (decls_in self.old)) decls.now) }
        ensures refused { IsRefusedBy result
            (option_map Twice (first_repeated (names_in self.old) (names_of (definitions decls.now)))) }
    {
        let mut place = 0;
        for decl in decls {
            place = self.add_decl(alloc, decl, unit, place)?;
        }
        Ok(())
    }

    // Adds a declaration of a unit that defines `place` functions before it, if it is a definition; and how
    // many functions are defined then.
    fn add_decl(
        &mut self,
        alloc: Global,
        decl: &'a Decl,
        unit: u32,
        place: u32,
    ) -> Result<u32, LinkFault>
        requires { place + length (functions_of (decl.now ∷ [])) < 2 ^ 32 }
        ensures added { OnOk result (self.new
            ≡ self.old ++ located_in unit place (words_of (decls_in self.old)) (decl.now ∷ [])) }
        ensures next { IfOk result (λ next. next ≡ place + length (functions_of (decl.now ∷ []))) }
        ensures refused { IsRefusedBy result
            (option_map Twice (first_repeated (names_in self.old) (names_of (definitions (decl.now ∷ []))))) }
    {
        if !decl.defined {
            return Ok(place);
        }
        self.add(alloc, decl, unit, place)?;
        if decl.form.is_function() {
            Ok(place + 1)
        } else {
            Ok(place)
        }
    }

    // Adds a definition.
    fn add(&mut self, alloc: Global, decl: &'a Decl, unit: u32, place: u32) -> Result<(), LinkFault>
        ensures added { OnOk result (self.new
            ≡ self.old ++ record {
              decl = decl.now;
              unit = unit;
              place = place;
              word = min (words_of (decls_in self.old)) (2 ^ 32 - 1);
            } ∷ []) }
        ensures refused { IsRefusedBy result (if list_any (bytes_eq decl.now.name) (names_in self.old)
            then Some (Twice decl.now.name) else None) }
    {
        if self.contains(decl.name.as_str()) {
            return Err(LinkFault::Twice(decl.name.copy(alloc)?));
        }
        self.push(decl, unit, place)?;
        Ok(())
    }

    // Whether this name is defined.
    fn contains(&self, name: &str) -> bool
        ensures { result ≡ list_any (bytes_eq name.now) (names_in self.now) }
    {
        self.table.contains_key(name)
    }

    // Puts a definition at the end.
    fn push(&mut self, decl: &'a Decl, unit: u32, place: u32) -> Result<(), NoMemory>
        requires { list_any (bytes_eq decl.now.name) (names_in self.old) ≡ false }
        ensures { OnOk result (self.new
            ≡ self.old ++ record {
              decl = decl.now;
              unit = unit;
              place = place;
              word = min (words_of (decls_in self.old)) (2 ^ 32 - 1);
            } ∷ []) }
    {
        let definition = Definition {
            decl,
            unit,
            place,
            word: self.words.min(u64::from(u32::MAX)) as u32,
        };
        self.table.insert(decl.name.as_str(), definition)?;
        self.words = self.words.saturating_add(u64::from(decl.form.words()));
        self.locks = with_locks(self.locks, &decl.form);
        Ok(())
    }

    /// The definition of this name.
    pub fn find(&self, name: &str) -> Option<&Definition<'a>>
        ensures location { option_map (λ found. located found.now) result ≡ location_of self.now name.now }
        ensures decl { option_map (λ found. found.now.decl.now) result ≡ definition_of (decls_in self.now) name.now }
    {
        self.table.get(name)
    }

    /// How many words the definitions have, at most the greatest `u64`.
    pub fn words(&self) -> u64
        ensures { result ≡ min (words_of (decls_in self.now)) (2 ^ 64 - 1) }
    {
        self.words
    }

    /// How many of the definitions are locks, at most the greatest `u64`.
    pub fn locks(&self) -> u64
        ensures { result ≡ min (locks_of (decls_in self.now)) (2 ^ 64 - 1) }
    {
        self.locks
    }
}

impl<'a> Definitions<'a> {
    /// The cells of the globals and locks, in order.
    pub fn cells(&self, alloc: Global) -> Result<Seq<CellRow>, NoMemory>
        ensures { IfOk result (λ cells. cells ≡ cells_in self.now) }
    {
        let mut cells = Vec::new(alloc);
        for definition in self.table.values() {
            self.add_cell(alloc, &mut cells, definition)?;
        }
        Ok(Seq::of(cells))
    }

    // Adds the cell of a definition, if it is a global or a lock.
    fn add_cell(
        &self,
        alloc: Global,
        cells: &mut Vec<CellRow>,
        definition: &Definition<'a>,
    ) -> Result<(), NoMemory>
        ensures { OnOk result (cells.new.items ≡ cells.old.items ++ cons_option
            (cell_of (lock_word_in self.now) definition.now.word definition.now.decl.now.name
            definition.now.decl.now.form) []) }
    {
        let decl = definition.decl;
        if decl.form.is_function() {
            return Ok(());
        }
        cells.push(CellRow {
            name: decl.name.copy(alloc)?,
            first: definition.word,
            len: decl.form.words(),
            guard: self.guard_word(&decl.form),
            constant: decl.form.is_table(),
            lock: decl.form.is_lock(),
        })?;
        Ok(())
    }

    // The word of the lock that guards a form.
    fn guard_word(&self, form: &Form) -> Option<u32>
        ensures { result ≡ option_and_then (lock_word_in self.now) (guard_of form.now) }
    {
        match form {
            Form::Shared { lock, .. } => self.lock_word(lock.as_str()),
            _ => None,
        }
    }

    // The word of the lock of this name.
    fn lock_word(&self, name: &str) -> Option<u32>
        ensures { result ≡ lock_word_in self.now name.now }
    {
        match self.find(name) {
            Some(definition) if definition.decl.form.is_lock() => Some(definition.word),
            _ => None,
        }
    }
}

// The count of locks with this form counted, at most the greatest `u64`.
fn with_locks(locks: u64, form: &Form) -> u64
    ensures { result ≡ min (locks + (if is_lock form.now then 1 else 0)) (2 ^ 64 - 1) }
{
    if form.is_lock() {
        locks.saturating_add(1)
    } else {
        locks
    }
}
