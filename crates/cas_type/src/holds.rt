//! The faults of an item's names: names in `holds` that aren't declared, names that stand twice, and names in `holds`
//! that are no locks.

ghost use Rattle.std.specs.Prelude.{◌≡◌, OnOk, [], ◌∷◌, false, if◌then◌else◌, None, Some, map};
ghost use Rattle.cas_base.specs.Decl.{is_named};
ghost use Rattle.cas_typed.specs.Scopes.{item_named};
ghost use Rattle.cas_typed.specs.declared.fault.TypeCode.TheVariants.{T1, T2};
ghost use Rattle.std.specs.List.{list_any};
ghost use Rattle.std.specs.Str.{bytes_eq};
ghost use Rattle.cas_type.specs.Answer.{Passes};
ghost use Rattle.cas_type.specs.Parts.{ident_of};
ghost use Rattle.cas_type.specs.View.{meaning_of};
ghost use Rattle.cas_typed.specs.Faults.{at_name, fault};
ghost use Rattle.cas_typed.specs.Modules as m;
ghost use Rattle.cas_typed.specs.Walk.{at_found};

use crate::fault::{TypeFault, refusal_of};
use crate::named::Named;
use crate::scope::{Meaning, item_meaning};
use cas_base::{Form, Name, NoMemory, Place};
use cas_symbols::Symbols;
use cas_typed::TypeCode;
use indexmap::IndexSet;
use std::alloc::Global;
use std::marker::Model;

/// Names that were met. Contracts see them as a list, the newest first.
#[derive(Drop)]
pub struct Seen<'a> {
    names: IndexSet<&'a str>,
}

impl<'a> Model for Seen<'a> {
    ghost use Rattle.std.specs.Prelude.{List, ℕ, map, reverse};

    ghost Value = { List (List ℕ) };

    ghost view = { λ s. reverse (map (λ name. name.now) s.names.keys) };
}

impl<'a> Seen<'a> {
    /// No name.
    pub fn new(alloc: Global) -> Seen<'a>
        ensures { result ≡ [] }
    {
        Seen {
            names: IndexSet::new(alloc),
        }
    }

    /// Whether the name was met.
    pub fn has(&self, name: &Name) -> bool
        ensures { result ≡ list_any (bytes_eq name.now) self.now }
    {
        self.names.contains(name.as_str())
    }

    /// The name is met now, for the first time.
    pub fn note(&mut self, name: &'a Name) -> Result<(), NoMemory>
        requires { list_any (bytes_eq name.now) self.old ≡ false }
        ensures { OnOk result (self.new ≡ name.now ∷ self.old) }
    {
        self.names.insert(name.as_str())?;
        Ok(())
    }
}

// A name that isn't declared.
fn check_declared(alloc: Global, symbols: &Symbols<'_>, named: &Named<'_>) -> Result<(), TypeFault>
    ensures { Passes result (if list_any (is_named named.now.name.now) symbols.now then None else Some
        (fault T1 named.now.place (Some named.now.name.now))) }
{
    if symbols.is_declared(named.name) {
        Ok(())
    } else {
        Err(refusal_of(alloc, TypeCode::T1, named.name, named.place))
    }
}

/// The first of these names that isn't declared.
pub fn check_held(
    alloc: Global,
    symbols: &Symbols<'_>,
    names: &[Named<'_>],
) -> Result<(), TypeFault>
    ensures { Passes result (at_found (m.undeclared_in symbols.now (map ident_of names.now)) (at_name T1)) }
{
    for named in names {
        check_declared(alloc, symbols, named)?;
    }
    Ok(())
}

// A name that was met before; if it wasn't, it is met now.
fn check_new<'a>(alloc: Global, seen: &mut Seen<'a>, named: &Named<'a>) -> Result<(), TypeFault>
    ensures fault { Passes result (if list_any (bytes_eq named.now.name.now) seen.old then Some
        (fault T2 named.now.place (Some named.now.name.now)) else None) }
    ensures seen { OnOk result (seen.new ≡ named.now.name.now ∷ seen.old) }
{
    if seen.has(named.name) {
        return Err(refusal_of(alloc, TypeCode::T2, named.name, named.place));
    }
    seen.note(named.name)?;
    Ok(())
}

// The first of these names that was met before, or stands twice.
fn check_all<'a>(alloc: Global, seen: &mut Seen<'a>, names: &[Named<'a>]) -> Result<(), TypeFault>
    ensures { Passes result (at_found (m.repeated seen.old (map ident_of names.now)) (at_name T2)) }
{
    for named in names {
        check_new(alloc, seen, named)?;
    }
    Ok(())
}

/// The first of these names that stands twice.
pub fn check_once(alloc: Global, names: &[Named<'_>]) -> Result<(), TypeFault>
    ensures { Passes result (at_found (m.repeated [] (map ident_of names.now)) (at_name T2)) }
{
    let mut seen = Seen::new(alloc);
    check_all(alloc, &mut seen, names)
}

// Whether what a name means is a lock.
fn is_lock(meaning: Meaning<'_>) -> bool
    ensures { result ≡ m.means_lock (meaning_of meaning.entry) }
{
    match meaning {
        Meaning::Undeclared => false,
        Meaning::Variable(..) => false,
        Meaning::Item(_, form) => match form {
            Form::Lock => true,
            Form::Shared { .. } | Form::Table { .. } | Form::Function { .. } => false,
        },
    }
}

// Whether a name means a lock.
fn means_lock(symbols: &Symbols<'_>, named: &Named<'_>) -> bool
    ensures { result ≡ m.means_lock (item_named 0 symbols.now named.now.name.now) }
{
    is_lock(item_meaning(symbols, named.name))
}

/// Whether these names are locks.
pub fn are_locks(symbols: &Symbols<'_>, names: &[Named<'_>]) -> bool
    ensures { result ≡ m.are_locks symbols.now (map ident_of names.now) }
{
    for named in names {
        if !means_lock(symbols, named) {
            return false;
        }
    }
    true
}
