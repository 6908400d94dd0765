//! How units fit together: which declarations of several units settle, and what a program of them has.
ghost use Rattle.std.specs.Prelude.{◌≡◌, ◌≢◌, ℕ, ◌-◌, ◌^◌, ◌<◌, [], ◌∷◌, All, IfErr, IfOk, OnOk, None, Some, length, map, min};
ghost use Rattle.cas_settle.specs.declared.link.LinkFault.TheVariants.{Memory, NotDefined};
ghost use Rattle.cas_base.specs.Decl.{functions_of, references};
ghost use Rattle.cas_base.specs.Decl as spec;
ghost use Rattle.cas_settle.specs.Settle.{IsSettled, all_decls, cells_of, entries_fault, entry_fault, first_refusal, limit_fault, place_of, reference_fault, references_fault};
ghost use Rattle.cas_settle.specs.Located.{decls_in, located, location_of, place_in};
ghost use Rattle.cas_settle.specs.Refusal.{IsRefusedBy};

#[cfg(test)]
mod tests;

use crate::definitions::{Definition, Definitions};
use crate::roster::Roster;
use cas_base::{Decl, Name, NoMemory, Seq};
use std::alloc::{AllocFailed, Global};
use std::fmt;

/// The most words of globals and locks that a program has.
pub const WORD_LIMIT: u64 = 65_536;

/// The most locks that a program has.
pub const LOCK_LIMIT: u64 = 256;

/// The words of a global or a lock in a program.
#[derive(Debug, Drop, PartialEq, Eq)]
pub struct CellRow {
    pub name: Name,
    /// The number of its first word.
    pub first: u32,
    /// How many words it has.
    pub len: u32,
    /// The word of the lock that guards it. A table, a lock, and a global whose guard names no lock of the
    /// program have none.
    pub guard: Option<u32>,
    /// Whether it is a table of constants.
    pub constant: bool,
    /// Whether it is a lock.
    pub lock: bool,
}

/// What a settled list of units has.
#[derive(Debug, Drop, PartialEq, Eq)]
pub struct Settled {
    /// The globals and locks, in the order of units and definitions.
    pub cells: Seq<CellRow>,
    /// For each entry its unit, and its place among the functions that the unit defines.
    pub entries: Seq<(u32, u32)>,
}

/// What a limit counts.
#[derive(Clone, Copy, Debug, PartialEq, Eq)]
pub enum Count {
    /// The words of globals and locks.
    Words,
    /// The locks.
    Locks,
    /// The instructions.
    Code,
}

impl fmt::Display for Count {
    ghost use Rattle.std.specs.Prelude.{Some};
    ghost use Rattle.cas_settle.specs.Count.{count_text};

    ghost output = { λ count. Some (count_text count) };

    fn fmt<W: fmt::Write>(&self, f: &mut fmt::Formatter<W>) -> fmt::Result {
        f.write_str(match *self {
            Count::Words => "words",
            Count::Locks => "locks",
            Count::Code => "code",
        })
    }
}

/// Why units don't fit together.
#[derive(Debug, Drop, PartialEq, Eq)]
pub enum LinkFault {
    /// It ran out of memory.
    Memory,
    /// L1: no unit defines this name.
    NotDefined(Name),
    /// L2: this name is defined twice.
    Twice(Name),
    /// L3: this name is declared otherwise than it is defined.
    Differ {
        name: Name,
        defined: Decl,
        declared: Decl,
    },
    /// L4: this entry isn't a function `void f(int)` that holds no lock.
    Entry {
        name: Name,
        found: Decl,
    },
    /// L5: there are more of these than a program may have.
    Limit {
        what: Count,
        counted: u64,
    },
}

impl From<NoMemory> for LinkFault {
    ghost from_gives = { λ _ fault. fault ≡ Memory };

    fn from(_error: NoMemory) -> Self {
        LinkFault::Memory
    }
}

impl<T: Drop> From<AllocFailed<T>> for LinkFault {
    ghost from_gives = { λ _ fault. fault ≡ Memory };

    fn from(_error: AllocFailed<T>) -> Self {
        LinkFault::Memory
    }
}

/// Whether the units fit together, with threads that begin at the entries, and what cells and entries they
/// then have. Refused by the first of these: a name that is defined twice; a declaration whose name no unit
/// defines, or that differs from the definition; an entry that no unit defines, or that isn't a function
/// `void f(int)` that holds no lock; too many words; too many locks.
pub fn settle(alloc: Global, units: &Roster, entries: &[Name]) -> Result<Settled, LinkFault>
    requires few_units { length units.now < 2 ^ 32 }
    requires few_functions { All (λ unit. length (functions_of unit) < 2 ^ 32) units.now }
    ensures settled { OnOk result (IsSettled units.now entries.now) }
    ensures unsettled { IfErr result (λ fault. fault ≢ LinkFault.Memory → ¬ IsSettled units.now entries.now) }
    ensures refused { IsRefusedBy result (first_refusal units.now entries.now) }
    ensures cells { IfOk result (λ settled. settled.cells ≡ cells_of units.now) }
    ensures places { IfOk result (λ settled.
        map (λ place. Some place) settled.entries ≡ map (place_of units.now) entries.now) }
{
    let definitions = Definitions::of(alloc, units)?;
    check_references(alloc, &definitions, units)?;
    let entries = entry_places(alloc, &definitions, entries)?;
    check_limit(Count::Words, WORD_LIMIT, definitions.words())?;
    check_limit(Count::Locks, LOCK_LIMIT, definitions.locks())?;
    let cells = definitions.cells(alloc)?;
    Ok(Settled { cells, entries })
}

// Checks each declaration that isn't a definition against the definition of its name.
fn check_references(
    alloc: Global,
    definitions: &Definitions,
    units: &Roster,
) -> Result<(), LinkFault>
    ensures { IsRefusedBy result (references_fault (decls_in definitions.now) (references (all_decls units.now))) }
{
    for decls in units.units() {
        check_unit(alloc, definitions, decls.as_slice())?;
    }
    Ok(())
}

// The same for the declarations of one unit.
fn check_unit(alloc: Global, definitions: &Definitions, decls: &[Decl]) -> Result<(), LinkFault>
    ensures { IsRefusedBy result (references_fault (decls_in definitions.now) (references decls.now)) }
{
    for decl in decls {
        check_decl(alloc, definitions, decl)?;
    }
    Ok(())
}

// The same for one declaration.
fn check_decl(alloc: Global, definitions: &Definitions, decl: &Decl) -> Result<(), LinkFault>
    ensures { IsRefusedBy result (references_fault (decls_in definitions.now) (references (decl.now ∷ []))) }
{
    if decl.defined {
        return Ok(());
    }
    check_reference(alloc, definitions, decl)
}

// Checks a declaration against the definition of its name.
fn check_reference(alloc: Global, definitions: &Definitions, decl: &Decl) -> Result<(), LinkFault>
    ensures { IsRefusedBy result
        (reference_fault decl.now (spec.definition_of (decls_in definitions.now) decl.now.name)) }
{
    let definition = definition_of(alloc, definitions, &decl.name)?;
    if definition.decl.form.agrees(&decl.form) {
        return Ok(());
    }
    Err(LinkFault::Differ {
        name: decl.name.copy(alloc)?,
        defined: definition.decl.copy(alloc)?,
        declared: decl.copy(alloc)?,
    })
}

// The definition of a name. Refused if no unit defines it (L1).
fn definition_of<'a, 'b>(
    alloc: Global,
    definitions: &'b Definitions<'a>,
    name: &Name,
) -> Result<&'b Definition<'a>, LinkFault>
    ensures found { IfOk result (λ found. location_of definitions.now name.now ≡ Some (located found.now)) }
    ensures decl { IfOk result (λ found.
        spec.definition_of (decls_in definitions.now) name.now ≡ Some found.now.decl.now) }
    ensures refused { IfErr result (λ fault. fault ≢ Memory → (fault ≡ NotDefined name.now)
        × (spec.definition_of (decls_in definitions.now) name.now ≡ None)) }
{
    match definitions.find(name.as_str()) {
        Some(definition) => Ok(definition),
        None => Err(LinkFault::NotDefined(name.copy(alloc)?)),
    }
}

// The unit and the place of each entry.
fn entry_places(
    alloc: Global,
    definitions: &Definitions,
    entries: &[Name],
) -> Result<Seq<(u32, u32)>, LinkFault>
    ensures refused { IsRefusedBy result (entries_fault (decls_in definitions.now) entries.now) }
    ensures places { IfOk result (λ places.
        map (λ place. Some place) places ≡ map (place_in definitions.now) entries.now) }
{
    let mut places = Vec::new(alloc);
    for name in entries {
        places.push(entry_place(alloc, definitions, name)?)?;
    }
    Ok(Seq::of(places))
}

// The unit and the place of an entry.
fn entry_place(
    alloc: Global,
    definitions: &Definitions,
    name: &Name,
) -> Result<(u32, u32), LinkFault>
    ensures refused { IsRefusedBy result
        (entry_fault name.now (spec.definition_of (decls_in definitions.now) name.now)) }
    ensures place { IfOk result (λ place. place_in definitions.now name.now ≡ Some place) }
{
    let definition = definition_of(alloc, definitions, name)?;
    if definition.decl.form.is_entry() {
        return Ok((definition.unit, definition.place));
    }
    Err(LinkFault::Entry {
        name: name.copy(alloc)?,
        found: definition.decl.copy(alloc)?,
    })
}

// Checks a count against its limit. The count stays at the greatest `u64`.
fn check_limit(what: Count, limit: u64, counted: u64) -> Result<(), LinkFault>
    requires { limit < 2 ^ 64 - 1 }
    ensures { (count : ℕ) → counted ≡ min count (2 ^ 64 - 1) → IsRefusedBy result (limit_fault what limit count) }
{
    if counted > limit {
        return Err(LinkFault::Limit { what, counted });
    }
    Ok(())
}
