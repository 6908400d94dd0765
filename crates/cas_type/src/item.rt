//! The first fault of an item, but for a function's body: names first, then what doesn't fit, then counts.

ghost use Rattle.std.specs.Prelude.{◌≡◌, ◌++◌, ◌∷◌, [], if◌then◌else◌, List, Some, None, map, nat_le, length};
ghost use Rattle.cas_base.specs.declared.decl.Decl.{Decl};
ghost use Rattle.cas_syntax.specs.Tree.{item_tree};
ghost use Rattle.cas_type.specs.Answer.{Passes};
ghost use Rattle.cas_type.specs.Parts as p;
ghost use Rattle.cas_type.specs.Parts.{ident_of, capped};
ghost use Rattle.cas_type.specs.View.{meaning_of};
ghost use Rattle.cas_typed.specs.Counts as c;
ghost use Rattle.cas_typed.specs.Faults.{at_name, fault};
ghost use Rattle.cas_typed.specs.declared.fault.TypeCode.TheVariants.{T2};
ghost use Rattle.cas_typed.specs.Modules as m;
ghost use Rattle.cas_typed.specs.Scopes.{item_named};
ghost use Rattle.cas_typed.specs.Types.{variable_type};
ghost use Rattle.cas_typed.specs.Walk as w;
ghost use Rattle.cas_typed.specs.Walk.{at_found};

use crate::counts::{MOST_FUNCTIONS, MOST_PARAMETERS, MOST_WORDS, Totals, check_count};
use crate::fault::{TypeFault, refusal_of};
use crate::holds::{are_locks, check_held, check_once};
use crate::named::{Named, held_names, parameter_names};
use crate::scope::{Meaning, item_meaning, variable_ty};
use cas_base::{Decl, Form, Name, Place, Ty};
use cas_symbols::Symbols;
use cas_syntax::{Ident, Item};
use cas_typed::{TypeCode, TypeCount};
use std::alloc::Global;

/// An item by its parts: what it declares, the values that its text gives, the names of its parameters, and the places
/// of the locks that it `holds`.
#[derive(Clone, Copy)]
pub struct Parts<'a> {
    pub decl: &'a Decl,
    pub values: &'a [u32],
    pub params: &'a [Ident],
    pub held: &'a [Place],
    pub place: Place,
}

// The names of the locks that are held.
fn held_by(form: &Form) -> &[Name]
    ensures { result.now ≡ m.held_by form.now }
{
    match form {
        Form::Function { holds, .. } => holds.as_slice(),
        Form::Lock | Form::Shared { .. } | Form::Table { .. } => &[],
    }
}

/// The types of the parameters of what is declared.
pub fn parameter_types(form: &Form) -> &[Ty]
    ensures { result.now ≡ c.parameter_types form.now }
{
    match form {
        Form::Function { params, .. } => params.as_slice(),
        Form::Lock | Form::Shared { .. } | Form::Table { .. } => &[],
    }
}

// Whether a definition's name is defined before.
fn is_defined_again(symbols: &Symbols<'_>, decl: &Decl) -> bool
    ensures { result ≡ m.is_defined_again symbols.now decl.now }
{
    decl.defined && symbols.is_defined(&decl.name)
}

// Whether what is declared is what the name means, if anything.
fn agrees_with(meaning: Meaning<'_>, form: &Form) -> bool
    ensures { result ≡ m.agrees_with (meaning_of meaning.entry) form.now }
{
    match meaning {
        Meaning::Undeclared => true,
        Meaning::Variable(..) => true,
        Meaning::Item(_, first) => first.agrees(form),
    }
}

// Whether a global variable has an element.
fn has_element(ty: Option<Ty>) -> bool
    ensures { result ≡ m.has_element ty }
{
    match ty {
        Some(ty) => 0 < ty.words(),
        None => true,
    }
}

// The elements of a global variable.
fn elements_of(ty: Option<Ty>) -> u32
    ensures { result ≡ m.elements_of ty }
{
    match ty {
        Some(ty) => ty.words(),
        None => 0,
    }
}

// A fault at the name of what is declared, unless it is right.
fn check_right(
    alloc: Global,
    is_right: bool,
    code: TypeCode,
    decl: &Decl,
    place: Place,
) -> Result<(), TypeFault>
    ensures { Passes result (if is_right then None else Some (fault code place (Some decl.now.name))) }
{
    if is_right {
        Ok(())
    } else {
        Err(refusal_of(alloc, code, &decl.name, place))
    }
}

// A fault at the name of what is defined again.
fn check_defined_once(
    alloc: Global,
    symbols: &Symbols<'_>,
    decl: &Decl,
    place: Place,
) -> Result<(), TypeFault>
    ensures { Passes result (if m.is_defined_again symbols.now decl.now then Some
        (fault T2 place (Some decl.now.name)) else None) }
{
    if is_defined_again(symbols, decl) {
        Err(refusal_of(alloc, TypeCode::T2, &decl.name, place))
    } else {
        Ok(())
    }
}

// The counts that an item's declaration may pass, with the totals of the declarations before it.
fn check_counts(decl: &Decl, place: Place, totals: Totals) -> Result<(), TypeFault>
    ensures { (before : List Decl) → totals.functions ≡ capped (c.function_count before) →
        totals.words ≡ capped (c.word_count before)
        → Passes result (p.counts_fault before decl.now place) }
{
    let parameters = parameter_types(&decl.form).len() as u64;
    check_count(MOST_PARAMETERS, place, TypeCount::Parameters, parameters)?;
    let totals = totals.with(decl);
    check_count(
        MOST_FUNCTIONS,
        place,
        TypeCount::Functions,
        totals.functions,
    )?;
    check_count(MOST_WORDS, place, TypeCount::Words, totals.words)
}

// What doesn't fit in what is declared, and then its counts.
#[tactic(auto, using(crate::proofs::By_parts::refuses_sooner))]
fn check_fit(
    alloc: Global,
    symbols: &Symbols<'_>,
    totals: Totals,
    parts: Parts<'_>,
    held: &[Named<'_>],
) -> Result<(), TypeFault>
    requires functions { totals.functions ≡ capped (c.function_count symbols.now) }
    requires words { totals.words ≡ capped (c.word_count symbols.now) }
    ensures { Passes result (p.fit_fault symbols.now parts.entry.decl.now parts.entry.values.now
        (map ident_of held.now) parts.entry.place) }
{
    let decl = parts.decl;
    let place = parts.place;
    let ty = variable_ty(&decl.form);
    let agrees = agrees_with(item_meaning(symbols, &decl.name), &decl.form);
    check_right(alloc, agrees, TypeCode::T3, decl, place)?;
    check_right(alloc, has_element(ty), TypeCode::T3, decl, place)?;
    let are_few = parts.values.len() <= elements_of(ty) as usize;
    check_right(alloc, are_few, TypeCode::T3, decl, place)?;
    check_right(alloc, are_locks(symbols, held), TypeCode::T3, decl, place)?;
    check_counts(decl, place, totals)
}

// The first of these parameters whose name stands twice.
fn check_parameters(alloc: Global, params: &[Ident]) -> Result<(), TypeFault>
    ensures { Passes result (at_found (m.repeated [] params.now) (at_name T2)) }
{
    let names = parameter_names(alloc, params)?;
    check_once(alloc, &names)
}

// The first fault of an item by its parts, of which `held` are the names in its `holds`.
#[tactic(auto, using(crate::proofs::By_parts::refuses_sooner))]
fn check_holding(
    alloc: Global,
    symbols: &Symbols<'_>,
    totals: Totals,
    parts: Parts<'_>,
    held: &[Named<'_>],
) -> Result<(), TypeFault>
    requires functions { totals.functions ≡ capped (c.function_count symbols.now) }
    requires words { totals.words ≡ capped (c.word_count symbols.now) }
    ensures { Passes result
        (p.parts_fault symbols.now parts.entry.decl.now parts.entry.values.now parts.entry.params.now
        (map ident_of held.now) parts.entry.place) }
{
    check_held(alloc, symbols, held)?;
    check_defined_once(alloc, symbols, parts.decl, parts.place)?;
    check_parameters(alloc, parts.params)?;
    check_once(alloc, held)?;
    check_fit(alloc, symbols, totals, parts, held)
}

// The first fault of an item by its parts.
fn check_parts(
    alloc: Global,
    symbols: &Symbols<'_>,
    totals: Totals,
    parts: Parts<'_>,
) -> Result<(), TypeFault>
    requires functions { totals.functions ≡ capped (c.function_count symbols.now) }
    requires words { totals.words ≡ capped (c.word_count symbols.now) }
    ensures { Passes result
        (p.parts_fault symbols.now parts.entry.decl.now parts.entry.values.now parts.entry.params.now
        (m.placed parts.entry.place (m.held_by parts.entry.decl.now.form) parts.entry.held.now) parts.entry.place) }
{
    let names = held_by(&parts.decl.form);
    let held = held_names(alloc, names, parts.held, parts.place)?;
    check_holding(alloc, symbols, totals, parts, &held)
}

/// The first fault of an item after these declarations, which have these totals; but for a function's body.
pub fn check_item(
    alloc: Global,
    symbols: &Symbols<'_>,
    totals: Totals,
    item: &Item,
) -> Result<(), TypeFault>
    requires functions { totals.functions ≡ capped (c.function_count symbols.now) }
    requires words { totals.words ≡ capped (c.word_count symbols.now) }
    ensures { Passes result (w.item_fault symbols.now (item_tree item.now)) }
{
    let parts = match item {
        Item::Global {
            decl,
            values,
            place,
        } => Parts {
            decl,
            values: values.as_slice(),
            params: &[],
            held: &[],
            place: *place,
        },
        Item::Prototype { decl, held, place } => Parts {
            decl,
            values: &[],
            params: &[],
            held: held.as_slice(),
            place: *place,
        },
        Item::Define(fun) => Parts {
            decl: &fun.decl,
            values: &[],
            params: fun.params.as_slice(),
            held: fun.held.as_slice(),
            place: fun.place,
        },
    };
    check_parts(alloc, symbols, totals, parts)
}
