//! The parts of objects, in order.

ghost use Rattle.std.specs.Prelude.{◌≡◌, ◌<◌, ◌+◌, ◌-◌, ◌^◌, ℕ, List, [], ◌∷◌, ◌++◌, count_by, length, map, min, IfOk, OnOk};
ghost use Rattle.cas_base.specs.declared.decl.Decl.{Decl};
ghost use Rattle.cas_link.specs.Parts.{decls_in, functions_in, globals_in, is_run, size_of, sizes_of};

use cas_asm::{AsmFun, Line};
use cas_base::{Decl, Global as Datum, NoMemory};
use cas_object_text::Object;
use cas_settle::Roster;
use std::alloc::Global;

// These declarations at the end of the last unit.
fn add_decls(units: &mut Roster, decls: &[Decl]) -> Result<(), NoMemory>
    requires { 0 < length units.old }
    ensures { (front : List (List Decl)) (unit : List Decl) → units.old ≡ front ++ unit ∷ []
        → OnOk result (units.new ≡ front ++ (unit ++ decls.now) ∷ []) }
{
    let mut rest = decls;
    'decls: while let Some((decl, others)) = rest.split_first() {
        units.add(decl)?;
        rest = others;
    }
    Ok(())
}

// One more unit, with these declarations.
fn add_unit(units: &mut Roster, decls: &[Decl]) -> Result<(), NoMemory>
    ensures { OnOk result (units.new ≡ units.old ++ decls.now ∷ []) }
{
    units.unit()?;
    add_decls(units, decls)
}

/// The declarations of the objects, a unit for each.
pub(crate) fn roster_of(alloc: Global, objects: &[Object]) -> Result<Roster, NoMemory>
    ensures { IfOk result (λ units. units ≡ decls_in objects.now) }
{
    let mut units = Roster::new(alloc);
    let mut rest = objects;
    'objects: while let Some((object, others)) = rest.split_first() {
        add_unit(&mut units, object.unit.decls.as_slice())?;
        rest = others;
    }
    Ok(units)
}

// References to these functions at the end.
fn push_functions<'a>(found: &mut Vec<&'a AsmFun>, funs: &'a [AsmFun]) -> Result<(), NoMemory>
    ensures { OnOk result (map (λ f. f.now) found.new.items ≡ map (λ f. f.now) found.old.items ++ funs.now) }
{
    let mut rest = funs;
    'funs: while let Some((fun, others)) = rest.split_first() {
        found.push(fun)?;
        rest = others;
    }
    Ok(())
}

/// The functions of the objects.
pub(crate) fn functions_of(alloc: Global, objects: &[Object]) -> Result<Vec<&AsmFun>, NoMemory>
    ensures { IfOk result (λ funs. map (λ f. f.now) funs.items ≡ functions_in objects.now) }
{
    let mut funs = Vec::new(alloc);
    let mut rest = objects;
    'objects: while let Some((object, others)) = rest.split_first() {
        push_functions(&mut funs, object.unit.funs.as_slice())?;
        rest = others;
    }
    Ok(funs)
}

// References to these globals at the end.
fn push_globals<'a>(found: &mut Vec<&'a Datum>, globals: &'a [Datum]) -> Result<(), NoMemory>
    ensures { OnOk result (map (λ g. g.now) found.new.items ≡ map (λ g. g.now) found.old.items ++ globals.now) }
{
    let mut rest = globals;
    'globals: while let Some((global, others)) = rest.split_first() {
        found.push(global)?;
        rest = others;
    }
    Ok(())
}

/// The globals and locks of the objects.
pub(crate) fn globals_of(alloc: Global, objects: &[Object]) -> Result<Vec<&Datum>, NoMemory>
    ensures { IfOk result (λ globals. map (λ g. g.now) globals.items ≡ globals_in objects.now) }
{
    let mut globals = Vec::new(alloc);
    let mut rest = objects;
    'objects: while let Some((object, others)) = rest.split_first() {
        push_globals(&mut globals, object.unit.globals.as_slice())?;
        rest = others;
    }
    Ok(globals)
}

fn is_run(line: &Line) -> bool
    ensures { result ≡ is_run line.now }
{
    matches!(line, Line::Run(_))
}

fn size_of_lines(lines: &[Line]) -> usize
    ensures { result ≡ count_by is_run lines.now }
{
    let mut size = 0;
    for line in lines {
        if is_run(line) {
            size += 1;
        }
    }
    size
}

/// How many instructions a function has.
pub(crate) fn size_of(fun: &AsmFun) -> usize
    ensures { result ≡ size_of fun.now }
{
    size_of_lines(fun.lines.as_slice())
}

/// How many instructions the functions have, after so many others, at most the greatest `u64`.
pub(crate) fn sizes_after(before: u64, funs: &[&AsmFun]) -> u64
    ensures { result ≡ min (before + sizes_of (map (λ f. f.now) funs.now)) (2 ^ 64 - 1) }
{
    let mut sizes = before;
    for fun in funs {
        sizes = sizes.saturating_add(size_of(fun) as u64);
    }
    sizes
}
