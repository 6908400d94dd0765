//! Objects.

ghost use Rattle.std.specs.Prelude.{◌≡◌, ℕ, IfOk, List, drop, string_bytes};
ghost use Rattle.cas_object_print.specs.Objects as spec;
ghost use Rattle.cas_object_print.specs.Page.{followed_by};

use crate::instr::line;
use crate::operand::word;
use crate::page::Page;
use cas_asm::{AsmFun, Line};
use cas_base::{Decl, Global, NoMemory};
use cas_object_text::Object;
use std::alloc::Global as Allocator;

/// The canonical text of an object. Its lines are in the order of the module's declarations; a definition takes the
/// values or the instructions of the next global or function.
///
/// # Errors
///
/// `NoMemory` for want of memory.
#[tactic(auto, using(crate::proofs::Pages::all_written))]
pub fn print_object(alloc: Allocator, object: &Object) -> Result<String, NoMemory>
    ensures { IfOk result (λ text. string_bytes text ≡ spec.object_text object.now.unit) }
{
    let mut page = Page::new(alloc);
    whole(alloc, &mut page, object)?;
    Ok(page.into_string())
}

fn whole(alloc: Allocator, page: &mut Page, object: &Object) -> Result<(), NoMemory>
    ensures { (rest : List ℕ)
        → IfOk result (λ _. followed_by page.new rest ≡ followed_by page.old (spec.object object.now.unit rest)) }
{
    let unit = &object.unit;
    page.text("object 1\n")?;
    items(
        alloc,
        page,
        unit.decls.as_slice(),
        unit.globals.as_slice(),
        unit.funs.as_slice(),
    )?;
    page.text("end object\n")
}

// Writes declarations with their data and instructions.
fn items(
    alloc: Allocator,
    page: &mut Page,
    decls: &[Decl],
    globals: &[Global],
    funs: &[AsmFun],
) -> Result<(), NoMemory>
    ensures { (rest : List ℕ)
        → IfOk result (λ _. followed_by page.new rest
        ≡ followed_by page.old (spec.items decls.now globals.now funs.now rest)) }
{
    let mut decls = decls;
    let mut globals = globals;
    let mut funs = funs;
    while let Some((decl, others)) = decls.split_first() {
        item(alloc, page, decl, globals, funs)?;
        decls = others;
        globals = globals_after(decl, globals);
        funs = funs_after(decl, funs);
    }
    Ok(())
}

// The globals that are left after a declaration.
fn globals_after<'g>(decl: &Decl, globals: &'g [Global]) -> &'g [Global]
    ensures { result.now ≡ spec.globals_after decl.now globals.now }
{
    if is_data(decl) {
        behind_first(globals)
    } else {
        globals
    }
}

// The functions that are left after a declaration.
fn funs_after<'f>(decl: &Decl, funs: &'f [AsmFun]) -> &'f [AsmFun]
    ensures { result.now ≡ spec.funs_after decl.now funs.now }
{
    if is_body(decl) {
        behind_first(funs)
    } else {
        funs
    }
}

// All but the first.
fn behind_first<T>(items: &[T]) -> &[T]
    ensures { result.now ≡ drop 1 items.now }
{
    match items.split_first() {
        Some((_, others)) => others,
        None => items,
    }
}

fn is_data(decl: &Decl) -> bool
    ensures { result ≡ spec.is_data decl.now }
{
    decl.defined && !decl.form.is_function()
}

fn is_body(decl: &Decl) -> bool
    ensures { result ≡ spec.is_body decl.now }
{
    decl.defined && decl.form.is_function()
}

// Writes a declaration with its data or instructions, which are the first of those that are left.
fn item(
    alloc: Allocator,
    page: &mut Page,
    decl: &Decl,
    globals: &[Global],
    funs: &[AsmFun],
) -> Result<(), NoMemory>
    ensures { (rest : List ℕ)
        → IfOk result (λ _. followed_by page.new rest
        ≡ followed_by page.old (spec.item decl.now globals.now funs.now rest)) }
{
    if !decl.defined {
        page.text("extern ")?;
        declared(alloc, page, decl)?;
        page.text("\n")
    } else if decl.form.is_function() {
        declared(alloc, page, decl)?;
        page.text("\n")?;
        body(page, funs)?;
        page.text("end\n")
    } else {
        declared(alloc, page, decl)?;
        values_of(page, decl, globals)?;
        page.text("\n")
    }
}

fn declared(alloc: Allocator, page: &mut Page, decl: &Decl) -> Result<(), NoMemory>
    ensures { (rest : List ℕ)
        → IfOk result (λ _. followed_by page.new rest ≡ followed_by page.old (spec.declared decl.now rest)) }
{
    let text = decl.print(alloc)?;
    page.text(text.as_str())
}

// Writes the values of a global, each after a space; a lock has none.
fn values_of(page: &mut Page, decl: &Decl, globals: &[Global]) -> Result<(), NoMemory>
    ensures { (rest : List ℕ)
        → IfOk result (λ _. followed_by page.new rest
        ≡ followed_by page.old (spec.values_of decl.now globals.now rest)) }
{
    match globals.split_first() {
        Some((global, _)) if !decl.form.is_lock() => values(page, global.values.as_slice()),
        _ => Ok(()),
    }
}

fn values(page: &mut Page, values: &[u32]) -> Result<(), NoMemory>
    ensures { (rest : List ℕ)
        → IfOk result (λ _. followed_by page.new rest ≡ followed_by page.old (spec.values values.now rest)) }
{
    let mut others = values;
    while let Some((next, after)) = others.split_first() {
        page.text(" ")?;
        word(page, *next)?;
        others = after;
    }
    Ok(())
}

// Writes the lines of a function.
fn body(page: &mut Page, funs: &[AsmFun]) -> Result<(), NoMemory>
    ensures { (rest : List ℕ)
        → IfOk result (λ _. followed_by page.new rest ≡ followed_by page.old (spec.body funs.now rest)) }
{
    match funs.split_first() {
        Some((fun, _)) => lines(page, fun.lines.as_slice()),
        None => Ok(()),
    }
}

fn lines(page: &mut Page, lines: &[Line]) -> Result<(), NoMemory>
    ensures { (rest : List ℕ)
        → IfOk result (λ _. followed_by page.new rest ≡ followed_by page.old (spec.lines lines.now rest)) }
{
    let mut others = lines;
    while let Some((next, after)) = others.split_first() {
        line(page, next)?;
        others = after;
    }
    Ok(())
}
