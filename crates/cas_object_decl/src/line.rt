//! The lines of an objects text outside functions.

ghost use Rattle.std.specs.Prelude.{◌≡◌};
ghost use Rattle.cas_object_line.specs.Answers.{IsAnswer};
ghost use Rattle.cas_object_decl.specs.Lines as spec;

use crate::data::typed_values;
use crate::field::Field;
use crate::head::{function_form, name_at};
use crate::kind::{GlobalType, global_type};
use cas_base::{Decl, Form, Name, Seq};
use cas_object_line::LineFault;
use std::alloc::Global as Allocator;

/// A line that may stand in an object, outside functions.
#[derive(Debug, Drop)]
pub enum DeclLine {
    /// A name that another object defines.
    Extern(Decl),
    /// A lock, or a global with its values.
    Data(cas_base::Global),
    /// The first line of a function.
    Function(Decl),
    /// The object's last line.
    End,
}

/// The sort of a declaration, by its first word.
#[derive(Clone, Copy, Debug, PartialEq, Eq)]
pub enum Sort {
    /// A lock.
    Lock,
    /// A shared global.
    Shared,
    /// A table of constants.
    Const,
    /// A function.
    Function,
}

/// The line with these fields.
///
/// # Errors
///
/// `Form` exactly where they are no such line; else `Range` exactly where a number is out of its range; `Memory`.
pub fn decl_line(alloc: Allocator, fields: &[Field]) -> Result<DeclLine, LineFault>
    ensures { IsAnswer result (spec.decl_line fields.now) }
{
    match fields {
        [word, rest @ ..] if word.spells("extern") => extern_line(alloc, rest),
        [word, rest @ ..] if word.spells("end") => end_line(rest),
        [word, name, rest @ ..] => definition_line(alloc, sort_of(word), name, rest),
        _ => Err(LineFault::Form),
    }
}

// The sort of a declaration, by its first word.
fn sort_of(field: &Field) -> Option<Sort>
    ensures { result ≡ spec.sort_of field.now }
{
    if field.spells("lock") {
        Some(Sort::Lock)
    } else if field.spells("shared") {
        Some(Sort::Shared)
    } else if field.spells("const") {
        Some(Sort::Const)
    } else if field.spells("function") {
        Some(Sort::Function)
    } else {
        None
    }
}

// A name that another object defines.
fn extern_line(alloc: Allocator, fields: &[Field]) -> Result<DeclLine, LineFault>
    ensures { IsAnswer result (spec.extern_line fields.now) }
{
    match fields {
        [word, rest @ ..] => match extern_decl(alloc, sort_of(word), rest) {
            Ok(decl) => Ok(DeclLine::Extern(decl)),
            Err(fault) => Err(fault),
        },
        [] => Err(LineFault::Form),
    }
}

fn extern_decl(alloc: Allocator, sort: Option<Sort>, fields: &[Field]) -> Result<Decl, LineFault>
    ensures { IsAnswer result (spec.decl_by sort fields.now) }
{
    match (sort, fields) {
        (Some(sort), [name, rest @ ..]) => {
            let name = name_at(alloc, name)?;
            let form = extern_form(alloc, sort, rest)?;
            Ok(Decl {
                name,
                form,
                defined: false,
            })
        }
        _ => Err(LineFault::Form),
    }
}

fn extern_form(alloc: Allocator, sort: Sort, fields: &[Field]) -> Result<Form, LineFault>
    ensures { IsAnswer result (spec.extern_form sort fields.now) }
{
    match sort {
        Sort::Lock => lock_form(fields),
        Sort::Shared => shared_form(alloc, fields),
        Sort::Const => table_form(fields),
        Sort::Function => function_form(alloc, fields),
    }
}

fn lock_form(fields: &[Field]) -> Result<Form, LineFault>
    ensures { result ≡ spec.lock_form fields.now }
{
    match fields {
        [] => Ok(Form::Lock),
        _ => Err(LineFault::Form),
    }
}

fn shared_form(alloc: Allocator, fields: &[Field]) -> Result<Form, LineFault>
    ensures { IsAnswer result (spec.shared_form fields.now) }
{
    match fields {
        [ty, lock] => shared_by(alloc, &global_type(ty), lock),
        _ => Err(LineFault::Form),
    }
}

fn shared_by(alloc: Allocator, ty: &Option<GlobalType>, lock: &Field) -> Result<Form, LineFault>
    ensures { IsAnswer result (spec.shared_by ty.now lock.now) }
{
    match ty {
        Some(ty) => {
            let lock = name_at(alloc, lock)?;
            let ty = ty.ty()?;
            Ok(Form::Shared { ty, lock })
        }
        None => Err(LineFault::Form),
    }
}

fn table_form(fields: &[Field]) -> Result<Form, LineFault>
    ensures { result ≡ spec.table_form fields.now }
{
    match fields {
        [ty] => table_by(&global_type(ty)),
        _ => Err(LineFault::Form),
    }
}

fn table_by(ty: &Option<GlobalType>) -> Result<Form, LineFault>
    ensures { result ≡ spec.table_by ty.now }
{
    match ty {
        Some(ty) => {
            let ty = ty.ty()?;
            Ok(Form::Table { ty })
        }
        None => Err(LineFault::Form),
    }
}

// A definition of a name.
fn definition_line(
    alloc: Allocator,
    sort: Option<Sort>,
    name: &Field,
    fields: &[Field],
) -> Result<DeclLine, LineFault>
    ensures { IsAnswer result (spec.definition_line sort name.now fields.now) }
{
    match sort {
        Some(sort) => {
            let name = name_at(alloc, name)?;
            definition(alloc, sort, fields, name)
        }
        None => Err(LineFault::Form),
    }
}

fn definition(
    alloc: Allocator,
    sort: Sort,
    fields: &[Field],
    name: Name,
) -> Result<DeclLine, LineFault>
    ensures { IsAnswer result (spec.definition sort fields.now name) }
{
    match sort {
        Sort::Lock => lock_line(alloc, name, fields),
        Sort::Shared => shared_line(alloc, name, fields),
        Sort::Const => table_line(alloc, name, fields),
        Sort::Function => function_line(alloc, name, fields),
    }
}

// A definition with its values.
fn global(name: Name, form: Form, values: Seq<u32>) -> DeclLine
    ensures { result ≡ spec.global name form values }
{
    let decl = Decl {
        name,
        form,
        defined: true,
    };
    DeclLine::Data(cas_base::Global { decl, values })
}

fn lock_line(alloc: Allocator, name: Name, fields: &[Field]) -> Result<DeclLine, LineFault>
    ensures { IsAnswer result (spec.lock_line name fields.now) }
{
    let form = lock_form(fields)?;
    Ok(global(name, form, Seq::of(Vec::new(alloc))))
}

fn shared_line(alloc: Allocator, name: Name, fields: &[Field]) -> Result<DeclLine, LineFault>
    ensures { IsAnswer result (spec.shared_line name fields.now) }
{
    match fields {
        [ty, lock, values @ ..] => shared_data(alloc, name, &global_type(ty), lock, values),
        _ => Err(LineFault::Form),
    }
}

fn shared_data(
    alloc: Allocator,
    name: Name,
    ty: &Option<GlobalType>,
    lock: &Field,
    values: &[Field],
) -> Result<DeclLine, LineFault>
    ensures { IsAnswer result (spec.shared_data name ty.now lock.now values.now) }
{
    match ty {
        Some(ty) => {
            let lock = name_at(alloc, lock)?;
            let (ty, values) = typed_values(alloc, ty, values)?;
            Ok(global(name, Form::Shared { ty, lock }, values))
        }
        None => Err(LineFault::Form),
    }
}

fn table_line(alloc: Allocator, name: Name, fields: &[Field]) -> Result<DeclLine, LineFault>
    ensures { IsAnswer result (spec.table_line name fields.now) }
{
    match fields {
        [ty, values @ ..] => table_data(alloc, name, &global_type(ty), values),
        [] => Err(LineFault::Form),
    }
}

fn table_data(
    alloc: Allocator,
    name: Name,
    ty: &Option<GlobalType>,
    values: &[Field],
) -> Result<DeclLine, LineFault>
    ensures { IsAnswer result (spec.table_data name ty.now values.now) }
{
    match ty {
        Some(ty) => {
            let (ty, values) = typed_values(alloc, ty, values)?;
            Ok(global(name, Form::Table { ty }, values))
        }
        None => Err(LineFault::Form),
    }
}

fn function_line(alloc: Allocator, name: Name, fields: &[Field]) -> Result<DeclLine, LineFault>
    ensures { IsAnswer result (spec.function_line name fields.now) }
{
    let form = function_form(alloc, fields)?;
    Ok(DeclLine::Function(Decl {
        name,
        form,
        defined: true,
    }))
}

// The last line of an object.
fn end_line(fields: &[Field]) -> Result<DeclLine, LineFault>
    ensures { result ≡ spec.end_line fields.now }
{
    match fields {
        [word] if word.spells("object") => Ok(DeclLine::End),
        _ => Err(LineFault::Form),
    }
}
