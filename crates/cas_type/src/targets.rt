//! What assignments write.

ghost use Rattle.std.specs.Prelude.{◌≡◌, IfOk};
ghost use Rattle.cas_syntax.specs.Tree.{expr_tree, target_tree};
ghost use Rattle.cas_type.specs.Answer.{Passes};
ghost use Rattle.cas_type.specs.View.{boxed_tree, found_of, meaning_of, written_of};
ghost use Rattle.cas_base.specs.declared.kind.Ty.TheVariants.{Int};
ghost use Rattle.cas_typed.specs.Resolved as t;
ghost use Rattle.cas_typed.specs.Resolved.{typed_expr_tree, typed_target_tree};
ghost use Rattle.cas_typed.specs.Resolving as r;
ghost use Rattle.cas_typed.specs.Typing.{assigned, cell_of};
ghost use Rattle.cas_typed.specs.Walk as w;

use crate::fault::TypeFault;
use crate::forms::{cell_behind, given};
use crate::found::{Found, Operands, pair};
use crate::kinds::signedness;
use crate::names::{check_alone, check_declared, check_names};
use crate::operators::binary;
use crate::resolve::{indexed, is_zero, named, resolve, value_of};
use crate::scope::{Meaning, Scopes};
use cas_base::{Form, Kind, NoMemory, Ty};
use cas_syntax::{BinaryOperator, Expr, Ident, LValue};
use cas_typed::{TypedExpr, TypedTarget};
use std::alloc::Global;

/// A cell that may be written, with its type.
#[derive(Drop)]
pub struct Written {
    pub target: Box<TypedTarget>,
    pub ty: Ty,
}

/// The faults of names in a target, in order of text.
#[tactic(auto, using(crate::proofs::By_parts::refuses_sooner))]
pub fn check_target(alloc: Global, scopes: &Scopes<'_>, target: &LValue) -> Result<(), TypeFault>
    ensures { Passes result (w.target_fault scopes.now (target_tree target.now)) }
{
    match target {
        LValue::Name(ident) => check_alone(alloc, ident, scopes.meaning(ident)),
        LValue::Index(ident, index) => {
            check_declared(alloc, ident, scopes.meaning(ident))?;
            check_names(alloc, scopes, index)
        }
        LValue::Deref(pointer) => check_names(alloc, scopes, pointer),
    }
}

// The cell of this type that a target is.
fn writable(alloc: Global, target: TypedTarget, ty: Ty) -> Result<Option<Written>, NoMemory>
    ensures { IfOk result (λ whole. written_of whole ≡ r.written (typed_target_tree target) ty) }
{
    let target = Box::new(alloc, target)?;
    Ok(Some(Written { target, ty }))
}

/// Of a name: a local integer or pointer, or a shared integer.
pub fn write_named(
    alloc: Global,
    ident: &Ident,
    meaning: Meaning<'_>,
) -> Result<Option<Written>, NoMemory>
    ensures { IfOk result (λ whole. written_of whole ≡ r.write_named ident.now (meaning_of meaning.entry)) }
{
    match meaning {
        Meaning::Undeclared => Ok(None),
        Meaning::Variable(n, ty) => match ty {
            Ty::Int(_) | Ty::Ptr(_) => writable(alloc, TypedTarget::Local(n), ty),
            Ty::Void | Ty::Array(..) => Ok(None),
        },
        Meaning::Item(g, form) => match form {
            Form::Shared { ty, .. } => match *ty {
                Ty::Int(k) => writable(alloc, TypedTarget::Global(g, ident.place), Ty::Int(k)),
                Ty::Void | Ty::Ptr(_) | Ty::Array(..) => Ok(None),
            },
            Form::Lock | Form::Table { .. } | Form::Function { .. } => Ok(None),
        },
    }
}

// The cell of this kind behind a pointer.
fn cell_at(alloc: Global, kind: Kind, pointer: Box<TypedExpr>) -> Result<Option<Written>, NoMemory>
    ensures { IfOk result (λ whole. written_of whole ≡ r.written (t.to_behind kind (typed_expr_tree pointer.value))
        (Int kind)) }
{
    let target = TypedTarget::Behind(kind, Box::into_inner(pointer));
    writable(alloc, target, Ty::Int(kind))
}

/// Of `*p`, by `p`.
pub fn write_behind(alloc: Global, found: Found) -> Result<Option<Written>, NoMemory>
    ensures { IfOk result (λ whole. written_of whole ≡ r.write_behind (found_of found)) }
{
    match found {
        Found::Pointer(p, k) => cell_at(alloc, k, p),
        Found::Unfit | Found::Word(..) => Ok(None),
    }
}

/// Of `x[e]` where `x` is a local, by `x` and `e`.
pub fn write_element_behind(
    alloc: Global,
    array: Found,
    index: Found,
) -> Result<Option<Written>, NoMemory>
    ensures { IfOk result (λ whole. written_of whole ≡ r.write_element_behind (found_of array) (found_of index)) }
{
    match pair(array, index) {
        Some(Operands::PointerAndWord(p, k, e, j)) => {
            let expr = TypedExpr::PointerPlus(signedness(j), p, e);
            writable(alloc, TypedTarget::Behind(k, expr), Ty::Int(k))
        }
        Some(Operands::Words(..))
        | Some(Operands::WordAndPointer(..))
        | Some(Operands::Pointers(..)) => Ok(None),
        None => Ok(None),
    }
}

/// Of `x[e]`, by what is found of `e`.
pub fn write_indexed(
    alloc: Global,
    ident: &Ident,
    meaning: Meaning<'_>,
    index: Found,
) -> Result<Option<Written>, NoMemory>
    ensures { IfOk result (λ whole. written_of whole ≡ r.write_indexed ident.now (meaning_of meaning.entry)
        (found_of index)) }
{
    match meaning {
        Meaning::Item(g, form) => match form {
            Form::Shared { ty, .. } => match *ty {
                Ty::Array(k, _) => match index {
                    Found::Word(e, j) => {
                        let index = Box::into_inner(e);
                        let target = TypedTarget::Element(g, ident.place, signedness(j), index);
                        writable(alloc, target, Ty::Int(k))
                    }
                    Found::Unfit | Found::Pointer(..) => Ok(None),
                },
                Ty::Void | Ty::Int(_) | Ty::Ptr(_) => Ok(None),
            },
            Form::Lock | Form::Table { .. } | Form::Function { .. } => Ok(None),
        },
        Meaning::Undeclared | Meaning::Variable(..) => {
            write_element_behind(alloc, named(alloc, ident, meaning)?, index)
        }
    }
}

/// Of a target: none if it is no cell that may be written.
pub fn target_of(
    alloc: Global,
    scopes: &Scopes<'_>,
    target: &LValue,
) -> Result<Option<Written>, NoMemory>
    ensures { IfOk result (λ whole. written_of whole ≡ r.target_of scopes.now (target_tree target.now)) }
{
    match target {
        LValue::Name(ident) => write_named(alloc, ident, scopes.meaning(ident)),
        LValue::Index(ident, index) => {
            let index = resolve(alloc, scopes, index)?;
            write_indexed(alloc, ident, scopes.meaning(ident), index)
        }
        LValue::Deref(pointer) => write_behind(alloc, resolve(alloc, scopes, pointer)?),
    }
}

// The cell of a target, read.
fn cell(alloc: Global, scopes: &Scopes<'_>, target: &LValue) -> Result<Found, NoMemory>
    ensures { IfOk result (λ found. found_of found ≡ r.resolved scopes.now (cell_of (target_tree target.now))) }
{
    match target {
        LValue::Name(ident) => named(alloc, ident, scopes.meaning(ident)),
        LValue::Index(ident, index) => {
            let index = resolve(alloc, scopes, index)?;
            indexed(alloc, ident, scopes.meaning(ident), index)
        }
        LValue::Deref(pointer) => cell_behind(alloc, resolve(alloc, scopes, pointer)?),
    }
}

/// Of what is assigned, at the target's type: `x op= e` is `x = x op e`.
#[tactic(auto, using(crate::proofs::By_parts::cell_is_not_null))]
pub fn assigned_value(
    alloc: Global,
    scopes: &Scopes<'_>,
    target: &LValue,
    operator: Option<BinaryOperator>,
    expr: &Expr,
    ty: Ty,
) -> Result<Option<Box<TypedExpr>>, NoMemory>
    ensures { IfOk result (λ value. boxed_tree value ≡ r.value_of scopes.now
        (assigned (target_tree target.now) operator (expr_tree expr.now)) ty) }
{
    match operator {
        None => value_of(alloc, scopes, expr, ty),
        Some(operator) => {
            let left = cell(alloc, scopes, target)?;
            let right = resolve(alloc, scopes, expr)?;
            let whole = binary(alloc, operator, false, is_zero(expr), left, right)?;
            given(alloc, ty, false, whole)
        }
    }
}
