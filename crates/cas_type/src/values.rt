//! Conditions, values and assignments: the faults of names first, then what doesn't fit.

ghost use Rattle.cas_syntax.specs.Tree.{expr_tree, optional_tree, target_tree, to_name};
ghost use Rattle.cas_type.specs.Answer.{Answers};
ghost use Rattle.std.specs.Prelude.{◌≡◌, IfOk, None};
ghost use Rattle.cas_type.specs.View.{assignment_tree, boxed_tree};
ghost use Rattle.cas_typed.specs.Resolved as t;
ghost use Rattle.cas_typed.specs.Resolved.{typed_expr_tree};
ghost use Rattle.cas_typed.specs.Scopes as s;
ghost use Rattle.cas_typed.specs.Types as y;
ghost use Rattle.cas_typed.specs.Walk as w;

use crate::fault::{TypeFault, misfit, refusal};
use crate::forms::tested;
use crate::found::null;
use crate::names::{check_alone, check_names};
use crate::resolve::{resolve, value_of};
use crate::scope::{Meaning, Scopes};
use crate::targets::{assigned_value, check_target, target_of, write_named};
use cas_base::{Form, NoMemory, Place, Ty};
use cas_syntax::{BinaryOperator, Expr, Ident, LValue};
use cas_typed::{TypeCode, TypedExpr, TypedTarget};
use std::alloc::Global;

/// An assignment: what is written, and the value.
#[derive(Drop)]
pub struct Assignment {
    pub target: Box<TypedTarget>,
    pub value: Box<TypedExpr>,
}

/// A condition of the statement at a place.
#[tactic(auto, using(crate::proofs::By_parts::fails_unless, crate::proofs::By_parts::fails_here))]
pub fn test(
    alloc: Global,
    scopes: &Scopes<'_>,
    place: Place,
    expr: &Expr,
) -> Result<Box<TypedExpr>, TypeFault>
    ensures { Answers (λ test. typed_expr_tree test.value) result (w.walk_test scopes.now place (expr_tree expr.now)) }
{
    check_names(alloc, scopes, expr)?;
    match tested(alloc, resolve(alloc, scopes, expr)?)? {
        Some(test) => Ok(test),
        None => Err(misfit(TypeCode::T3, place)),
    }
}

/// A value of a type, for the statement at a place.
#[tactic(auto, using(crate::proofs::By_parts::fails_unless, crate::proofs::By_parts::fails_here))]
pub fn value(
    alloc: Global,
    scopes: &Scopes<'_>,
    place: Place,
    expr: &Expr,
    ty: Ty,
) -> Result<Box<TypedExpr>, TypeFault>
    ensures { Answers (λ value. typed_expr_tree value.value) result
        (w.walk_value scopes.now place (expr_tree expr.now) ty) }
{
    check_names(alloc, scopes, expr)?;
    match value_of(alloc, scopes, expr, ty)? {
        Some(value) => Ok(value),
        None => Err(misfit(TypeCode::T3, place)),
    }
}

/// A condition that may be missing.
pub fn condition(
    alloc: Global,
    scopes: &Scopes<'_>,
    place: Place,
    expr: &Option<Expr>,
) -> Result<Option<Box<TypedExpr>>, TypeFault>
    ensures { Answers boxed_tree result (w.walk_optional scopes.now place (optional_tree expr.now)) }
{
    match expr {
        Some(expr) => match test(alloc, scopes, place, expr) {
            Ok(test) => Ok(Some(test)),
            Err(fault) => Err(fault),
        },
        None => Ok(None),
    }
}

/// The assignment of its first value to a local, for the statement at a place.
#[tactic(auto, using(crate::proofs::By_parts::refuses_sooner, crate::proofs::By_parts::fails_unless, crate::proofs::By_parts::fails_here))]
pub fn begun(
    alloc: Global,
    scopes: &Scopes<'_>,
    place: Place,
    ident: &Ident,
    expr: &Expr,
) -> Result<Assignment, TypeFault>
    ensures { Answers (assignment_tree place) result
        (w.walk_assign scopes.now place (to_name ident.now) None (expr_tree expr.now)) }
{
    check_alone(alloc, ident, scopes.meaning(ident))?;
    check_names(alloc, scopes, expr)?;
    match write_named(alloc, ident, scopes.meaning(ident))? {
        Some(written) => match value_of(alloc, scopes, expr, written.ty)? {
            Some(value) => Ok(Assignment {
                target: written.target,
                value,
            }),
            None => Err(misfit(TypeCode::T3, place)),
        },
        None => Err(misfit(TypeCode::T5, place)),
    }
}

/// An assignment of the statement at a place.
#[tactic(auto, using(crate::proofs::By_parts::refuses_sooner, crate::proofs::By_parts::fails_unless, crate::proofs::By_parts::fails_here))]
pub fn assigned(
    alloc: Global,
    scopes: &Scopes<'_>,
    place: Place,
    target: &LValue,
    operator: Option<BinaryOperator>,
    expr: &Expr,
) -> Result<Assignment, TypeFault>
    ensures { Answers (assignment_tree place) result
        (w.walk_assign scopes.now place (target_tree target.now) operator (expr_tree expr.now)) }
{
    check_target(alloc, scopes, target)?;
    check_names(alloc, scopes, expr)?;
    match target_of(alloc, scopes, target)? {
        Some(written) => {
            match assigned_value(alloc, scopes, target, operator, expr, written.ty)? {
                Some(value) => Ok(Assignment {
                    target: written.target,
                    value,
                }),
                None => Err(misfit(TypeCode::T3, place)),
            }
        }
        None => Err(misfit(TypeCode::T5, place)),
    }
}

/// What a function of this type returns where no value is given.
pub fn no_value(alloc: Global, ret: Ty) -> Result<Option<Box<TypedExpr>>, NoMemory>
    ensures { IfOk result (λ value. boxed_tree value ≡ y.no_value ret) }
{
    match ret {
        Ty::Int(k) => {
            let zero = Box::new(alloc, TypedExpr::Literal(0))?;
            Ok(Some(Box::new(alloc, TypedExpr::Narrow(k, zero))?))
        }
        Ty::Ptr(_) => Ok(Some(null(alloc)?)),
        Ty::Void | Ty::Array(..) => Ok(None),
    }
}

/// What a function of this type returns.
pub fn returned(
    alloc: Global,
    scopes: &Scopes<'_>,
    place: Place,
    ret: Ty,
    expr: &Option<Expr>,
) -> Result<Option<Box<TypedExpr>>, TypeFault>
    ensures { Answers (λ value. t.return_ place (boxed_tree value)) result
        (w.walk_return scopes.now place ret (optional_tree expr.now)) }
{
    match expr {
        Some(expr) => match value(alloc, scopes, place, expr, ret) {
            Ok(value) => Ok(Some(value)),
            Err(fault) => Err(fault),
        },
        None => Ok(no_value(alloc, ret)?),
    }
}

/// The lock that a name means in `lock` or `unlock`.
#[tactic(auto, using(crate::proofs::By_parts::fails_here))]
pub fn lock(
    alloc: Global,
    scopes: &Scopes<'_>,
    place: Place,
    ident: &Ident,
) -> Result<u32, TypeFault>
    ensures { Answers (λ item. item) result (w.walk_lock place ident.now (s.meaning scopes.now ident.now)) }
{
    match scopes.meaning(ident) {
        Meaning::Undeclared => Err(refusal(alloc, TypeCode::T1, ident)),
        Meaning::Variable(..) => Err(misfit(TypeCode::T3, place)),
        Meaning::Item(item, form) => match form {
            Form::Lock => Ok(item),
            Form::Shared { .. } | Form::Table { .. } | Form::Function { .. } => {
                Err(misfit(TypeCode::T3, place))
            }
        },
    }
}
