//! Statements without parts: the forms of their rows. None of them declares a local.

ghost use Rattle.std.specs.Prelude.{◌≡◌, ◌++◌, None, Ok, OnOk, Some, map};
ghost use Rattle.std.specs.Option.{option_copied};
ghost use Rattle.cas_syntax.specs.Tree.{expr_tree, optional_tree, stmt_tree, target_tree, to_name};
ghost use Rattle.cas_type.specs.Rows.{AnswersPlain, IsPlain, StmtWalks, plain_tree};
ghost use Rattle.cas_base.specs.declared.place.Place.{Place};
ghost use Rattle.cas_type.specs.View.{assignment_tree, boxed_tree};
ghost use Rattle.cas_base.specs.declared.kind.Kind.TheVariants.{I32};
ghost use Rattle.cas_base.specs.declared.kind.Ty.TheVariants.{Int};
ghost use Rattle.cas_typed.specs.Faults.{then_};
ghost use Rattle.cas_typed.specs.Numbered.{optional_expr_tree};
ghost use Rattle.cas_typed.specs.Resolved as t;
ghost use Rattle.cas_typed.specs.Scopes as s;
ghost use Rattle.cas_typed.specs.Walk as w;

use crate::calls::call;
use crate::fault::{TypeFault, misfit};
use crate::rows::Made;
use crate::scope::Scopes;
use crate::values::{Assignment, assigned, begun, lock, returned, value};
use crate::within::Within;
use cas_base::{Kind, Place, Ty};
use cas_syntax::{BinaryOperator, Expr, Ident, LValue, Stmt, StmtForm};
use cas_typed::{StmtRowForm, TypeCode, TypedExpr};
use std::alloc::Global;

/// An expression that may be missing, without its pointer.
pub fn unboxed(expr: Option<Box<TypedExpr>>) -> Option<TypedExpr>
    ensures { optional_expr_tree result ≡ boxed_tree expr }
{
    match expr {
        Some(expr) => Some(Box::into_inner(expr)),
        None => None,
    }
}

// An assignment.
fn type_assign(
    alloc: Global,
    scopes: &Scopes<'_>,
    place: Place,
    target: &LValue,
    operator: Option<BinaryOperator>,
    expr: &Expr,
) -> Result<StmtRowForm, TypeFault>
    ensures { AnswersPlain place result (w.walk_assign scopes.now place (target_tree target.now) operator
        (expr_tree expr.now)) }
{
    let assignment = assigned(alloc, scopes, place, target, operator, expr)?;
    Ok(assign_form(assignment))
}

// The form of an assignment's row.
fn assign_form(assignment: Assignment) -> StmtRowForm
    ensures { (place : Place) → plain_tree place result ≡ Some (assignment_tree place assignment) }
{
    StmtRowForm::Assign(
        Box::into_inner(assignment.target),
        Box::into_inner(assignment.value),
    )
}

/// The assignment of its first value to a local.
pub fn type_first(
    alloc: Global,
    scopes: &Scopes<'_>,
    place: Place,
    ident: &Ident,
    expr: &Expr,
) -> Result<StmtRowForm, TypeFault>
    ensures { AnswersPlain place result (w.walk_assign scopes.now place (to_name ident.now) None (expr_tree expr.now)) }
{
    let assignment = begun(alloc, scopes, place, ident, expr)?;
    Ok(assign_form(assignment))
}

/// A call, whose result is kept or not.
pub fn type_call(
    alloc: Global,
    scopes: &Scopes<'_>,
    place: Place,
    keeper: Option<&Ident>,
    ident: &Ident,
    args: &[Expr],
) -> Result<StmtRowForm, TypeFault>
    ensures { AnswersPlain place result (w.walk_call scopes.now place (option_copied keeper.entry) ident.now
        (map expr_tree args.now)) }
{
    let called = call(alloc, scopes, place, keeper, ident, args)?;
    Ok(StmtRowForm::Call(called.kept, called.item, ident.place, called.args))
}

// `break`, which may only stand in a loop.
fn type_break(in_loop: bool, place: Place) -> Result<StmtRowForm, TypeFault>
    ensures { AnswersPlain place result (w.walk_leave in_loop place (t.break_ place)) }
{
    if in_loop {
        Ok(StmtRowForm::Break)
    } else {
        Err(misfit(TypeCode::T7, place))
    }
}

// `continue`, which may only stand in a loop.
fn type_continue(in_loop: bool, place: Place) -> Result<StmtRowForm, TypeFault>
    ensures { AnswersPlain place result (w.walk_leave in_loop place (t.continue_ place)) }
{
    if in_loop {
        Ok(StmtRowForm::Continue)
    } else {
        Err(misfit(TypeCode::T7, place))
    }
}

// `return`, in a function of this type.
fn type_return(
    alloc: Global,
    scopes: &Scopes<'_>,
    place: Place,
    ret: Ty,
    expr: &Option<Expr>,
) -> Result<StmtRowForm, TypeFault>
    ensures { AnswersPlain place result (w.walk_return scopes.now place ret (optional_tree expr.now)) }
{
    let value = returned(alloc, scopes, place, ret, expr)?;
    Ok(StmtRowForm::Return(unboxed(value)))
}

// `print`, of a value that is converted to `int`.
fn type_print(
    alloc: Global,
    scopes: &Scopes<'_>,
    place: Place,
    expr: &Expr,
) -> Result<StmtRowForm, TypeFault>
    ensures { AnswersPlain place result (then_ (w.walk_value scopes.now place (expr_tree expr.now) (Int I32))
        (λ e. Ok (t.print place e))) }
{
    let value = value(alloc, scopes, place, expr, Ty::Int(Kind::I32))?;
    Ok(StmtRowForm::Print(Box::into_inner(value)))
}

// `lock`.
fn type_lock(
    alloc: Global,
    scopes: &Scopes<'_>,
    place: Place,
    ident: &Ident,
) -> Result<StmtRowForm, TypeFault>
    ensures { AnswersPlain place result (then_ (w.walk_lock place ident.now (s.meaning scopes.now ident.now))
        (λ g. Ok (t.lock place g))) }
{
    let item = lock(alloc, scopes, place, ident)?;
    Ok(StmtRowForm::Lock(item))
}

// `unlock`.
fn type_unlock(
    alloc: Global,
    scopes: &Scopes<'_>,
    place: Place,
    ident: &Ident,
) -> Result<StmtRowForm, TypeFault>
    ensures { AnswersPlain place result (then_ (w.walk_lock place ident.now (s.meaning scopes.now ident.now))
        (λ g. Ok (t.unlock place g))) }
{
    let item = lock(alloc, scopes, place, ident)?;
    Ok(StmtRowForm::Unlock(item))
}

// The form of the row of a statement without parts.
fn form_of(
    alloc: Global,
    scopes: &Scopes<'_>,
    within: Within,
    stmt: &Stmt,
) -> Result<StmtRowForm, TypeFault>
    requires { IsPlain (stmt_tree stmt.now) }
    ensures { AnswersPlain stmt.now.place result (w.walk within.ret within.in_loop scopes.now (stmt_tree stmt.now)) }
{
    let place = stmt.place;
    match &stmt.form {
        StmtForm::Skip => Ok(StmtRowForm::Skip),
        StmtForm::Assign(target, operator, expr) => {
            type_assign(alloc, scopes, place, target, *operator, expr)
        }
        StmtForm::Call(keeper, ident, args) => {
            type_call(
                alloc,
                scopes,
                place,
                keeper.as_ref(),
                ident,
                args.as_slice(),
            )
        }
        StmtForm::Break => type_break(within.in_loop, place),
        StmtForm::Continue => type_continue(within.in_loop, place),
        StmtForm::Return(expr) => type_return(alloc, scopes, place, within.ret, expr),
        StmtForm::Lock(ident) => type_lock(alloc, scopes, place, ident),
        StmtForm::Unlock(ident) => type_unlock(alloc, scopes, place, ident),
        StmtForm::Print(expr) => type_print(alloc, scopes, place, expr),
        StmtForm::Declare(..)
        | StmtForm::Block(_)
        | StmtForm::If(..)
        | StmtForm::While(..)
        | StmtForm::Do(..)
        | StmtForm::For(..) => unreachable!(),
    }
}

/// A statement without parts, whose row is added after the others.
#[tactic(auto, using(crate::proofs::Nothing_declared::plain_locals, crate::proofs::Nothing_declared::plain_scope))]
pub fn plain(
    scopes: &Scopes<'_>,
    made: &mut Made,
    within: Within,
    stmt: &Stmt,
) -> Result<u32, TypeFault>
    requires { IsPlain (stmt_tree stmt.now) }
    ensures rows { StmtWalks made.old.rows.items made.new.rows.items result
        (w.walk within.ret within.in_loop scopes.now (stmt_tree stmt.now)) }
    ensures locals { OnOk result (made.new.locals.items ≡ made.old.locals.items ++ s.locals_of (stmt_tree stmt.now)) }
    ensures scope { scopes.now ≡ s.after scopes.now (stmt_tree stmt.now) }
{
    let form = form_of(made.alloc, scopes, within, stmt);
    made.plain(stmt.place, form)
}
