//! The locals whose pointers a function makes.

ghost use Rattle.std.specs.Prelude.{◌≡◌, ◌++◌, OnOk, IfOk, length};
ghost use Rattle.cas_type.specs.Parts as p;
ghost use Rattle.cas_typed.specs.Resolved.{typed_expr_tree, typed_target_tree};

use cas_base::NoMemory;
use cas_typed::{StmtRow, StmtRowForm, TypedExpr, TypedTarget};
use std::alloc::Global;

/// Those of an expression, after those found so far.
pub fn of_expr(found: &mut Vec<u32>, expr: &TypedExpr) -> Result<(), NoMemory>
    ensures { OnOk result (found.new.items ≡ found.old.items ++ p.pointers_of (typed_expr_tree expr.now)) }
{
    match expr {
        TypedExpr::Literal(_) => Ok(()),
        TypedExpr::Null => Ok(()),
        TypedExpr::Local(_) => Ok(()),
        TypedExpr::Global(_, _) => Ok(()),
        TypedExpr::Element(_, _, _, a) => of_expr(found, a),
        TypedExpr::PlaceOf(local) => {
            found.push(*local)?;
            Ok(())
        }
        TypedExpr::Behind(_, a) => of_expr(found, a),
        TypedExpr::Unary(_, a) => of_expr(found, a),
        TypedExpr::Narrow(_, a) => of_expr(found, a),
        TypedExpr::PointerPlus(_, a, b)
        | TypedExpr::PlusPointer(_, a, b)
        | TypedExpr::PointerMinus(_, a, b)
        | TypedExpr::Compare(_, a, b)
        | TypedExpr::Binary(_, _, a, b)
        | TypedExpr::PointerDifference(a, b)
        | TypedExpr::And(a, b)
        | TypedExpr::Or(a, b) => {
            of_expr(found, a)?;
            of_expr(found, b)
        }
        TypedExpr::Choose(c, a, b) => {
            of_expr(found, c)?;
            of_expr(found, a)?;
            of_expr(found, b)
        }
    }
}

// Those of what an assignment writes.
fn of_target(found: &mut Vec<u32>, target: &TypedTarget) -> Result<(), NoMemory>
    ensures { OnOk result (found.new.items ≡ found.old.items ++ p.pointers_of_target (typed_target_tree target.now)) }
{
    match target {
        TypedTarget::Local(_) => Ok(()),
        TypedTarget::Global(_, _) => Ok(()),
        TypedTarget::Element(_, _, _, index) => of_expr(found, index),
        TypedTarget::Behind(_, pointer) => of_expr(found, pointer),
    }
}

// Those of an expression that may be missing.
fn of_optional(found: &mut Vec<u32>, expr: &Option<TypedExpr>) -> Result<(), NoMemory>
    ensures { OnOk result (found.new.items ≡ found.old.items ++ p.pointers_of_optional expr.now) }
{
    match expr {
        Some(expr) => of_expr(found, expr),
        None => Ok(()),
    }
}

// Those of arguments.
fn of_exprs(found: &mut Vec<u32>, exprs: &[TypedExpr]) -> Result<(), NoMemory>
    ensures { OnOk result (found.new.items ≡ found.old.items ++ p.pointers_of_exprs exprs.now) }
{
    let mut rest = exprs;
    'each: while let Some((expr, others)) = rest.split_first() {
        of_expr(found, expr)?;
        rest = others;
    }
    Ok(())
}

// Those of a row, without its parts.
fn of_row(found: &mut Vec<u32>, form: &StmtRowForm) -> Result<(), NoMemory>
    ensures { OnOk result (found.new.items ≡ found.old.items ++ p.pointers_of_row form.now) }
{
    match form {
        StmtRowForm::Skip => Ok(()),
        StmtRowForm::Assign(target, value) => {
            of_target(found, target)?;
            of_expr(found, value)
        }
        StmtRowForm::Call(_, _, _, args) => of_exprs(found, args.as_slice()),
        StmtRowForm::Block(_) => Ok(()),
        StmtRowForm::If(condition, _, _) => of_expr(found, condition),
        StmtRowForm::While(condition, _) => of_expr(found, condition),
        StmtRowForm::Do(_, condition) => of_expr(found, condition),
        StmtRowForm::For(_, condition, _, _) => of_optional(found, condition),
        StmtRowForm::Break => Ok(()),
        StmtRowForm::Continue => Ok(()),
        StmtRowForm::Return(value) => of_optional(found, value),
        StmtRowForm::Lock(_) => Ok(()),
        StmtRowForm::Unlock(_) => Ok(()),
        StmtRowForm::Print(value) => of_expr(found, value),
    }
}

/// Those of a function's rows.
pub fn of_rows(alloc: Global, rows: &[StmtRow]) -> Result<Vec<u32>, NoMemory>
    ensures { IfOk result (λ found. found.items ≡ p.pointers_of_rows rows.now) }
{
    let mut found = Vec::new(alloc);
    let mut rest = rows;
    'each: while let Some((row, others)) = rest.split_first() {
        of_row(&mut found, &row.form)?;
        rest = others;
    }
    Ok(found)
}
