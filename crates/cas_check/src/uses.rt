//! The names of shared globals in expressions: the guard of each is in the set.

ghost use Rattle.std.specs.Prelude.{◌≡◌, [], ◌∷◌, ℕ, List, map};
ghost use Rattle.cas_own.specs.Flow.{Flow, guarded, held};
ghost use Rattle.cas_own.specs.Locks.{guard_of};
ghost use Rattle.cas_own.specs.Uses.{Use, argument_uses, option_uses, target_uses, use_of, uses};
ghost use Rattle.cas_check.specs.View.{Passes};
ghost use Rattle.cas_own.specs.declared.fault.OwnCode.TheVariants.{O1};
ghost use Rattle.cas_typed.specs.Numbered.{optional_expr_tree};
ghost use Rattle.cas_typed.specs.Resolved.{typed_expr_tree, typed_target_tree};

use crate::flow::Halt;
use crate::items::Table;
use crate::locks::Locks;
use cas_base::Place;
use cas_own::OwnCode;
use cas_typed::{TypedExpr, TypedTarget};

// A name of a global, whose guard is in the set.
fn check_use(table: &Table<'_>, set: &Locks, item: u32, place: Place) -> Result<(), Halt>
    ensures { (us : List Use) (next : Flow) → Passes result (guarded table.now set.now us next)
        (guarded table.now set.now (use_of item place ∷ us) next) }
{
    match table.guard(item) {
        None => Ok(()),
        Some(lock) => {
            if set.has(lock) {
                Ok(())
            } else {
                Err(Halt::Fault(OwnCode::O1, place, lock))
            }
        }
    }
}

// A name of a global, and no more.
fn check_one(table: &Table<'_>, set: &Locks, item: u32, place: Place) -> Result<(), Halt>
    ensures { (next : Flow) → Passes result next (guarded table.now set.now (use_of item place ∷ []) next) }
{
    check_use(table, set, item, place)
}

/// The names in an expression.
#[tactic(auto, using(crate::proofs::Steps::guarded_append))]
pub fn check_expr(table: &Table<'_>, set: &Locks, expr: &TypedExpr) -> Result<(), Halt>
    ensures { (next : Flow) → Passes result next (guarded table.now set.now (uses (typed_expr_tree expr.now)) next) }
{
    match expr {
        TypedExpr::Literal(_) => Ok(()),
        TypedExpr::Null => Ok(()),
        TypedExpr::Local(_) => Ok(()),
        TypedExpr::Global(item, place) => check_one(table, set, *item, *place),
        TypedExpr::Element(item, place, _, a) => {
            check_use(table, set, *item, *place)?;
            check_expr(table, set, a)
        }
        TypedExpr::PlaceOf(_) => Ok(()),
        TypedExpr::Behind(_, a) => check_expr(table, set, a),
        TypedExpr::Unary(_, a) => check_expr(table, set, a),
        TypedExpr::Narrow(_, a) => check_expr(table, set, a),
        TypedExpr::PointerPlus(_, a, b)
        | TypedExpr::PlusPointer(_, a, b)
        | TypedExpr::PointerMinus(_, a, b)
        | TypedExpr::Compare(_, a, b)
        | TypedExpr::Binary(_, _, a, b)
        | TypedExpr::PointerDifference(a, b)
        | TypedExpr::And(a, b)
        | TypedExpr::Or(a, b) => {
            check_expr(table, set, a)?;
            check_expr(table, set, b)
        }
        TypedExpr::Choose(c, a, b) => {
            check_expr(table, set, c)?;
            check_expr(table, set, a)?;
            check_expr(table, set, b)
        }
    }
}

/// The names in what an assignment writes.
pub fn check_target(table: &Table<'_>, set: &Locks, target: &TypedTarget) -> Result<(), Halt>
    ensures { (next : Flow) → Passes result next (guarded table.now set.now
        (target_uses (typed_target_tree target.now)) next) }
{
    match target {
        TypedTarget::Local(_) => Ok(()),
        TypedTarget::Global(item, place) => check_one(table, set, *item, *place),
        TypedTarget::Element(item, place, _, index) => {
            check_use(table, set, *item, *place)?;
            check_expr(table, set, index)
        }
        TypedTarget::Behind(_, pointer) => check_expr(table, set, pointer),
    }
}

/// The names in an expression that may be missing.
pub fn check_optional(table: &Table<'_>, set: &Locks, expr: &Option<TypedExpr>) -> Result<(), Halt>
    ensures { (next : Flow) → Passes result next (guarded table.now set.now
        (option_uses (optional_expr_tree expr.now)) next) }
{
    match expr {
        Some(expr) => check_expr(table, set, expr),
        None => Ok(()),
    }
}

/// The names in arguments.
#[tactic(auto, using(crate::proofs::Steps::guarded_append))]
pub fn check_arguments(table: &Table<'_>, set: &Locks, args: &[TypedExpr]) -> Result<(), Halt>
    ensures { (next : Flow) → Passes result next (guarded table.now set.now
        (argument_uses (map typed_expr_tree args.now)) next) }
{
    let mut rest = args;
    'each: while let Some((arg, others)) = rest.split_first() {
        check_expr(table, set, arg)?;
        rest = others;
    }
    Ok(())
}

// A lock that a called function's caller holds is in the set.
fn check_lock_held(set: &Locks, lock: u32, place: Place) -> Result<(), Halt>
    ensures { (ls : List ℕ) (next : Flow) → Passes result (held place set.now ls next)
        (held place set.now (lock ∷ ls) next) }
{
    if set.has(lock) {
        Ok(())
    } else {
        Err(Halt::Fault(OwnCode::O2, place, lock))
    }
}

/// The locks that a called function's caller holds are in the set.
pub fn check_held(set: &Locks, locks: &[u32], place: Place) -> Result<(), Halt>
    ensures { (next : Flow) → Passes result next (held place set.now locks.now next) }
{
    let mut rest = locks;
    'each: while let Some((lock, others)) = rest.split_first() {
        check_lock_held(set, *lock, place)?;
        rest = others;
    }
    Ok(())
}
