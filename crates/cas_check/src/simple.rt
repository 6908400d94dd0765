//! The walk of statements without parts.

ghost use Rattle.std.specs.Prelude.{◌++◌, ℕ, map, Some, None, if◌then◌else◌};
ghost use Rattle.cas_base.specs.declared.place.Place.{Place};
ghost use Rattle.cas_own.specs.Flow.{fault, guarded, held, on, same};
ghost use Rattle.cas_own.specs.Locks.{has, having, holds_of, without};
ghost use Rattle.cas_own.specs.Uses.{argument_uses, option_uses, target_uses, uses};
ghost use Rattle.cas_check.specs.View.{Walked};
ghost use Rattle.cas_own.specs.declared.fault.OwnCode.TheVariants.{O5, O6, O7};
ghost use Rattle.cas_typed.specs.Numbered.{optional_expr_tree};
ghost use Rattle.cas_typed.specs.Resolved.{typed_expr_tree, typed_target_tree};

use crate::flow::{Halt, Onward};
use crate::items::Table;
use crate::locks::Locks;
use crate::loops::check_same;
use crate::uses::{check_arguments, check_expr, check_held, check_optional, check_target};
use cas_base::Place;
use cas_own::OwnCode;
use cas_typed::{TypedExpr, TypedTarget};
use std::alloc::Global;

/// An assignment.
#[tactic(auto, using(crate::proofs::Steps::guarded_append))]
pub fn check_assign(
    table: &Table<'_>,
    set: &Locks,
    target: &TypedTarget,
    value: &TypedExpr,
) -> Result<Onward, Halt>
    ensures { Walked set.now result (guarded table.now set.now
        (target_uses (typed_target_tree target.now) ++ uses (typed_expr_tree value.now)) (on (Some set.now))) }
{
    check_target(table, set, target)?;
    check_expr(table, set, value)?;
    Ok(Onward::Same)
}

/// A call of the function with this number, which is named at this place.
pub fn check_call(
    table: &Table<'_>,
    set: &Locks,
    item: u32,
    place: Place,
    args: &[TypedExpr],
) -> Result<Onward, Halt>
    ensures { Walked set.now result (guarded table.now set.now (argument_uses (map typed_expr_tree args.now))
        (held place set.now (holds_of table.now item) (on (Some set.now)))) }
{
    check_arguments(table, set, args)?;
    check_held(set, table.holds(item), place)?;
    Ok(Onward::Same)
}

/// A return from a function whose caller holds these locks.
pub fn check_return(
    table: &Table<'_>,
    own: &Locks,
    set: &Locks,
    place: Place,
    value: &Option<TypedExpr>,
) -> Result<Onward, Halt>
    ensures { Walked set.now result (guarded table.now set.now (option_uses (optional_expr_tree value.now))
        (same O5 place own.now set.now (on None))) }
{
    check_optional(table, set, value)?;
    check_same(OwnCode::O5, place, own, set)?;
    Ok(Onward::Nowhere)
}

/// A lock is taken.
pub fn check_lock(alloc: Global, set: &Locks, place: Place, lock: u32) -> Result<Onward, Halt>
    ensures { Walked set.now result (if has set.now lock then fault O6 place lock else on
        (Some (having set.now lock))) }
{
    if set.has(lock) {
        return Err(Halt::Fault(OwnCode::O6, place, lock));
    }
    Ok(Onward::With(set.with(alloc, lock)?))
}

/// A lock is released.
pub fn check_unlock(alloc: Global, set: &Locks, place: Place, lock: u32) -> Result<Onward, Halt>
    ensures { Walked set.now result (if has set.now lock then on
        (Some (without set.now lock)) else fault O7 place lock) }
{
    if !set.has(lock) {
        return Err(Halt::Fault(OwnCode::O7, place, lock));
    }
    Ok(Onward::With(set.without(alloc, lock)?))
}

/// A value is output.
pub fn check_print(table: &Table<'_>, set: &Locks, value: &TypedExpr) -> Result<Onward, Halt>
    ensures { Walked set.now result (guarded table.now set.now (uses (typed_expr_tree value.now)) (on (Some set.now))) }
{
    check_expr(table, set, value)?;
    Ok(Onward::Same)
}
