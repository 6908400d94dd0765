//! The walk of a statement with a set of locks, by its row: first fault, or the set with which it continues.

ghost use Rattle.std.specs.Prelude.{◌≡◌, ◌<◌, ◌≤◌, ◌+◌, ℕ, Option, Some, None, length, map, All};
ghost use Rattle.cas_base.specs.declared.place.Place.{Place};
ghost use Rattle.cas_own.specs.Flow as f;
ghost use Rattle.cas_own.specs.Flow.{Flow, flow, flow_all, flow_part};
ghost use Rattle.cas_check.specs.View.{IsPartWithin, IsTable, PartsAreWithin, Passes, Walked, optional_head, set_at, turns};
ghost use Rattle.cas_typed.specs.Numbered.{At, AreRows, IsPartRow, IsRow, optional_expr_tree};
ghost use Rattle.cas_typed.specs.Resolved as t;
ghost use Rattle.cas_typed.specs.Resolved.{TypedStmtTree, TypedStmtList, TypedStmtOption, typed_expr_tree, typed_target_tree};

use crate::flow::{Halt, Head, Onward};
use crate::items::Table;
use crate::locks::Locks;
use crate::loops::{check_back, joined, leave};
use crate::simple::{
    check_assign, check_call, check_lock, check_print, check_return, check_unlock,
};
use crate::uses::{check_expr, check_optional};
use cas_base::Place;
use cas_typed::{StmtRow, StmtRowForm, TypedExpr};
use std::alloc::Global;

/// A function's body in its module: what the module's declarations say of locks, the rows of the function's statements,
/// and the set of locks that its caller holds.
#[derive(Clone, Copy)]
pub struct Body<'a> {
    pub table: &'a Table<'a>,
    pub rows: &'a [StmtRow],
    pub own: &'a Locks,
}

// The row with this number.
#[tactic(auto, using(crate::proofs::Rows_walked::row_at, crate::proofs::Rows_walked::row_is))]
fn row_at(rows: &[StmtRow], n: u32) -> &StmtRow
    requires table { IsTable rows.now }
    requires within { n < length rows.now }
    ensures parts { PartsAreWithin n (length rows.now) result.now.form }
    ensures stands { (a : TypedStmtTree) → At rows.now n (IsRow rows.now n a) →
        IsRow rows.now n a result.now.place result.now.form }
{
    &rows[n as usize]
}

/// Walks the statement with this number, which stands in this loop if in one, with this set.
#[cycle(walk)]
pub fn walk(
    alloc: Global,
    body: Body<'_>,
    head: Option<Head<'_>>,
    n: u32,
    set: &Locks,
) -> Result<Onward, Halt>
    requires table { IsTable body.rows.now }
    requires within { n < length body.rows.now }
    ensures { (a : TypedStmtTree) → At body.entry.rows.now n (IsRow body.entry.rows.now n a)
        → Walked set.now result (flow body.entry.table.now body.entry.own.now (optional_head head.entry) a set.now) }
{
    walk_row(alloc, body, head, n, row_at(body.rows, n), set)
}

// The same, with the statement's row.
#[cycle(walk)]
fn walk_row(
    alloc: Global,
    body: Body<'_>,
    head: Option<Head<'_>>,
    n: u32,
    row: &StmtRow,
    set: &Locks,
) -> Result<Onward, Halt>
    requires table { IsTable body.rows.now }
    requires within { n < length body.rows.now }
    requires parts { PartsAreWithin n (length body.rows.now) row.now.form }
    ensures { (a : TypedStmtTree) → IsRow body.entry.rows.now n a row.now.place row.now.form
        → Walked set.now result (flow body.entry.table.now body.entry.own.now (optional_head head.entry) a set.now) }
{
    match &row.form {
        StmtRowForm::Skip => Ok(Onward::Same),
        StmtRowForm::Assign(target, value) => check_assign(body.table, set, target, value),
        StmtRowForm::Call(_, item, place, args) => {
            check_call(body.table, set, *item, *place, args.as_slice())
        }
        StmtRowForm::Block(parts) => {
            walk_all(alloc, body, head, n as usize + 1, parts.as_slice(), set)
        }
        StmtRowForm::If(condition, first, second) => branch(
            alloc, body, head, n, row.place, condition, *first, *second, set,
        ),
        StmtRowForm::While(condition, inner) => {
            while_loop(alloc, body, n, row.place, condition, *inner, set)
        }
        StmtRowForm::Do(inner, condition) => {
            do_loop(alloc, body, n, row.place, *inner, condition, set)
        }
        StmtRowForm::For(first, condition, after, inner) => for_loop(
            alloc, body, n, row.place, *first, condition, *after, *inner, set,
        ),
        StmtRowForm::Break => leave(head, row.place, set),
        StmtRowForm::Continue => leave(head, row.place, set),
        StmtRowForm::Return(value) => check_return(body.table, body.own, set, row.place, value),
        StmtRowForm::Lock(lock) => check_lock(alloc, set, row.place, *lock),
        StmtRowForm::Unlock(lock) => check_unlock(alloc, set, row.place, *lock),
        StmtRowForm::Print(value) => check_print(body.table, set, value),
    }
}

// A part of the statement n that may be missing.
#[cycle(walk)]
fn walk_part(
    alloc: Global,
    body: Body<'_>,
    head: Option<Head<'_>>,
    n: u32,
    part: Option<u32>,
    set: &Locks,
) -> Result<Onward, Halt>
    requires table { IsTable body.rows.now }
    requires within { IsPartWithin n (length body.rows.now) part }
    ensures { (m : ℕ) (o : TypedStmtOption) → IsPartRow body.entry.rows.now m o part
        → Walked set.now result (flow_part body.entry.table.now body.entry.own.now
        (optional_head head.entry) o set.now) }
{
    match part {
        Some(part) => walk(alloc, body, head, part, set),
        None => Ok(Onward::Same),
    }
}

/// Walks statements one after another, whose numbers are at least this.
#[cycle(walk)]
pub fn walk_all(
    alloc: Global,
    body: Body<'_>,
    head: Option<Head<'_>>,
    least: usize,
    parts: &[u32],
    set: &Locks,
) -> Result<Onward, Halt>
    requires table { IsTable body.rows.now }
    requires within { All (λ i. (least ≤ i) × (i < length body.rows.now)) parts.now }
    ensures { (m : ℕ) (bs : TypedStmtList) → AreRows body.entry.rows.now m bs parts.now
        → Walked set.now result (flow_all body.entry.table.now body.entry.own.now (optional_head head.entry) bs
        (Some set.now)) }
{
    let mut onward = Onward::Same;
    for part in parts {
        match onward.locks(set) {
            None => return Ok(Onward::Nowhere),
            Some(now) => {
                let next = walk(alloc, body, head, *part, now)?;
                onward = onward.then(next);
            }
        }
    }
    Ok(onward)
}

#[cycle(walk)]
fn branch(
    alloc: Global,
    body: Body<'_>,
    head: Option<Head<'_>>,
    n: u32,
    place: Place,
    condition: &TypedExpr,
    first: u32,
    second: Option<u32>,
    set: &Locks,
) -> Result<Onward, Halt>
    requires table { IsTable body.rows.now }
    requires first { (n < first) × (first < length body.rows.now) }
    requires second { IsPartWithin n (length body.rows.now) second }
    ensures { (a : TypedStmtTree) (m : ℕ) (o : TypedStmtOption) →
        At body.entry.rows.now first (IsRow body.entry.rows.now first a)
        → IsPartRow body.entry.rows.now m o second
        → Walked set.now result (flow body.entry.table.now body.entry.own.now (optional_head head.entry)
        (t.if_ place (typed_expr_tree condition.now) a o) set.now) }
{
    check_expr(body.table, set, condition)?;
    let yes = walk(alloc, body, head, first, set)?;
    let no = walk_part(alloc, body, head, n, second, set)?;
    joined(place, set, yes, no)
}

// The body of a loop, which comes back to the loop's head with the set there.
#[cycle(walk)]
fn turn(
    alloc: Global,
    body: Body<'_>,
    n: u32,
    place: Place,
    inner: u32,
    set: &Locks,
) -> Result<(), Halt>
    requires table { IsTable body.rows.now }
    requires inner { (n < inner) × (inner < length body.rows.now) }
    ensures { (a : TypedStmtTree) (next : Flow) → At body.entry.rows.now inner (IsRow body.entry.rows.now inner a)
        → Passes result next (f.after (flow body.entry.table.now body.entry.own.now
        (Some (record { place = place; set = set.now })) a set.now)
        (λ o. f.back (record { place = place; set = set.now }) o next)) }
{
    let head = Head { place, set };
    let onward = walk(alloc, body, Some(head), inner, set)?;
    check_back(head, onward.locks(set))
}

// The last part of a `for`, which comes back to the loop's head with the set there.
#[cycle(walk)]
fn last(
    alloc: Global,
    body: Body<'_>,
    n: u32,
    place: Place,
    after: Option<u32>,
    set: &Locks,
) -> Result<(), Halt>
    requires table { IsTable body.rows.now }
    requires after { IsPartWithin n (length body.rows.now) after }
    ensures { (m : ℕ) (u : TypedStmtOption) (next : Flow) → IsPartRow body.entry.rows.now m u after
        → Passes result next (f.after (flow_part body.entry.table.now body.entry.own.now None u set.now)
        (λ o. f.back (record { place = place; set = set.now }) o next)) }
{
    let onward = walk_part(alloc, body, None, n, after, set)?;
    check_back(Head { place, set }, onward.locks(set))
}

#[cycle(walk)]
fn while_loop(
    alloc: Global,
    body: Body<'_>,
    n: u32,
    place: Place,
    condition: &TypedExpr,
    inner: u32,
    set: &Locks,
) -> Result<Onward, Halt>
    requires table { IsTable body.rows.now }
    requires inner { (n < inner) × (inner < length body.rows.now) }
    ensures { (h : Option f.Head) (a : TypedStmtTree) → At body.entry.rows.now inner (IsRow body.entry.rows.now inner a)
        → Walked set.now result (flow body.entry.table.now body.entry.own.now h
        (t.while_ place (typed_expr_tree condition.now) a) set.now) }
{
    check_expr(body.table, set, condition)?;
    turn(alloc, body, n, place, inner, set)?;
    Ok(Onward::Same)
}

#[cycle(walk)]
fn do_loop(
    alloc: Global,
    body: Body<'_>,
    n: u32,
    place: Place,
    inner: u32,
    condition: &TypedExpr,
    set: &Locks,
) -> Result<Onward, Halt>
    requires table { IsTable body.rows.now }
    requires inner { (n < inner) × (inner < length body.rows.now) }
    ensures { (h : Option f.Head) (a : TypedStmtTree) → At body.entry.rows.now inner (IsRow body.entry.rows.now inner a)
        → Walked set.now result (flow body.entry.table.now body.entry.own.now h
        (t.do_ place a (typed_expr_tree condition.now)) set.now) }
{
    turn(alloc, body, n, place, inner, set)?;
    check_expr(body.table, set, condition)?;
    Ok(Onward::Same)
}

// The turns of a `for`, from the set after its first part on.
#[cycle(walk)]
fn turns(
    alloc: Global,
    body: Body<'_>,
    n: u32,
    place: Place,
    condition: &Option<TypedExpr>,
    after: Option<u32>,
    inner: u32,
    set: &Locks,
) -> Result<(), Halt>
    requires table { IsTable body.rows.now }
    requires after { IsPartWithin n (length body.rows.now) after }
    requires inner { (n < inner) × (inner < length body.rows.now) }
    ensures { (m : ℕ) (u : TypedStmtOption) (a : TypedStmtTree) (next : Flow) → IsPartRow body.entry.rows.now m u after
        → At body.entry.rows.now inner (IsRow body.entry.rows.now inner a)
        → Passes result next (turns body.entry.table.now body.entry.own.now place
        (optional_expr_tree condition.now) u a set.now next) }
{
    check_optional(body.table, set, condition)?;
    turn(alloc, body, n, place, inner, set)?;
    last(alloc, body, n, place, after, set)
}

// The same, if the first part continues.
#[cycle(walk)]
fn turns_from(
    alloc: Global,
    body: Body<'_>,
    n: u32,
    place: Place,
    condition: &Option<TypedExpr>,
    after: Option<u32>,
    inner: u32,
    start: Option<&Locks>,
) -> Result<(), Halt>
    requires table { IsTable body.rows.now }
    requires after { IsPartWithin n (length body.rows.now) after }
    requires inner { (n < inner) × (inner < length body.rows.now) }
    ensures { (m : ℕ) (u : TypedStmtOption) (a : TypedStmtTree) → IsPartRow body.entry.rows.now m u after
        → At body.entry.rows.now inner (IsRow body.entry.rows.now inner a)
        → Passes result (f.on (set_at start.entry)) (f.with_set (set_at start.entry)
        (λ r. turns body.entry.table.now body.entry.own.now place (optional_expr_tree condition.now) u a r
        (f.on (Some r)))) }
{
    match start {
        None => Ok(()),
        Some(set) => turns(alloc, body, n, place, condition, after, inner, set),
    }
}

#[cycle(walk)]
fn for_loop(
    alloc: Global,
    body: Body<'_>,
    n: u32,
    place: Place,
    first: Option<u32>,
    condition: &Option<TypedExpr>,
    after: Option<u32>,
    inner: u32,
    set: &Locks,
) -> Result<Onward, Halt>
    requires table { IsTable body.rows.now }
    requires first { IsPartWithin n (length body.rows.now) first }
    requires after { IsPartWithin n (length body.rows.now) after }
    requires inner { (n < inner) × (inner < length body.rows.now) }
    ensures { (h : Option f.Head) (k m : ℕ) (i u : TypedStmtOption) (a : TypedStmtTree) →
        IsPartRow body.entry.rows.now k i first
        → IsPartRow body.entry.rows.now m u after → At body.entry.rows.now inner (IsRow body.entry.rows.now inner a)
        → Walked set.now result (flow body.entry.table.now body.entry.own.now h
        (t.for_ place i (optional_expr_tree condition.now) u a) set.now) }
{
    let onward = walk_part(alloc, body, None, n, first, set)?;
    turns_from(
        alloc,
        body,
        n,
        place,
        condition,
        after,
        inner,
        onward.locks(set),
    )?;
    Ok(onward)
}
