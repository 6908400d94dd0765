//! The continuation after an item. The items are in a vector, the first one last. The call took room for all of them,
//! so none of this allocates.

ghost use Rattle.std.specs.Prelude.{◌≡◌, ◌∷◌, ◌+◌, ◌≤◌, List, IfNone, IfSome, None, ℕ, Option, Some, length, reverse, slice_get, vec_capacity, vec_len};
ghost use Rattle.cas_base.specs.declared.place.Place.{Place};
ghost use Rattle.cas_step.specs.Evaluate.{either};
ghost use Rattle.cas_step.specs.Continuation as items;
ghost use Rattle.cas_step.specs.Continuation.{begin, begun, loop, next, begin_all, begin_part, after_break, after_continue};
ghost use Rattle.cas_thread.specs.Control.{after, after_statement, if_any};
ghost use Rattle.cas_thread.specs.Room.{HasRoom, IsNextAt, IsNextForm, room_for};
ghost use Rattle.cas_thread.specs.Continuations.{AreAt, IsAt, IsBegunRow, IsLoopRow, IsNextRow, IsPart, IsContinuation};
ghost use Rattle.cas_typed.specs.Numbered.{At, IsRow};
ghost use Rattle.cas_typed.specs.Resolved.{TypedExprTree, TypedStmtList, TypedStmtOption, TypedStmtTree};

use crate::continuation::ContItem;
use cas_typed::{StmtRow, StmtRowForm};

// Removes all up to and with the nearest loop.
fn leave_loop(rows: &[StmtRow], cont: &mut Vec<ContItem>)
    ensures shows { (it : List items.ContItem) → IsContinuation rows.now (reverse cont.old.items) it →
        IsContinuation rows.now (reverse cont.new.items) (if_any (after_break it)) }
    ensures room { vec_capacity cont.new ≡ vec_capacity cont.old }
{
    while let Some(item) = cont.pop() {
        match item {
            ContItem::Begun(_) => return,
            ContItem::Loop(_) => return,
            ContItem::Begin(_) => {}
            ContItem::Next(_) => {}
        }
    }
}

// Removes all up to the nearest turn of a loop, which stays.
fn next_turn(rows: &[StmtRow], cont: &mut Vec<ContItem>)
    ensures shows { (it : List items.ContItem) → IsContinuation rows.now (reverse cont.old.items) it →
        IsContinuation rows.now (reverse cont.new.items) (if_any (after_continue it)) }
    ensures room { vec_capacity cont.new ≡ vec_capacity cont.old }
{
    while let Some(item) = cont.pop() {
        match item {
            ContItem::Begun(_) => {
                cont.push_reserved(item);
                return;
            }
            ContItem::Next(_) => {
                cont.push_reserved(item);
                return;
            }
            ContItem::Begin(_) => {}
            ContItem::Loop(_) => {}
        }
    }
}

/// Statements before the items.
pub(crate) fn begin_each(rows: &[StmtRow], cont: &mut Vec<ContItem>, parts: &[u32])
    requires room { vec_len cont.old + length parts.now ≤ vec_capacity cont.old }
    ensures shows { (bs : TypedStmtList) (it : List items.ContItem) → AreAt rows.now bs parts.now →
        IsContinuation rows.now (reverse cont.old.items) it
        → IsContinuation rows.now (reverse cont.new.items) (begin_all bs it) }
    ensures room { vec_capacity cont.new ≡ vec_capacity cont.old }
{
    let mut left = parts.len();
    while left > 0 {
        left -= 1;
        cont.push_reserved(ContItem::Begin(parts[left]));
    }
}

// A part that may be missing before the items.
fn begin_some(rows: &[StmtRow], cont: &mut Vec<ContItem>, part: Option<u32>)
    requires room { vec_len cont.old + 1 ≤ vec_capacity cont.old }
    ensures shows { (o : TypedStmtOption) (it : List items.ContItem) → IsPart rows.now o part →
        IsContinuation rows.now (reverse cont.old.items) it
        → IsContinuation rows.now (reverse cont.new.items) (begin_part o it) }
    ensures room { vec_capacity cont.new ≡ vec_capacity cont.old }
    ensures len { vec_len cont.new ≤ vec_len cont.old + 1 }
{
    if let Some(number) = part {
        cont.push_reserved(ContItem::Begin(number));
    }
}

// One part or the other before the items.
fn begin_either(
    rows: &[StmtRow],
    cont: &mut Vec<ContItem>,
    first: u32,
    second: Option<u32>,
    holds: bool,
)
    requires room { vec_len cont.old + 1 ≤ vec_capacity cont.old }
    ensures shows { (a : TypedStmtTree) (o : TypedStmtOption) (it : List items.ContItem) → IsAt rows.now first a →
        IsPart rows.now o second
        → IsContinuation rows.now (reverse cont.old.items) it →
        IsContinuation rows.now (reverse cont.new.items) (either (begin a ∷ it) (begin_part o it) holds) }
    ensures room { vec_capacity cont.new ≡ vec_capacity cont.old }
{
    if holds {
        cont.push_reserved(ContItem::Begin(first));
    } else {
        begin_some(rows, cont, second);
    }
}

// A turn of a `while` or `do`, or its end.
fn turn(rows: &[StmtRow], cont: &mut Vec<ContItem>, number: u32, body: u32, holds: bool)
    requires room { vec_len cont.old + 2 ≤ vec_capacity cont.old }
    ensures shows { (p : Place) (c : TypedExprTree) (a : TypedStmtTree) (it : List items.ContItem) →
        At rows.now number (IsBegunRow rows.now p c a)
        → IsAt rows.now body a → IsContinuation rows.now (reverse cont.old.items) it
        → IsContinuation rows.now (reverse cont.new.items) (either (begin a ∷ begun p c a ∷ it) it holds) }
    ensures room { vec_capacity cont.new ≡ vec_capacity cont.old }
{
    if holds {
        cont.push_reserved(ContItem::Begun(number));
        cont.push_reserved(ContItem::Begin(body));
    }
}

// The first part of a `for` before its turns.
fn begin_for(rows: &[StmtRow], cont: &mut Vec<ContItem>, number: u32, first: Option<u32>)
    requires room { vec_len cont.old + 2 ≤ vec_capacity cont.old }
    ensures shows { (p : Place) (i : TypedStmtOption) (c : Option TypedExprTree) (u : TypedStmtOption)
        (a : TypedStmtTree) (it : List items.ContItem)
        → At rows.now number (IsLoopRow rows.now p c u a) → IsPart rows.now i first →
        IsContinuation rows.now (reverse cont.old.items) it
        → IsContinuation rows.now (reverse cont.new.items) (begin_part i (loop p c u a ∷ it)) }
    ensures room { vec_capacity cont.new ≡ vec_capacity cont.old }
{
    cont.push_reserved(ContItem::Loop(number));
    begin_some(rows, cont, first);
}

// A turn of a `for`, or its end.
fn turn_for(rows: &[StmtRow], cont: &mut Vec<ContItem>, number: u32, body: u32, holds: bool)
    requires room { vec_len cont.old + 3 ≤ vec_capacity cont.old }
    ensures shows { (p : Place) (c : Option TypedExprTree) (u : TypedStmtOption) (a : TypedStmtTree)
        (it : List items.ContItem)
        → At rows.now number (IsLoopRow rows.now p c u a) → At rows.now number (IsNextRow rows.now p u) →
        IsAt rows.now body a
        → IsContinuation rows.now (reverse cont.old.items) it
        → IsContinuation rows.now (reverse cont.new.items) (either (begin a ∷ next p u ∷ loop p c u a ∷ it) it holds) }
    ensures room { vec_capacity cont.new ≡ vec_capacity cont.old }
{
    if holds {
        cont.push_reserved(ContItem::Loop(number));
        cont.push_reserved(ContItem::Next(number));
        cont.push_reserved(ContItem::Begin(body));
    }
}

// The continuation after a statement, by its row.
#[tactic(auto, using(crate::proofs::Beginning::rows_at))]
fn begin_statement(
    rows: &[StmtRow],
    cont: &mut Vec<ContItem>,
    number: u32,
    row: &StmtRow,
    holds: bool,
)
    requires stands { slice_get rows.now number ≡ Some row.now }
    requires room { vec_len cont.old + room_for row.now.form ≤ vec_capacity cont.old }
    ensures shows { (a : TypedStmtTree) (it : List items.ContItem) →
        IsRow rows.now number a row.now.place row.now.form → IsContinuation rows.now (reverse cont.old.items) it
        → IsContinuation rows.now (reverse cont.new.items) (after_statement holds a it) }
    ensures room { vec_capacity cont.new ≡ vec_capacity cont.old }
{
    match &row.form {
        StmtRowForm::Block(parts) => begin_each(rows, cont, parts.as_slice()),
        StmtRowForm::If(_, first, second) => begin_either(rows, cont, *first, *second, holds),
        StmtRowForm::While(_, body) => turn(rows, cont, number, *body, holds),
        StmtRowForm::Do(body, _) => turn(rows, cont, number, *body, true),
        StmtRowForm::For(first, _, _, _) => begin_for(rows, cont, number, *first),
        StmtRowForm::Break => leave_loop(rows, cont),
        StmtRowForm::Continue => next_turn(rows, cont),
        _ => {}
    }
}

/// The row with this number.
#[tactic(auto, using(crate::proofs::Getting::get_there, crate::proofs::Getting::get_past))]
pub(crate) fn row_at(rows: &[StmtRow], number: u32) -> Option<&StmtRow>
    ensures some { IfSome result (λ row. slice_get rows.now number ≡ Some row.now) }
    ensures none { IfNone result (slice_get rows.now number ≡ None) }
{
    rows.get(number as usize)
}

// The body of a `while` or `do`.
fn turned(row: &StmtRow) -> Option<u32>
    ensures some { IfSome result (λ body. (rows : List StmtRow) (p : Place) (c : TypedExprTree) (a : TypedStmtTree)
        → IsBegunRow rows p c a row.now.place row.now.form → IsAt rows body a) }
    ensures none { IfNone result ((rows : List StmtRow) (p : Place) (c : TypedExprTree) (a : TypedStmtTree)
        → ¬ (IsBegunRow rows p c a row.now.place row.now.form)) }
{
    match &row.form {
        StmtRowForm::While(_, body) => Some(*body),
        StmtRowForm::Do(body, _) => Some(*body),
        _ => None,
    }
}

// What a `for` does after a turn, if there is something, and its body.
fn turned_for(row: &StmtRow) -> Option<(Option<u32>, u32)>
    ensures body { IfSome result (λ parts. (rows : List StmtRow) (p : Place) (c : Option TypedExprTree)
        (u : TypedStmtOption) (a : TypedStmtTree)
        → IsLoopRow rows p c u a row.now.place row.now.form → IsAt rows parts.1 a) }
    ensures next { IfSome result (λ parts. (rows : List StmtRow) (p : Place) (u : TypedStmtOption)
        → IsNextRow rows p u row.now.place row.now.form → IsPart rows u parts.0) }
    ensures number { IfSome result (λ parts. (i : ℕ) → parts.0 ≡ Some i → IsNextForm i row.now.form) }
    ensures no_body { IfNone result ((rows : List StmtRow) (p : Place) (c : Option TypedExprTree) (u : TypedStmtOption)
        (a : TypedStmtTree)
        → ¬ (IsLoopRow rows p c u a row.now.place row.now.form)) }
    ensures no_next { IfNone result ((rows : List StmtRow) (p : Place) (u : TypedStmtOption)
        → ¬ (IsNextRow rows p u row.now.place row.now.form)) }
{
    match &row.form {
        StmtRowForm::For(_, _, next, body) => Some((*next, *body)),
        _ => None,
    }
}

// What is left after the statement of this row.
fn begin_at(rows: &[StmtRow], cont: &mut Vec<ContItem>, number: u32, holds: bool)
    requires room { (row : StmtRow) → slice_get rows.now number ≡ Some row →
        vec_len cont.old + room_for row.form ≤ vec_capacity cont.old }
    ensures shows { (a : TypedStmtTree) (it : List items.ContItem) → IsAt rows.now number a →
        IsContinuation rows.now (reverse cont.old.items) it
        → IsContinuation rows.now (reverse cont.new.items) (after_statement holds a it) }
    ensures room { vec_capacity cont.new ≡ vec_capacity cont.old }
{
    if let Some(row) = row_at(rows, number) {
        begin_statement(rows, cont, number, row, holds);
    }
}

// A turn of the `while` or `do` of this row, or its end.
fn turn_at(rows: &[StmtRow], cont: &mut Vec<ContItem>, number: u32, holds: bool)
    requires room { vec_len cont.old + 2 ≤ vec_capacity cont.old }
    ensures shows { (p : Place) (c : TypedExprTree) (a : TypedStmtTree) (it : List items.ContItem) →
        At rows.now number (IsBegunRow rows.now p c a)
        → IsContinuation rows.now (reverse cont.old.items) it
        → IsContinuation rows.now (reverse cont.new.items) (either (begin a ∷ begun p c a ∷ it) it holds) }
    ensures room { vec_capacity cont.new ≡ vec_capacity cont.old }
{
    if let Some(row) = row_at(rows, number) {
        if let Some(body) = turned(row) {
            turn(rows, cont, number, body, holds);
        }
    }
}

// A turn of the `for` of this row, or its end.
fn turn_for_at(rows: &[StmtRow], cont: &mut Vec<ContItem>, number: u32, holds: bool)
    requires room { vec_len cont.old + 3 ≤ vec_capacity cont.old }
    ensures shows { (p : Place) (c : Option TypedExprTree) (u : TypedStmtOption) (a : TypedStmtTree)
        (it : List items.ContItem)
        → At rows.now number (IsLoopRow rows.now p c u a) → IsContinuation rows.now (reverse cont.old.items) it
        → IsContinuation rows.now (reverse cont.new.items) (either (begin a ∷ next p u ∷ loop p c u a ∷ it) it holds) }
    ensures room { vec_capacity cont.new ≡ vec_capacity cont.old }
{
    if let Some(row) = row_at(rows, number) {
        if let Some((_, body)) = turned_for(row) {
            turn_for(rows, cont, number, body, holds);
        }
    }
}

// What a `for` does after a turn.
fn next_at(rows: &[StmtRow], cont: &mut Vec<ContItem>, number: u32, holds: bool)
    requires room { (row : StmtRow) (i : ℕ) → IsNextAt rows.now number i → slice_get rows.now i ≡ Some row →
        vec_len cont.old + room_for row.form ≤ vec_capacity cont.old }
    ensures shows { (p : Place) (u : TypedStmtOption) (it : List items.ContItem) →
        At rows.now number (IsNextRow rows.now p u) → IsContinuation rows.now (reverse cont.old.items) it
        → IsContinuation rows.now (reverse cont.new.items) (after holds (next p u ∷ it)) }
    ensures room { vec_capacity cont.new ≡ vec_capacity cont.old }
{
    if let Some(row) = row_at(rows, number) {
        match turned_for(row) {
            Some((Some(next), _)) => begin_at(rows, cont, next, holds),
            Some((None, _)) => {}
            None => {}
        }
    }
}

/// Removes the first item, and puts in front of the others what follows on it, where its condition, if it has one,
/// comes to this. It takes no memory.
pub(crate) fn advance(rows: &[StmtRow], cont: &mut Vec<ContItem>, holds: bool)
    requires room { ∥ HasRoom rows.now (vec_capacity cont.old) (reverse cont.old.items) ∥₁ }
    ensures shows { (it : List items.ContItem) → IsContinuation rows.now (reverse cont.old.items) it →
        IsContinuation rows.now (reverse cont.new.items) (after holds it) }
    ensures room { vec_capacity cont.new ≡ vec_capacity cont.old }
{
    if let Some(item) = cont.pop() {
        match item {
            ContItem::Begin(number) => begin_at(rows, cont, number, holds),
            ContItem::Begun(number) => turn_at(rows, cont, number, holds),
            ContItem::Loop(number) => turn_for_at(rows, cont, number, holds),
            ContItem::Next(number) => next_at(rows, cont, number, holds),
        }
    }
}

/// What the `for` of this row does after a turn, if it is one, and does something.
pub(crate) fn next_part(rows: &[StmtRow], number: u32) -> Option<Option<u32>>
    ensures some { IfSome result (λ part. (p : Place) (u : TypedStmtOption) →
        At rows.now number (IsNextRow rows.now p u) → IsPart rows.now u part) }
    ensures none { IfNone result ((p : Place) (u : TypedStmtOption) → ¬ (At rows.now number (IsNextRow rows.now p u))) }
{
    let (next, _) = turned_for(row_at(rows, number)?)?;
    Some(next)
}
