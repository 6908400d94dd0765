//! What a step does at last, when all is evaluated: the effects of statements and of items.

ghost use Rattle.std.specs.Prelude.{IfNone, IfSome, ◌≡◌, ◌∷◌, ℕ, Bool, true, List, Option, reverse};
ghost use Rattle.cas_base.specs.declared.place.Place.{Place};
ghost use Rattle.cas_step.specs.Asks.{and_then, gives, word_in as asks_word};
ghost use Rattle.cas_step.specs.Evaluate.{either, target_of, value_of as value_in};
ghost use Rattle.cas_step.specs.Continuation as items;
ghost use Rattle.cas_step.specs.Continuation.{chooses, effect_of, next, fallen as fallen_value, into as into_cell, prints, returned as returned_effect, statement_effect};
ghost use Rattle.cas_memory.specs.Values.{value_of};
ghost use Rattle.cas_eval.specs.Answer.{EvalState, answer, eval_state, eval_context, map_answer};
ghost use Rattle.cas_eval.specs.Cells.{cell_view};
ghost use Rattle.cas_typed.specs.declared.rows.StmtRow.{StmtRow};
ghost use Rattle.cas_typed.specs.Numbered.{At, IsRow, optional_expr_tree};
ghost use Rattle.cas_typed.specs.Resolved.{TypedExprTree, TypedStmtOption, TypedStmtTree, typed_expr_tree, typed_target_tree};
ghost use Rattle.cas_thread.specs.declared.effect.First.TheVariants.{Does};
ghost use Rattle.cas_thread.specs.Control.{after, after_statement};
ghost use Rattle.cas_thread.specs.Effects.{FirstStatementIs, IsCall, IsFirst, IsJump, effect_with};
ghost use Rattle.cas_thread.specs.Continuations.{IsAt, IsBegunRow, IsLoopRow, IsNextRow, IsContinuation};

use crate::continuation::ContItem;
use crate::control::{next_part, row_at};
use crate::first::first_item;
use cas_base::Ty;
use cas_eval::{Cell, EvalContext, NoResult, evaluate, target_cell, test, word_in};
use cas_memory::{Object, Value};
use cas_typed::{StmtRow, StmtRowForm, TypedExpr, TypedTarget};

/// What a step does at last, but for calls.
#[derive(Clone, Copy, Debug, PartialEq, Eq)]
pub(crate) enum Effect {
    /// Nothing but the continuation, by the value of the condition, if there is one.
    Continues(bool),
    /// Stores a value at a place of an object.
    Stores(Object, u32, Value),
    /// Writes a word at a place of the global that an item is.
    Writes(u32, u32, u32),
    /// Returns.
    Returns(Option<Value>),
    /// Takes the lock that an item is.
    Locks(u32),
    /// Gives the lock that an item is back.
    Unlocks(u32),
    /// Puts a word out.
    Prints(u32),
}

/// What comes first.
#[derive(Clone, Copy, Debug, PartialEq, Eq)]
pub(crate) enum First {
    /// A call, of which nothing is evaluated.
    Call,
    /// A jump to the end or the next turn of the nearest loop.
    Jump,
    /// An effect.
    Does(Effect),
}

// A value into a cell.
#[tactic(auto, using(cas_eval::proofs::Answering::answer_gives, cas_eval::proofs::Answering::answer_then))]
fn into(cell: Cell, value: Value) -> Result<Effect, NoResult>
    ensures { (r : EvalState) (cont : List items.ContItem) →
        map_answer (effect_with (λ _. cont)) result ≡ answer r (into_cell (cell_view cell) (value_of value) cont) }
{
    match cell {
        Cell::Object(object, place) => Ok(Effect::Stores(object, place, value)),
        Cell::Global(item, place) => Ok(Effect::Writes(item, place, word_in(value)?)),
    }
}

// The effect of an assignment.
#[tactic(auto, using(cas_eval::proofs::Answering::answer_gives, cas_eval::proofs::Answering::answer_then))]
fn assigned(
    context: &EvalContext<'_>,
    target: &TypedTarget,
    expr: &TypedExpr,
) -> Result<Effect, NoResult>
    ensures { (cont : List items.ContItem) → map_answer (effect_with (λ _. cont)) result ≡ answer
        (eval_state context.now)
        (and_then (target_of (eval_context (eval_state context.now)) (typed_target_tree target.now))
        (λ c. and_then (value_in (eval_context (eval_state context.now)) (typed_expr_tree expr.now))
        (λ v. into_cell c v cont))) }
{
    let cell = target_cell(context, target)?;
    into(cell, evaluate(context, expr)?)
}

// The effect of a condition.
#[tactic(auto, using(cas_eval::proofs::Answering::answer_gives, cas_eval::proofs::Answering::answer_then))]
fn tested(context: &EvalContext<'_>, expr: &TypedExpr) -> Result<Effect, NoResult>
    ensures { (some others : List items.ContItem) →
        map_answer (effect_with (either some others)) result ≡ answer (eval_state context.now)
        (chooses (eval_context (eval_state context.now)) (Some (typed_expr_tree expr.now)) some others) }
{
    Ok(Effect::Continues(test(context, expr)?))
}

// The effect of a condition that may be missing.
#[tactic(auto, using(cas_eval::proofs::Answering::answer_gives))]
fn tested_if(context: &EvalContext<'_>, expr: &Option<TypedExpr>) -> Result<Effect, NoResult>
    ensures { (some others : List items.ContItem) →
        map_answer (effect_with (either some others)) result ≡ answer (eval_state context.now)
        (chooses (eval_context (eval_state context.now)) (optional_expr_tree expr.now) some others) }
{
    match expr {
        Some(expr) => tested(context, expr),
        None => Ok(Effect::Continues(true)),
    }
}

// The effect of a `return`.
#[tactic(auto, using(cas_eval::proofs::Answering::answer_gives, cas_eval::proofs::Answering::answer_then))]
fn returned(context: &EvalContext<'_>, expr: &Option<TypedExpr>) -> Result<Effect, NoResult>
    ensures { (cont : List items.ContItem) → map_answer (effect_with (λ _. cont)) result ≡ answer
        (eval_state context.now)
        (returned_effect (eval_context (eval_state context.now)) (optional_expr_tree expr.now)) }
{
    match expr {
        Some(expr) => Ok(Effect::Returns(Some(evaluate(context, expr)?))),
        None => Ok(Effect::Returns(None)),
    }
}

// The effect of a `print`.
#[tactic(auto, using(cas_eval::proofs::Answering::answer_gives, cas_eval::proofs::Answering::answer_then))]
fn printed(context: &EvalContext<'_>, expr: &TypedExpr) -> Result<Effect, NoResult>
    ensures { (cont : List items.ContItem) → map_answer (effect_with (λ _. cont)) result ≡ answer
        (eval_state context.now)
        (and_then (value_in (eval_context (eval_state context.now)) (typed_expr_tree expr.now))
        (λ v. and_then (asks_word v) (λ n. gives (prints n cont)))) }
{
    Ok(Effect::Prints(word_in(evaluate(context, expr)?)?))
}

// What a function of this type returns if it reaches its closing brace.
fn fallen(ret: Ty) -> Effect
    ensures { (left : Bool → List items.ContItem) → effect_with left result ≡ items.returns (fallen_value ret) }
{
    match ret {
        Ty::Int(_) => Effect::Returns(Some(Value::Word(0))),
        Ty::Ptr(_) => Effect::Returns(Some(Value::Null)),
        Ty::Void => Effect::Returns(None),
        Ty::Array(_, _) => Effect::Returns(None),
    }
}

// What comes first in a statement, by its row.
#[tactic(auto, using(cas_eval::proofs::Answering::answer_gives))]
fn first_of(context: &EvalContext<'_>, row: &StmtRow) -> Result<First, NoResult>
    ensures { (rows : List StmtRow) (n : ℕ) (a : TypedStmtTree) (cont : List items.ContItem) →
        IsRow rows n a row.now.place row.now.form
        → IsFirst (answer (eval_state context.now) (statement_effect (eval_context (eval_state context.now)) a cont))
        (λ is. after_statement is a cont) (IsCall a) (IsJump a) result }
{
    match &row.form {
        StmtRowForm::Call(_, _, _, _) => Ok(First::Call),
        StmtRowForm::Break => Ok(First::Jump),
        StmtRowForm::Continue => Ok(First::Jump),
        StmtRowForm::Assign(target, expr) => does(assigned(context, target, expr)),
        StmtRowForm::If(expr, _, _) => does(tested(context, expr)),
        StmtRowForm::While(expr, _) => does(tested(context, expr)),
        StmtRowForm::Return(expr) => does(returned(context, expr)),
        StmtRowForm::Print(expr) => does(printed(context, expr)),
        StmtRowForm::Lock(item) => Ok(First::Does(Effect::Locks(*item))),
        StmtRowForm::Unlock(item) => Ok(First::Does(Effect::Unlocks(*item))),
        StmtRowForm::Skip => Ok(First::Does(Effect::Continues(true))),
        StmtRowForm::Block(_) => Ok(First::Does(Effect::Continues(true))),
        StmtRowForm::Do(_, _) => Ok(First::Does(Effect::Continues(true))),
        StmtRowForm::For(_, _, _, _) => Ok(First::Does(Effect::Continues(true))),
    }
}

// An effect as what comes first.
fn does(effect: Result<Effect, NoResult>) -> Result<First, NoResult>
    ensures { result ≡ map_answer Does effect }
{
    Ok(First::Does(effect?))
}

// The condition of a `while` or `do`.
fn begun_test(row: &StmtRow) -> Option<&TypedExpr>
    ensures some { IfSome result (λ expr. (rows : List StmtRow) (p : Place) (c : TypedExprTree) (a : TypedStmtTree)
        → IsBegunRow rows p c a row.now.place row.now.form → typed_expr_tree expr.now ≡ c) }
    ensures none { IfNone result ((rows : List StmtRow) (p : Place) (c : TypedExprTree) (a : TypedStmtTree)
        → ¬ (IsBegunRow rows p c a row.now.place row.now.form)) }
{
    match &row.form {
        StmtRowForm::While(expr, _) => Some(expr),
        StmtRowForm::Do(_, expr) => Some(expr),
        _ => None,
    }
}

// The condition of a `for`, which may be missing.
fn loop_test(row: &StmtRow) -> Option<&Option<TypedExpr>>
    ensures some { IfSome result (λ expr. (rows : List StmtRow) (p : Place) (c : Option TypedExprTree)
        (u : TypedStmtOption) (a : TypedStmtTree)
        → IsLoopRow rows p c u a row.now.place row.now.form → optional_expr_tree expr.now ≡ c) }
    ensures none { IfNone result ((rows : List StmtRow) (p : Place) (c : Option TypedExprTree) (u : TypedStmtOption)
        (a : TypedStmtTree)
        → ¬ (IsLoopRow rows p c u a row.now.place row.now.form)) }
{
    match &row.form {
        StmtRowForm::For(_, expr, _, _) => Some(expr),
        _ => None,
    }
}

// What comes first in the statement of the row with this number.
fn first_at(context: &EvalContext<'_>, rows: &[StmtRow], number: u32) -> Result<First, NoResult>
    ensures { (a : TypedStmtTree) (cont : List items.ContItem) → IsAt rows.now number a
        → IsFirst (answer (eval_state context.now) (statement_effect (eval_context (eval_state context.now)) a cont))
        (λ is. after_statement is a cont) (IsCall a) (IsJump a) result }
{
    match row_at(rows, number) {
        Some(row) => first_of(context, row),
        None => Err(NoResult::Stuck),
    }
}

// The effect of a `while` or `do` that has begun.
fn begun_at(context: &EvalContext<'_>, rows: &[StmtRow], number: u32) -> Result<Effect, NoResult>
    ensures { (p : Place) (c : TypedExprTree) (a : TypedStmtTree) (some others : List items.ContItem) →
        At rows.now number (IsBegunRow rows.now p c a)
        → map_answer (effect_with (either some others)) result ≡ answer (eval_state context.now)
        (chooses (eval_context (eval_state context.now)) (Some c) some others) }
{
    match row_at(rows, number) {
        Some(row) => match begun_test(row) {
            Some(expr) => tested(context, expr),
            None => Err(NoResult::Stuck),
        },
        None => Err(NoResult::Stuck),
    }
}

// The effect of a `for` after its first part.
fn loop_at(context: &EvalContext<'_>, rows: &[StmtRow], number: u32) -> Result<Effect, NoResult>
    ensures { (p : Place) (c : Option TypedExprTree) (u : TypedStmtOption) (a : TypedStmtTree)
        (some others : List items.ContItem) → At rows.now number (IsLoopRow rows.now p c u a)
        → map_answer (effect_with (either some others)) result ≡ answer (eval_state context.now)
        (chooses (eval_context (eval_state context.now)) c some others) }
{
    match row_at(rows, number) {
        Some(row) => match loop_test(row) {
            Some(expr) => tested_if(context, expr),
            None => Err(NoResult::Stuck),
        },
        None => Err(NoResult::Stuck),
    }
}

// What comes first in what a `for` does after a turn.
#[tactic(auto, using(cas_eval::proofs::Answering::answer_gives))]
fn next_at(context: &EvalContext<'_>, rows: &[StmtRow], number: u32) -> Result<First, NoResult>
    ensures { (p : Place) (u : TypedStmtOption) (cont : List items.ContItem) (ret : Ty) →
        At rows.now number (IsNextRow rows.now p u)
        → IsFirst (answer (eval_state context.now) (effect_of (eval_context (eval_state context.now)) ret
        (next p u ∷ cont))) (λ is. after is (next p u ∷ cont))
        (FirstStatementIs IsCall (next p u ∷ cont)) (FirstStatementIs IsJump (next p u ∷ cont)) result }
{
    match next_part(rows, number) {
        Some(Some(next)) => first_at(context, rows, next),
        Some(None) => Ok(First::Does(Effect::Continues(true))),
        None => Err(NoResult::Stuck),
    }
}

/// The first item of a continuation in a function of this type: its effect, or that it is a call or a jump, or why it
/// has no effect.
#[tactic(auto, using(cas_eval::proofs::Answering::answer_gives))]
pub(crate) fn first_step(
    context: &EvalContext<'_>,
    rows: &[StmtRow],
    ret: Ty,
    cont: &[ContItem],
) -> Result<First, NoResult>
    ensures { (it : List items.ContItem) → IsContinuation rows.now (reverse cont.now) it
        → IsFirst (answer (eval_state context.now) (effect_of (eval_context (eval_state context.now)) ret it))
        (λ is. after is it) (FirstStatementIs IsCall it) (FirstStatementIs IsJump it) result }
{
    match first_item(cont) {
        None => Ok(First::Does(fallen(ret))),
        Some(item) => match item {
            ContItem::Begin(number) => first_at(context, rows, number),
            ContItem::Begun(number) => does(begun_at(context, rows, number)),
            ContItem::Loop(number) => does(loop_at(context, rows, number)),
            ContItem::Next(number) => next_at(context, rows, number),
        },
    }
}
