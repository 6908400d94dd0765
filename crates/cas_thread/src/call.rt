//! Calls: the arguments are evaluated, and an activation of the function begins, with room for all items that it can
//! have in its continuation.

ghost use Rattle.std.specs.Prelude.{◌≡◌, [], ℕ, List, Some, None, true, IfNone, IfSome, IfOk, reverse, slice_get, vec_capacity};
ghost use Rattle.cas_base.specs.declared.kind.Ty.{Ty};
ghost use Rattle.cas_step.specs.Continuation as items;
ghost use Rattle.cas_step.specs.Continuation.{begin_all, effect_of};
ghost use Rattle.cas_memory.specs.Entities.{entity_if};
ghost use Rattle.cas_eval.specs.Answer.{answer, eval_state, eval_context};
ghost use Rattle.cas_typed.specs.Numbered as numbered;
ghost use Rattle.cas_typed.specs.Numbered.{IsRow};
ghost use Rattle.cas_typed.specs.Resolved.{TypedFunTree, TypedStmtTree};
ghost use Rattle.cas_typed.specs.declared.rows.StmtRow.{StmtRow};
ghost use Rattle.cas_whole.specs.Bodies.{typed_at};
ghost use Rattle.cas_thread.specs.Calls.{IsCallOf, IsReady, function_place};
ghost use Rattle.cas_thread.specs.Control.{after};
ghost use Rattle.cas_thread.specs.Effects.{FirstStatementIs, IsCall};
ghost use Rattle.cas_thread.specs.Room.{Fits};
ghost use Rattle.cas_thread.specs.Continuations.{IsContinuation};

use crate::config::Frame;
use crate::continuation::ContItem;
use crate::control::begin_each;
use crate::first::first_row;
use cas_base::NoMemory;
use cas_eval::{EvalContext, NoArguments, arguments, entity_at};
use cas_memory::{Entity, Value};
use cas_typed::{Destination, StmtRow, StmtRowForm, Typed, TypedExpr, TypedFun};
use std::alloc::Global;

/// A call, as a statement has it.
#[derive(Clone, Copy)]
pub(crate) struct Called<'a> {
    /// The local that keeps the result.
    pub kept: Option<Destination>,
    /// The item of the function.
    pub item: u32,
    pub args: &'a [TypedExpr],
}

/// A call whose arguments are evaluated.
#[derive(Drop)]
pub(crate) struct Ready {
    /// The local that keeps the result.
    pub kept: Option<Destination>,
    /// The item of the function.
    pub item: u32,
    /// The arguments.
    pub values: Vec<Value>,
}

// The call that a row is, if it is one.
fn called_in(row: &StmtRow) -> Option<Called<'_>>
    ensures some { IfSome result (λ called. (rows : List StmtRow) (n : ℕ) (a : TypedStmtTree) →
        IsRow rows n a row.now.place row.now.form → IsCallOf called a) }
    ensures none { IfNone result ((rows : List StmtRow) (n : ℕ) (a : TypedStmtTree) →
        IsRow rows n a row.now.place row.now.form → ¬ (IsCall a)) }
{
    match &row.form {
        StmtRowForm::Call(kept, item, _, args) => Some(Called {
            kept: *kept,
            item: *item,
            args: args.as_slice(),
        }),
        _ => None,
    }
}

/// The call that comes first, if one does.
pub(crate) fn first_call<'a>(rows: &'a [StmtRow], cont: &[ContItem]) -> Option<Called<'a>>
    ensures some { IfSome result (λ called. (it : List items.ContItem) →
        IsContinuation rows.now (reverse cont.now) it → FirstStatementIs (IsCallOf called) it) }
    ensures none { IfNone result ((it : List items.ContItem) → IsContinuation rows.now (reverse cont.now) it →
        ¬ (FirstStatementIs IsCall it)) }
{
    called_in(first_row(rows, cont)?)
}

/// A call with its arguments, from left to right.
pub(crate) fn evaluated(
    alloc: Global,
    context: &EvalContext<'_>,
    called: &Called<'_>,
) -> Result<Ready, NoArguments>
    ensures { (ret : Ty) (it : List items.ContItem) → FirstStatementIs (IsCallOf called.now) it
        → IsReady (answer (eval_state context.now) (effect_of (eval_context (eval_state context.now)) ret it))
        (after true it) result }
{
    let values = arguments(alloc, context, called.args)?;
    Ok(Ready {
        kept: called.kept,
        item: called.item,
        values,
    })
}

/// The function that an item stands for, if it is one: its module, and its place among those of the module.
pub(crate) fn function_of(items: &[Option<Entity>], item: u32) -> Option<(u32, u32)>
    ensures { result ≡ function_place (entity_if (slice_get items.now item)) }
{
    match entity_at(items, item)? {
        Entity::Function { unit, place } => Some((unit, place)),
        _ => None,
    }
}

/// The function at a place of a module.
pub(crate) fn function_at(modules: &[Typed], unit: u32, place: u32) -> Option<&TypedFun>
    ensures some { IfSome result (λ f. typed_at modules.now unit place ≡ Some f.now) }
    ensures none { IfNone result (typed_at modules.now unit place ≡ None) }
{
    let typed = modules.get(unit as usize)?;
    typed.functions().get(place as usize)
}

/// A call of a function at its start, with room for its longest continuation.
pub(crate) fn new_frame(
    alloc: Global,
    serial: u64,
    at: (u32, u32),
    target: Option<Destination>,
    function: &TypedFun,
) -> Result<Frame, NoMemory>
    ensures serial { IfOk result (λ f. f.serial ≡ serial) }
    ensures unit { IfOk result (λ f. f.unit ≡ at.0) }
    ensures place { IfOk result (λ f. f.place ≡ at.1) }
    ensures target { IfOk result (λ f. f.target ≡ target) }
    ensures cont { IfOk result (λ f. (it : TypedFunTree) → numbered.IsFunctionOf it function.now →
        IsContinuation function.now.rows (reverse f.cont.items) (begin_all it.body [])) }
    ensures room { IfOk result (λ f. (it : TypedFunTree) → numbered.IsFunctionOf it function.now →
        Fits (vec_capacity f.cont) (begin_all it.body [])) }
{
    let rows = function.rows.as_slice();
    let parts = function.body.as_slice();
    let mut cont = Vec::with_capacity(alloc, 2 * rows.len() + parts.len())?;
    begin_each(rows, &mut cont, parts);
    Ok(Frame {
        serial,
        unit: at.0,
        place: at.1,
        target,
        cont,
    })
}
