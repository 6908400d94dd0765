//! Conditions, and the cells that assignments write.

ghost use Rattle.std.specs.Prelude.{◌≡◌};
ghost use Rattle.cas_step.specs.Asks as asks;
ghost use Rattle.cas_step.specs.Asks.{and_then, gives};
ghost use Rattle.cas_step.specs.Env.{length_of};
ghost use Rattle.cas_step.specs.Evaluate as e;
ghost use Rattle.cas_step.specs.Pointers as p;
ghost use Rattle.cas_eval.specs.Answer.{answer, eval_state, eval_context, map_answer};
ghost use Rattle.cas_eval.specs.Cells.{cell_view};
ghost use Rattle.cas_typed.specs.Resolved.{typed_expr_tree, typed_target_tree};

use crate::context::EvalContext;
use crate::expressions::evaluate;
use crate::values::{NoResult, condition, pointed};
use cas_memory::Object;
use cas_typed::{Signedness, TypedExpr, TypedTarget};

/// A cell that a target names.
#[derive(Clone, Copy, Debug, PartialEq, Eq)]
pub enum Cell {
    /// At a place of an object.
    Object(Object, u32),
    /// At a place of the global that an item of the module is.
    Global(u32, u32),
}

/// Whether an expression is true as a condition.
pub fn test(context: &EvalContext<'_>, expr: &TypedExpr) -> Result<bool, NoResult>
    ensures { result ≡ answer (eval_state context.now)
        (e.test_of (eval_context (eval_state context.now)) (typed_expr_tree expr.now)) }
{
    condition(evaluate(context, expr)?)
}

// The only cell of a global.
fn global(context: &EvalContext<'_>, item: u32) -> Result<Cell, NoResult>
    ensures { map_answer cell_view result ≡ answer (eval_state context.now)
        (and_then (e.only_place (length_of ((eval_state context.now).entity item))) (λ i. gives (e.of_global item i))) }
{
    let place = context.only_place(item)?;
    Ok(Cell::Global(item, place))
}

// The cell of an element of a global array, by its index.
fn element(
    context: &EvalContext<'_>,
    item: u32,
    signedness: Signedness,
    index: &TypedExpr,
) -> Result<Cell, NoResult>
    ensures { map_answer cell_view result ≡ answer (eval_state context.now)
        (and_then (e.value_of (eval_context (eval_state context.now)) (typed_expr_tree index.now))
        (λ v. and_then (e.element_place (eval_context (eval_state context.now)) item signedness v)
        (λ i. gives (e.of_global item i)))) }
{
    let value = evaluate(context, index)?;
    let place = context.element_place(item, signedness, value)?;
    Ok(Cell::Global(item, place))
}

// The cell behind a pointer.
fn behind(context: &EvalContext<'_>, pointer: &TypedExpr) -> Result<Cell, NoResult>
    ensures { map_answer cell_view result ≡ answer (eval_state context.now)
        (and_then (e.value_of (eval_context (eval_state context.now)) (typed_expr_tree pointer.now))
        (λ u. and_then (asks.pointed u) (λ a. and_then (p.cell_behind a) (λ c. gives (e.of_object c.0 c.1))))) }
{
    let value = evaluate(context, pointer)?;
    let place = pointed(value)?;
    let cell = context.cell_behind(place)?;
    Ok(Cell::Object(cell.0, cell.1))
}

/// The cell of a target.
#[tactic(auto, using(crate::proofs::Answering::given))]
pub fn target_cell(context: &EvalContext<'_>, target: &TypedTarget) -> Result<Cell, NoResult>
    ensures { map_answer cell_view result ≡ answer (eval_state context.now)
        (e.target_of (eval_context (eval_state context.now)) (typed_target_tree target.now)) }
{
    match target {
        TypedTarget::Local(local) => Ok(Cell::Object(context.own(*local), 0)),
        TypedTarget::Global(item, _) => global(context, *item),
        TypedTarget::Element(item, _, signedness, index) => {
            element(context, *item, *signedness, index)
        }
        TypedTarget::Behind(_, pointer) => behind(context, pointer),
    }
}
