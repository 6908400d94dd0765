//! The arguments of calls, from left to right.

ghost use Rattle.std.specs.Prelude.{◌≡◌, map};
ghost use Rattle.cas_step.specs.Evaluate.{values_of};
ghost use Rattle.cas_typed.specs.Resolved.{typed_expr_tree};
ghost use Rattle.cas_eval.specs.Answer.{answer, eval_state, eval_context, map_answer};
ghost use Rattle.cas_eval.specs.Arguments.{AreArguments, nothing};

use crate::context::EvalContext;
use crate::expressions::evaluate;
use crate::values::NoResult;
use cas_memory::Value;
use cas_typed::TypedExpr;
use std::alloc::Global;

/// Why there are no arguments.
#[derive(Clone, Copy, Debug, PartialEq, Eq)]
pub enum NoArguments {
    /// Out of memory.
    Memory,
    /// One of the expressions gives nothing.
    OfValue(NoResult),
}

/// The values of expressions, from left to right. The first that gives nothing ends it.
pub fn arguments(
    alloc: Global,
    context: &EvalContext<'_>,
    args: &[TypedExpr],
) -> Result<Vec<Value>, NoArguments>
    ensures { AreArguments result (answer (eval_state context.now)
        (values_of (eval_context (eval_state context.now)) (map typed_expr_tree args.now))) }
{
    let Ok(mut values) = Vec::with_capacity(alloc, args.len()) else {
        return Err(NoArguments::Memory);
    };
    let mut rest = args;
    'each: while let Some((arg, others)) = rest.split_first() {
        match evaluate(context, arg) {
            Err(why) => return Err(NoArguments::OfValue(why)),
            Ok(value) => {
                if values.push(value).is_err() {
                    return Err(NoArguments::Memory);
                }
            }
        }
        rest = others;
    }
    Ok(values)
}

/// Whether each of the expressions has a value, or why not: the answer of `arguments`, without memory.
pub fn check_arguments(context: &EvalContext<'_>, args: &[TypedExpr]) -> Result<(), NoResult>
    ensures { result ≡ map_answer nothing (answer (eval_state context.now)
        (values_of (eval_context (eval_state context.now)) (map typed_expr_tree args.now))) }
{
    let mut rest = args;
    'each: while let Some((arg, others)) = rest.split_first() {
        evaluate(context, arg)?;
        rest = others;
    }
    Ok(())
}
