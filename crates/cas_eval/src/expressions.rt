//! The values of expressions. Operands are evaluated from left to right, and the first that has no result ends it.

ghost use Rattle.std.specs.Prelude.{◌≡◌};
ghost use Rattle.cas_step.specs.Asks as asks;
ghost use Rattle.cas_step.specs.Asks.{and_then, gives, word};
ghost use Rattle.cas_step.specs.Env.{length_of};
ghost use Rattle.cas_step.specs.Evaluate as e;
ghost use Rattle.cas_step.specs.Operators as o;
ghost use Rattle.cas_step.specs.Pointers as p;
ghost use Rattle.cas_step.specs.Step.{same_object};
ghost use Rattle.cas_eval.specs.Answer.{EvalState, answer, eval_state, eval_context, map_answer};
ghost use Rattle.cas_memory.specs.Values.{value_of};
ghost use Rattle.cas_base.specs.Word.{narrowed};
ghost use Rattle.cas_typed.specs.Resolved as t;
ghost use Rattle.cas_typed.specs.Resolved.{typed_expr_tree};

use crate::context::EvalContext;
use crate::operators::{binary, number_of, truth, unary};
use crate::values::{NoResult, condition, pointed, word_in};
use cas_base::{Kind, narrow};
use cas_memory::Value;
use cas_syntax::{BinaryOperator, UnaryOperator};
use cas_typed::{Signedness, TypedExpr};

// An operator on a word.
#[tactic(auto, using(crate::proofs::Answering::answer_then), unfolding(crate::specs::Answer::answer))]
fn unary_value(operator: UnaryOperator, a: Value) -> Result<Value, NoResult>
    ensures { (r : EvalState) → map_answer value_of result ≡ answer r
        (and_then (asks.word_in (value_of a)) (λ m. gives (word (o.unary_result operator m)))) }
{
    Ok(Value::Word(unary(operator, word_in(a)?)))
}

// An operator on two words.
#[tactic(auto, using(crate::proofs::Answering::answer_then), unfolding(crate::specs::Answer::answer))]
fn binary_value(
    operator: BinaryOperator,
    signedness: Signedness,
    a: Value,
    b: Value,
) -> Result<Value, NoResult>
    ensures { (r : EvalState) → map_answer value_of result ≡ answer r
        (and_then (asks.word_in (value_of a)) (λ m. and_then (asks.word_in (value_of b))
        (λ n. e.a_word (o.binary_result operator signedness m n)))) }
{
    let left = word_in(a)?;
    let right = word_in(b)?;
    Ok(Value::Word(binary(operator, signedness, left, right)?))
}

// A word converted to a kind.
#[tactic(auto, using(crate::proofs::Answering::answer_then), unfolding(crate::specs::Answer::answer))]
fn narrowed_value(kind: Kind, a: Value) -> Result<Value, NoResult>
    ensures { (r : EvalState) → map_answer value_of result ≡ answer r
        (and_then (asks.word_in (value_of a)) (λ m. gives (word (narrowed m kind)))) }
{
    Ok(Value::Word(narrow(word_in(a)?, kind)))
}

// A pointer moved forward by a word that is read so.
fn moved_forward(
    context: &EvalContext<'_>,
    signedness: Signedness,
    pointer: Value,
    number: Value,
) -> Result<Value, NoResult>
    ensures { map_answer value_of result ≡ answer (eval_state context.now)
        (e.forward signedness (value_of pointer) (value_of number)) }
{
    let from = pointed(pointer)?;
    context.moved(from, number_of(signedness, word_in(number)?))
}

// A pointer moved back.
fn moved_back(
    context: &EvalContext<'_>,
    signedness: Signedness,
    pointer: Value,
    number: Value,
) -> Result<Value, NoResult>
    ensures { map_answer value_of result ≡ answer (eval_state context.now)
        (e.backward signedness (value_of pointer) (value_of number)) }
{
    let from = pointed(pointer)?;
    context.moved(from, -number_of(signedness, word_in(number)?))
}

// How many elements the first lies after the second.
fn difference_of(context: &EvalContext<'_>, a: Value, b: Value) -> Result<Value, NoResult>
    ensures { map_answer value_of result ≡ answer (eval_state context.now)
        (e.on_both (value_of a) (value_of b) (λ x y. e.a_word (p.difference same_object x y))) }
{
    let first = pointed(a)?;
    let second = pointed(b)?;
    Ok(Value::Word(context.difference(first, second)?))
}

// Whether two pointers compare so.
fn comparison_of(
    context: &EvalContext<'_>,
    operator: BinaryOperator,
    a: Value,
    b: Value,
) -> Result<Value, NoResult>
    ensures { map_answer value_of result ≡ answer (eval_state context.now)
        (e.on_both (value_of a) (value_of b) (λ x y. e.a_truth (p.compared same_object operator x y))) }
{
    let first = pointed(a)?;
    let second = pointed(b)?;
    Ok(Value::Word(truth(context.compared(operator, first, second)?)))
}

// The element of a global array at an index.
#[cycle(evaluation)]
fn element(
    context: &EvalContext<'_>,
    item: u32,
    signedness: Signedness,
    index: &TypedExpr,
) -> Result<Value, NoResult>
    ensures { map_answer value_of result ≡ answer (eval_state context.now)
        (and_then (e.value_of (eval_context (eval_state context.now)) (typed_expr_tree index.now))
        (λ v. and_then (e.element_place (eval_context (eval_state context.now)) item signedness v)
        (e.global_value item))) }
{
    let index = evaluate(context, index)?;
    let place = context.element_place(item, signedness, index)?;
    context.global(item, place)
}

// The value that a pointer points to.
#[cycle(evaluation)]
fn behind(context: &EvalContext<'_>, pointer: &TypedExpr) -> Result<Value, NoResult>
    ensures { map_answer value_of result ≡ answer (eval_state context.now)
        (and_then (e.value_of (eval_context (eval_state context.now)) (typed_expr_tree pointer.now))
        (λ u. and_then (asks.pointed u) p.behind)) }
{
    let value = evaluate(context, pointer)?;
    context.behind(pointed(value)?)
}

// A pointer moved forward.
#[cycle(evaluation)]
fn pointer_plus(
    context: &EvalContext<'_>,
    signedness: Signedness,
    pointer: &TypedExpr,
    number: &TypedExpr,
) -> Result<Value, NoResult>
    ensures { map_answer value_of result ≡ answer (eval_state context.now)
        (e.value_of (eval_context (eval_state context.now))
        (t.pointer_plus signedness (typed_expr_tree pointer.now) (typed_expr_tree number.now))) }
{
    let first = evaluate(context, pointer)?;
    let second = evaluate(context, number)?;
    moved_forward(context, signedness, first, second)
}

// A pointer moved forward, with the number first.
#[cycle(evaluation)]
fn plus_pointer(
    context: &EvalContext<'_>,
    signedness: Signedness,
    number: &TypedExpr,
    pointer: &TypedExpr,
) -> Result<Value, NoResult>
    ensures { map_answer value_of result ≡ answer (eval_state context.now)
        (e.value_of (eval_context (eval_state context.now))
        (t.plus_pointer signedness (typed_expr_tree number.now) (typed_expr_tree pointer.now))) }
{
    let first = evaluate(context, number)?;
    let second = evaluate(context, pointer)?;
    moved_forward(context, signedness, second, first)
}

// A pointer moved back.
#[cycle(evaluation)]
fn pointer_minus(
    context: &EvalContext<'_>,
    signedness: Signedness,
    pointer: &TypedExpr,
    number: &TypedExpr,
) -> Result<Value, NoResult>
    ensures { map_answer value_of result ≡ answer (eval_state context.now)
        (e.value_of (eval_context (eval_state context.now))
        (t.pointer_minus signedness (typed_expr_tree pointer.now) (typed_expr_tree number.now))) }
{
    let first = evaluate(context, pointer)?;
    let second = evaluate(context, number)?;
    moved_back(context, signedness, first, second)
}

// How many elements lie between two pointers.
#[cycle(evaluation)]
fn pointer_difference(
    context: &EvalContext<'_>,
    a: &TypedExpr,
    b: &TypedExpr,
) -> Result<Value, NoResult>
    ensures { map_answer value_of result ≡ answer (eval_state context.now)
        (e.value_of (eval_context (eval_state context.now))
        (t.pointer_difference (typed_expr_tree a.now) (typed_expr_tree b.now))) }
{
    let first = evaluate(context, a)?;
    let second = evaluate(context, b)?;
    difference_of(context, first, second)
}

// Whether two pointers compare so.
#[cycle(evaluation)]
fn compare(
    context: &EvalContext<'_>,
    operator: BinaryOperator,
    a: &TypedExpr,
    b: &TypedExpr,
) -> Result<Value, NoResult>
    ensures { map_answer value_of result ≡ answer (eval_state context.now)
        (e.value_of (eval_context (eval_state context.now))
        (t.compare operator (typed_expr_tree a.now) (typed_expr_tree b.now))) }
{
    let first = evaluate(context, a)?;
    let second = evaluate(context, b)?;
    comparison_of(context, operator, first, second)
}

// An operator on a word.
#[cycle(evaluation)]
fn unary_of(
    context: &EvalContext<'_>,
    operator: UnaryOperator,
    a: &TypedExpr,
) -> Result<Value, NoResult>
    ensures { map_answer value_of result ≡ answer (eval_state context.now)
        (e.value_of (eval_context (eval_state context.now)) (t.unary operator (typed_expr_tree a.now))) }
{
    let value = evaluate(context, a)?;
    unary_value(operator, value)
}

// An operator on two words.
#[cycle(evaluation)]
fn binary_of(
    context: &EvalContext<'_>,
    operator: BinaryOperator,
    signedness: Signedness,
    a: &TypedExpr,
    b: &TypedExpr,
) -> Result<Value, NoResult>
    ensures { map_answer value_of result ≡ answer (eval_state context.now)
        (e.value_of (eval_context (eval_state context.now))
        (t.binary operator signedness (typed_expr_tree a.now) (typed_expr_tree b.now))) }
{
    let first = evaluate(context, a)?;
    let second = evaluate(context, b)?;
    binary_value(operator, signedness, first, second)
}

// A word converted to a kind.
#[cycle(evaluation)]
fn narrow_of(context: &EvalContext<'_>, kind: Kind, a: &TypedExpr) -> Result<Value, NoResult>
    ensures { map_answer value_of result ≡ answer (eval_state context.now)
        (e.value_of (eval_context (eval_state context.now)) (t.narrow kind (typed_expr_tree a.now))) }
{
    let value = evaluate(context, a)?;
    narrowed_value(kind, value)
}

// The truth of an expression, as a word.
#[cycle(evaluation)]
fn truth_of(context: &EvalContext<'_>, a: &TypedExpr) -> Result<Value, NoResult>
    ensures { map_answer value_of result ≡ answer (eval_state context.now)
        (and_then (e.value_of (eval_context (eval_state context.now)) (typed_expr_tree a.now))
        (λ v. e.a_truth (e.condition v))) }
{
    let value = evaluate(context, a)?;
    Ok(Value::Word(truth(condition(value)?)))
}

// Whether both are true, as a word. The second is evaluated only if the first is true.
#[cycle(evaluation)]
fn and_also(context: &EvalContext<'_>, a: &TypedExpr, b: &TypedExpr) -> Result<Value, NoResult>
    ensures { map_answer value_of result ≡ answer (eval_state context.now)
        (e.value_of (eval_context (eval_state context.now))
        (t.and_also (typed_expr_tree a.now) (typed_expr_tree b.now))) }
{
    let first = evaluate(context, a)?;
    if condition(first)? {
        truth_of(context, b)
    } else {
        Ok(Value::Word(0))
    }
}

// Whether one of them is true, as a word. The second is evaluated only if the first is false.
#[cycle(evaluation)]
fn or_else(context: &EvalContext<'_>, a: &TypedExpr, b: &TypedExpr) -> Result<Value, NoResult>
    ensures { map_answer value_of result ≡ answer (eval_state context.now)
        (e.value_of (eval_context (eval_state context.now))
        (t.or_else (typed_expr_tree a.now) (typed_expr_tree b.now))) }
{
    let first = evaluate(context, a)?;
    if condition(first)? {
        Ok(Value::Word(1))
    } else {
        truth_of(context, b)
    }
}

// The second where the first is true, else the third. Only that one is evaluated.
#[cycle(evaluation)]
fn choose(
    context: &EvalContext<'_>,
    test: &TypedExpr,
    a: &TypedExpr,
    b: &TypedExpr,
) -> Result<Value, NoResult>
    ensures { map_answer value_of result ≡ answer (eval_state context.now)
        (e.value_of (eval_context (eval_state context.now))
        (t.choose (typed_expr_tree test.now) (typed_expr_tree a.now) (typed_expr_tree b.now))) }
{
    let first = evaluate(context, test)?;
    if condition(first)? {
        evaluate(context, a)
    } else {
        evaluate(context, b)
    }
}

// The word of a global that has only one.
fn global(context: &EvalContext<'_>, item: u32) -> Result<Value, NoResult>
    ensures { map_answer value_of result ≡ answer (eval_state context.now)
        (and_then (e.only_place (length_of ((eval_state context.now).entity item))) (e.global_value item)) }
{
    let place = context.only_place(item)?;
    context.global(item, place)
}

/// The value of an expression.
#[cycle(evaluation)]
#[tactic(auto, using(crate::proofs::Answering::given))]
pub fn evaluate(context: &EvalContext<'_>, expr: &TypedExpr) -> Result<Value, NoResult>
    ensures { map_answer value_of result ≡ answer (eval_state context.now)
        (e.value_of (eval_context (eval_state context.now)) (typed_expr_tree expr.now)) }
{
    match expr {
        TypedExpr::Literal(word) => Ok(Value::Word(*word)),
        TypedExpr::Null => Ok(Value::Null),
        TypedExpr::Local(local) => context.local(*local),
        TypedExpr::Global(item, _) => global(context, *item),
        TypedExpr::Element(item, _, signedness, a) => element(context, *item, *signedness, a),
        TypedExpr::PlaceOf(local) => Ok(Value::Pointer {
            object: context.own(*local),
            place: 0,
        }),
        TypedExpr::Behind(_, a) => behind(context, a),
        TypedExpr::PointerPlus(signedness, a, b) => pointer_plus(context, *signedness, a, b),
        TypedExpr::PlusPointer(signedness, a, b) => plus_pointer(context, *signedness, a, b),
        TypedExpr::PointerMinus(signedness, a, b) => pointer_minus(context, *signedness, a, b),
        TypedExpr::PointerDifference(a, b) => pointer_difference(context, a, b),
        TypedExpr::Compare(operator, a, b) => compare(context, *operator, a, b),
        TypedExpr::Unary(operator, a) => unary_of(context, *operator, a),
        TypedExpr::Binary(operator, signedness, a, b) => {
            binary_of(context, *operator, *signedness, a, b)
        }
        TypedExpr::Narrow(kind, a) => narrow_of(context, *kind, a),
        TypedExpr::And(a, b) => and_also(context, a, b),
        TypedExpr::Or(a, b) => or_else(context, a, b),
        TypedExpr::Choose(test, a, b) => choose(context, test, a, b),
    }
}
