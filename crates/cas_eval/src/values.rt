//! Values as words, as pointers and as conditions, and why there is none.

ghost use Rattle.std.specs.Prelude.{◌≡◌};
ghost use Rattle.cas_step.specs.Asks as asks;
ghost use Rattle.cas_step.specs.Evaluate as e;
ghost use Rattle.cas_memory.specs.Values.{value_of};
ghost use Rattle.cas_eval.specs.Answer.{EvalState, answer, map_answer};
ghost use Rattle.cas_eval.specs.Cells.{place_in};

use cas_base::Why;
use cas_memory::{Object, Value};

/// Why evaluating gives nothing.
#[derive(Clone, Copy, Debug, PartialEq, Eq)]
pub enum NoResult {
    /// It has no defined result.
    Bad(Why),
    /// It is stuck, as in no typed module: a pointer is used as a word, a word as a pointer, or what is named isn't
    /// there.
    Stuck,
}

/// Where a pointer points: to a place in an object, or nowhere if it is null.
pub type Pointed = Option<(Object, u32)>;

/// The value as a word.
#[tactic(auto, unfolding(crate::specs::Answer::answer))]
pub fn word_in(value: Value) -> Result<u32, NoResult>
    ensures { (r : EvalState) → result ≡ answer r (asks.word_in (value_of value)) }
{
    match value {
        Value::Word(n) => Ok(n),
        Value::Null | Value::Pointer { .. } => Err(NoResult::Stuck),
    }
}

/// The value as a pointer.
#[tactic(auto, unfolding(crate::specs::Answer::answer))]
pub fn pointed(value: Value) -> Result<Pointed, NoResult>
    ensures { (r : EvalState) → map_answer place_in result ≡ answer r (asks.pointed (value_of value)) }
{
    match value {
        Value::Word(_) => Err(NoResult::Stuck),
        Value::Null => Ok(None),
        Value::Pointer { object, place } => Ok(Some((object, place))),
    }
}

/// Whether the value of a condition is true.
#[tactic(auto, using(crate::proofs::Answering::answer_then), unfolding(crate::specs::Answer::answer))]
pub fn condition(value: Value) -> Result<bool, NoResult>
    ensures { (r : EvalState) → result ≡ answer r (e.condition (value_of value)) }
{
    Ok(word_in(value)? != 0)
}
