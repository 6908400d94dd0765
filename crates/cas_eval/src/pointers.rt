//! Operations on pointers, each with the first reason why it has no result: Null, Dead, Across, Index.

ghost use Rattle.std.specs.Prelude.{◌≡◌, ◌≤ℤ◌, pos, negsuc, ◌^◌, Some};
ghost use Rattle.cas_step.specs.Asks.{gives};
ghost use Rattle.cas_step.specs.Pointers as p;
ghost use Rattle.cas_step.specs.Step.{same_object};
ghost use Rattle.cas_memory.specs.Values.{object_of, value_of};
ghost use Rattle.cas_eval.specs.Answer.{answer, eval_state, map_answer};
ghost use Rattle.cas_eval.specs.Cells.{cell_of, place_in};

use crate::context::EvalContext;
use crate::operators::place_below;
use crate::values::{NoResult, Pointed};
use cas_base::{Why, sub};
use cas_memory::{Object, Value};
use cas_syntax::BinaryOperator;

impl EvalContext<'_> {
    // How many cells an object has, which is live.
    #[tactic(auto, unfolding(crate::specs::Answer::answer))]
    fn live(&self, object: Object) -> Result<u32, NoResult>
        ensures { result ≡ answer (eval_state self.now) (p.live (object_of object) gives) }
    {
        match self.memory.size(object) {
            Some(size) => Ok(size),
            None => Err(NoResult::Bad(Why::Dead)),
        }
    }

    /// The place of a pointer moved by this number: up to the object's length.
    #[tactic(auto, unfolding(crate::specs::Answer::answer))]
    pub fn moved(&self, pointed: Pointed, number: i64) -> Result<Value, NoResult>
        requires low { negsuc (2 ^ 32) ≤ℤ number }
        requires high { number ≤ℤ pos (2 ^ 32) }
        ensures { map_answer value_of result ≡ answer (eval_state self.now) (p.moved (place_in pointed) number) }
    {
        let Some((object, place)) = pointed else {
            return Err(NoResult::Bad(Why::Null));
        };
        let size = self.live(object)?;
        match place_below(u64::from(size) + 1, i64::from(place) + number) {
            Some(place) => Ok(Value::Pointer { object, place }),
            None => Err(NoResult::Bad(Why::Index)),
        }
    }

    /// The cell behind a pointer.
    #[tactic(auto, unfolding(crate::specs::Answer::answer))]
    pub fn cell_behind(&self, pointed: Pointed) -> Result<(Object, u32), NoResult>
        ensures { map_answer cell_of result ≡ answer (eval_state self.now) (p.cell_behind (place_in pointed)) }
    {
        let Some((object, place)) = pointed else {
            return Err(NoResult::Bad(Why::Null));
        };
        if place < self.live(object)? {
            Ok((object, place))
        } else {
            Err(NoResult::Bad(Why::Index))
        }
    }

    /// The value that a pointer points to.
    #[tactic(auto, using(crate::proofs::Answering::answer_then), unfolding(crate::specs::Answer::answer))]
    pub fn behind(&self, pointed: Pointed) -> Result<Value, NoResult>
        ensures { map_answer value_of result ≡ answer (eval_state self.now) (p.behind (place_in pointed)) }
    {
        let (object, place) = self.cell_behind(pointed)?;
        match self.memory.load(object, place) {
            Some(value) => Ok(value),
            None => Err(NoResult::Stuck),
        }
    }

    // Two places in one object.
    #[tactic(auto, unfolding(crate::specs::Answer::answer))]
    fn places(&self, a: Pointed, b: Pointed) -> Result<(u32, u32), NoResult>
        ensures { result ≡ answer (eval_state self.now) (p.places same_object (place_in a) (place_in b)) }
    {
        let (Some((object, place)), Some((other, at))) = (a, b) else {
            return Err(NoResult::Bad(Why::Null));
        };
        self.live(object)?;
        self.live(other)?;
        if object.is(other) {
            Ok((place, at))
        } else {
            Err(NoResult::Bad(Why::Across))
        }
    }

    /// How many elements the first lies after the second.
    #[tactic(auto, using(crate::proofs::Answering::answer_then, crate::proofs::Numbers::distance_is), unfolding(crate::specs::Answer::answer))]
    pub fn difference(&self, a: Pointed, b: Pointed) -> Result<u32, NoResult>
        ensures { result ≡ answer (eval_state self.now) (p.difference same_object (place_in a) (place_in b)) }
    {
        let (place, at) = self.places(a, b)?;
        Ok(sub(place, at))
    }

    // Whether places of two objects are equal; neither may be at the end or past it.
    #[tactic(auto, unfolding(crate::specs::Answer::answer))]
    fn is_same_place(&self, a: (Object, u32), b: (Object, u32)) -> Result<bool, NoResult>
        ensures { result ≡ answer (eval_state self.now) (p.equal same_object (place_in (Some a)) (place_in (Some b))) }
    {
        let size = self.live(a.0)?;
        let other = self.live(b.0)?;
        if a.0.is(b.0) {
            Ok(a.1 == b.1)
        } else if a.1 >= size || b.1 >= other {
            Err(NoResult::Bad(Why::Across))
        } else {
            Ok(false)
        }
    }

    // Whether two pointers are equal.
    #[tactic(auto, unfolding(crate::specs::Answer::answer))]
    fn equal(&self, a: Pointed, b: Pointed) -> Result<bool, NoResult>
        ensures { result ≡ answer (eval_state self.now) (p.equal same_object (place_in a) (place_in b)) }
    {
        match (a, b) {
            (None, None) => Ok(true),
            (Some((object, _)), None) => {
                self.live(object)?;
                Ok(false)
            }
            (None, Some((object, _))) => {
                self.live(object)?;
                Ok(false)
            }
            (Some(a), Some(b)) => self.is_same_place(a, b),
        }
    }

    /// Whether two pointers compare so.
    #[tactic(auto, using(crate::proofs::Answering::answer_then), unfolding(crate::specs::Answer::answer))]
    pub fn compared(
        &self,
        operator: BinaryOperator,
        a: Pointed,
        b: Pointed,
    ) -> Result<bool, NoResult>
        ensures { result ≡ answer (eval_state self.now) (p.compared same_object operator (place_in a) (place_in b)) }
    {
        match operator {
            BinaryOperator::Eq => self.equal(a, b),
            BinaryOperator::Ne => Ok(!self.equal(a, b)?),
            BinaryOperator::Lt => {
                let (place, at) = self.places(a, b)?;
                Ok(place < at)
            }
            BinaryOperator::Le => {
                let (place, at) = self.places(a, b)?;
                Ok(place <= at)
            }
            BinaryOperator::Gt => {
                let (place, at) = self.places(a, b)?;
                Ok(at < place)
            }
            BinaryOperator::Ge => {
                let (place, at) = self.places(a, b)?;
                Ok(at <= place)
            }
            BinaryOperator::Add
            | BinaryOperator::Sub
            | BinaryOperator::Mul
            | BinaryOperator::Div
            | BinaryOperator::Mod
            | BinaryOperator::Shl
            | BinaryOperator::Shr
            | BinaryOperator::BitAnd
            | BinaryOperator::BitOr
            | BinaryOperator::BitXor => Err(NoResult::Stuck),
        }
    }
}
