//! The context in which an expression is evaluated, and what is read there.

ghost use Rattle.std.specs.Prelude.{◌≡◌, option_map, slice_get};
ghost use Rattle.cas_step.specs.Answered.{word_at};
ghost use Rattle.cas_step.specs.Env.{length_of};
ghost use Rattle.cas_step.specs.Evaluate.{element_place, global_value, local_value, only_place};
ghost use Rattle.cas_memory.specs.Entities.{entity_if, entity_of};
ghost use Rattle.cas_memory.specs.Values.{object_of, value_of};
ghost use Rattle.cas_eval.specs.Answer.{answer, eval_state, eval_context, map_answer};

use crate::operators::{number_of, place_below};
use crate::values::{NoResult, word_in};
use cas_base::Why;
use cas_memory::{Entity, Memory, Object, Value};
use cas_typed::Signedness;

/// The context in which an expression is evaluated.
#[derive(Clone, Copy)]
pub struct EvalContext<'a> {
    /// What the items of the module stand for, each by its number.
    pub items: &'a [Option<Entity>],
    /// The words of the program.
    pub words: &'a [u32],
    /// The locals of the thread's activations.
    pub memory: &'a Memory,
    /// The serial number of the activation whose locals the expression names.
    pub serial: u64,
}

/// What an item stands for, by its number.
#[tactic(auto, using(crate::proofs::Getting::get_there, crate::proofs::Getting::get_past))]
pub fn entity_at(items: &[Option<Entity>], item: u32) -> Option<Entity>
    ensures { option_map entity_of result ≡ entity_if (slice_get items.now item) }
{
    *items.get(item as usize)?
}

impl EvalContext<'_> {
    /// A local of the activation.
    pub fn own(&self, local: u32) -> Object
        ensures { object_of result ≡ (eval_context (eval_state self.now)).own local }
    {
        Object {
            serial: self.serial,
            local,
        }
    }

    /// The first cell of a local.
    #[tactic(auto, unfolding(crate::specs::Answer::answer))]
    pub fn local(&self, local: u32) -> Result<Value, NoResult>
        ensures { map_answer value_of result ≡ answer (eval_state self.now)
            (local_value ((eval_context (eval_state self.now)).own local)) }
    {
        match self.memory.load(self.own(local), 0) {
            Some(value) => Ok(value),
            None => Err(NoResult::Stuck),
        }
    }

    // The word with this number.
    #[tactic(auto, using(crate::proofs::Getting::get_there, crate::proofs::Getting::get_past))]
    fn word(&self, number: usize) -> Option<u32>
        ensures { result ≡ slice_get self.now.words.now number }
    {
        match self.words.get(number) {
            Some(word) => Some(*word),
            None => None,
        }
    }

    // How many words a global has, if the item is one.
    fn length(&self, item: u32) -> Option<u32>
        ensures { result ≡ length_of ((eval_state self.now).entity item) }
    {
        match entity_at(self.items, item) {
            Some(Entity::Shared { length, .. }) => Some(length),
            Some(Entity::Table { length, .. }) => Some(length),
            Some(Entity::Function { .. }) | Some(Entity::Lock(_)) | None => None,
        }
    }

    /// The place of the only word of a global.
    #[tactic(auto, using(crate::proofs::Answering::answer_then), unfolding(crate::specs::Answer::answer))]
    pub fn only_place(&self, item: u32) -> Result<u32, NoResult>
        ensures { result ≡ answer (eval_state self.now) (only_place (length_of ((eval_state self.now).entity item))) }
    {
        match self.length(item) {
            Some(1) => Ok(0),
            Some(_) | None => Err(NoResult::Stuck),
        }
    }

    /// The place of an element of a global array, by its index, which is read so.
    pub fn element_place(
        &self,
        item: u32,
        signedness: Signedness,
        index: Value,
    ) -> Result<u32, NoResult>
        ensures { result ≡ answer (eval_state self.now)
            (element_place (eval_context (eval_state self.now)) item signedness (value_of index)) }
    {
        let number = number_of(signedness, word_in(index)?);
        match self.length(item) {
            None => Err(NoResult::Stuck),
            Some(length) => match place_below(u64::from(length), number) {
                Some(place) => Ok(place),
                None => Err(NoResult::Bad(Why::Index)),
            },
        }
    }

    // The word at a place of a global, if it exists.
    fn word_of(&self, item: u32, place: u32) -> Option<u32>
        ensures { result ≡ word_at (slice_get self.now.words.now) ((eval_state self.now).entity item) place }
    {
        match entity_at(self.items, item) {
            Some(Entity::Shared { first, .. }) => self.word(first as usize + place as usize),
            Some(Entity::Table { first, .. }) => self.word(first as usize + place as usize),
            Some(Entity::Function { .. }) | Some(Entity::Lock(_)) | None => None,
        }
    }

    /// The word at a place of a global.
    #[tactic(auto, using(crate::proofs::Answering::global_there, crate::proofs::Answering::global_missing))]
    pub fn global(&self, item: u32, place: u32) -> Result<Value, NoResult>
        ensures { map_answer value_of result ≡ answer (eval_state self.now) (global_value item place) }
    {
        match self.word_of(item, place) {
            Some(word) => Ok(Value::Word(word)),
            None => Err(NoResult::Stuck),
        }
    }
}
