//! Deeds done: what a step leaves of a thread and of the words.

ghost use Rattle.std.specs.Prelude.{◌≡◌, ℕ, List, Some, None, slice_get, slice_set, true, false};
ghost use Rattle.cas_base.specs.declared.act.Act.TheVariants as act;
ghost use Rattle.cas_step.specs.Answered.{got};
ghost use Rattle.cas_step.specs.Env.{Env};
ghost use Rattle.cas_step.specs.Step as step;
ghost use Rattle.cas_step.specs.Step.{step_with_effect};
ghost use Rattle.cas_memory.specs.Entities.{entity_if};
ghost use Rattle.cas_thread.specs.Control.{after};
ghost use Rattle.cas_thread.specs.Effects.{effect_with};
ghost use Rattle.cas_thread.specs.Frames.{IsAThread};
ghost use Rattle.cas_thread.specs.Stepping.{IsStep, IsStepContext, lock_word, shared_word};

use crate::config::Config;
use crate::effect::Effect;
use cas_base::Act;
use cas_eval::entity_at;
use cas_memory::Entity;
use cas_typed::Typed;

/// The word of the lock that an item is, if it is one.
pub(crate) fn lock_of(items: &[Option<Entity>], item: u32) -> Option<u32>
    ensures { result ≡ lock_word (entity_if (slice_get items.now item)) }
{
    match entity_at(items, item)? {
        Entity::Lock(word) => Some(word),
        _ => None,
    }
}

// The number of a word of the shared global that an item is, if it is one.
fn number_of(items: &[Option<Entity>], item: u32, place: u32) -> Option<usize>
    ensures { result ≡ shared_word (entity_if (slice_get items.now item)) place }
{
    match entity_at(items, item)? {
        Entity::Shared { first, .. } => Some(first as usize + place as usize),
        _ => None,
    }
}

// Writes the word with this number, if there is one.
fn put(words: &mut [u32], number: usize, word: u32)
    ensures { words.new ≡ slice_set words.old number word }
{
    if number < words.len() {
        words[number] = word;
    }
}

impl Config {
    // Writes a word at a place of the global that an item is, and continues.
    fn write(
        &mut self,
        modules: &[Typed],
        items: &[Option<Entity>],
        words: &mut [u32],
        target: (u32, u32),
        word: u32,
    ) -> Option<Act>
        requires { ∥ IsAThread modules.now self.old ∥₁ }
        ensures { (e : Env) (h : step.StepContext) (rs : List ℕ) (s : step.Step) →
            IsStepContext modules.now items.now self.old words.old e h
            → step.global_step e h rs (step.entity_in e h target.0) target.1 word (after true h.newest.cont) ≡ Some s
            → IsStep modules.now result self.new words.new s }
    {
        let number = number_of(items, target.0, target.1)?;
        put(words, number, word);
        self.proceed(modules, true);
        Some(Act::Quiet)
    }

    // Goes on with an act on the lock that an item is.
    fn locks(
        &mut self,
        modules: &[Typed],
        items: &[Option<Entity>],
        item: u32,
        takes: bool,
    ) -> Option<Act>
        requires { ∥ IsAThread modules.now self.old ∥₁ }
        ensures takes { (e : Env) (h : step.StepContext) (rs : List ℕ) (s : step.Step) (words : List ℕ) →
            takes ≡ true → IsStepContext modules.now items.now self.old words e h
            → step.lock_step e h rs (step.entity_in e h item) act.Lock (after true h.newest.cont) ≡ Some s
            → IsStep modules.now result self.new words s }
        ensures gives { (e : Env) (h : step.StepContext) (rs : List ℕ) (s : step.Step) (words : List ℕ) →
            takes ≡ false → IsStepContext modules.now items.now self.old words e h
            → step.lock_step e h rs (step.entity_in e h item) act.Unlock (after true h.newest.cont) ≡ Some s
            → IsStep modules.now result self.new words s }
    {
        let word = lock_of(items, item)?;
        self.proceed(modules, true);
        if takes {
            Some(Act::Lock(word))
        } else {
            Some(Act::Unlock(word))
        }
    }

    /// Does an effect: the act of its step. None if it is stuck, as in no typed module.
    pub(crate) fn take(
        &mut self,
        modules: &[Typed],
        items: &[Option<Entity>],
        words: &mut [u32],
        effect: Effect,
    ) -> Option<Act>
        requires { ∥ IsAThread modules.now self.old ∥₁ }
        ensures { (e : Env) (h : step.StepContext) (rs : List ℕ) (s : step.Step) →
            IsStepContext modules.now items.now self.old words.old e h
            → step_with_effect e h (got rs (effect_with (λ is. after is h.newest.cont) effect)) ≡ Some s
            → IsStep modules.now result self.new words.new s }
    {
        match effect {
            Effect::Continues(holds) => {
                self.proceed(modules, holds);
                Some(Act::Quiet)
            }
            Effect::Stores(object, place, value) => {
                self.proceed(modules, true);
                self.store(object, place, value);
                Some(Act::Quiet)
            }
            Effect::Writes(item, place, word) => {
                self.write(modules, items, words, (item, place), word)
            }
            Effect::Returns(value) => self.return_value(value),
            Effect::Locks(item) => self.locks(modules, items, item, true),
            Effect::Unlocks(item) => self.locks(modules, items, item, false),
            Effect::Prints(word) => {
                self.proceed(modules, true);
                Some(Act::Out(word))
            }
        }
    }
}
