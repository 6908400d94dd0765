//! The act of a thread's next step, without the step.

ghost use Rattle.std.specs.Prelude.{◌≡◌, ◌∷◌, ℕ, List, Option, Some, reverse};
ghost use Rattle.cas_base.specs.declared.act.Act.TheVariants as act;
ghost use Rattle.cas_step.specs.Answered.{got};
ghost use Rattle.cas_step.specs.Asks.{Value};
ghost use Rattle.cas_step.specs.Env.{Env};
ghost use Rattle.cas_step.specs.Continuation as conts;
ghost use Rattle.cas_step.specs.Step as step;
ghost use Rattle.cas_step.specs.Step.{step_with_effect};
ghost use Rattle.cas_typed.specs.declared.typed.Typed.{Typed};
ghost use Rattle.cas_thread.specs.Control.{after};
ghost use Rattle.cas_thread.specs.Effects.{effect_with};
ghost use Rattle.cas_thread.specs.Frames.{AreFrames, AreThread};
ghost use Rattle.cas_thread.specs.Stepping.{AreEntities, AtCall, AtStep, OfStep};
ghost use Rattle.cas_thread.specs.Thread.{CanStep, OfNextStep};

use crate::config::{Config, Frame};
use crate::effect::{Effect, First};
use crate::step::{arguments_of, first, items_of};
use crate::take::lock_of;
use crate::thread::Shared;
use cas_base::Act;
use cas_eval::NoResult;
use cas_memory::Entity;
use cas_program::laws::environments_are_well_formed;
use cas_step::laws::progress_and_preservation;
use cas_whole::Program;

// The act of a return from the newest of these calls: the outermost ends the thread.
fn return_act(frames: &[Frame]) -> Act
    ensures { (modules : List Typed) (e : Env) (h : step.StepContext) (rs : List ℕ) (v : Option (Value step.Object))
        (s : step.Step) → AreFrames modules (reverse frames.now) (h.newest ∷ h.older)
        → step.return_step e h rs h.older v ≡ Some s → result ≡ s.act }
{
    if frames.len() < 2 {
        Act::Done
    } else {
        Act::Quiet
    }
}

// The act of taking the lock that an item is, if it is one.
fn lock_act(items: &[Option<Entity>], item: u32) -> Option<Act>
    ensures { (e : Env) (h : step.StepContext) (rs : List ℕ) (cont : List conts.ContItem) (s : step.Step) →
        AreEntities items.now e h
        → step.lock_step e h rs (step.entity_in e h item) act.Lock cont ≡ Some s → result ≡ Some s.act }
{
    lock_of(items, item).map(Act::Lock)
}

// The act of releasing the lock that an item is, if it is one.
fn unlock_act(items: &[Option<Entity>], item: u32) -> Option<Act>
    ensures { (e : Env) (h : step.StepContext) (rs : List ℕ) (cont : List conts.ContItem) (s : step.Step) →
        AreEntities items.now e h
        → step.lock_step e h rs (step.entity_in e h item) act.Unlock cont ≡ Some s → result ≡ Some s.act }
{
    lock_of(items, item).map(Act::Unlock)
}

// The act of an effect. None if it is stuck, as in no typed module.
fn effect_act(config: &Config, items: &[Option<Entity>], effect: Effect) -> Option<Act>
    ensures { (modules : List Typed) (e : Env) (h : step.StepContext) (rs : List ℕ) (s : step.Step) →
        AreThread modules config.now h.config → h.config.activations ≡ h.newest ∷ h.older
        → AreEntities items.now e h → step_with_effect e h
        (got rs (effect_with (λ is. after is h.newest.cont) effect)) ≡ Some s → result ≡ Some s.act }
{
    match effect {
        Effect::Continues(_) => Some(Act::Quiet),
        Effect::Stores(_, _, _) => Some(Act::Quiet),
        Effect::Writes(_, _, _) => Some(Act::Quiet),
        Effect::Returns(_) => Some(return_act(config.frames.as_slice())),
        Effect::Locks(item) => lock_act(items, item),
        Effect::Unlocks(item) => unlock_act(items, item),
        Effect::Prints(word) => Some(Act::Out(word)),
    }
}

// The act of a call. None if there is no such step, as in no typed module.
fn call_act(program: &Program, config: &Config, words: &[u32]) -> Option<Act>
    ensures { AtCall program.now config.now words.now (OfStep (λ s. result ≡ Some s.act)) }
{
    match arguments_of(program, config, words) {
        Ok(_) => Some(Act::Quiet),
        Err(why) => match why {
            NoResult::Bad(why) => Some(Act::Bad(why)),
            NoResult::Stuck => None,
        },
    }
}

// The act of a thread's next step. None if there is no such step, as in no typed module.
fn act_in(program: &Program, config: &Config, words: &[u32]) -> Option<Act>
    ensures { AtStep program.now config.now words.now (OfStep (λ s. result ≡ Some s.act)) }
{
    match first(program, config, words) {
        Ok(first) => match first {
            First::Does(effect) => effect_act(config, items_of(program, config), effect),
            First::Jump => Some(Act::Quiet),
            First::Call => call_act(program, config, words),
        },
        Err(why) => match why {
            NoResult::Bad(why) => Some(Act::Bad(why)),
            NoResult::Stuck => None,
        },
    }
}

/// The act of a thread's next step. It takes no memory and changes nothing.
pub fn act_of(program: &Program, config: &Config, shared: &Shared) -> Act
    requires { ∥ CanStep program.now config.now shared.now.words.items ∥₁ }
    ensures { OfNextStep program.now config.now shared.now.words.items (λ s. result ≡ s.act) }
{
    progress_and_preservation();
    environments_are_well_formed();
    match act_in(program, config, shared.words.as_slice()) {
        Some(done) => done,
        None => unreachable!(),
    }
}
