//! Steps of threads of a program.

ghost use Rattle.std.specs.Prelude.{◌≡◌, [], ◌∷◌, ℕ, List, Some, None, true, IfNone, IfSome, IfOk, OnErr, reverse, slice_get};
ghost use Rattle.cas_base.specs.declared.act.Act.TheVariants as act;
ghost use Rattle.cas_memory.specs.Entities.{entity_if};
ghost use Rattle.cas_thread.specs.declared.config.Frame as code;
ghost use Rattle.cas_step.specs.Step as step;
ghost use Rattle.cas_program.specs.Program.{env_of};
ghost use Rattle.cas_typed.specs.Resolved.{TypedModuleTree};
ghost use Rattle.cas_whole.specs.Program_of.{IsProgramOf};
ghost use Rattle.cas_thread.specs.Calls.{IsReadied, IsReady};
ghost use Rattle.cas_thread.specs.Control.{after};
ghost use Rattle.cas_thread.specs.Effects.{FirstStatementIs, IsCall, IsFirst, IsJump};
ghost use Rattle.cas_thread.specs.Frames.{AreThread};
ghost use Rattle.cas_thread.specs.Stepping.{AreEntities, AtCall, AtStep, AtThread, IsStep, OfStep, evaluated_effect};

use crate::call::{Ready, evaluated, first_call, function_of};
use crate::config::{Config, Frame, rows_of};
use crate::effect::{First, first_step};
use cas_base::{Act, NoMemory};
use cas_eval::{EvalContext, NoArguments, NoResult, check_arguments};
use cas_memory::Entity;
use cas_program::laws::declarations_agree;
use cas_whole::Program;

/// The context in which the newest call evaluates.
pub(crate) fn context_in<'a>(
    program: &'a Program,
    config: &'a Config,
    words: &'a [u32],
    frame: &Frame,
) -> EvalContext<'a>
    ensures items { (ms : List TypedModuleTree) (names : List (List ℕ)) (item : ℕ) → IsProgramOf program.now ms names →
        entity_if (slice_get result.items.now item) ≡ (env_of ms).entity frame.now.unit item }
    ensures words { result.words.now ≡ words.now }
    ensures memory { result.memory.now ≡ config.now.memory }
    ensures serial { result.serial ≡ frame.now.serial }
{
    EvalContext {
        items: program.items(frame.unit),
        words,
        memory: &config.memory,
        serial: frame.serial,
    }
}

/// The newest call.
pub(crate) fn newest(config: &Config) -> Option<&Frame>
    ensures some { IfSome result (λ f. (rest : List code.Frame) × (reverse config.now.frames.items ≡ f.now ∷ rest)) }
    ensures none { IfNone result (reverse config.now.frames.items ≡ []) }
{
    let (frame, _) = config.frames.split_last()?;
    Some(frame)
}

/// The first item of the newest call: its effect, or that it is a call or a jump, or why it has no effect.
pub(crate) fn first(program: &Program, config: &Config, words: &[u32]) -> Result<First, NoResult>
    ensures { AtStep program.now config.now words.now
        (λ ms h. IsFirst (evaluated_effect ms h) (λ is. after is h.newest.cont) (FirstStatementIs IsCall h.newest.cont)
        (FirstStatementIs IsJump h.newest.cont) result) }
{
    match newest(config) {
        Some(frame) => match program.function(frame.unit, frame.place) {
            Some(body) => {
                let rows = rows_of(program.modules(), frame.unit, frame.place);
                let context = context_in(program, config, words, frame);
                first_step(&context, rows, body.ret, frame.cont.as_slice())
            }
            None => Err(NoResult::Stuck),
        },
        None => Err(NoResult::Stuck),
    }
}

/// What the items of the newest call's module stand for.
pub(crate) fn items_of<'a>(program: &'a Program, config: &Config) -> &'a [Option<Entity>]
    ensures { AtThread program.now config.now (λ ms h. AreEntities result.now (env_of ms) h) }
{
    match newest(config) {
        Some(frame) => program.items(frame.unit),
        None => &[],
    }
}

// The call that comes first, with its arguments.
fn ready(program: &Program, config: &Config, words: &[u32]) -> Result<Ready, NoArguments>
    ensures { AtCall program.now config.now words.now
        (λ ms h. IsReady (evaluated_effect ms h) (after true h.newest.cont) result) }
{
    match newest(config) {
        Some(frame) => {
            let rows = rows_of(program.modules(), frame.unit, frame.place);
            match first_call(rows, frame.cont.as_slice()) {
                Some(called) => {
                    let context = context_in(program, config, words, frame);
                    evaluated(config.alloc, &context, &called)
                }
                None => Err(NoArguments::OfValue(NoResult::Stuck)),
            }
        }
        None => Err(NoArguments::OfValue(NoResult::Stuck)),
    }
}

/// Why the arguments of the call that comes first have no values, or that they have. It takes no memory.
pub(crate) fn arguments_of(
    program: &Program,
    config: &Config,
    words: &[u32],
) -> Result<(), NoResult>
    ensures { AtCall program.now config.now words.now (λ ms h. IsReadied (evaluated_effect ms h) result) }
{
    match newest(config) {
        Some(frame) => {
            let rows = rows_of(program.modules(), frame.unit, frame.place);
            match first_call(rows, frame.cont.as_slice()) {
                Some(called) => {
                    let context = context_in(program, config, words, frame);
                    check_arguments(&context, called.args)
                }
                None => Err(NoResult::Stuck),
            }
        }
        None => Err(NoResult::Stuck),
    }
}

// The step of a call if there was no room for its arguments: if evaluating them is Bad, the step is Bad all the same.
fn call_without_room(
    program: &Program,
    config: &Config,
    words: &[u32],
) -> Result<Option<Act>, NoMemory>
    ensures taken { IfOk result (λ done. AtCall program.now config.now words.now
        (OfStep (IsStep program.now.modules done config.now words.now))) }
    ensures quiet { OnErr result (AtCall program.now config.now words.now (OfStep (λ s. s.act ≡ act.Quiet))) }
{
    match arguments_of(program, config, words) {
        Ok(_) => Err(NoMemory),
        Err(NoResult::Bad(why)) => Ok(Some(Act::Bad(why))),
        Err(NoResult::Stuck) => Ok(None),
    }
}

// The step of a call.
fn call(program: &Program, config: &mut Config, words: &[u32]) -> Result<Option<Act>, NoMemory>
    requires { ∥ ((ms : List TypedModuleTree) × (names : List (List ℕ)) × (c : step.Config) ×
        IsProgramOf program.now ms names × AreThread program.now.modules config.old c) ∥₁ }
    ensures taken { IfOk result (λ done. AtCall program.now config.old words.now
        (OfStep (IsStep program.now.modules done config.new words.now))) }
    ensures kept { OnErr result ((c : step.Config) → AreThread program.now.modules config.old c →
        AreThread program.now.modules config.new c) }
    ensures quiet { OnErr result (AtCall program.now config.old words.now (OfStep (λ s. s.act ≡ act.Quiet))) }
{
    declarations_agree();
    let modules = program.modules();
    match ready(program, config, words) {
        Ok(ready) => {
            let items = items_of(program, config);
            match function_of(items, ready.item) {
                Some(at) => config.enter(modules, at, ready.kept, ready.values.as_slice()),
                None => Ok(None),
            }
        }
        Err(why) => match why {
            NoArguments::Memory => call_without_room(program, config, words),
            NoArguments::OfValue(why) => match why {
                NoResult::Bad(why) => Ok(Some(Act::Bad(why))),
                NoResult::Stuck => Ok(None),
            },
        },
    }
}

/// The step of a thread: its act. None if there is no such step, as in no typed module.
pub(crate) fn step_in(
    program: &Program,
    config: &mut Config,
    words: &mut [u32],
) -> Result<Option<Act>, NoMemory>
    requires { ∥ ((ms : List TypedModuleTree) × (names : List (List ℕ)) × (c : step.Config) ×
        IsProgramOf program.now ms names × AreThread program.now.modules config.old c) ∥₁ }
    ensures taken { IfOk result (λ act. AtStep program.now config.old words.old
        (OfStep (IsStep program.now.modules act config.new words.new))) }
    ensures kept { OnErr result ((c : step.Config) → AreThread program.now.modules config.old c →
        AreThread program.now.modules config.new c) }
    ensures words { OnErr result (words.new ≡ words.old) }
    ensures calls { OnErr result (AtStep program.now config.old words.old
        (λ _ h. FirstStatementIs IsCall h.newest.cont)) }
    ensures quiet { OnErr result (AtStep program.now config.old words.old (OfStep (λ s. s.act ≡ act.Quiet))) }
{
    let modules = program.modules();
    match first(program, config, words) {
        Ok(first) => match first {
            First::Does(effect) => {
                let items = items_of(program, config);
                Ok(config.take(modules, items, words, effect))
            }
            First::Jump => {
                config.proceed(modules, true);
                Ok(Some(Act::Quiet))
            }
            First::Call => call(program, config, words),
        },
        Err(why) => match why {
            NoResult::Bad(why) => Ok(Some(Act::Bad(why))),
            NoResult::Stuck => Ok(None),
        },
    }
}
