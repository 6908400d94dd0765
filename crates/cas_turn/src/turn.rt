//! One turn of a thread.

ghost use Rattle.std.specs.Prelude.{◌≡◌, ◌≢◌, ℕ, ◌<◌, List, [], slice_get, IfErr, OnOk, OnErr, vec_len, vec_capacity};
ghost use Rattle.std.specs.Bool.{OnTrue, OnFalse};
ghost use Rattle.cas_thread.specs.Thread.{IsUnfinished, CanStep, OfNextStep};
ghost use Rattle.cas_turn.specs.Answers.{Answers, IsRunning};
ghost use Rattle.cas_turn.specs.Standing.{ForThread, IsAfter, IsThere, IsUnmoved, MayTurn, holder_in, state_in};

use crate::answer::WorldAnswer;
use crate::effect::{hold, put};
use crate::standing::wait_of;
use cas_base::{Act, Why};
use cas_thread::{Config, Shared, act_of, next_prints, place_of, thread_step};
use cas_whole::Program;

// Whether an act outputs a word.
fn puts_out(act: Act) -> bool
    ensures out { OnTrue result ((n : ℕ) × (act ≡ Act.Out n)) }
    ensures other { OnFalse result ((n : ℕ) → act ≢ Act.Out n) }
{
    match act {
        Act::Out(_) => true,
        Act::Quiet => false,
        Act::Lock(_) => false,
        Act::Unlock(_) => false,
        Act::Done => false,
        Act::Bad(_) => false,
    }
}

// Whether there is room for what the next step outputs, if it outputs a word. Room is taken only if the step is
// a print.
fn has_room(program: &Program, config: &Config, shared: &Shared, out: &mut Vec<(u32, u32)>) -> bool
    requires { ∥ CanStep program.now config.now shared.now.words.items ∥₁ }
    ensures same { out.new.items ≡ out.old.items }
    ensures room { OnTrue result (OfNextStep program.now config.now shared.now.words.items
        (λ s. (n : ℕ) → s.act ≡ Act.Out n → vec_len out.new < vec_capacity out.new)) }
    ensures full { OnFalse result (OfNextStep program.now config.now shared.now.words.items
        (λ s. (n : ℕ) × (s.act ≡ Act.Out n))) }
{
    if out.len() < out.capacity() {
        return true;
    }
    if !next_prints(program, config) {
        return true;
    }
    if out.reserve(1).is_ok() {
        return true;
    }
    !puts_out(act_of(program, config, shared))
}

// The answer of a thread whose next step is Bad.
fn bad_at(program: &Program, config: &Config, why: Why) -> WorldAnswer
    requires { ∥ IsUnfinished program.now config.now ∥₁ }
    ensures { (words : List ℕ) → OfNextStep program.now config.now words
        (λ s. result ≡ WorldAnswer.Bad why s.unit s.place) }
{
    let (module, place) = place_of(program, config);
    WorldAnswer::Bad { why, module, place }
}

// The turn of a thread that hasn't ended and waits for no lock.
fn run(
    program: &Program,
    config: &mut Config,
    shared: &mut Shared,
    holders: &mut [Option<u32>],
    out: &mut Vec<(u32, u32)>,
    thread: u32,
) -> Result<(), WorldAnswer>
    requires stands { ∥ CanStep program.now config.old shared.old.words.items ∥₁ }
    requires may { ForThread program.now config.old (λ ms c. ∥ MayTurn shared.old.words.items holders.old ms c ∥₁) }
    requires goes_on { ForThread program.now config.old (λ ms c. c.activations ≢ []) }
    requires free { OfNextStep program.now config.old shared.old.words.items
        (λ s. (l : ℕ) → s.act ≡ Act.Lock l → holder_in (slice_get holders.old l) ≡ None) }
    ensures taken { OnOk result (ForThread program.now config.old
        (λ ms c. IsRunning (state_in shared.old.words.items holders.old ms c)
        (λ s. IsAfter program.now thread holders.old out.old.items s config.new shared.new.words.items holders.new
        out.new.items))) }
    ensures unmoved { OnErr result (ForThread program.now config.old
        (λ _ c. IsUnmoved program.now c shared.old.words.items holders.old out.old.items config.new
        shared.new.words.items holders.new out.new.items)) }
    ensures answer { IfErr result (λ answer. ForThread program.now config.old
        (λ ms c. Answers c.activations (state_in shared.old.words.items holders.old ms c) answer)) }
{
    if !has_room(program, config, shared, out) {
        return Err(WorldAnswer::Memory);
    }
    let act = match thread_step(program, config, shared) {
        Ok(act) => act,
        Err(_) => return Err(WorldAnswer::Memory),
    };
    if let Act::Bad(why) = act {
        return Err(bad_at(program, config, why));
    }
    hold(holders, act, thread);
    put(out, act, thread);
    Ok(())
}

/// A turn of the thread with this number: it takes its next step, if it may.
pub(crate) fn turn(
    program: &Program,
    config: &mut Config,
    shared: &mut Shared,
    holders: &mut [Option<u32>],
    out: &mut Vec<(u32, u32)>,
    thread: u32,
) -> Result<(), WorldAnswer>
    requires there { ∥ IsThere program.now config.old ∥₁ }
    requires may { ForThread program.now config.old (λ ms c. ∥ MayTurn shared.old.words.items holders.old ms c ∥₁) }
    ensures taken { OnOk result (ForThread program.now config.old
        (λ ms c. IsRunning (state_in shared.old.words.items holders.old ms c)
        (λ s. IsAfter program.now thread holders.old out.old.items s config.new shared.new.words.items holders.new
        out.new.items))) }
    ensures unmoved { OnErr result (ForThread program.now config.old
        (λ _ c. IsUnmoved program.now c shared.old.words.items holders.old out.old.items config.new
        shared.new.words.items holders.new out.new.items)) }
    ensures answer { IfErr result (λ answer. ForThread program.now config.old
        (λ ms c. Answers c.activations (state_in shared.old.words.items holders.old ms c) answer)) }
{
    if config.has_ended() {
        return Err(WorldAnswer::Ended);
    }
    if let Some((lock, holder)) = wait_of(program, config, holders) {
        return Err(WorldAnswer::Waits { lock, holder });
    }
    run(program, config, shared, holders, out, thread)
}
