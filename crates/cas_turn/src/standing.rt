//! The states of threads.

ghost use Rattle.std.specs.Prelude.{◌≡◌, ℕ, List, slice_get, IfSome, IfNone};
ghost use Rattle.cas_thread.specs.Thread.{IsUnfinished, CanStep, OfNextStep};
ghost use Rattle.cas_turn.specs.Answers.{free_shown, state_shown};
ghost use Rattle.cas_turn.specs.Standing.{ForThread, IsThere, MayTurn, holder_in, state_in};

use crate::answer::ThreadState;
use cas_base::Act;
use cas_thread::{Config, Shared, act_of, next_lock, place_of};
use cas_whole::Program;

// The thread that has the lock of this word, if one has it.
fn holder_of(holders: &[Option<u32>], lock: u32) -> Option<u32>
    ensures { result ≡ holder_in (slice_get holders.now lock) }
{
    match holders.get(lock as usize) {
        Some(holder) => *holder,
        None => None,
    }
}

/// The lock that the next step of a thread waits for, with the thread that holds it.
pub(crate) fn wait_of(
    program: &Program,
    config: &Config,
    holders: &[Option<u32>],
) -> Option<(u32, u32)>
    requires { ∥ IsUnfinished program.now config.now ∥₁ }
    ensures waits { IfSome result (λ wait. (words : List ℕ) →
        OfNextStep program.now config.now words (λ s. (s.act ≡ Act.Lock wait.0) ×
        (slice_get holders.now wait.0 ≡ Some (Some wait.1)))) }
    ensures free { IfNone result ((words : List ℕ) →
        OfNextStep program.now config.now words (λ s. (l : ℕ) → s.act ≡ Act.Lock l →
        holder_in (slice_get holders.now l) ≡ None)) }
{
    match next_lock(program, config) {
        Some(lock) => match holder_of(holders, lock) {
            Some(holder) => Some((lock, holder)),
            None => None,
        },
        None => None,
    }
}

// The state of a thread that hasn't ended and waits for no lock.
fn free_state(program: &Program, config: &Config, shared: &Shared) -> ThreadState
    requires { ∥ CanStep program.now config.now shared.now.words.items ∥₁ }
    ensures { OfNextStep program.now config.now shared.now.words.items (λ s. result ≡ free_shown s s.act) }
{
    match act_of(program, config, shared) {
        Act::Bad(why) => {
            let (module, place) = place_of(program, config);
            ThreadState::Bad { why, module, place }
        }
        Act::Quiet | Act::Lock(_) | Act::Unlock(_) | Act::Out(_) | Act::Done =>
            ThreadState::Running,
    }
}

/// The state of a thread.
pub(crate) fn state_at(
    program: &Program,
    config: &Config,
    shared: &Shared,
    holders: &[Option<u32>],
) -> ThreadState
    requires there { ∥ IsThere program.now config.now ∥₁ }
    requires may { ForThread program.now config.now (λ ms c. ∥ MayTurn shared.now.words.items holders.now ms c ∥₁) }
    ensures { ForThread program.now config.now (λ ms c.
        result ≡ state_shown (state_in shared.now.words.items holders.now ms c)) }
{
    if config.has_ended() {
        return ThreadState::Ended;
    }
    match wait_of(program, config, holders) {
        Some((lock, holder)) => ThreadState::Waits { lock, holder },
        None => free_state(program, config, shared),
    }
}
