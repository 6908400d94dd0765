//! Threads of a program, as callers see them.

ghost use Rattle.std.specs.Prelude.{◌≡◌, ◌∷◌, ℕ, List, IfOk, OnErr};
ghost use Rattle.cas_base.specs.declared.act.Act.TheVariants as act;
ghost use Rattle.cas_step.specs.Step as step;
ghost use Rattle.cas_typed.specs.Resolved.{TypedModuleTree};
ghost use Rattle.cas_whole.specs.Program_of.{IsProgramOf};
ghost use Rattle.cas_thread.specs.Effects.{FirstStatementIs, IsCall};
ghost use Rattle.cas_thread.specs.Thread.{IsThread, CanStep, OfNextStep};

use crate::config::Config;
use crate::step::step_in;
use cas_base::{Act, NoMemory};
use cas_program::laws::environments_are_well_formed;
use cas_step::laws::progress_and_preservation;
use cas_whole::Program;

/// The words of a program's globals and locks.
#[derive(Debug, Drop)]
pub struct Shared {
    pub words: Vec<u32>,
}

/// Takes the next step of a thread, and answers its act. A Bad step changes nothing. It runs out of memory only if
/// the step is a call whose act is Quiet, and then nothing changes.
pub fn thread_step(
    program: &Program,
    config: &mut Config,
    shared: &mut Shared,
) -> Result<Act, NoMemory>
    requires { ∥ CanStep program.now config.old shared.old.words.items ∥₁ }
    ensures taken { IfOk result (λ done. OfNextStep program.now config.old shared.old.words.items
        (λ s. (done ≡ s.act) × IsThread program.now config.new s.next × (shared.new.words.items ≡ s.words))) }
    ensures same_config { OnErr result ((c : step.Config) → IsThread program.now config.old c →
        IsThread program.now config.new c) }
    ensures same_words { OnErr result (shared.new.words.items ≡ shared.old.words.items) }
    ensures calls { OnErr result ((ms : List TypedModuleTree) (names : List (List ℕ)) (c : step.Config)
        (a : step.Activation) (older : List step.Activation) → IsProgramOf program.now ms names →
        IsThread program.now config.old c → c.activations ≡ a ∷ older → FirstStatementIs IsCall a.cont) }
    ensures quiet { OnErr result (OfNextStep program.now config.old shared.old.words.items (λ s. s.act ≡ act.Quiet)) }
{
    progress_and_preservation();
    environments_are_well_formed();
    match step_in(program, config, shared.words.as_mut_slice())? {
        Some(done) => Ok(done),
        None => unreachable!(),
    }
}
