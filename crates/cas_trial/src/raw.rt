//! A machine with calls of its own, which crosses: what it emits is in kind, and a pass between two paces of it is
//! shown by the law of machines.

ghost use Rattle.std.specs.Prelude.{Bool, ℕ, IfOk, false, true, ◌≡◌, ◌≤◌};
ghost use Rattle.cas_base.specs.declared.kind.Kind.TheVariants.{U32};
ghost use Rattle.cas_runs.specs.Edge.{IsOfKind};
ghost use Rattle.cas_runs.specs.Refines.{Refines};
ghost use Rattle.cas_runs.specs.Rules.{KeepsKinds, KeepsLocks, KeepsRules};
ghost use Rattle.cas_runs.specs.Unit.{Setting};
ghost use Rattle.cas_trial.specs.Pacing.{Match, Place, edge, relay};

use crate::tailing::Relaying;
use cas_base::NoMemory;
use cas_runs::{ChainedPass, Pass, chains_refine, run_pass};
use std::alloc::Global;

/// The pass that has a step without a label before the call.
#[derive(Clone, Copy, Debug)]
pub struct Slowing;

impl Pass for Slowing {
    type Source = Relaying;

    type Target = Relaying;

    ghost source_state = { Place };

    ghost target_state = { Place };

    ghost source = { λ setting f. relay false 2 f.word };

    ghost target = { λ setting f. relay true 1 f.word };

    ghost naming = { λ f layout. layout };

    ghost fits = { λ setting f. setting.edge ≡ edge };

    ghost makes = { λ from to. to.word ≡ from.word };

    ghost match_states = { λ setting from to ls x b y c. Match x b y c };

    fn apply(&self, _alloc: Global, from: &Relaying) -> Result<Relaying, NoMemory> {
        Ok(*from)
    }

    fn simulates() {}
}

impl ChainedPass for Slowing {
    type Source = Relaying;

    type Target = Relaying;

    ghost source_state = { Place };

    ghost target_state = { Place };

    ghost source = { λ setting f. relay false 2 f.word };

    ghost target = { λ setting f. relay true 1 f.word };

    ghost makes = { λ setting from to. (to.word ≡ from.word) × (setting.edge ≡ edge) };

    ghost match_states = { λ setting from to ls x b y c. Match x b y c };

    fn chains() {}
}

/// The same, by the law of chains: where the source calls, the target first makes a step and then calls.
pub fn relays_chain()
    ensures { (setting : Setting) (source target : Relaying) → (target.word ≡ source.word) × (setting.edge ≡ edge)
        → Refines setting.edge (relay true 1 target.word) (relay false 2 source.word) }
{
    chains_refine::<Slowing>();
}

/// The same program. With a step before its call, and half the price a step, it refines itself without.
///
/// Errors: none but want of memory.
pub fn slow(alloc: Global, program: &Relaying) -> Result<Relaying, NoMemory>
    ensures { IfOk result (λ made. (setting : Setting) → setting.edge ≡ edge
        → Refines setting.edge (relay true 1 made.word) (relay false 2 program.now.word)) }
{
    run_pass(alloc, &Slowing, program)
}

/// What the machine emits is in kind, and it has the locks that are due: it keeps what a source keeps, at its call and
/// its return.
pub fn relay_keeps_kinds()
    ensures kinds { (slow : Bool) (price word : ℕ) → IsOfKind word U32 → KeepsKinds edge (relay slow price word) }
    ensures locks { (slow : Bool) (price word : ℕ) → KeepsLocks edge (relay slow price word) }
{}

/// It keeps the rules.
pub fn relay_keeps_rules()
    ensures { (slow : Bool) (price word : ℕ) → 1 ≤ price → KeepsRules edge (relay slow price word) }
{}
