//! Passes, as relations of the states of two machines.

ghost use Rattle.std.specs.Prelude.{IfOk, List, ◌⊎◌};
ghost use Rattle.cas_runs.specs.Chains.{IsChained};
ghost use Rattle.cas_runs.specs.Label.{RunLabel};
ghost use Rattle.cas_runs.specs.Machine.{Machine, Block};
ghost use Rattle.cas_runs.specs.Naming.{Layout};
ghost use Rattle.cas_runs.specs.Refines.{BadBefore, Comes, HasRun, Reached, Reaches, Refines};
ghost use Rattle.cas_runs.specs.Simulation.{RunsMatch, Simulates};
ghost use Rattle.cas_runs.specs.Unit.{Setting, laid_out};

use cas_base::NoMemory;
use std::alloc::Global;

/// A pass of the compiler, from what it takes to what it makes. An implementation names what is made of
/// what, and which states of the two machines match, with the block so far of each; `simulates` shows that
/// each step of the target keeps them matched.
pub trait Pass {
    /// What it takes.
    type Source;

    /// What it makes.
    type Target;

    /// The states of the source's machine.
    ghost source_state: { Type 0 };

    /// The states of the target's machine.
    ghost target_state: { Type 0 };

    /// The source's machine in a setting.
    ghost source: { Setting → Self.Source → Machine source_state };

    /// The target's machine in a setting.
    ghost target: { Setting → Self.Target → Machine target_state };

    /// Where the target's blocks lie, by where the source's lie.
    ghost naming: { Self.Source → Layout → Layout };

    /// The settings for which the pass is shown.
    ghost fits: { Setting → Self.Source → Type 0 };

    /// The target is what the pass makes of the source.
    ghost makes: { Self.Source → Self.Target → Type 0 };

    /// After these labels, the states of target and source with the block so far of each, where they match.
    ghost match_states: { Setting → Self.Source → Self.Target → List RunLabel → target_state → Block → source_state →
        Block → Type 0 };

    /// What the pass makes of the source.
    fn apply(&self, alloc: Global, from: &Self::Source) -> Result<Self::Target, NoMemory>
        ensures { IfOk result (λ to. makes from.now to) };

    /// The law that each step of the target keeps states matched.
    fn simulates()
        ensures { (setting : Setting) (a : Self.Source) (b : Self.Target) → makes a b → fits setting a →
            Simulates setting.edge (target (laid_out setting (naming a setting.layout)) b) (source setting a)
            (match_states setting a b) };
}

/// What a pass makes refines what it is made of, in each setting that fits that. Which settings fit is the
/// implementation's own word, and could be few or none: a reader of a pass should read its `UnitRefines`, whose
/// settings are the same for all.
pub fn steps_refine<P: Pass>()
    ensures { (setting : Setting) (a : P.Source) (b : P.Target) → P.makes a b → P.fits setting a →
        Refines setting.edge (P.target (laid_out setting (P.naming a setting.layout)) b) (P.source setting a) }
{
    P::simulates();
}

/// The result of the pass, which refines its argument.
pub fn run_pass<P: Pass>(alloc: Global, pass: &P, from: &P::Source) -> Result<P::Target, NoMemory>
    ensures { IfOk result (λ to. (setting : Setting) → P.fits setting from.now →
        Refines setting.edge (P.target (laid_out setting (P.naming from.now setting.layout)) to)
        (P.source setting from.now)) }
{
    P::simulates();
    pass.apply(alloc, from)
}

/// Each run of what the pass makes, with labels that the source has, matches one of the source with the same
/// labels, or the source is Bad before.
pub fn runs_match<P: Pass>()
    ensures { (setting : Setting) (a : P.Source) (b : P.Target) → P.makes a b → P.fits setting a
        → (ls : List RunLabel) (x : Reached P.target_state)
        → Reaches setting.edge (P.target (laid_out setting (P.naming a setting.layout)) b) ls x
        → HasRun setting.edge (P.source setting a) ls
        → BadBefore setting.edge (P.source setting a) ls
        ⊎ Comes setting.edge (P.source setting a) ls
        (RunsMatch setting.edge (P.target (laid_out setting (P.naming a setting.layout)) b) (P.source setting a)
        (P.match_states setting a b) ls x) }
{
    P::simulates();
}

/// A pass of which several quiet steps of the target answer one step of the source: an implementation relates the
/// states at which a step of the source begins, and shows from there a chain of quiet steps to a step that both answer.
pub trait ChainedPass {
    /// What it takes.
    type Source;

    /// What it makes.
    type Target;

    /// The states of the source's machine.
    ghost source_state: { Type 0 };

    /// The states of the target's machine.
    ghost target_state: { Type 0 };

    /// The source's machine in a setting.
    ghost source: { Setting → Self.Source → Machine source_state };

    /// The target's machine in a setting.
    ghost target: { Setting → Self.Target → Machine target_state };

    /// The settings for which the pass is shown, and what it makes of what.
    ghost makes: { Setting → Self.Source → Self.Target → Type 0 };

    /// After these labels, the states at which a step of the source begins, with the block so far of each.
    ghost match_states: { Setting → Self.Source → Self.Target → List RunLabel → target_state → Block → source_state →
        Block → Type 0 };

    /// The law that chains lead from where states match to where they match again.
    fn chains()
        ensures { (setting : Setting) (a : Self.Source) (b : Self.Target) → makes setting a b →
            IsChained setting.edge (target setting b) (source setting a) (match_states setting a b) };
}

/// What such a pass makes refines what it is made of.
pub fn chains_refine<P: ChainedPass>()
    ensures { (setting : Setting) (a : P.Source) (b : P.Target) → P.makes setting a b →
        Refines setting.edge (P.target setting b) (P.source setting a) }
{
    P::chains();
}
