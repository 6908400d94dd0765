//! The pass that drops the sum of a word and 0.

ghost use Rattle.std.specs.Prelude.{◌≡◌};
ghost use Rattle.cas_base.specs.declared.decl.Unit.{Unit as UnitOf};
ghost use Rattle.cas_runs.specs.Calls.{language};
ghost use Rattle.cas_runs.specs.Passing.{AllMade};
ghost use Rattle.cas_runs.specs.Unit.{AreDefined, UnitRefines};
ghost use Rattle.cas_trial.specs.Summing.Makes.{IsSame};
ghost use Rattle.cas_trial.specs.Sums.{adding, plain};
ghost use Rattle.cas_trial.specs.declared.tailing.Relaying.{Relaying};

/// A unit whose functions put out a word refines one whose functions add 0 to it first: what they read is known
/// to be a word.
#[tactic(auto, using(crate::proofs::summing::Simulation::units_sum))]
pub fn units_sum()
    ensures { (s : UnitOf Relaying) (t : UnitOf Relaying) → t.decls ≡ s.decls → t.globals ≡ s.globals
        → AreDefined (language adding) s.decls s.funs → AllMade IsSame t.funs s.funs
        → UnitRefines (language plain) (language adding) t s }
{}
