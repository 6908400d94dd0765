//! The passes that make tail calls.

ghost use Rattle.std.specs.Prelude.{IfOk, List, true, ◌≡◌};
ghost use Rattle.cas_base.specs.declared.decl.Decl.{Decl};
ghost use Rattle.cas_base.specs.declared.decl.Unit.{Unit as UnitOf};
ghost use Rattle.cas_runs.specs.Calls.{language};
ghost use Rattle.cas_runs.specs.Passing.{AllMade};
ghost use Rattle.cas_runs.specs.Unit.{AreDefined, FunctionRefines, UnitRefines, defines};
ghost use Rattle.cas_runs.specs.Unmoved.{unmoved};
ghost use Rattle.cas_trial.specs.Relays.{Relay, calling, dropping, tailing};
ghost use Rattle.cas_trial.specs.Tailing.Makes.{IsTailing};
ghost use Rattle.cas_trial.specs.Tailing.Match.{tail_calls};
ghost use Rattle.cas_trial.specs.Stages.{main_name};

use cas_base::NoMemory;
use cas_runs::{FunctionPass, functions_refine, units_refine};
use std::alloc::Global;

/// A program that calls a function with a word, and returns its result.
#[derive(Clone, Copy, Debug, PartialEq, Eq)]
pub struct Relaying {
    pub word: u32,
}

/// The program that does so by a tail call.
#[derive(Clone, Copy, Debug, PartialEq, Eq)]
pub struct Relayed {
    pub word: u32,
}

/// The pass that makes a tail call of a call whose result is only returned.
#[derive(Clone, Copy, Debug)]
pub struct TailCalls;

impl FunctionPass for TailCalls {
    type Source = Relaying;

    type Target = Relayed;

    ghost source_activation = { Relay };

    ghost target_activation = { Relay };

    ghost matching = { unmoved (tail_calls (λ values. values)) };

    fn translate(&self, _alloc: Global, from: &Relaying) -> Result<Relayed, NoMemory> {
        Ok(Relayed { word: from.word })
    }

    fn shows() {}
}

/// Makes the tail call. The result refines the program as a function: its activation is gone where the
/// program's waits for a result that it only returns.
///
/// Errors: none but want of memory.
pub fn relay(alloc: Global, program: &Relaying) -> Result<Relayed, NoMemory>
    ensures word { IfOk result (λ made. IsTailing made program.now) }
    ensures refines { IfOk result (λ made. (decls : List Decl) → defines decls main_name ≡ true
        → FunctionRefines (language tailing) (language calling) decls main_name made program.now) }
{
    functions_refine::<TailCalls>();
    TailCalls.translate(alloc, program)
}

/// Units of such programs refine, where their declarations and data are equal.
pub fn units_relay()
    ensures { (s : UnitOf Relaying) (t : UnitOf Relayed) → t.decls ≡ s.decls → t.globals ≡ s.globals
        → AreDefined (language calling) s.decls s.funs → AllMade IsTailing t.funs s.funs
        → UnitRefines (language tailing) (language calling) t s }
{
    units_refine::<TailCalls>();
}

/// So do units of programs that return nothing of the result: who called them takes none.
#[tactic(auto, using(crate::proofs::tailing::Simulation::units_drop))]
pub fn units_drop()
    ensures { (s : UnitOf Relaying) (t : UnitOf Relayed) → t.decls ≡ s.decls → t.globals ≡ s.globals
        → AreDefined (language dropping) s.decls s.funs → AllMade IsTailing t.funs s.funs
        → UnitRefines (language tailing) (language dropping) t s }
{}
