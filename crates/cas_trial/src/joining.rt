//! The pass that puts two variables into one block.

ghost use Rattle.std.specs.Prelude.{IfOk, List, ℕ, true, ◌≡◌, ◌≤◌};
ghost use Rattle.cas_base.specs.declared.decl.Decl.{Decl};
ghost use Rattle.cas_base.specs.declared.decl.Unit.{Unit as UnitOf};
ghost use Rattle.cas_runs.specs.Bounds.{weight_of};
ghost use Rattle.cas_runs.specs.Calls.{language};
ghost use Rattle.cas_runs.specs.Edge.{Edge};
ghost use Rattle.cas_runs.specs.Label.{NameBytes};
ghost use Rattle.cas_runs.specs.Passing.{AllMade, UnitsMade};
ghost use Rattle.cas_runs.specs.Placing.{moved_blocks};
ghost use Rattle.cas_runs.specs.Unit.{AreDefined, FitsProgram, FunctionRefines, ThreadRefines, UnitRefines, all_decls, all_globals, defines};
ghost use Rattle.cas_trial.specs.Joining.Makes.{IsJoined};
ghost use Rattle.cas_trial.specs.Joining.Match.{joining};
ghost use Rattle.cas_trial.specs.Stages.{Stage, apart, joined, main_name};

use cas_base::NoMemory;
use cas_runs::{FunctionPass, functions_refine, threads_refine, units_refine};
use std::alloc::Global;

/// A program of two variables, each in a block of its own. It stores the first in a word behind a lock,
/// shows the place after it to a function outside, and puts out what stands at the place that comes back, and
/// then the second variable.
#[derive(Clone, Copy, Debug, PartialEq, Eq)]
pub struct Apart {
    pub first: u32,
    pub second: u32,
}

/// The program with both variables in one block, cell after cell.
#[derive(Clone, Copy, Debug, PartialEq, Eq)]
pub struct Joined {
    pub cells: (u32, u32),
}

/// The pass that puts both variables into one block.
#[derive(Clone, Copy, Debug)]
pub struct Joining;

impl FunctionPass for Joining {
    type Source = Apart;

    type Target = Joined;

    ghost source_activation = { Stage };

    ghost target_activation = { Stage };

    ghost matching = { moved_blocks joining };

    fn translate(&self, _alloc: Global, from: &Apart) -> Result<Joined, NoMemory> {
        Ok(Joined {
            cells: (from.first, from.second),
        })
    }

    fn shows() {}
}

/// Puts both variables into one block. The result refines the program as a function, though the place that
/// crosses to the outside and comes back is in the block the place of the second variable.
///
/// Errors: none but want of memory.
pub fn join(alloc: Global, program: &Apart) -> Result<Joined, NoMemory>
    ensures values { IfOk result (λ made. IsJoined made program.now) }
    ensures refines { IfOk result (λ made. (decls : List Decl) → defines decls main_name ≡ true
        → FunctionRefines (language joined) (language apart) decls main_name made program.now) }
{
    functions_refine::<Joining>();
    Joining.translate(alloc, program)
}

/// Units of such programs refine, where their declarations and data are equal.
pub fn units_join()
    ensures { (s : UnitOf Apart) (t : UnitOf Joined) → t.decls ≡ s.decls → t.globals ≡ s.globals
        → AreDefined (language apart) s.decls s.funs → AllMade IsJoined t.funs s.funs
        → UnitRefines (language joined) (language apart) t s }
{
    units_refine::<Joining>();
}

/// So do the threads of whole programs.
pub fn threads_join()
    ensures { (edge : Edge) (ss : List (UnitOf Apart)) (ts : List (UnitOf Joined)) (entry : NameBytes)
        → FitsProgram (language apart) edge ss entry → all_decls ts ≡ all_decls ss
        → all_globals ts ≡ all_globals ss → UnitsMade (λ decls. IsJoined) ts ss
        → ThreadRefines (language joined) (language apart) edge ts ss entry }
{
    threads_refine::<Joining>();
}

/// What the pass makes weighs no more than what it is made of.
pub fn joined_weighs_less()
    ensures { (made : Joined) (program : Apart) → weight_of joined.tariff made ≤ weight_of apart.tariff program }
{}
