//! Laws of small whole programs.

ghost use Rattle.std.specs.Prelude.{◌≡◌, Some, slice_get};
ghost use Rattle.cas_runs.specs.Calls.{language};
ghost use Rattle.cas_runs.specs.Edge.{Edge, Stretch, TableWord};
ghost use Rattle.cas_runs.specs.Refines.{HasRun};
ghost use Rattle.cas_runs.specs.Unit.{FitsProgram, IsCode, IsLayout, IsStack, ThreadRefines, all_functions};
ghost use Rattle.cas_trial.specs.Stages.{global_name, main_name};
ghost use Rattle.cas_trial.specs.Whole.{edge, labels, program, routines, setting};

/// A whole program of a table and two functions, one of which calls the other, fits an edge, a stack and places of
/// code.
#[tactic(auto, using(crate::proofs::Whole::routines_fit, crate::proofs::Whole::routines_stack, crate::proofs::Whole::routines_code, crate::proofs::Whole::routines_laid_out))]
pub fn a_thread_fits()
    ensures fits { FitsProgram (language (routines 0)) edge program main_name }
    ensures stack { IsStack edge setting.stack }
    ensures code { IsCode setting.code edge.functions }
    ensures objects { IsLayout (language (routines 0)) (all_functions program) setting.layout }
{}

/// There its thread goes on after the call: it puts out the table's word, 1, and ends.
#[tactic(auto, using(crate::proofs::Whole::goes_on))]
pub fn a_thread_goes_on()
    ensures { HasRun edge ((language (routines 0)).thread setting (all_functions program) main_name 0) labels }
{}

/// The thread of the program that puts out 2 there doesn't refine it.
#[tactic(auto, using(crate::proofs::Whole::another_word))]
pub fn another_word_refused()
    ensures { ThreadRefines (language (routines 1)) (language (routines 0)) edge program program main_name → ⊥ }
{}

/// An edge that fits the program has the table's word, with its value. So there's none at which the program's
/// first read would be Bad and any target would refine.
#[tactic(auto, using(crate::proofs::Whole::table_there))]
pub fn edge_without_table_refused()
    ensures { (edge : Edge) → FitsProgram (language (routines 0)) edge program main_name
        → (s : Stretch) × (edge.words global_name ≡ Some s) × (slice_get edge.cells s.first ≡ Some (TableWord 1)) }
{}
