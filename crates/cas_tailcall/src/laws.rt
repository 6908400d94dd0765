//! What Tailcall makes refines what it is made of.

ghost use Rattle.std.specs.Prelude.{◌≡◌, ℕ, List, true};
ghost use Rattle.cas_base.specs.declared.decl.Decl.{Decl};
ghost use Rattle.cas_base.specs.declared.decl.Unit.{Unit as UnitOf};
ghost use Rattle.cas_rtl.specs.Code.{rtl, rtl_graph};
ghost use Rattle.cas_rtl.specs.Graph.{Graph};
ghost use Rattle.cas_rtl.specs.Rooms.{room_of};
ghost use Rattle.cas_rtl.specs.declared.tree.RtlFun.{RtlFun};
ghost use Rattle.cas_runs.specs.Bounds.{weight_of};
ghost use Rattle.cas_runs.specs.Calls.{language};
ghost use Rattle.cas_runs.specs.Edge.{Edge};
ghost use Rattle.cas_runs.specs.Label.{NameBytes};
ghost use Rattle.cas_runs.specs.Passing.{AllMade, UnitsMade};
ghost use Rattle.cas_runs.specs.Unit.{AreDefined, FitsProgram, FunctionRefines, ThreadRefines, UnitRefines, all_decls, all_globals, defines};
ghost use Rattle.cas_tailcall.specs.Match.{IsMade};
ghost use Rattle.cas_tailcall.specs.Tailcall.{HasTailCalls, tailed};

/// A function with tail calls refines the other, where each runs alone, among the declarations of its unit.
pub fn made_functions_refine()
    ensures { (decls : List Decl) (f g : RtlFun) → defines decls g.decl.name ≡ true → IsMade decls f g
        → FunctionRefines (language rtl) (language rtl) decls g.decl.name f g }
{}

/// A unit of such functions, with the same declarations and data, refines the unit of the others.
pub fn made_units_refine()
    ensures { (s t : UnitOf RtlFun) → t.decls ≡ s.decls → t.globals ≡ s.globals
        → AreDefined (language rtl) s.decls s.funs → AllMade (IsMade s.decls) t.funs s.funs
        → UnitRefines (language rtl) (language rtl) t s }
{}

/// Each thread of a whole program of such units refines the thread of the other program, at an edge that fits that.
pub fn made_threads_refine()
    ensures { (edge : Edge) (ss ts : List (UnitOf RtlFun)) (entry : NameBytes)
        → FitsProgram (language rtl) edge ss entry → all_decls ts ≡ all_decls ss → all_globals ts ≡ all_globals ss
        → UnitsMade IsMade ts ss → ThreadRefines (language rtl) (language rtl) edge ts ss entry }
{}

/// No call of such a graph may be a tail call, and it weighs and takes as much as the other.
pub fn made_graphs_have_tail_calls()
    ensures calls { (g : Graph ℕ) → HasTailCalls (tailed g) }
    ensures weight { (f g : RtlFun) → rtl_graph f ≡ tailed (rtl_graph g)
        → weight_of rtl.tariff f ≡ weight_of rtl.tariff g }
    ensures room { (g : Graph ℕ) → room_of (tailed g) ≡ room_of g }
{}
