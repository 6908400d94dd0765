//! What Allocation makes refines what it is made of.

ghost use Rattle.std.specs.Prelude.{◌≡◌, List, true};
ghost use Rattle.cas_base.specs.declared.decl.Decl.{Decl};
ghost use Rattle.cas_base.specs.declared.decl.Unit.{Unit as UnitOf};
ghost use Rattle.cas_allocation.specs.Match.{IsMade};
ghost use Rattle.cas_ltl.specs.Code.{ltl};
ghost use Rattle.cas_ltl.specs.declared.tree.LtlFun.{LtlFun};
ghost use Rattle.cas_rtl.specs.Code.{rtl};
ghost use Rattle.cas_rtl.specs.declared.tree.RtlFun.{RtlFun};
ghost use Rattle.cas_runs.specs.Calls.{language};
ghost use Rattle.cas_runs.specs.Edge.{Edge};
ghost use Rattle.cas_runs.specs.Label.{NameBytes};
ghost use Rattle.cas_runs.specs.Passing.{AllMade, UnitsMade};
ghost use Rattle.cas_runs.specs.Unit.{AreDefined, FitsProgram, FunctionRefines, ThreadRefines, UnitRefines, all_decls, all_globals, defines};

/// A function of LTL that is made of one of RTL refines it, where each runs alone, among the declarations of its unit.
pub fn made_functions_refine()
    ensures { (decls : List Decl) (f : LtlFun) (g : RtlFun) → defines decls g.decl.name ≡ true → IsMade decls f g
        → FunctionRefines (language ltl) (language rtl) decls g.decl.name f g }
{}

/// A unit of such functions, with the same declarations and data, refines the unit of the others.
pub fn made_units_refine()
    ensures { (s : UnitOf RtlFun) (t : UnitOf LtlFun) → t.decls ≡ s.decls → t.globals ≡ s.globals
        → AreDefined (language rtl) s.decls s.funs → AllMade (IsMade s.decls) t.funs s.funs
        → UnitRefines (language ltl) (language rtl) t s }
{}

/// Each thread of a whole program of such units refines the thread of the other program, at an edge that fits that.
pub fn made_threads_refine()
    ensures { (edge : Edge) (ss : List (UnitOf RtlFun)) (ts : List (UnitOf LtlFun)) (entry : NameBytes)
        → FitsProgram (language rtl) edge ss entry → all_decls ts ≡ all_decls ss → all_globals ts ≡ all_globals ss
        → UnitsMade IsMade ts ss → ThreadRefines (language ltl) (language rtl) edge ts ss entry }
{}
