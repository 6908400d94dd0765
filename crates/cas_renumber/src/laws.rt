//! What Renumber makes refines what it is made of.

ghost use Rattle.std.specs.Prelude.{◌≡◌, List, true};
ghost use Rattle.cas_base.specs.declared.decl.Decl.{Decl};
ghost use Rattle.cas_base.specs.declared.decl.Unit.{Unit as UnitOf};
ghost use Rattle.cas_renumber.specs.Renumber.{IsMade};
ghost use Rattle.cas_rtl.specs.Code.{rtl};
ghost use Rattle.cas_rtl.specs.declared.tree.RtlFun.{RtlFun};
ghost use Rattle.cas_runs.specs.Calls.{language};
ghost use Rattle.cas_runs.specs.Edge.{Edge};
ghost use Rattle.cas_runs.specs.Label.{NameBytes};
ghost use Rattle.cas_runs.specs.Passing.{AllMade, UnitsMade};
ghost use Rattle.cas_runs.specs.Unit.{AreDefined, FitsProgram, FunctionRefines, ThreadRefines, UnitRefines, all_decls, all_globals, defines};

/// A function with other numbers refines the other, where each runs alone, among the declarations of its unit.
pub fn made_functions_refine()
    ensures { (decls : List Decl) (f g : RtlFun) → defines decls g.decl.name ≡ true → IsMade decls f g
        → FunctionRefines (language rtl) (language rtl) decls g.decl.name f g }
{}

/// A unit of such functions, with the same declarations and data, refines the unit of the others.
pub fn made_units_refine()
    ensures { (s t : UnitOf RtlFun) → t.decls ≡ s.decls → t.globals ≡ s.globals
        → AreDefined (language rtl) s.decls s.funs → AllMade (IsMade s.decls) t.funs s.funs
        → UnitRefines (language rtl) (language rtl) t s }
{}

/// Each thread of a whole program of such units refines the thread of the other program, at an edge that fits that.
pub fn made_threads_refine()
    ensures { (edge : Edge) (ss ts : List (UnitOf RtlFun)) (entry : NameBytes)
        → FitsProgram (language rtl) edge ss entry → all_decls ts ≡ all_decls ss → all_globals ts ≡ all_globals ss
        → UnitsMade IsMade ts ss → ThreadRefines (language rtl) (language rtl) edge ts ss entry }
{}
