//! What Selection makes refines what it is made of.

ghost use Rattle.std.specs.Prelude.{◌≡◌, ◌≤◌, List, true};
ghost use Rattle.cas_base.specs.declared.decl.Decl.{Decl};
ghost use Rattle.cas_base.specs.declared.decl.Unit.{Unit as UnitOf};
ghost use Rattle.cas_mid.specs.Cminor.{cminor};
ghost use Rattle.cas_mid.specs.declared.tree.CminorFun.{CminorFun};
ghost use Rattle.cas_runs.specs.Bounds.{weight_of};
ghost use Rattle.cas_runs.specs.Calls.{language};
ghost use Rattle.cas_runs.specs.Edge.{Edge};
ghost use Rattle.cas_runs.specs.Label.{NameBytes};
ghost use Rattle.cas_runs.specs.Passing.{AllMade, UnitsMade};
ghost use Rattle.cas_runs.specs.Unit.{AreDefined, FitsProgram, FunctionRefines, ThreadRefines, UnitRefines, all_decls, all_globals, defines};
ghost use Rattle.cas_sel.specs.CminorSel.{cminorsel};
ghost use Rattle.cas_sel.specs.declared.tree.SelFun.{SelFun};
ghost use Rattle.cas_select.specs.Match.{IsMade};

/// A function of CminorSel that is made of one of Cminor refines it, where each runs alone, among the declarations of
/// its unit.
pub fn made_functions_refine()
    ensures { (decls : List Decl) (g : CminorFun) (f : SelFun) → defines decls g.decl.name ≡ true → IsMade decls f g
        → FunctionRefines (language cminorsel) (language cminor) decls g.decl.name f g }
{}

/// A unit of such functions, with the same declarations and data, refines the unit of the others.
pub fn made_units_refine()
    ensures { (s : UnitOf CminorFun) (t : UnitOf SelFun) → t.decls ≡ s.decls → t.globals ≡ s.globals
        → AreDefined (language cminor) s.decls s.funs → AllMade (IsMade s.decls) t.funs s.funs
        → UnitRefines (language cminorsel) (language cminor) t s }
{}

/// Each thread of a whole program of such units refines the thread of the other program, at an edge that fits that.
pub fn made_threads_refine()
    ensures { (edge : Edge) (ss : List (UnitOf CminorFun)) (ts : List (UnitOf SelFun)) (entry : NameBytes)
        → FitsProgram (language cminor) edge ss entry → all_decls ts ≡ all_decls ss → all_globals ts ≡ all_globals ss
        → UnitsMade IsMade ts ss → ThreadRefines (language cminorsel) (language cminor) edge ts ss entry }
{}

/// A function that is made of another weighs no more.
pub fn made_functions_weigh_no_more()
    ensures { (decls : List Decl) (g : CminorFun) (f : SelFun) → IsMade decls f g
        → weight_of cminorsel.tariff f ≤ weight_of cminor.tariff g }
{}
