//! What RTLgen makes refines what it is made of.

ghost use Rattle.std.specs.Prelude.{◌≡◌, ◌≤◌, List, true};
ghost use Rattle.cas_base.specs.declared.decl.Decl.{Decl};
ghost use Rattle.cas_base.specs.declared.decl.Unit.{Unit as UnitOf};
ghost use Rattle.cas_rtl.specs.Code.{rtl, rtl_graph};
ghost use Rattle.cas_rtl.specs.declared.tree.RtlFun.{RtlFun};
ghost use Rattle.cas_rtlgen.specs.Makes.{IsMadeGraph};
ghost use Rattle.cas_rtlgen.specs.Making.{made_graph};
ghost use Rattle.cas_runs.specs.Bounds.{weight_of};
ghost use Rattle.cas_runs.specs.Calls.{language};
ghost use Rattle.cas_runs.specs.Edge.{Edge};
ghost use Rattle.cas_runs.specs.Label.{NameBytes};
ghost use Rattle.cas_runs.specs.Passing.{AllMade, UnitsMade};
ghost use Rattle.cas_runs.specs.Unit.{AreDefined, FitsProgram, FunctionRefines, ThreadRefines, UnitRefines, all_decls, all_globals, defines};
ghost use Rattle.cas_sel.specs.Code.{sel_routine};
ghost use Rattle.cas_sel.specs.CminorSel.{cminorsel};
ghost use Rattle.cas_sel.specs.declared.tree.SelFun.{SelFun};
ghost use Rattle.cas_rtlgen.specs.Match.{IsMade};

/// A function of RTL that is made of one of CminorSel refines it, where each runs alone, among the declarations of its
/// unit.
pub fn made_functions_refine()
    ensures { (decls : List Decl) (g : SelFun) (f : RtlFun) → defines decls g.decl.name ≡ true → IsMade decls f g
        → FunctionRefines (language rtl) (language cminorsel) decls g.decl.name f g }
{}

/// A unit of such functions, with the same declarations and data, refines the unit of the others.
pub fn made_units_refine()
    ensures { (s : UnitOf SelFun) (t : UnitOf RtlFun) → t.decls ≡ s.decls → t.globals ≡ s.globals
        → AreDefined (language cminorsel) s.decls s.funs → AllMade (IsMade s.decls) t.funs s.funs
        → UnitRefines (language rtl) (language cminorsel) t s }
{}

/// Each thread of a whole program of such units refines the thread of the other program, at an edge that fits that.
pub fn made_threads_refine()
    ensures { (edge : Edge) (ss : List (UnitOf SelFun)) (ts : List (UnitOf RtlFun)) (entry : NameBytes)
        → FitsProgram (language cminorsel) edge ss entry → all_decls ts ≡ all_decls ss → all_globals ts ≡ all_globals ss
        → UnitsMade IsMade ts ss → ThreadRefines (language rtl) (language cminorsel) edge ts ss entry }
{}

/// The graph that RTLgen makes of a function is made so, and weighs no more.
pub fn made_graphs_are_made()
    ensures made { (decls : List Decl) (f : RtlFun) (g : SelFun) → rtl_graph f ≡ made_graph (sel_routine g)
        → IsMade decls f g }
    ensures weight { (f : RtlFun) (g : SelFun) → rtl_graph f ≡ made_graph (sel_routine g)
        → weight_of rtl.tariff f ≤ weight_of cminorsel.tariff g }
{}
