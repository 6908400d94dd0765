//! What Cminorgen makes refines what it is made of.

ghost use Rattle.std.specs.Prelude.{◌≡◌, ◌≤◌, List, true};
ghost use Rattle.cas_base.specs.declared.decl.Decl.{Decl};
ghost use Rattle.cas_base.specs.declared.decl.Unit.{Unit as UnitOf};
ghost use Rattle.cas_cminorgen.specs.Made.{HaveVariables, IsMadeUnit, IsNoLarger};
ghost use Rattle.cas_cminorgen.specs.Match.{IsMade};
ghost use Rattle.cas_mid.specs.Cminor.{cminor};
ghost use Rattle.cas_mid.specs.Csharpminor.{csharpminor};
ghost use Rattle.cas_mid.specs.declared.tree.CminorFun.{CminorFun};
ghost use Rattle.cas_mid.specs.declared.tree.CsharpFun.{CsharpFun};
ghost use Rattle.cas_runs.specs.Calls.{language};
ghost use Rattle.cas_runs.specs.Edge.{Edge};
ghost use Rattle.cas_runs.specs.Label.{Both, NameBytes};
ghost use Rattle.cas_runs.specs.Passing.{AllMade, UnitsMade};
ghost use Rattle.cas_runs.specs.Unit.{AreDefined, FitsProgram, FunctionRefines, ThreadRefines, UnitRefines, all_decls, all_globals, defines};

/// A function of Cminor that is made of one of Csharpminor refines it, where each runs alone, among the declarations
/// of its unit.
pub fn made_functions_refine()
    ensures { (decls : List Decl) (g : CsharpFun) (f : CminorFun) → defines decls g.decl.name ≡ true → IsMade decls f g
        → FunctionRefines (language cminor) (language csharpminor) decls g.decl.name f g }
{}

/// A unit of such functions, with the same declarations and data, refines the unit of the others.
pub fn made_units_refine()
    ensures { (s : UnitOf CsharpFun) (t : UnitOf CminorFun) → t.decls ≡ s.decls → t.globals ≡ s.globals
        → AreDefined (language csharpminor) s.decls s.funs → AllMade (IsMade s.decls) t.funs s.funs
        → UnitRefines (language cminor) (language csharpminor) t s }
{}

/// Each thread of a whole program of such units refines the thread of the other program, at an edge that fits that.
pub fn made_threads_refine()
    ensures { (edge : Edge) (ss : List (UnitOf CsharpFun)) (ts : List (UnitOf CminorFun)) (entry : NameBytes)
        → FitsProgram (language csharpminor) edge ss entry → all_decls ts ≡ all_decls ss
        → all_globals ts ≡ all_globals ss → UnitsMade IsMade ts ss
        → ThreadRefines (language cminor) (language csharpminor) edge ts ss entry }
{}

/// A unit that is made of another whose functions have their variables refines it, and its functions weigh no more and
/// have no greater room.
pub fn units_are_made()
    ensures refines { (t : UnitOf CminorFun) (s : UnitOf CsharpFun) → IsMadeUnit t s → HaveVariables s.funs
        → AreDefined (language csharpminor) s.decls s.funs → UnitRefines (language cminor) (language csharpminor) t s }
    ensures bounds { (t : UnitOf CminorFun) (s : UnitOf CsharpFun) → IsMadeUnit t s → HaveVariables s.funs
        → Both IsNoLarger t.funs s.funs }
{}
