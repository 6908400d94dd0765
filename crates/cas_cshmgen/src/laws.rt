//! What Cshmgen makes refines what it is made of.

ghost use Rattle.std.specs.Prelude.{◌≡◌, ◌≤◌, ℕ, List, length, true};
ghost use Rattle.cas_base.specs.declared.decl.Decl.{Decl};
ghost use Rattle.cas_base.specs.declared.decl.Unit.{Unit as UnitOf};
ghost use Rattle.cas_clight.specs.Clight.{ClightFun, cells_of, clight};
ghost use Rattle.cas_clight.specs.Units.{function_of};
ghost use Rattle.cas_cshmgen.specs.Made.{ForsAreSimpleIn};
ghost use Rattle.cas_cshmgen.specs.Makes.{made_routine};
ghost use Rattle.cas_cshmgen.specs.Match.{AllForsAreSimple, IsMade};
ghost use Rattle.cas_mid.specs.Code.{csharp_routine};
ghost use Rattle.cas_mid.specs.Rooms.{room_of};
ghost use Rattle.cas_runs.specs.Bounds.{frame_bound, weight_of};
ghost use Rattle.cas_syntax.specs.Reading.{IsReadAs};
ghost use Rattle.cas_syntax.specs.Tree.{FunTree, ModuleTree};
ghost use Rattle.cas_typed.specs.Counts.{nodes_of, parameter_types};
ghost use Rattle.cas_typed.specs.Modules.{IsFunction, filled_module};
ghost use Rattle.cas_typed.specs.Resolved.{TypedFunTree};
ghost use Rattle.cas_mid.specs.Csharpminor.{csharpminor};
ghost use Rattle.cas_mid.specs.declared.tree.CsharpFun.{CsharpFun};
ghost use Rattle.cas_runs.specs.Calls.{language};
ghost use Rattle.cas_runs.specs.Edge.{Edge};
ghost use Rattle.cas_runs.specs.Label.{NameBytes};
ghost use Rattle.cas_runs.specs.Passing.{AllMade, UnitsMade};
ghost use Rattle.cas_runs.specs.Unit.{AreDefined, FitsProgram, FunctionRefines, ThreadRefines, UnitRefines, all_decls, all_globals, defines};

/// A function of Csharpminor that is made of one of Clight refines it, where each runs alone, among the declarations
/// of its unit.
pub fn made_functions_refine()
    ensures { (decls : List Decl) (g : ClightFun) (f : CsharpFun) → defines decls g.decl.name ≡ true → IsMade decls f g
        → FunctionRefines (language csharpminor) (language clight) decls g.decl.name f g }
{}

/// A unit of such functions, with the same declarations and data, refines the unit of the others.
pub fn made_units_refine()
    ensures { (s : UnitOf ClightFun) (t : UnitOf CsharpFun) → t.decls ≡ s.decls → t.globals ≡ s.globals
        → AreDefined (language clight) s.decls s.funs → AllMade (IsMade s.decls) t.funs s.funs
        → UnitRefines (language csharpminor) (language clight) t s }
{}

/// Each thread of a whole program of such units refines the thread of the other program, at an edge that fits that.
pub fn made_threads_refine()
    ensures { (edge : Edge) (ss : List (UnitOf ClightFun)) (ts : List (UnitOf CsharpFun)) (entry : NameBytes)
        → FitsProgram (language clight) edge ss entry → all_decls ts ≡ all_decls ss → all_globals ts ≡ all_globals ss
        → UnitsMade IsMade ts ss → ThreadRefines (language csharpminor) (language clight) edge ts ss entry }
{}

/// What is made of a typed function is made so that its steps can pay, weighs no more, and has no greater room. The
/// first and last parts of a `for` are assignments, calls or locals, as in each text.
pub fn typed_functions_are_made()
    ensures made { (before decls : List Decl) (f : FunTree) (r : TypedFunTree) (c : CsharpFun) → IsFunction before f r
        → length (parameter_types f.decl.form) ≤ 16 → AllForsAreSimple f.body
        → csharp_routine c ≡ made_routine (function_of decls f r) → IsMade decls c (function_of decls f r) }
    ensures weight { (before decls : List Decl) (f : FunTree) (r : TypedFunTree) (c : CsharpFun) → IsFunction before f r
        → length (parameter_types f.decl.form) ≤ 16 → AllForsAreSimple f.body
        → csharp_routine c ≡ made_routine (function_of decls f r)
        → weight_of csharpminor.tariff c ≤ weight_of clight.tariff (function_of decls f r) }
    ensures room { (before decls : List Decl) (f : FunTree) (r : TypedFunTree) (c : CsharpFun) → IsFunction before f r
        → length (parameter_types f.decl.form) ≤ 16 → AllForsAreSimple f.body
        → csharp_routine c ≡ made_routine (function_of decls f r)
        → room_of (csharp_routine c) ≤ frame_bound (nodes_of f) (cells_of (function_of decls f r)) }
{}

/// In each module that a text is read as, with the values of its variables filled up, the first and last parts of each
/// `for` are assignments, calls or locals.
pub fn texts_have_simple_fors()
    ensures { (text : List ℕ) (m : ModuleTree) → IsReadAs text m → ForsAreSimpleIn (filled_module m).items }
{}
