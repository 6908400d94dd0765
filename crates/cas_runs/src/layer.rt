//! The layer of calls: passes that make a function of a function, and what they show of functions, units and threads.

ghost use Rattle.std.specs.Prelude.{◌≡◌, IfOk, List, true};
ghost use Rattle.cas_base.specs.declared.decl.Decl.{Decl};
ghost use Rattle.cas_base.specs.declared.decl.Unit.{Unit as UnitOf};
ghost use Rattle.cas_runs.specs.Calls.{language};
ghost use Rattle.cas_runs.specs.Edge.{Edge};
ghost use Rattle.cas_runs.specs.Label.{NameBytes};
ghost use Rattle.cas_runs.specs.Passing.{AllMade, IsMatching, Matching, UnitsMade};
ghost use Rattle.cas_runs.specs.Unit.{AreDefined, FitsProgram, FunctionRefines, ThreadRefines, UnitRefines, all_decls, all_globals, defines};

use cas_base::NoMemory;
use std::alloc::Global;

/// A pass that makes a function of a function, where the calls of both languages are those of the layer of
/// calls. An implementation names what is made of what, and what matches where functions run together, in one
/// record; its law `shows` has one case for each step of an activation of the target. What it makes then refines
/// as a function, as a unit and as a thread.
///
/// A pass whose source is no Rust type shows the same by the lemmas `functions_pass`, `units_pass` and
/// `threads_pass` of `proofs/Matched.antt`, which take the same two records.
pub trait FunctionPass {
    /// A function of the language that it takes.
    type Source;

    /// A function of the language that it makes.
    type Target;

    /// The states of one activation of the source.
    ghost source_activation: { Type 0 };

    /// The states of one activation of the target.
    ghost target_activation: { Type 0 };

    /// What the pass names: both languages, what is made of a function, where blocks lie, and what matches.
    ghost matching: { Matching Self.Target target_activation Self.Source source_activation };

    /// What the pass makes of the function.
    fn translate(&self, alloc: Global, from: &Self::Source) -> Result<Self::Target, NoMemory>
        ensures { IfOk result (λ to. (decls : List Decl) → matching.made decls to from.now) };

    /// The law that names stay, that blocks are laid out, and that what matches so is a pass.
    fn shows()
        ensures { IsMatching matching };
}

/// What a pass makes of a function refines it, where each runs alone, among the declarations of its unit.
pub fn functions_refine<P: FunctionPass>()
    ensures { (decls : List Decl) (a : P.Source) (b : P.Target) → defines decls (P.matching.source.name a) ≡ true
        → P.matching.made decls b a
        → FunctionRefines (language P.matching.target) (language P.matching.source) decls (P.matching.source.name a)
        b a }
{
    P::shows();
}

/// A unit of such functions, with the same declarations and data, refines the unit of the others, whose functions
/// are those that it declares as defined.
pub fn units_refine<P: FunctionPass>()
    ensures { (s : UnitOf P.Source) (t : UnitOf P.Target) → t.decls ≡ s.decls → t.globals ≡ s.globals
        → AreDefined (language P.matching.source) s.decls s.funs → AllMade (P.matching.made s.decls) t.funs s.funs
        → UnitRefines (language P.matching.target) (language P.matching.source) t s }
{
    P::shows();
}

/// Each thread of a whole program of units of such functions, with the same declarations and data, refines the
/// thread of the other program, at an edge that fits that.
pub fn threads_refine<P: FunctionPass>()
    ensures { (edge : Edge) (ss : List (UnitOf P.Source)) (ts : List (UnitOf P.Target)) (entry : NameBytes)
        → FitsProgram (language P.matching.source) edge ss entry → all_decls ts ≡ all_decls ss
        → all_globals ts ≡ all_globals ss → UnitsMade P.matching.made ts ss
        → ThreadRefines (language P.matching.target) (language P.matching.source) edge ts ss entry }
{
    P::shows();
}
