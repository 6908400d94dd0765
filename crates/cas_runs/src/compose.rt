//! Laws of refinement: it composes, it is reflexive, and it keeps each run.

ghost use Rattle.std.specs.Prelude.{◌≡◌, ℕ, ◌⊎◌, List, true};
ghost use Rattle.cas_base.specs.declared.decl.Unit.{Unit as UnitOf};
ghost use Rattle.cas_base.specs.declared.decl.Decl.{Decl};
ghost use Rattle.cas_runs.specs.Bounds.{IsTariff};
ghost use Rattle.cas_runs.specs.Calls.{Activations, language};
ghost use Rattle.cas_runs.specs.Label.{NameBytes, RunLabel};
ghost use Rattle.cas_runs.specs.Edge.{Edge};
ghost use Rattle.cas_runs.specs.Machine.{Machine, Block, Run, quiet_steps, quiet_now};
ghost use Rattle.cas_runs.specs.Determined.{Same};
ghost use Rattle.cas_runs.specs.Refines.{HasRun, BadBefore, PaysMore, Refines, NamesAlone, EachKept};
ghost use Rattle.cas_runs.specs.Rules.{Proceeds};
ghost use Rattle.cas_runs.specs.Unit.{AreDefined, FitsProgram, Language, Setting, UnitRefines, FunctionRefines, ThreadRefines, defines};

/// Refinements of machines compose.
#[tactic(auto, using(crate::proofs::Composing::refines_both))]
pub fn refinements_compose<T, S, R>()
    ensures { (edge : Edge) (t : Machine T) (s : Machine S) (r : Machine R) → Refines edge t s → Refines edge s r →
        Refines edge t r }
{}

/// Refinements of units compose.
#[tactic(auto, using(crate::proofs::Units::units_both))]
pub fn units_compose<F, G, H, T, S, R>()
    ensures { (lt : Language F T) (ls : Language G S) (lr : Language H R) (t : UnitOf F) (s : UnitOf G) (r : UnitOf H) →
        UnitRefines lt ls t s → UnitRefines ls lr s r → UnitRefines lt lr t r }
{}

/// Refinements of functions compose.
#[tactic(auto, using(crate::proofs::Units::functions_both))]
pub fn functions_compose<F, G, H, T, S, R>()
    ensures { (lt : Language F T) (ls : Language G S) (lr : Language H R) (decls : List Decl) (name : NameBytes) (t : F)
        (s : G) (r : H) → FunctionRefines lt ls decls name t s → FunctionRefines ls lr decls name s r →
        FunctionRefines lt lr decls name t r }
{}

/// Refinements of threads compose.
#[tactic(auto, using(crate::proofs::Units::threads_both))]
pub fn threads_compose<F, G, H, T, S, R>()
    ensures { (lt : Language F T) (ls : Language G S) (lr : Language H R) (edge : Edge) (ts : List (UnitOf F))
        (ss : List (UnitOf G)) (rs : List (UnitOf H)) (entry : NameBytes) → ThreadRefines lt ls edge ts ss entry →
        ThreadRefines ls lr edge ss rs entry → ThreadRefines lt lr edge ts rs entry }
{}

/// Where each Call and Leave of the target has one label, each of its runs is kept by the source, or the
/// source is Bad before.
#[tactic(auto, using(crate::proofs::Composing::each_kept))]
pub fn runs_kept<T, S>()
    ensures { (edge : Edge) (t : Machine T) (s : Machine S) → Refines edge t s → NamesAlone edge t → EachKept edge t s }
{}

/// A machine of which no step is free, and of which what crosses has a label, refines itself.
#[tactic(auto, using(crate::proofs::Composing::refines_itself))]
pub fn refines_itself<S>()
    ensures { (edge : Edge) (m : Machine S) → Proceeds m → Refines edge m m }
{}

/// A unit in any language of activations refines itself, where its functions are those that it declares as defined.
pub fn units_refine_themselves<F, A>()
    ensures { (l : Activations F A) → IsTariff l.tariff → (unit : UnitOf F) →
        AreDefined (language l) unit.decls unit.funs → UnitRefines (language l) (language l) unit unit }
{}

/// So does a function alone.
pub fn functions_refine_themselves<F, A>()
    ensures { (l : Activations F A) → IsTariff l.tariff → (decls : List Decl) (f : F) →
        defines decls (l.name f) ≡ true → FunctionRefines (language l) (language l) decls (l.name f) f f }
{}

/// And a thread of a whole program, at an edge that fits it.
pub fn threads_refine_themselves<F, A>()
    ensures { (l : Activations F A) → IsTariff l.tariff → (edge : Edge) (units : List (UnitOf F)) (entry : NameBytes) →
        FitsProgram (language l) edge units entry → ThreadRefines (language l) (language l) edge units units entry }
{}

/// A thread of a whole program has no Call and no Leave. So where it refines, each of its runs is kept, or the
/// source is Bad before.
pub fn threads_kept<F, A, S>()
    ensures { (l : Activations F A) (setting : Setting) (fs : List F) (entry : NameBytes) (thread : ℕ) (s : Machine S) →
        Refines setting.edge ((language l).thread setting fs entry thread) s →
        EachKept setting.edge ((language l).thread setting fs entry thread) s }
{}

/// The labels of a run and the number of its quiet steps determine its blocks and where it stands.
#[tactic(auto, using(crate::proofs::Determined::determined))]
pub fn runs_determined<S>()
    ensures { (edge : Edge) (m : Machine S) (ls : List RunLabel) (bs cs : List Block) (b c : Block) (x y : S)
        (r : Run edge m ls bs b x) (k : Run edge m ls cs c y) → quiet_steps r ≡ quiet_steps k → Same bs cs b c x y }
{}

/// The quiet steps that a target makes after its last label are fewer than what the source pays there. So no
/// endless quiet loop refines what pays a bounded price before its next label.
#[tactic(auto, using(crate::proofs::Sanity::quiet_paid))]
pub fn quiet_steps_paid<T, S>()
    ensures { (edge : Edge) (t : Machine T) (s : Machine S) → Refines edge t s →
        (ls : List RunLabel) (bs : List Block) (b : Block) (x : T) (r : Run edge t ls bs b x) → HasRun edge s ls →
        BadBefore edge s ls ⊎ PaysMore edge s ls (quiet_now r) }
{}
