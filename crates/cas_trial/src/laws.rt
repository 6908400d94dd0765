//! Laws that only test the definitions: settings are there that small units fit, what crosses, and that rules are kept.

ghost use Rattle.std.specs.Prelude.{List, [], ◌∷◌, Some, ◌≡◌};
ghost use Rattle.cas_runs.specs.Calls.{language};
ghost use Rattle.cas_runs.specs.Receiving.{IsReceivedAs};
ghost use Rattle.cas_runs.specs.Label.{Call, Enter};
ghost use Rattle.cas_runs.specs.Outside.{MayBring};
ghost use Rattle.cas_runs.specs.Refines.{HasRun};
ghost use Rattle.cas_runs.specs.Rules.{KeepsRules, MayCross, EmitsInKind, EmitsLocks};
ghost use Rattle.cas_runs.specs.Unit.{AreDefined, FitsUnit, IsLayout, Setting};
ghost use Rattle.cas_trial.specs.Fitting.{decls, edge, globals, labels, program, setting};
ghost use Rattle.cas_trial.specs.Receiving.{before, received, other, emitted};
ghost use Rattle.cas_trial.specs.Stages.{apart, show_name};
ghost use Rattle.cas_trial.specs.declared.joining.Apart.{Apart as Program};

/// A unit with a lock, a shared word and a function of another unit fits an edge, its function is the one that it
/// declares as defined, and its variables are laid out as objects.
#[tactic(auto, using(crate::proofs::Fits::unit_fits, crate::proofs::Fits::unit_defined, crate::proofs::Fits::unit_laid_out))]
pub fn a_unit_fits()
    ensures fits { FitsUnit setting decls globals }
    ensures defined { AreDefined (language apart) decls (program ∷ []) }
    ensures objects { IsLayout (language apart) (program ∷ []) setting.layout }
{}

/// There its machine has a run in which a pointer crosses and comes back: what the outside left at its place
/// is put out, and then the other variable.
#[tactic(auto, using(crate::proofs::Fits::comes_back))]
pub fn pointer_comes_back()
    ensures { HasRun edge ((language apart).unit setting (program ∷ [])) labels }
{}

/// Its call keeps what a source's does, and the unit that has the function may hear it.
#[tactic(auto, using(crate::proofs::Received::call_crosses, crate::proofs::Received::call_in_kind, crate::proofs::Received::call_holds, crate::proofs::Received::call_received, crate::proofs::Received::call_enters))]
pub fn a_call_is_received()
    ensures crosses { MayCross edge before (Some show_name) emitted }
    ensures in_kind { EmitsInKind edge before (Call show_name emitted) }
    ensures holds { EmitsLocks edge before (Call show_name emitted) }
    ensures received { IsReceivedAs emitted received [] }
    ensures enters { MayBring other [] (Enter show_name received) }
{}

/// The machine keeps the rules, those of crossings among them.
pub fn apart_keeps_rules()
    ensures { (setting : Setting) (fs : List Program) → IsLayout (language apart) fs setting.layout
        → KeepsRules setting.edge ((language apart).unit setting fs) }
{}
