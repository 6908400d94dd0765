//! Wrong translations in small, which don't refine, and machines that break a rule.

ghost use Rattle.std.specs.Prelude.{[], ◌∷◌};
ghost use Rattle.cas_runs.specs.Calls.{language};
ghost use Rattle.cas_runs.specs.Refines.{Refines};
ghost use Rattle.cas_runs.specs.Rules.{KeepsRules};
ghost use Rattle.cas_runs.specs.Unit.{UnitRefines};
ghost use Rattle.cas_trial.specs.Fitting.{edge, program, setting};
ghost use Rattle.cas_trial.specs.Lowering.Languages.{high_language, low_language};
ghost use Rattle.cas_trial.specs.Stages.{apart, joined};
ghost use Rattle.cas_trial.specs.Wrong.{caching, dear, hiding, not_reading, offering, reading, showing, swapped, unit_of};

/// Two variables that are exchanged: another word is in the share at the Unlock.
#[tactic(auto, using(crate::proofs::Wrong::swapped_refused))]
pub fn swapped_variables_refused()
    ensures { UnitRefines (language joined) (language apart) (unit_of (swapped ∷ [])) (unit_of (program ∷ [])) → ⊥ }
{}

/// A variable whose address was given away, and that is put out as it was before the call.
#[tactic(auto, using(crate::proofs::Wrong::cached_refused))]
pub fn cached_variable_refused()
    ensures { Refines edge ((language caching).unit setting (program ∷ []))
        ((language apart).unit setting (program ∷ [])) → ⊥ }
{}

/// A word behind a lock that isn't read before it is put out.
#[tactic(auto, using(crate::proofs::Wrong::unread_refused))]
pub fn unread_word_refused()
    ensures { UnitRefines (language low_language) (language high_language)
        (unit_of (not_reading ∷ [])) (unit_of (showing ∷ [])) → ⊥ }
{}

/// Steps that do the same and cost more than what they stand for.
#[tactic(auto, using(crate::proofs::Wrong::dear_refused))]
pub fn dear_steps_refused()
    ensures { UnitRefines (language dear) (language high_language) (unit_of (reading ∷ [])) (unit_of (showing ∷ []))
        → ⊥ }
{}

/// A machine that offers each value as the argument of its call breaks the rules: what crosses has one value.
#[tactic(auto, using(crate::proofs::Wrong::offering_refused))]
pub fn offered_values_refused()
    ensures { KeepsRules edge offering → ⊥ }
{}

/// So does a machine that is entered and tells of no activation.
#[tactic(auto, using(crate::proofs::Wrong::hiding_refused))]
pub fn hidden_activation_refused()
    ensures { KeepsRules edge hiding → ⊥ }
{}
