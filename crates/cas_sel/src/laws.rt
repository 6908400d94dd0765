//! What holds of CminorSel's constants.

ghost use Rattle.cas_runs.specs.Bounds.{IsTariff};
ghost use Rattle.cas_sel.specs.CminorSel.{cminorsel};

/// The constants of CminorSel are prices.
pub fn constants_are_prices()
    ensures { IsTariff cminorsel.tariff }
{}
