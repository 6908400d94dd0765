//! What holds of LTL's constants.

ghost use Rattle.cas_ltl.specs.Code.{ltl};
ghost use Rattle.cas_runs.specs.Bounds.{IsTariff};

/// The constants of LTL are prices.
pub fn constants_are_prices()
    ensures { IsTariff ltl.tariff }
{}
