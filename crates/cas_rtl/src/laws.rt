//! What holds of RTL's constants.

ghost use Rattle.cas_rtl.specs.Code.{rtl};
ghost use Rattle.cas_runs.specs.Bounds.{IsTariff};

/// The constants of RTL are prices.
pub fn constants_are_prices()
    ensures { IsTariff rtl.tariff }
{}
