//! What holds of the languages' constants.

ghost use Rattle.cas_runs.specs.Bounds.{IsTariff};
ghost use Rattle.cas_mid.specs.Cminor.{cminor};
ghost use Rattle.cas_mid.specs.Csharpminor.{csharpminor};

/// The constants of Csharpminor and of Cminor are prices.
pub fn constants_are_prices()
    ensures csharpminor { IsTariff csharpminor.tariff }
    ensures cminor { IsTariff cminor.tariff }
{}
