// Rounding up to the centavo.
ghost use Rattle.std.specs.Prelude.{◌≡◌};
ghost use Rattle.rates.specs.Rounding.{rounded_up};

/// So many hundredths of a centavo, rounded up to the centavo.
pub(super) fn rounded_up(hundredths: u128) -> u128
    ensures { result ≡ rounded_up hundredths }
{
    hundredths.div_ceil(100)
}
