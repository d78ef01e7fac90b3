// A surcharge on a surcharge, as a caller's own types.
ghost use Rattle.std.specs.Prelude.{◌≡◌, IfOk};
ghost use Rattle.rates.specs.Scale.{scale_rate};
ghost use Rattle.rates.specs.Surcharged.{surcharged};

use rates::rate_book::{Quote, RateBook};
use rates::scale::Scale;
use rates::surcharge::{PercentageAbove100, Surcharge};
use terms::limits::SECURITIES;

/// The scale's rate under two surcharges.
pub fn surcharged_twice(
    first: [u64; SECURITIES],
    second: [u64; SECURITIES],
    quote: &Quote,
) -> Result<Option<u64>, PercentageAbove100>
    ensures { IfOk result (λ rate. rate ≡ surcharged second quote.now.security (surcharged first quote.now.security (scale_rate quote.now))) }
{
    let below = Surcharge::new(Scale, first)?;
    let mut rates = Surcharge::new(below, second)?;
    Ok(rates.rate(quote))
}
