// The exchange's scale, worked out from the quote alone.
ghost use Rattle.std.specs.Prelude.{◌≡◌, true, false, MatchOption};
ghost use Rattle.rates.specs.Scale.{is_admitted, scale_rate};
ghost use Rattle.rates.specs.Ceilings.{scale-capped};

use crate::bands::floor;
use crate::rate_book::{Quote, RateBook};
use terms::limits::{HasLimits, LotSize, Premium, Price};

/// The exchange's scale: twice the premium, and no less than a floor by how far the strike lies from the closing price.
#[derive(Clone, Copy)]
pub struct Scale;

/// A quote with every figure within its limits.
#[derive(Clone, Copy)]
pub(super) struct Admitted<'a> {
    pub(super) quote: &'a Quote,
    ghost admitted: { is_admitted quote.now ≡ true },
}

impl Admitted<'_> {
    /// The quote, where every figure is within its limits.
    fn of(quote: &Quote) -> Option<Admitted<'_>>
        ensures { MatchOption result (is_admitted quote.now ≡ false) (λ a. a.quote.now ≡ quote.now) }
    {
        let is_admitted = Price::contains(quote.strike)
            && Premium::contains(quote.premium)
            && Price::contains(quote.close)
            && LotSize::contains(quote.lot);
        // Stays: inside a closure for `then` it is not known that the test holds.
        if is_admitted {
            Some(Admitted { quote })
        } else {
            None
        }
    }
}

impl RateBook for Scale {
    ghost table = { λ _ q. scale_rate q };

    ghost capped = { λ _ q. scale-capped q };

    fn rate(&mut self, quote: &Quote) -> Option<u64> {
        let admitted = Admitted::of(quote)?;
        Some(floor(admitted).max(2 * quote.premium * quote.lot))
    }
}
