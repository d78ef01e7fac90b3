// The house surcharge: raises the amounts of the rate book that it stands on.
ghost use Rattle.std.specs.Prelude.{◌≡◌, Some, MatchResult};
ghost use Rattle.rates.specs.Denials.{percentage_layer, percentage_number, percentage_place, percentage_text, Denied};
ghost use Rattle.rates.specs.Surcharged.{surcharged, surcharged-capped};

use crate::percentages::Percentages;
use crate::rate_book::{Quote, RateBook};
use std::fmt;
use terms::denial::{Denial, Layer, Place};
use terms::limits::SECURITIES;

/// A percentage above 100, by its security.
#[derive(Clone, Copy, PartialEq, Eq, Debug)]
pub struct PercentageAbove100 {
    pub(super) security: u64,
}

impl Denial for PercentageAbove100 {
    ghost layer_of = { percentage_layer };

    ghost number_of = { percentage_number };

    ghost place_of = { percentage_place };

    fn layer(&self) -> Layer {
        Layer::Book
    }

    // Stays: the product numbers its denials.
    fn number(&self) -> u64 {
        2
    }

    fn place(&self) -> Place {
        Place::Number(self.security)
    }
}

impl fmt::Display for PercentageAbove100 {
    ghost output = { λ fault. Some (percentage_text fault) };

    fn fmt<W: fmt::Write>(&self, f: &mut fmt::Formatter<W>) -> fmt::Result {
        let security = self.security;
        write!(f, "the percentage of security {security} is above 100")
    }
}

/// A rate book with the house's surcharge on each of its amounts.
#[derive(Drop)]
pub struct Surcharge<R: RateBook> {
    below: R,
    percentages: Percentages,
}

/// A surcharge that was not made, and the rate book that it was to stand on.
#[derive(Drop)]
pub struct DeniedSurcharge<R> {
    pub fault: PercentageAbove100,
    pub below: R,
}

impl<R: Drop> From<DeniedSurcharge<R>> for PercentageAbove100 {
    ghost from_gives = { λ denied fault. fault ≡ denied.fault };

    fn from(denied: DeniedSurcharge<R>) -> PercentageAbove100 {
        denied.fault
    }
}

impl<R: RateBook> Surcharge<R> {
    /// On a rate book, by security number; denied by the first percentage that is above 100.
    pub fn new(below: R, each: [u64; SECURITIES]) -> Result<Surcharge<R>, DeniedSurcharge<R>>
        ensures { MatchResult result (λ s. (s.below ≡ below) × (s.percentages.each ≡ each)) (λ d. (d.below ≡ below) × Denied each d.fault) }
    {
        // Stays: the rate book moves into one or the other, and closures for `map` and `map_err` cannot both own it.
        match Percentages::new(each) {
            Ok(percentages) => Ok(Surcharge { below, percentages }),
            Err(fault) => Err(DeniedSurcharge { fault, below }),
        }
    }

    /// The rate book that the surcharge stands on.
    pub fn into_below(self) -> R
        ensures { result ≡ self.below }
    {
        self.below
    }
}

impl<R: RateBook> RateBook for Surcharge<R> {
    ghost table = { λ s q. surcharged s.percentages.each q.security (R.RateBook.table s.below q) };

    ghost capped = { λ s q. surcharged-capped s.percentages.each q.security (R.RateBook.table s.below q) };

    fn rate(&mut self, quote: &Quote) -> Option<u64> {
        self.below
            .rate(quote)
            .map(|amount| self.percentages.raise(quote.security, amount))
    }
}
