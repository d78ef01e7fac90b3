// The rate book that is asked at present.
ghost use Rattle.std.specs.Prelude.{◌≡◌, Some, MatchResult};
ghost use Rattle.rates.specs.Scale.{scale_rate};
ghost use Rattle.desk.specs.Present.{surcharged_rate, base_rate, base-capped, stacked, present_rate, present-capped};

use rates::list::PublishedList;
use rates::percentages::Percentages;
use rates::rate_book::{Quote, RateBook};
use rates::scale::Scale;
use std::alloc::{AllocError, Global};

/// The scale, or a published list.
#[derive(Drop)]
pub enum Base {
    Scale(Scale),
    List(Vec<u64>),
}

impl RateBook for Base {
    ghost table = { λ base q. base_rate base q };

    ghost capped = { λ base q. base-capped base q };

    fn rate(&mut self, quote: &Quote) -> Option<u64> {
        match self {
            Base::Scale(scale) => scale.rate(quote),
            Base::List(amounts) => PublishedList::new(amounts.as_slice()).rate(quote),
        }
    }
}

/// A base, and any number of surcharges, each on the one before it.
#[derive(Drop)]
pub struct PresentRates {
    base: Base,
    surcharges: Vec<Percentages>,
}

fn raise_by_all(surcharges: &[Percentages], security: u64, amount: u64) -> u64
    ensures { Some result ≡ stacked surcharges.now security (Some amount) }
{
    surcharges.iter().fold(
        amount,
        |raised, percentages| percentages.raise(security, raised),
    )
}

impl PresentRates {
    /// The scale, without a surcharge.
    pub fn new(heap: Global) -> PresentRates
        ensures { present_rate result ≡ scale_rate }
    {
        PresentRates {
            base: Base::Scale(Scale),
            surcharges: Vec::new(heap),
        }
    }

    /// From here on this base, without a surcharge.
    pub fn replace(&mut self, base: Base)
        ensures { present_rate self.new ≡ base_rate base }
    {
        self.base = base;
        self.surcharges.clear();
    }

    /// From here on with one surcharge more.
    #[tactic(auto, using(crate::proofs::Stacks::stacked_push))]
    pub fn add(&mut self, percentages: Percentages) -> Result<(), AllocError>
        ensures { MatchResult result (λ _. present_rate self.new ≡ surcharged_rate percentages.each (present_rate self.old)) (λ _. present_rate self.new ≡ present_rate self.old) }
    {
        self.surcharges.push(percentages)?;
        Ok(())
    }
}

impl RateBook for PresentRates {
    ghost table = { λ present q. present_rate present q };

    ghost capped = { λ present q. present-capped present q };

    #[tactic(auto, using(crate::proofs::Stacks::stacked_none))]
    fn rate(&mut self, quote: &Quote) -> Option<u64> {
        let amount = self.base.rate(quote)?;
        Some(raise_by_all(self.surcharges.as_slice(), quote.security, amount))
    }
}
