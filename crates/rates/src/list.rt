// The published list: the caller's own amounts, by row number.
ghost use Rattle.std.specs.Prelude.{◌≡◌};
ghost use Rattle.rates.specs.Published.{published_rate, published-capped};

use crate::rate_book::{Quote, RateBook};
use terms::limits::CEILING;

/// Amounts per lot by row number, as published.
#[derive(Drop)]
pub struct PublishedList<'a> {
    amounts: &'a [u64],
}

impl<'a> PublishedList<'a> {
    pub fn new(amounts: &'a [u64]) -> PublishedList<'a>
        ensures { result.amounts.now ≡ amounts.now }
    {
        PublishedList { amounts }
    }
}

impl RateBook for PublishedList<'_> {
    ghost table = { λ list q. published_rate list.amounts.now q.row };

    ghost capped = { λ list q. published-capped list.amounts.now q.row };

    fn rate(&mut self, quote: &Quote) -> Option<u64> {
        let amount = *self.amounts.get(quote.row as usize)?;
        (1..=CEILING).contains(&amount).then_some(amount)
    }
}
