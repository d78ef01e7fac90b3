// A rate book, and what it is asked.
ghost use Rattle.std.specs.Prelude.{◌≡◌, ℕ, Option as Maybe};
ghost use Rattle.rates.specs.declared.rate_book.Quote.{Quote};
ghost use Rattle.rates.specs.Table.{Capped};

use terms::OptionType;

/// All that a rate can depend on: a row of a book, as it stands when the rate is asked.
#[derive(Clone, Copy)]
pub struct Quote {
    pub row: u64,
    pub security: u64,
    pub option: OptionType,
    pub strike: u64,
    pub premium: u64,
    pub close: u64,
    pub lot: u64,
}

/// A table from quotes to amounts per lot, in centavos.
// Stays: the product prescribes rate books as an interface, and each keeps its table and the ceiling as laws.
pub trait RateBook {
    // the amount for each quote, or none where it has no rate
    ghost table: { Self → Quote → Maybe ℕ };

    // no amount is above the ceiling
    ghost capped: { (book : Self) (quote : Quote) → Capped (table book quote) };

    /// What the table has for this quote.
    fn rate(&mut self, quote: &Quote) -> Option<u64>
        ensures answer { result ≡ table self.old quote.now }
        ensures kept { table self.new ≡ table self.old };
}
