// The limits of a book's figures. Money is in centavos.
ghost use Rattle.std.specs.Prelude.{◌≡◌, ◌^◌, ◌<◌, ℕ, Bool, IsTrue};
ghost use Rattle.terms.specs.Limits.{is_day, is_price, is_premium, is_lot_size, is_book_number, is_guarantee, limited};

/// The most that a strike, a closing price, a term price or a premium can be.
pub const MAX_PRICE: u64 = 10_000_000;

/// The most securities that a lot can have.
pub const MAX_LOT_SIZE: u64 = 10_000;

/// The most that one lot can ask in guarantee.
pub const CEILING: u64 = 1_000_000_000_000;

/// How many securities a book can list.
pub const SECURITIES: usize = 16;

/// How many rows a book can list.
pub const ROWS: usize = 64;

/// How many strategy lines can stand at once.
pub const MAX_LINES: usize = 64;

/// The last day that can be counted.
pub const MAX_DAY: u64 = 1_000_000;

/// The highest number that a book can have.
pub const MAX_BOOK_NUMBER: u64 = 65_535;

/// The most lots that a net can have, either way.
pub const MAX_NET: i128 = 10_000;

/// A figure that has limits.
// Stays: a test for each figure; two constants for each, and a law that ties them to its definition, would be no plainer.
pub trait HasLimits {
    // which numbers lie within them
    ghost within: { ℕ → Bool };

    /// Whether a number lies within them; one that does has 32 bits.
    fn contains(n: u64) -> bool
        ensures within { result ≡ within n }
        ensures narrow { IsTrue result → n < 2 ^ 32 };
}

/// A number, where it lies within the limits of a figure.
pub fn limited<F: HasLimits>(n: u64) -> Option<u32>
    ensures { result ≡ limited F.within n }
{
    F::contains(n).then(|| n as u32)
}

/// A book's number.
pub struct BookNumber;

/// A day.
pub struct Day;

/// A strike, a closing price or a term price.
pub struct Price;

/// A premium; 0 says that the series did not trade.
pub struct Premium;

/// A lot size.
pub struct LotSize;

impl HasLimits for BookNumber {
    ghost within = { is_book_number };

    fn contains(number: u64) -> bool {
        number <= MAX_BOOK_NUMBER
    }
}

impl HasLimits for Day {
    ghost within = { is_day };

    fn contains(day: u64) -> bool {
        (1..=MAX_DAY).contains(&day)
    }
}

impl HasLimits for Price {
    ghost within = { is_price };

    fn contains(amount: u64) -> bool {
        (1..=MAX_PRICE).contains(&amount)
    }
}

impl HasLimits for Premium {
    ghost within = { is_premium };

    fn contains(amount: u64) -> bool {
        amount <= MAX_PRICE
    }
}

impl HasLimits for LotSize {
    ghost within = { is_lot_size };

    fn contains(size: u64) -> bool {
        (1..=MAX_LOT_SIZE).contains(&size)
    }
}

/// A term operation's guarantee per lot, where it is within its limits.
// Stays: a function of its own, since a guarantee has 64 bits, and `limited` gives 32.
pub fn guarantee(amount: u64) -> Option<u64>
    ensures { result ≡ limited is_guarantee amount }
{
    (amount <= CEILING).then_some(amount)
}
