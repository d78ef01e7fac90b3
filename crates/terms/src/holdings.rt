// What a book lists: securities, and rows of deposits, option series and term operations.
ghost use Rattle.std.specs.Prelude.{◌≡◌};
ghost use Rattle.terms.specs.Holdings.{strike_of, contract_last_day, is_over, has_ended, closed, same_contract, same_row};

use crate::OptionType;

/// Which of the exchange's lists a security is in: class 1 is list B, 2 is list A, 3 is every other.
#[derive(Clone, Copy, PartialEq, Eq, Debug, Default)]
pub enum Class {
    ListB,
    ListA,
    #[default]
    Other,
}

/// A security, with how many of it a lot has and its closing price; the default one has neither, and is in no list.
#[derive(Clone, Copy, Default)]
pub struct Security {
    pub class: Class,
    pub lot_size: u32,
    pub close: u32,
}

/// An option series; a premium of 0 says that it did not trade.
// Stays: 0 and no Option, since the product quotes a premium of 0 as any other.
#[derive(Clone, Copy)]
pub struct Series {
    pub option: OptionType,
    pub strike: u32,
    pub last_day: u32,
    pub premium: u32,
}

/// A term operation, with its guarantee per lot; the default one has no price and no guarantee.
#[derive(Clone, Copy, Default)]
pub struct TermOperation {
    pub price: u32,
    pub last_day: u32,
    pub guarantee: u64,
}

/// What the lots of a row are lots of.
#[derive(Clone, Copy, Default)]
pub enum Contract {
    #[default]
    Deposit,
    Series(Series),
    Term(TermOperation),
}

/// A row: a contract on a security, and its net, the lots bought less the lots sold; the default one is a deposit without lots.
#[derive(Clone, Copy, Default)]
pub struct Row {
    pub security: usize,
    pub contract: Contract,
    pub net: i32,
}

impl Contract {
    /// The last day; a deposit has none.
    pub fn last_day(self) -> Option<u32>
        ensures { result ≡ contract_last_day self }
    {
        match self {
            Contract::Deposit => None,
            Contract::Series(series) => Some(series.last_day),
            Contract::Term(term) => Some(term.last_day),
        }
    }

    /// The strike of a series; other contracts have none, and read as 0.
    pub fn strike(self) -> u32
        ensures { result ≡ strike_of self }
    {
        match self {
            Contract::Series(series) => series.strike,
            _ => 0,
        }
    }

    /// Whether the last day is today or past.
    pub fn is_over(self, day: u32) -> bool
        ensures { result ≡ is_over (contract_last_day self) day }
    {
        self.last_day().is_some_and(|last| last <= day)
    }

    /// Whether the last day is before the day.
    pub fn has_ended(self, day: u32) -> bool
        ensures { result ≡ has_ended (contract_last_day self) day }
    {
        self.last_day().is_some_and(|last| last < day)
    }

    /// Whether two series, or two term operations, are equal; premium and guarantee are not compared.
    // Stays: no derived `==`, which would compare them.
    pub fn is_same(self, other: Contract) -> bool
        ensures { result ≡ same_contract self other }
    {
        match (self, other) {
            (Contract::Series(a), Contract::Series(b)) => {
                a.option == b.option && a.strike == b.strike && a.last_day == b.last_day
            }
            (Contract::Term(a), Contract::Term(b)) => a.price == b.price
                && a.last_day == b.last_day,
            _ => false,
        }
    }
}

impl Row {
    /// Whether two rows have equal contracts on one security.
    // Stays: no derived `==`, which would compare nets too.
    pub fn is_same(&self, other: &Row) -> bool
        ensures { result ≡ same_row self.now other.now }
    {
        self.security == other.security && self.contract.is_same(other.contract)
    }

    /// The row as it is on a day: without lots, once it has ended.
    pub fn closed(self, day: u32) -> Row
        ensures { result ≡ closed day self }
    {
        if self.contract.has_ended(day) {
            Row { net: 0, ..self }
        } else {
            self
        }
    }
}
