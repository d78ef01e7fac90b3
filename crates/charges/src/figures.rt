// The figures that a guarantee is worked out from.
ghost use Rattle.std.specs.Prelude.{◌≡◌};
ghost use Rattle.charges.specs.Figures.{price_of, guarantee_of, type_of, quote_for, rate_at};

use rates::rate_book::{Quote, RateBook};
use terms::OptionType;
use terms::holdings::{Contract, Security, Series, TermOperation};
use terms::listings::Listings;

/// The term operation of a contract; any other contract reads as one without a price or a guarantee.
pub(crate) fn term_of(contract: Contract) -> TermOperation
    ensures price { result.price ≡ price_of contract }
    ensures guarantee { result.guarantee ≡ guarantee_of contract }
{
    match contract {
        Contract::Term(term) => term,
        _ => TermOperation::default(),
    }
}

/// The option type of a series; any other contract reads as a call.
pub(crate) fn type_of(contract: Contract) -> OptionType
    ensures { result ≡ type_of contract }
{
    match contract {
        Contract::Series(series) => series.option,
        _ => OptionType::Call,
    }
}

/// What a rate book is asked for a series in a row.
fn quote_for(row: u32, number: usize, series: Series, security: Security) -> Quote
    ensures { result ≡ quote_for row number series security }
{
    Quote {
        row: u64::from(row),
        security: number as u64,
        option: series.option,
        strike: u64::from(series.strike),
        premium: u64::from(series.premium),
        close: u64::from(security.close),
        lot: u64::from(security.lot_size),
    }
}

/// The rate of a series in a row, as the rate book has it now; none where the row is no series.
pub fn rate_at<R: RateBook>(rates: &mut R, listings: Listings<'_>, row: u32) -> Option<u64>
    ensures value { result ≡ rate_at (R.RateBook.table rates.old) listings.entry.securities.now listings.entry.rows.now row }
    ensures kept { R.RateBook.table rates.new ≡ R.RateBook.table rates.old }
{
    let listed = listings.row(row as usize);
    let Contract::Series(series) = listed.contract else {
        return None;
    };
    let security = listings.security(row as usize);
    rates.rate(&quote_for(row, listed.security, series, security))
}
