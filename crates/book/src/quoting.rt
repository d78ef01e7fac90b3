// Quoting: closing prices and premiums.
ghost use Rattle.book.specs.History.{price_quoted, premium_quoted};
ghost use Rattle.book.specs.Promise.{Call};
ghost use Rattle.book.specs.View.{view};

use crate::checks::outside;
use crate::ledger::Book;
use crate::slips::TradingSlip;
use denials::book::{BookFault, Figure};
use terms::holdings::Series;
use terms::limits::{Premium, Price, limited};

impl Book {
    /// Replaces a security's closing price.
    pub fn quote_price(
        &mut self,
        slip: &TradingSlip,
        security: u64,
        price: u64,
    ) -> Result<(), BookFault>
        ensures { Call (view self.old) (price_quoted slip.now security price result) (view self.new) }
    {
        self.admits(slip)?;
        let close = limited::<Price>(price).ok_or(outside(1, Figure::ClosingPrice))?;
        let i = security as usize;
        let listed = self
            .securities
            .listed
            .get_mut(i)
            .ok_or(BookFault::NoSuchSecurity { security })?;
        listed.close = close;
        Ok(())
    }

    /// Replaces a series' premium.
    pub fn quote_premium(
        &mut self,
        slip: &TradingSlip,
        row: u64,
        premium: u64,
    ) -> Result<(), BookFault>
        ensures { Call (view self.old) (premium_quoted slip.now row premium result) (view self.new) }
    {
        self.admits(slip)?;
        let premium = limited::<Premium>(premium).ok_or(outside(1, Figure::Premium))?;
        let series = self.rows.find_series(row)?;
        self.rows.quote(row as usize, Series { premium, ..series });
        Ok(())
    }
}
