// Listing: securities, option series and term operations.
ghost use Rattle.std.specs.Prelude.{length};
ghost use Rattle.book.specs.Calls.{Settled, new_row, with_row};
ghost use Rattle.book.specs.History.{security_listed, series_listed, term_listed};
ghost use Rattle.book.specs.Promise.{Call};
ghost use Rattle.book.specs.View.{view};

use crate::checks::outside;
use crate::ledger::{Book, Listed};
use crate::slips::TradingSlip;
use denials::book::{BookFault, Figure};
use terms::OptionType;
use terms::holdings::{Class, Contract, Row, Security, Series, TermOperation};
use terms::limits::{self, Day, LotSize, Premium, Price, limited};

impl Book {
    /// Lists a security and its deposit, each under its next number.
    pub fn list_security(
        &mut self,
        slip: &TradingSlip,
        class: Class,
        lot_size: u64,
        close: u64,
    ) -> Result<Listed, BookFault>
        ensures { Call (view self.old) (security_listed slip.now class lot_size close result) (view self.new) }
    {
        self.admits(slip)?;
        let lot_size = limited::<LotSize>(lot_size).ok_or(outside(1, Figure::LotSize))?;
        let close = limited::<Price>(close).ok_or(outside(2, Figure::ClosingPrice))?;
        if self.securities.listed.is_full() {
            return Err(BookFault::SecuritiesFull);
        }
        if self.rows.listed.is_full() {
            return Err(BookFault::RowsFull);
        }
        let security = self.securities.listed.len();
        let row = self.rows.listed.len();
        self.securities.listed.push(Security {
            class,
            lot_size,
            close,
        });
        self.rows.listed.push(Row {
            security,
            contract: Contract::Deposit,
            net: 0,
        });
        Ok(Listed {
            security: security as u64,
            row: row as u64,
        })
    }

    /// Lists a contract on a security under the next row.
    fn list_row(&mut self, security: u64, contract: Contract) -> Result<u64, BookFault>
        ensures { Settled (new_row (view self.old) security contract) (λ _. length self.old.rows.listed.items) (with_row (view self.old)) (view self.old) result (view self.new) }
    {
        let security = self.securities.find(security)?;
        if self.rows.listed.is_full() {
            return Err(BookFault::RowsFull);
        }
        if contract.is_over(self.day) {
            return Err(BookFault::LastDayPast);
        }
        let row = Row {
            security,
            contract,
            net: 0,
        };
        if let Some(same) = self.rows.first_same(&row) {
            return Err(BookFault::AlreadyListed { row: same as u64 });
        }
        let number = self.rows.listed.len();
        self.rows.listed.push(row);
        Ok(number as u64)
    }

    /// Lists an option series under the next row.
    pub fn list_series(
        &mut self,
        slip: &TradingSlip,
        security: u64,
        option: OptionType,
        strike: u64,
        last_day: u64,
        premium: u64,
    ) -> Result<u64, BookFault>
        ensures { Call (view self.old) (series_listed slip.now security option strike last_day premium result) (view self.new) }
    {
        self.admits(slip)?;
        let strike = limited::<Price>(strike).ok_or(outside(2, Figure::Strike))?;
        let last_day = limited::<Day>(last_day).ok_or(outside(3, Figure::LastDay))?;
        let premium = limited::<Premium>(premium).ok_or(outside(4, Figure::Premium))?;
        let series = Series {
            option,
            strike,
            last_day,
            premium,
        };
        self.list_row(security, Contract::Series(series))
    }

    /// Lists a term operation under the next row.
    pub fn list_term(
        &mut self,
        slip: &TradingSlip,
        security: u64,
        price: u64,
        last_day: u64,
        guarantee: u64,
    ) -> Result<u64, BookFault>
        ensures { Call (view self.old) (term_listed slip.now security price last_day guarantee result) (view self.new) }
    {
        self.admits(slip)?;
        let price = limited::<Price>(price).ok_or(outside(1, Figure::TermPrice))?;
        let last_day = limited::<Day>(last_day).ok_or(outside(2, Figure::LastDay))?;
        let guarantee = limits::guarantee(guarantee).ok_or(outside(3, Figure::Guarantee))?;
        let term = TermOperation {
            price,
            last_day,
            guarantee,
        };
        self.list_row(security, Contract::Term(term))
    }
}
