// The days of a book: opening, the end of a session, and the next day.
ghost use Rattle.std.specs.Prelude.{◌≡◌, IfErr};
ghost use Rattle.book.specs.Calls.{Settled, unopened, opening, opened, first_slip, new_day};
ghost use Rattle.book.specs.History.{session_ended, day_opened};
ghost use Rattle.book.specs.Promise.{Call};
ghost use Rattle.book.specs.Slips.{slip_of};
ghost use Rattle.book.specs.View.{view, answered};

use crate::checks::outside;
use crate::ended::EndedRows;
use crate::ledger::Book;
use crate::rows::Rows;
use crate::securities::Securities;
use crate::slips::{Denied, InTrading, InValuing, Slip, TradingSlip, ValuingSlip};
use denials::book::{BookFault, Figure};
use lines::table::Lines;
use std::marker::PhantomData;
use terms::limits::{BookNumber, Day, limited};
use terms::stage::Stage;

impl Book {
    /// A book that is yet to be opened.
    pub fn new() -> Book
        ensures { view result ≡ unopened }
    {
        Book {
            number: 0,
            day: 0,
            stage: None,
            securities: Securities::new(),
            rows: Rows::new(),
            lines: Lines::new(),
        }
    }

    /// The book's number.
    pub fn number(&self) -> u64
        ensures { result ≡ self.now.number }
    {
        u64::from(self.number)
    }

    /// The book's day.
    pub fn day(&self) -> u64
        ensures { result ≡ self.now.day }
    {
        u64::from(self.day)
    }

    /// Empties the book, gives it a number and a day, and gives the first trading slip.
    pub fn open(&mut self, number: u64, day: u64) -> Result<TradingSlip, BookFault>
        ensures { Settled (opening number day) first_slip opened (view self.old) result (view self.new) }
    {
        let number = limited::<BookNumber>(number).ok_or(outside(0, Figure::BookNumber))?;
        let day = limited::<Day>(day).ok_or(outside(1, Figure::Day))?;
        self.number = number;
        self.day = day;
        self.stage = Some(Stage::Trading);
        self.securities.listed.clear();
        self.rows.listed.clear();
        self.lines.clear();
        Ok(self.slip::<InTrading>())
    }

    /// The slip of the book's number and day.
    fn slip<S>(&self) -> Slip<S>
        ensures { result ≡ slip_of self.now.number self.now.day }
    {
        Slip {
            book: self.number,
            day: self.day,
            stage: PhantomData,
        }
    }

    /// Ends the session: the trading slip is given up for a valuing one.
    pub fn end_session(&mut self, slip: TradingSlip) -> Result<ValuingSlip, Denied<TradingSlip>>
        ensures call { Call (view self.old) (session_ended slip (answered result)) (view self.new) }
        ensures back { IfErr result (λ denied. denied.slip ≡ slip) }
    {
        self.admits(&slip).map_err(|fault| Denied { slip, fault })?;
        self.stage = Some(Stage::Valuing);
        Ok(self.slip::<InValuing>())
    }

    fn new_day(&self, slip: &ValuingSlip, day: u64) -> Result<u32, BookFault>
        ensures { result ≡ new_day (view self.now) slip.now day }
    {
        self.admits(slip)?;
        limited::<Day>(day)
            .filter(|day| self.day < *day)
            .ok_or(outside(0, Figure::NextDay))
    }

    /// Opens a later day: breaks every line that uses a row whose last day is before it, and then clears those rows' nets. The
    /// valuing slip is given up for a trading one.
    pub fn next_day(
        &mut self,
        slip: ValuingSlip,
        day: u64,
    ) -> Result<TradingSlip, Denied<ValuingSlip>>
        ensures call { Call (view self.old) (day_opened slip day (answered result)) (view self.new) }
        ensures back { IfErr result (λ denied. denied.slip ≡ slip) }
    {
        let day = self
            .new_day(&slip, day)
            .map_err(|fault| Denied { slip, fault })?;
        self.lines.break_users(&EndedRows {
            rows: &self.rows,
            day,
        });
        self.rows.close(day);
        self.day = day;
        self.stage = Some(Stage::Trading);
        Ok(self.slip::<InTrading>())
    }
}
