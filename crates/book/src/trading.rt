// Trading: lots added to a row's net, and the lines that no longer fit it.
ghost use Rattle.std.specs.Prelude.{◌≡◌, ◌+ℤ◌, if◌then◌else◌, Some, None};
ghost use Rattle.book.specs.Calls.{is_far, is_owed, traded_in};
ghost use Rattle.book.specs.History.{traded};
ghost use Rattle.book.specs.Promise.{Call};
ghost use Rattle.book.specs.View.{view};

use crate::checks::outside;
use crate::ledger::Book;
use crate::slips::TradingSlip;
use denials::book::{BookFault, Figure};
use terms::holdings::{Contract, Row};
use terms::limits::MAX_NET;

/// A net, where it does not pass 10,000 lots either way.
fn net_within(sum: i128) -> Option<i32>
    ensures { result ≡ (if is_far sum then None else Some sum) }
{
    (-MAX_NET..=MAX_NET).contains(&sum).then(|| sum as i32)
}

/// A net with lots added, where it does not pass 10,000 lots either way.
fn net_with(net: i32, lots: i64) -> Option<i32>
    ensures { result ≡ (if is_far (net +ℤ lots) then None else Some (net +ℤ lots)) }
{
    net_within(i128::from(net) + i128::from(lots))
}

/// Whether a deposit would be below 0.
fn is_owed(contract: Contract, net: i32) -> bool
    ensures { result ≡ is_owed contract net }
{
    matches!(contract, Contract::Deposit) && net < 0
}

/// A row with lots traded in it on a day; `number` is the row's.
fn traded_in(day: u32, number: u64, lots: i64, row: Row) -> Result<Row, BookFault>
    ensures { result ≡ traded_in day number lots row }
{
    if row.contract.is_over(day) {
        return Err(BookFault::RowEnds { row: number });
    }
    let Some(net) = net_with(row.net, lots) else {
        return Err(BookFault::NetTooFar { row: number });
    };
    if is_owed(row.contract, net) {
        return Err(BookFault::DepositBelowZero { row: number });
    }
    Ok(Row { net, ..row })
}

impl Book {
    /// Adds signed lots to a row's net, breaks the lines that it no longer carries, the highest-numbered first, and answers how
    /// many.
    pub fn trade(&mut self, slip: &TradingSlip, row: u64, lots: i64) -> Result<u64, BookFault>
        ensures { Call (view self.old) (traded slip.now row lots result) (view self.new) }
    {
        self.admits(slip)?;
        if lots == 0 {
            return Err(outside(1, Figure::Lots));
        }
        let before = self.rows.find(row)?;
        let after = traded_in(self.day, row, lots, before)?;
        self.rows.replace(row as usize, after);
        Ok(self.lines.fit(row as usize, after.net) as u64)
    }
}
