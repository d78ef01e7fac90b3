// The table of rows: at most 64, kept in place.
ghost use Rattle.std.specs.Prelude.{◌≡◌, ◌<◌, ◌≤◌, [], map, OnOk, slice_set};
ghost use Rattle.std.specs.List.{position};
ghost use Rattle.terms.specs.Holdings.{closed, ended_at, same_row};
ghost use Rattle.arrayvec.specs.ArrayVec.{array_vec_len};
ghost use Rattle.book.specs.Tables.{row_at, series_at, repriced};

use arrayvec::ArrayVec;
use denials::book::BookFault;
use terms::holdings::{Contract, Row, Series};
use terms::limits::ROWS;

/// The listed rows, by number.
#[derive(Drop)]
pub(crate) struct Rows {
    pub(crate) listed: ArrayVec<Row, ROWS>,
    ghost few: { array_vec_len listed ≤ 64 },
}

impl Rows {
    pub(crate) fn new() -> Rows
        ensures { result.listed.items ≡ [] }
    {
        Rows {
            listed: ArrayVec::new(),
        }
    }

    /// A row that is listed.
    pub(crate) fn find(&self, row: u64) -> Result<Row, BookFault>
        ensures value { result ≡ row_at self.now.listed.items row }
        ensures within { OnOk result (row < array_vec_len self.now.listed) }
    {
        let Some(listed) = self.listed.get(row as usize) else {
            return Err(BookFault::NoSuchRow { row });
        };
        Ok(*listed)
    }

    /// An option series that is listed.
    pub(crate) fn find_series(&self, row: u64) -> Result<Series, BookFault>
        ensures value { result ≡ series_at self.now.listed.items row }
        ensures within { OnOk result (row < array_vec_len self.now.listed) }
    {
        let Some(
            Row {
                contract: Contract::Series(series),
                ..
            },
        ) = self.listed.get(row as usize)
        else {
            return Err(BookFault::NoSuchSeries { row });
        };
        Ok(*series)
    }

    /// Whether the row of a number has ended by the day; one that is not listed has not.
    pub(crate) fn has_ended(&self, row: usize, day: u32) -> bool
        ensures { result ≡ ended_at self.now.listed.items day row }
    {
        self.listed
            .get(row)
            .is_some_and(|row| row.contract.has_ended(day))
    }

    /// The first row that equals one.
    pub(crate) fn first_same(&self, row: &Row) -> Option<usize>
        ensures { result ≡ position (same_row row.now) self.now.listed.items }
    {
        self.listed.iter().position(|other| row.is_same(other))
    }

    // Stays: here and below an index that is required; through `get_mut` it stayed open that a denied call leaves the rows.
    pub(crate) fn replace(&mut self, i: usize, row: Row)
        requires { i < array_vec_len self.old.listed }
        ensures { self.new.listed.items ≡ slice_set self.old.listed.items i row }
    {
        self.listed[i] = row;
    }

    /// Replaces the series of a row.
    pub(crate) fn quote(&mut self, i: usize, series: Series)
        requires { i < array_vec_len self.old.listed }
        ensures { self.new.listed.items ≡ repriced self.old.listed.items i series }
    {
        self.listed[i].contract = Contract::Series(series);
    }

    /// Sets the nets of the rows to 0 whose last day is before the day.
    pub(crate) fn close(&mut self, day: u32)
        ensures { self.new.listed.items ≡ map (closed day) self.old.listed.items }
    {
        for row in self.listed.as_mut_slice() {
            *row = row.closed(day);
        }
    }
}
