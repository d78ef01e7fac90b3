// The rows that have ended, as a set of rows.
ghost use Rattle.terms.specs.Holdings.{ended_at};

use crate::rows::Rows;
use lines::row_set::RowSet;

/// The rows whose last day is before a day.
#[derive(Drop)]
pub(crate) struct EndedRows<'a> {
    pub(crate) rows: &'a Rows,
    pub(crate) day: u32,
}

impl RowSet for EndedRows<'_> {
    ghost has = { λ set i. ended_at set.rows.now.listed.items set.day i };

    fn contains(&self, row: usize) -> bool {
        self.rows.has_ended(row, self.day)
    }
}
