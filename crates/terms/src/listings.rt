// What a book lists, read by row number.
ghost use Rattle.std.specs.Prelude.{◌≡◌, slice_index_or};
ghost use Rattle.terms.specs.Holdings.{no_security};
ghost use Rattle.terms.specs.Listings.{row_at, contract_at, security_at, class_at};

use crate::holdings::{Class, Contract, Row, Security};

/// The securities and the rows of a book, by number.
#[derive(Clone, Copy)]
pub struct Listings<'a> {
    pub securities: &'a [Security],
    pub rows: &'a [Row],
}

impl Listings<'_> {
    /// The row of a number; a deposit without lots where there is none.
    pub fn row(self, row: usize) -> Row
        ensures { result ≡ row_at self.entry.rows.now row }
    {
        self.rows.get(row).copied().unwrap_or_default()
    }

    /// The contract of a row.
    pub fn contract(self, row: usize) -> Contract
        ensures { result ≡ contract_at self.entry.rows.now row }
    {
        self.row(row).contract
    }

    /// The security of a number; one of class 3 without a lot or a price where there is none.
    pub fn listed_security(self, security: usize) -> Security
        ensures { result ≡ slice_index_or self.entry.securities.now security no_security }
    {
        self.securities.get(security).copied().unwrap_or_default()
    }

    /// The security of a row.
    pub fn security(self, row: usize) -> Security
        ensures { result ≡ security_at self.entry.securities.now self.entry.rows.now row }
    {
        self.listed_security(self.row(row).security)
    }

    /// The class of a row's security.
    pub fn class(self, row: usize) -> Class
        ensures { result ≡ class_at self.entry.securities.now self.entry.rows.now row }
    {
        self.security(row).class
    }
}
