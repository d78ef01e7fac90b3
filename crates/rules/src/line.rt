// A line together with what the book lists: what its legs stand for.
ghost use Rattle.std.specs.Prelude.{◌≡◌};
ghost use Rattle.terms.specs.Sides.{leg_at};
ghost use Rattle.rules.specs.Legs.{row_of, contract_of};

use terms::holdings::{Contract, Row};
use terms::listings::Listings;
use terms::strategy::{Leg, Line};

/// A line, and the listings that its legs name rows of.
#[derive(Clone, Copy)]
pub(crate) struct LineInBook<'a> {
    pub(crate) line: &'a Line,
    pub(crate) listings: Listings<'a>,
}

impl LineInBook<'_> {
    /// The leg of an index; one that there is not is not used.
    pub(crate) fn leg(self, i: usize) -> Leg
        ensures { result ≡ leg_at self.entry.line.now.legs i }
    {
        self.line.legs.get(i).copied().unwrap_or_default()
    }

    /// The row that a leg names; one that is not listed is a deposit without lots.
    pub(crate) fn row(self, leg: Leg) -> Row
        ensures { result ≡ row_of self.entry.listings.rows.now leg }
    {
        self.listings.row(leg.row as usize)
    }

    /// What the lots of a leg are lots of.
    pub(crate) fn contract(self, leg: Leg) -> Contract
        ensures { result ≡ contract_of self.entry.listings.rows.now leg }
    {
        self.listings.contract(leg.row as usize)
    }

    /// What the lots of leg 0 are lots of.
    pub(crate) fn lead(self) -> Contract
        ensures { result ≡ contract_of self.entry.listings.rows.now (leg_at self.entry.line.now.legs 0) }
    {
        self.contract(self.leg(0))
    }
}
