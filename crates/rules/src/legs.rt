// What is told of the legs of a line together.
ghost use Rattle.std.specs.Prelude.{◌≡◌, count_by};
ghost use Rattle.rules.specs.Legs.{used, used_first};
ghost use Rattle.rules.specs.Rules.{right_number, right_count, used_before, ends_before_written};

use crate::contracts::ends_before;
use crate::line::LineInBook;
use terms::holdings::Contract;
use terms::strategy::{Kind, Leg};

/// Whether a leg is used.
pub(crate) fn is_used(leg: Leg) -> bool
    ensures { result ≡ used leg }
{
    leg.lots > 0
}

fn count_used(legs: &[Leg]) -> usize
    ensures { result ≡ count_by used legs.now }
{
    legs.iter().filter(|leg| is_used(**leg)).count()
}

/// Whether the used legs come first.
fn are_used_first(legs: &[Leg]) -> bool
    ensures { result ≡ used_first legs.now }
{
    legs.iter()
        .skip_while(|leg| is_used(**leg))
        .all(|leg| !is_used(*leg))
}

fn is_right_number(kind: Kind, count: usize) -> bool
    ensures { result ≡ right_number kind count }
{
    match kind {
        Kind::Opposed => (2..=4).contains(&count),
        Kind::BoughtButterfly | Kind::SoldButterfly => count == 3,
        _ => count == 2,
    }
}

impl LineInBook<'_> {
    /// Whether as many legs are used as the kind has, and they come first.
    pub(crate) fn has_right_count(self) -> bool
        ensures { let line = self.entry.line.now in result ≡ right_count line.kind line.legs }
    {
        let count = count_used(&self.line.legs);
        is_right_number(self.line.kind, count) && are_used_first(&self.line.legs)
    }

    /// Whether a leg before the one of index `i` uses its row.
    pub(crate) fn is_used_before(self, i: usize, leg: Leg) -> bool
        ensures { result ≡ used_before self.entry.line.now.legs i leg }
    {
        self.line
            .legs
            .iter()
            .take(i)
            .any(|other| is_used(*other) && other.row == leg.row)
    }

    /// Whether a contract ends before a written leg.
    pub(crate) fn ends_before_written(self, contract: Contract) -> bool
        ensures { let line = self.entry.line.now in result ≡ ends_before_written line.kind line.legs self.entry.listings.rows.now contract }
    {
        self.line.legs.iter().enumerate().any(|(j, other)| {
            is_used(*other)
                && self.line.kind.writes(j)
                && ends_before(contract, self.contract(*other))
        })
    }
}
