// Which classes of security admit which strategies.
ghost use Rattle.std.specs.Prelude.{◌≡◌};
ghost use Rattle.rules.specs.Sorts.{admits, admitted};
ghost use Rattle.rules.specs.Rules.{right_class};

use crate::line::LineInBook;
use terms::OptionType;
use terms::holdings::{Class, Contract};
use terms::strategy::Kind;

/// Whether a class admits a kind with options of a type.
fn admits(kind: Kind, option: OptionType, class: Class) -> bool
    ensures { result ≡ admits kind option class }
{
    // Stays: the product prescribes one match over all three, with a condition on puts.
    match (kind, option, class) {
        (Kind::Opposed | Kind::BoughtButterfly, OptionType::Call, _) => true,
        (Kind::Opposed | Kind::BoughtButterfly, OptionType::Put, class) if class == Class::ListB =>
            true,
        (Kind::SoldButterfly | Kind::SoldCone, _, Class::ListB) => true,
        (Kind::Covered, _, _) => true,
        (Kind::TermPurchase | Kind::TermSale, _, Class::ListB | Class::ListA) => true,
        _ => false,
    }
}

/// Whether a class admits a kind whose leg 0 has a contract.
fn is_admitted(kind: Kind, lead: Contract, class: Class) -> bool
    ensures { result ≡ admitted kind lead class }
{
    matches!(lead, Contract::Series(series) if admits(kind, series.option, class))
}

impl LineInBook<'_> {
    /// Whether the class of leg 0's security admits the kind.
    pub(crate) fn has_right_class(self) -> bool
        ensures { let line = self.entry.line.now in result ≡ right_class line.kind line.legs self.entry.listings.rows.now self.entry.listings.securities.now }
    {
        let class = self.listings.class(self.leg(0).row as usize);
        is_admitted(self.line.kind, self.lead(), class)
    }
}
