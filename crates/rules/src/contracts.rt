// What rows are contracts of, as the rules tell them apart.
ghost use Rattle.std.specs.Prelude.{◌≡◌};
ghost use Rattle.rules.specs.Sorts.{is_option, same_type, of_one_type, right_sort, ends_before};

use terms::OptionType;
use terms::holdings::Contract;
use terms::strategy::Kind;

fn is_option(contract: Contract, option: OptionType) -> bool
    ensures { result ≡ is_option option contract }
{
    matches!(contract, Contract::Series(series) if series.option == option)
}

/// Whether two contracts are options of one type.
fn is_same_type(a: Contract, b: Contract) -> bool
    ensures { result ≡ same_type a b }
{
    matches!(a, Contract::Series(series) if is_option(b, series.option))
}

/// Whether the legs of a kind are options of one type.
pub(crate) fn is_of_one_type(kind: Kind) -> bool
    ensures { result ≡ of_one_type kind }
{
    matches!(
        kind,
        Kind::Opposed | Kind::BoughtButterfly | Kind::SoldButterfly
    )
}

/// Whether a leg's contract is of the sort that the kind names; `lead` is leg 0's.
pub(crate) fn is_right_sort(kind: Kind, lead: Contract, i: usize, contract: Contract) -> bool
    ensures { result ≡ right_sort kind lead i contract }
{
    match (kind, i) {
        (Kind::Opposed | Kind::BoughtButterfly | Kind::SoldButterfly, _) => {
            is_same_type(lead, contract)
        }
        (_, 0) => is_option(contract, OptionType::Call),
        (Kind::SoldCone, _) => is_option(contract, OptionType::Put),
        (Kind::Covered, _) => matches!(contract, Contract::Deposit),
        (Kind::TermPurchase | Kind::TermSale, _) => matches!(contract, Contract::Term(_)),
    }
}

/// Whether an option ends before another.
pub(crate) fn ends_before(a: Contract, b: Contract) -> bool
    ensures { result ≡ ends_before a b }
{
    match (a, b) {
        (Contract::Series(a), Contract::Series(b)) => a.last_day < b.last_day,
        _ => false,
    }
}
