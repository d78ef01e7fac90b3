// What each kind of strategy asks in guarantee.
ghost use Rattle.std.specs.Prelude.{◌≡◌, ◌*◌, ◌^◌, ◌<◌};
ghost use Rattle.std.specs.Option.{unwrap_or};
ghost use Rattle.terms.specs.Listings.{contract_at, security_at};
ghost use Rattle.terms.specs.Sides.{leg_at};
ghost use Rattle.charges.specs.Figures.{rate_at};
ghost use Rattle.charges.specs.Charges.{difference, opposed_leg, opposed, sold_butterfly, term_purchase, term_sale, charge};

use crate::figures::{rate_at, term_of, type_of};
use rates::rate_book::RateBook;
use terms::OptionType;
use terms::holdings::{Class, Contract};
use terms::listings::Listings;
use terms::strategy::{Kind, Leg, Line};

/// So much for each of some lots.
fn per_lot(lots: u32, each: u64) -> u128
    ensures value { result ≡ lots * each }
    ensures bound { result < 2 ^ 96 }
{
    u128::from(lots) * u128::from(each)
}

/// What a held strike leaves of the risk of a written one.
fn difference(option: OptionType, written: u32, held: u32) -> u32
    ensures { result ≡ difference option written held }
{
    match option {
        OptionType::Call => held.saturating_sub(written),
        OptionType::Put => written.saturating_sub(held),
    }
}

/// A strategy line, and the listings that its rows are in.
// Stays: a struct of its own beside the one of `rules`, since a crate can give methods to its own types alone.
#[derive(Clone, Copy)]
struct ListedLine<'a> {
    listings: Listings<'a>,
    line: &'a Line,
}

impl ListedLine<'_> {
    /// The contract of a leg.
    fn contract(self, leg: usize) -> Contract
        requires { leg < 4 }
        ensures { result ≡ contract_at self.entry.listings.rows.now (leg_at self.entry.line.now.legs leg).row }
    {
        self.listings.contract(self.line.legs[leg].row as usize)
    }

    /// What a difference in price comes to in one lot of leg 0.
    fn of_lot(self, difference: u32) -> u64
        ensures { result ≡ difference * (security_at self.entry.listings.securities.now self.entry.listings.rows.now (leg_at self.entry.line.now.legs 0).row).lot_size }
    {
        let security = self.listings.security(self.line.legs[0].row as usize);
        u64::from(difference) * u64::from(security.lot_size)
    }

    /// What a held leg of an opposed line asks.
    fn opposed_leg(self, held: Leg) -> u128
        ensures value { result ≡ opposed_leg self.entry.listings.securities.now self.entry.listings.rows.now (leg_at self.entry.line.now.legs 0) held }
        ensures bound { result < 2 ^ 96 }
    {
        let written = self.contract(0);
        let strike = self.listings.contract(held.row as usize).strike();
        let left = difference(type_of(written), written.strike(), strike);
        per_lot(held.lots, self.of_lot(left))
    }

    /// What each lot of a sold butterfly asks.
    fn sold_butterfly(self) -> u64
        ensures { (leg_at self.entry.line.now.legs 0).lots * result ≡ sold_butterfly self.entry.listings.securities.now self.entry.listings.rows.now self.entry.line.now }
    {
        let low = self.contract(0).strike();
        let middle = self.contract(1).strike();
        self.of_lot(middle.saturating_sub(low))
    }

    /// What each lot of a term purchase asks.
    #[tactic(auto, using(crate::proofs::Times::mul_max))]
    fn term_purchase(self) -> u64
        ensures { (leg_at self.entry.line.now.legs 0).lots * result ≡ term_purchase self.entry.listings.securities.now self.entry.listings.rows.now self.entry.line.now }
    {
        let strike = self.contract(0).strike();
        let term = term_of(self.contract(1));
        let spread = self.of_lot(term.price.saturating_sub(strike));
        term.guarantee.max(spread)
    }

    /// What each lot of a term sale asks.
    fn term_sale(self) -> u64
        ensures { (leg_at self.entry.line.now.legs 0).lots * result ≡ term_sale self.entry.listings.securities.now self.entry.listings.rows.now self.entry.line.now }
    {
        let strike = self.contract(0).strike();
        let term = term_of(self.contract(1));
        let spread = self.of_lot(strike.saturating_sub(term.price));
        spread.min(term.guarantee)
    }

    /// The rate of a leg's row, and 0 where it has none.
    // Stays: each function that asks a rate book says that its table is kept, since no type says what a `&mut` leaves the same.
    fn rate<R: RateBook>(self, rates: &mut R, leg: usize) -> u64
        requires { leg < 4 }
        ensures value { result ≡ unwrap_or (rate_at (R.RateBook.table rates.old) self.entry.listings.securities.now self.entry.listings.rows.now (leg_at self.entry.line.now.legs leg).row) 0 }
        ensures kept { R.RateBook.table rates.new ≡ R.RateBook.table rates.old }
    {
        rate_at(rates, self.listings, self.line.legs[leg].row).unwrap_or(0)
    }

    /// What an opposed line asks.
    fn opposed<R: RateBook>(self, rates: &mut R) -> u128
        ensures value { result ≡ opposed (R.RateBook.table rates.old) self.entry.listings.securities.now self.entry.listings.rows.now self.entry.line.now }
        ensures kept { R.RateBook.table rates.new ≡ R.RateBook.table rates.old }
        ensures bound { result < 2 ^ 98 }
    {
        let legs = self.line.legs;
        // Stays: of a chain's sum the value was proved, and the bound was not.
        let sum = self.opposed_leg(legs[1]) + self.opposed_leg(legs[2]) + self.opposed_leg(legs[3]);
        match self.listings.class(legs[0].row as usize) {
            Class::ListB => sum.min(per_lot(legs[0].lots, self.rate(rates, 0))),
            Class::ListA | Class::Other => sum,
        }
    }
}

/// The guarantee of a strategy line, in centavos.
pub fn charge<R: RateBook>(rates: &mut R, listings: Listings<'_>, line: &Line) -> u128
    ensures value { result ≡ charge (R.RateBook.table rates.old) listings.entry.securities.now listings.entry.rows.now line.now }
    ensures kept { R.RateBook.table rates.new ≡ R.RateBook.table rates.old }
    ensures bound { result < 2 ^ 98 }
{
    let listed = ListedLine { listings, line };
    let lots = line.legs[0].lots;
    match line.kind {
        Kind::BoughtButterfly | Kind::Covered => 0,
        Kind::Opposed => listed.opposed(rates),
        Kind::SoldButterfly => per_lot(lots, listed.sold_butterfly()),
        Kind::SoldCone => per_lot(lots, listed.rate(rates, 0).max(listed.rate(rates, 1))),
        Kind::TermPurchase => per_lot(lots, listed.term_purchase()),
        Kind::TermSale => per_lot(lots, listed.term_sale()),
    }
}
