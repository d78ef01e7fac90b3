// The bands of the scale: how the strike stands to the closing price, and what floor follows from it.
ghost use Rattle.std.specs.Prelude.{◌≡◌, ◌≤◌};
ghost use Rattle.rates.specs.Scale.{percent_of, floor_of};
ghost use Rattle.rates.specs.Bands.{holds, share_of, applies, first_floor};

use crate::rate_book::Quote;
use crate::rounding::rounded_up;
use crate::scale::Admitted;
use terms::OptionType;

/// How the strike stands to so many per cent of the closing price.
#[derive(Clone, Copy)]
enum Moneyness {
    AtLeast(u8),
    Over(u8),
    AtMost(u8),
    Under(u8),
    Any,
}

/// So many per cent of one of the two prices.
#[derive(Clone, Copy)]
enum Share {
    OfStrike(u8),
    OfClose(u8),
}

/// A line of the scale: where it applies, and the floor that it sets.
#[derive(Clone, Copy)]
struct Band {
    strike: Moneyness,
    floor: Share,
}

const CALLS: [Band; 4] = [
    Band {
        strike: Moneyness::AtLeast(115),
        floor: Share::OfClose(2),
    },
    Band {
        strike: Moneyness::Over(110),
        floor: Share::OfClose(5),
    },
    Band {
        strike: Moneyness::AtLeast(100),
        floor: Share::OfClose(10),
    },
    Band {
        strike: Moneyness::Any,
        floor: Share::OfStrike(10),
    },
];

const PUTS: [Band; 4] = [
    Band {
        strike: Moneyness::AtMost(85),
        floor: Share::OfStrike(2),
    },
    Band {
        strike: Moneyness::Under(90),
        floor: Share::OfStrike(5),
    },
    Band {
        strike: Moneyness::AtMost(100),
        floor: Share::OfStrike(10),
    },
    Band {
        strike: Moneyness::Any,
        floor: Share::OfClose(10),
    },
];

impl Moneyness {
    fn holds(self, admitted: Admitted) -> bool
        ensures { result ≡ holds self admitted.entry.quote.now.strike admitted.entry.quote.now.close }
    {
        let Quote { strike, close, .. } = *admitted.quote;
        match self {
            Moneyness::AtLeast(percent) => 100 * strike >= u64::from(percent) * close,
            Moneyness::Over(percent) => 100 * strike > u64::from(percent) * close,
            Moneyness::AtMost(percent) => 100 * strike <= u64::from(percent) * close,
            Moneyness::Under(percent) => 100 * strike < u64::from(percent) * close,
            Moneyness::Any => true,
        }
    }
}

fn percent_of(percent: u8, price: u64, lot: u64) -> u64
    requires { (price ≤ 10000000) × (lot ≤ 10000) }
    ensures { result ≡ percent_of percent price lot }
{
    rounded_up(u128::from(u64::from(percent) * price * lot)) as u64
}

impl Share {
    fn of(self, admitted: Admitted) -> u64
        ensures { result ≡ share_of self admitted.entry.quote.now }
    {
        let quote = admitted.quote;
        match self {
            Share::OfStrike(percent) => percent_of(percent, quote.strike, quote.lot),
            Share::OfClose(percent) => percent_of(percent, quote.close, quote.lot),
        }
    }
}

impl Band {
    fn applies(&self, admitted: Admitted) -> bool
        ensures { result ≡ applies self.now admitted.entry.quote.now }
    {
        self.strike.holds(admitted)
    }
}

fn first_floor(bands: &[Band], admitted: Admitted) -> Option<u64>
    ensures { result ≡ first_floor bands.now admitted.entry.quote.now }
{
    let band = bands.iter().find(|band| band.applies(admitted))?;
    Some(band.floor.of(admitted))
}

/// The floor under the rate of a quote within the limits.
pub(super) fn floor(admitted: Admitted) -> u64
    ensures { let q = admitted.entry.quote.now in result ≡ floor_of q.option q.strike q.close q.lot }
{
    let bands = match admitted.quote.option {
        OptionType::Call => &CALLS,
        OptionType::Put => &PUTS,
    };
    first_floor(bands, admitted).unwrap()
}
