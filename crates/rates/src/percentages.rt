// The percentages of a house surcharge.
ghost use Rattle.std.specs.Prelude.{◌≡◌, ◌≤◌, true, MatchResult};
ghost use Rattle.rates.specs.Percentages.{all_fair};
ghost use Rattle.rates.specs.Surcharged.{percent_for, raised};

use crate::rounding::rounded_up;
use crate::surcharge::PercentageAbove100;
use terms::limits::{CEILING, SECURITIES};

/// A percentage from 0 to 100 for each security that a book can list.
#[derive(Clone, Copy)]
pub struct Percentages {
    each: [u64; SECURITIES],
    ghost fair: { all_fair each ≡ true },
}

impl Percentages {
    ghost use Rattle.rates.specs.Denials.{Denied};

    /// By security number; denied by the first that is above 100.
    pub fn new(each: [u64; SECURITIES]) -> Result<Percentages, PercentageAbove100>
        ensures { MatchResult result (λ p. p.each ≡ each) (λ fault. Denied each fault) }
    {
        if let Some(security) = each.iter().position(|percent| *percent > 100) {
            return Err(PercentageAbove100 {
                security: security as u64,
            });
        }
        Ok(Percentages { each })
    }

    /// The percentage of a security, and 0 past the listed ones.
    pub fn of(&self, security: u64) -> u64
        ensures value { result ≡ percent_for self.now.each security }
        ensures bound { result ≤ 100 }
    {
        self.each
            .get(security as usize)
            .copied()
            .unwrap_or_default()
    }

    /// An amount with the surcharge of its security.
    pub fn raise(&self, security: u64, amount: u64) -> u64
        ensures { result ≡ raised (percent_for self.now.each security) amount }
    {
        let hundredths = u128::from(amount) * u128::from(100 + self.of(security));
        rounded_up(hundredths).min(u128::from(CEILING)) as u64
    }
}
