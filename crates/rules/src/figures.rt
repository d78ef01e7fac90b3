// The lots and the strikes of a line's legs.
ghost use Rattle.std.specs.Prelude.{◌≡◌};
ghost use Rattle.rules.specs.Rules.{right_lots, strike_at, equal_steps, right_strikes};

use crate::line::LineInBook;
use terms::strategy::Kind;

fn are_equal_steps(a: u32, b: u32, c: u32) -> bool
    ensures { result ≡ equal_steps a b c }
{
    let (a, b, c) = (a as u64, b as u64, c as u64);
    a < b && b < c && a + c == 2 * b
}

impl LineInBook<'_> {
    fn strike(self, i: usize) -> u32
        ensures { result ≡ strike_at self.entry.line.now.legs self.entry.listings.rows.now i }
    {
        self.contract(self.leg(i)).strike()
    }

    /// Whether the lots of the legs match.
    pub(crate) fn has_right_lots(self) -> bool
        ensures { let line = self.entry.line.now in result ≡ right_lots line.kind line.legs }
    {
        let lots = |i| self.leg(i).lots as u64;
        let n = lots(0);
        match self.line.kind {
            Kind::Opposed => lots(1) + lots(2) + lots(3) == n,
            Kind::BoughtButterfly | Kind::SoldButterfly => lots(1) == 2 * n && lots(2) == n,
            _ => lots(1) == n,
        }
    }

    /// Whether the strikes of the legs obey the rule of the kind.
    pub(crate) fn has_right_strikes(self) -> bool
        ensures { let line = self.entry.line.now in result ≡ right_strikes line.kind line.legs self.entry.listings.rows.now }
    {
        match self.line.kind {
            Kind::BoughtButterfly | Kind::SoldButterfly => {
                are_equal_steps(self.strike(0), self.strike(1), self.strike(2))
            }
            Kind::SoldCone => self.strike(0) == self.strike(1),
            _ => true,
        }
    }
}
