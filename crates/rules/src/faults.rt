// The faults of legs, and the first leg of a line that has one.
ghost use Rattle.std.specs.Prelude.{◌≡◌, ◌<◌, length, Bool, ℕ};
ghost use Rattle.terms.specs.Sides.{leg_at};
ghost use Rattle.rules.specs.Rules.{wrong_sort, other_security, ends_too_early, at_fault, legs_checked, unless};

use crate::contracts::{is_of_one_type, is_right_sort};
use crate::legs::is_used;
use crate::line::LineInBook;
use denials::sheet::{LegFault, LineFault};
use terms::strategy::Leg;

/// A fault, unless something is so.
pub(crate) fn deny_unless<F: Drop>(right: bool, fault: F) -> Result<(), F>
    ensures { result ≡ unless right fault }
{
    right.then_some(()).ok_or(fault)
}

impl LineInBook<'_> {
    pub(crate) fn is_wrong_sort(self, i: usize, leg: Leg) -> bool
        ensures { let line = self.entry.line.now in result ≡ wrong_sort line.kind line.legs self.entry.listings.rows.now i leg }
    {
        !is_right_sort(self.line.kind, self.lead(), i, self.contract(leg))
    }

    pub(crate) fn is_other_security(self, leg: Leg) -> bool
        ensures { result ≡ other_security self.entry.line.now.legs self.entry.listings.rows.now leg }
    {
        self.row(leg).security != self.row(self.leg(0)).security
    }

    pub(crate) fn ends_too_early(self, i: usize, leg: Leg) -> bool
        ensures { let line = self.entry.line.now in result ≡ ends_too_early line.kind line.legs self.entry.listings.rows.now i leg }
    {
        is_of_one_type(self.line.kind)
            && !self.line.kind.writes(i)
            && self.ends_before_written(self.contract(leg))
    }

    /// Denies the first used leg that has the fault, by the test of it.
    #[tactic(auto, using(std::proofs::lemmas::List::at_drop_all))]
    pub(crate) fn check_legs<F: Fn(usize, Leg) -> bool>(
        self,
        fault: LegFault,
        has_fault: F,
    ) -> Result<(), LineFault>
        requires callable { F.IsAlwaysCallable has_fault }
        requires tests { let line = self.line.now in (i : ℕ) (b : Bool) → i < length line.legs → F.post has_fault i (leg_at line.legs i) b → b ≡ at_fault fault line.kind line.legs self.listings.rows.now i (leg_at line.legs i) }
        ensures { let line = self.entry.line.now in result ≡ legs_checked fault line.kind line.legs self.entry.listings.rows.now }
    {
        // A slice, as the proof reads its length, and not an array's behind a reference.
        let legs: &[Leg] = &self.line.legs;
        // Stays: the product prescribes the loop over the legs, and the place added by `?`.
        for (i, leg) in legs.iter().enumerate() {
            let wrong = is_used(*leg) && has_fault(i, *leg);
            deny_unless(!wrong, fault).map_err(|fault| (i as u64, fault))?;
        }
        Ok(())
    }
}
