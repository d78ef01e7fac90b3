// What makes a strategy line lawful.
#![tactic(auto)]

ghost use Rattle.std.specs.Prelude.{◌≡◌};
ghost use Rattle.rules.specs.Rules.{rules_checked, line_checked, sheet_checked};
ghost use Rattle.rules.specs.Lawful.{PassesLawful, PassesAllLawful};

use crate::faults::deny_unless;
use crate::line::LineInBook;
use denials::sheet::{LegFault, LineFault, SheetFault};
use terms::listings::Listings;
use terms::strategy::Line;

mod classes;
mod contracts;
mod faults;
mod figures;
mod legs;
mod line;

impl LineInBook<'_> {
    /// Tests the rules in their order, and tells the first that the line breaks.
    fn check_rules(self) -> Result<(), LineFault>
        ensures { let line = self.entry.line.now in result ≡ rules_checked line.kind line.legs self.entry.listings.rows.now self.entry.listings.securities.now }
    {
        let rows = self.listings.rows.len();
        self.check_legs(LegFault::NoSuchRow, |_, leg| leg.row as usize >= rows)?;
        deny_unless(self.has_right_count(), LineFault::LegCount)?;
        self.check_legs(LegFault::WrongSort, |i, leg| self.is_wrong_sort(i, leg))?;
        self.check_legs(LegFault::RowUsedTwice, |i, leg| self.is_used_before(i, leg))?;
        self.check_legs(
            LegFault::OtherSecurity,
            |_, leg| self.is_other_security(leg),
        )?;
        deny_unless(self.has_right_class(), LineFault::ClassNotAdmitted)?;
        deny_unless(self.has_right_lots(), LineFault::LotsDoNotMatch)?;
        self.check_legs(LegFault::EndsTooEarly, |i, leg| self.ends_too_early(i, leg))?;
        deny_unless(self.has_right_strikes(), LineFault::StrikesBreakRule)
    }
}

/// Tells the first rule that a line breaks.
pub fn check_line(line: &Line, listings: Listings<'_>) -> Result<(), LineFault>
    ensures value { result ≡ line_checked listings.entry.rows.now listings.entry.securities.now line.now }
    ensures lawful { PassesLawful listings.entry.rows.now listings.entry.securities.now line.now result }
{
    LineInBook { line, listings }.check_rules()
}

/// Tests the lines of a sheet in turn, and tells the first that breaks a rule.
#[tactic(auto, using(std::proofs::lemmas::List::at_drop_all))]
pub fn check_lines(sheet: &[Line], listings: Listings<'_>) -> Result<(), SheetFault>
    ensures value { result ≡ sheet_checked listings.entry.rows.now listings.entry.securities.now sheet.now }
    ensures lawful { PassesAllLawful listings.entry.rows.now listings.entry.securities.now sheet.now result }
{
    // Stays: the product prescribes the loop over the lines, and the place added by `?`.
    for (i, line) in sheet.iter().enumerate() {
        check_line(line, listings).map_err(|fault| (i as u64, fault))?;
    }
    Ok(())
}
