// Why a sheet was not posted: the fault, and where in the sheet it stands.
ghost use Rattle.std.specs.Prelude.{◌≡◌, Some};
ghost use Rattle.denials.specs.Sheet.{leg_number, line_number, sheet_number, faulty_leg, sheet_layer, sheet_place, leg_text, sheet_fault_text};
ghost use Rattle.denials.specs.declared.sheet.LineFault.TheVariants as line;
ghost use Rattle.denials.specs.declared.sheet.SheetFault.TheVariants as sheet;

use std::fmt;
use terms::denial::{Denial, Layer, Place};

/// What is wrong with one leg of a line.
#[derive(Clone, Copy, PartialEq, Eq, Debug)]
pub enum LegFault {
    NoSuchRow,
    WrongSort,
    RowUsedTwice,
    OtherSecurity,
    EndsTooEarly,
}

/// What is wrong with a line: the line as a whole, or one of its legs.
#[derive(Clone, Copy, PartialEq, Eq, Debug)]
pub enum LineFault {
    LegCount,
    ClassNotAdmitted,
    LotsDoNotMatch,
    StrikesBreakRule,
    Leg { leg: u64, fault: LegFault },
}

/// What is wrong with a sheet: one of its lines, or a row of which it asks more lots than there are.
#[derive(Clone, Copy, PartialEq, Eq, Debug)]
pub enum SheetFault {
    Line { line: u64, fault: LineFault },
    Overdrawn { row: u64 },
}

impl From<(u64, LegFault)> for LineFault {
    ghost from_gives = { λ at r. r ≡ line.Leg at.0 at.1 };

    fn from(at: (u64, LegFault)) -> LineFault {
        let (leg, fault) = at;
        LineFault::Leg { leg, fault }
    }
}

impl From<(u64, LineFault)> for SheetFault {
    ghost from_gives = { λ at r. r ≡ sheet.Line at.0 at.1 };

    fn from(at: (u64, LineFault)) -> SheetFault {
        let (line, fault) = at;
        SheetFault::Line { line, fault }
    }
}

impl LegFault {
    // Stays: the product numbers its denials.
    fn number(self) -> u64
        ensures { result ≡ leg_number self }
    {
        match self {
            LegFault::NoSuchRow => 3,
            LegFault::WrongSort => 10,
            LegFault::RowUsedTwice => 11,
            LegFault::OtherSecurity => 12,
            LegFault::EndsTooEarly => 15,
        }
    }
}

impl LineFault {
    // Stays: the product numbers its denials.
    fn number(self) -> u64
        ensures { result ≡ line_number self }
    {
        match self {
            LineFault::LegCount => 9,
            LineFault::ClassNotAdmitted => 13,
            LineFault::LotsDoNotMatch => 14,
            LineFault::StrikesBreakRule => 16,
            LineFault::Leg { fault, .. } => fault.number(),
        }
    }

    /// The leg at fault: a fault of the whole line goes by its first.
    fn leg(self) -> u64
        ensures { result ≡ faulty_leg self }
    {
        match self {
            LineFault::Leg { leg, .. } => leg,
            _ => 0,
        }
    }
}

impl Denial for SheetFault {
    ghost layer_of = { sheet_layer };

    ghost number_of = { sheet_number };

    ghost place_of = { sheet_place };

    fn layer(&self) -> Layer {
        Layer::Sheet
    }

    // Stays: the product numbers its denials.
    fn number(&self) -> u64 {
        match *self {
            SheetFault::Line { fault, .. } => fault.number(),
            SheetFault::Overdrawn { .. } => 17,
        }
    }

    fn place(&self) -> Place {
        match *self {
            SheetFault::Line { line, fault } => Place::Leg {
                line,
                leg: fault.leg(),
            },
            SheetFault::Overdrawn { row } => Place::Number(row),
        }
    }
}

impl fmt::Display for LegFault {
    ghost output = { λ fault. Some (leg_text fault) };

    fn fmt<W: fmt::Write>(&self, f: &mut fmt::Formatter<W>) -> fmt::Result {
        match self {
            LegFault::NoSuchRow => write!(f, "names a row that is not listed"),
            LegFault::WrongSort => write!(f, "is not of the sort that the line's kind names"),
            LegFault::RowUsedTwice => write!(f, "uses a row that an earlier leg uses"),
            LegFault::OtherSecurity => write!(f, "is on another security than leg 0"),
            LegFault::EndsTooEarly => write!(f, "ends before a written leg"),
        }
    }
}

impl fmt::Display for SheetFault {
    ghost output = { λ fault. Some (sheet_fault_text fault) };

    fn fmt<W: fmt::Write>(&self, f: &mut fmt::Formatter<W>) -> fmt::Result {
        match self {
            SheetFault::Line { line, fault } => match fault {
                LineFault::LegCount => write!(
                    f,
                    "line {line} has too few, too many or misplaced legs"
                ),
                LineFault::ClassNotAdmitted => write!(
                    f,
                    "the class of line {line}'s security does not admit its kind"
                ),
                LineFault::LotsDoNotMatch => write!(f, "the lots of line {line} do not match"),
                LineFault::StrikesBreakRule => write!(
                    f,
                    "the strikes of line {line} break the rule of its kind"
                ),
                LineFault::Leg { leg, fault } => write!(f, "leg {leg} of line {line} {fault}"),
            },
            SheetFault::Overdrawn { row } => write!(
                f,
                "the sheet asks more lots of row {row} than its net has"
            ),
        }
    }
}
