// Why a text was not read, or a sheet not written.
ghost use Rattle.std.specs.Prelude.{Some};
ghost use Rattle.sheet_text.specs.Faults.{fault_layer, fault_number, fault_place, fault_text};

use std::fmt;
use terms::denial::{Denial, Layer, Place};

/// The fault of a text or of a sheet; `at` counts the text's bytes from 0.
#[derive(Clone, Copy, PartialEq, Eq, Debug)]
pub enum TextFault {
    DayOutsideLimits,
    LegOutsideFormat { line: u64, leg: u64 },
    TooManyLines { limit: u64 },
    BufferTooShort { needed: u64 },
    BrokenRecord { at: u64 },
    UnknownLetter { at: u64 },
    IllFormed { at: u64 },
    OutOfTurn { at: u64 },
    Differs { at: u64 },
}

impl Denial for TextFault {
    ghost layer_of = { fault_layer };

    ghost number_of = { fault_number };

    ghost place_of = { fault_place };

    fn layer(&self) -> Layer {
        Layer::Text
    }

    // Stays: numbers, since the product numbers its denials.
    fn number(&self) -> u64 {
        match self {
            TextFault::DayOutsideLimits | TextFault::LegOutsideFormat { .. } => 2,
            TextFault::TooManyLines { .. } | TextFault::BufferTooShort { .. } => 4,
            TextFault::BrokenRecord { .. } => 20,
            TextFault::UnknownLetter { .. } => 21,
            TextFault::IllFormed { .. } => 22,
            TextFault::OutOfTurn { .. } => 23,
            TextFault::Differs { .. } => 24,
        }
    }

    fn place(&self) -> Place {
        match *self {
            TextFault::DayOutsideLimits => Place::Number(0),
            TextFault::LegOutsideFormat { line, leg } => Place::Leg { line, leg },
            TextFault::TooManyLines { limit } => Place::Number(limit),
            TextFault::BufferTooShort { needed } => Place::Number(needed),
            TextFault::BrokenRecord { at }
            | TextFault::UnknownLetter { at }
            | TextFault::IllFormed { at }
            | TextFault::OutOfTurn { at }
            | TextFault::Differs { at } => Place::Number(at),
        }
    }
}

impl fmt::Display for TextFault {
    ghost output = { λ fault. Some (fault_text fault) };

    fn fmt<W: fmt::Write>(&self, f: &mut fmt::Formatter<W>) -> fmt::Result {
        match self {
            TextFault::DayOutsideLimits => write!(f, "the day is outside 1 to 1000000"),
            TextFault::LegOutsideFormat { line, leg } => write!(
                f,
                "leg {leg} of line {line} does not fit its columns"
            ),
            TextFault::TooManyLines { limit } => write!(f, "there is room for {limit} lines"),
            TextFault::BufferTooShort { needed } => write!(f, "the text needs {needed} bytes"),
            TextFault::BrokenRecord { at } => write!(
                f,
                "the record at byte {at} is shorter than 38 bytes or lacks its line feed"
            ),
            TextFault::UnknownLetter { at } => write!(f, "the letter at byte {at} is of no record"),
            TextFault::IllFormed { at } => write!(f, "the field at byte {at} is ill-formed"),
            TextFault::OutOfTurn { at } => write!(f, "the text is out of turn at byte {at}"),
            TextFault::Differs { at } => write!(
                f,
                "the number at byte {at} is not the expected one"
            ),
        }
    }
}
