// The answers to a journal's commands, and how each is written.
ghost use Rattle.std.specs.Prelude.{◌≡◌, Some};
ghost use Rattle.journal.specs.declared.fault.Fault.TheVariants as denial;
ghost use Rattle.journal.specs.declared.answer.Refusal.TheVariants as refusal;
ghost use Rattle.journal.specs.Answers.{unreadable_text, answer_text, refusal_text, refusal_of};

use crate::command::{ReadError, Unreadable};
use crate::fault::Fault;
use rates::surcharge::PercentageAbove100;
use sheet_text::fault::TextFault;
use std::alloc::AllocError;
use std::fmt;
use terms::denial::Denial;

/// The answer to a command, in one line.
#[derive(Clone, Copy, PartialEq, Eq, Debug)]
pub enum Answer {
    Done,
    Rate(Option<u64>),
    Read(u64),
}

/// The answer to a command: a line, or the records of a sheet.
#[derive(Drop)]
pub enum Reply {
    Line(Answer),
    Sheet(Vec<u8>),
}

/// Why a command is not carried out.
#[derive(Clone, Copy, PartialEq, Eq, Debug)]
pub enum Refusal {
    Denied(Fault),
    Unreadable(Unreadable),
    NoFile,
    NoMemory,
}

impl From<PercentageAbove100> for Refusal {
    ghost from_gives = { λ fault r. r ≡ refusal.Denied (denial.Surcharge fault) };

    fn from(fault: PercentageAbove100) -> Refusal {
        Refusal::Denied(Fault::Surcharge(fault))
    }
}

impl From<TextFault> for Refusal {
    ghost from_gives = { λ fault r. r ≡ refusal.Denied (denial.Text fault) };

    fn from(fault: TextFault) -> Refusal {
        Refusal::Denied(Fault::Text(fault))
    }
}

impl From<ReadError> for Refusal {
    ghost from_gives = { λ error r. r ≡ refusal_of error };

    fn from(error: ReadError) -> Refusal {
        match error {
            ReadError::NoMemory => Refusal::NoMemory,
            ReadError::Unreadable(fault) => Refusal::Unreadable(fault),
        }
    }
}

impl From<AllocError> for Refusal {
    ghost from_gives = { λ _ r. r ≡ refusal.NoMemory };

    fn from(_error: AllocError) -> Refusal {
        Refusal::NoMemory
    }
}

impl fmt::Display for Unreadable {
    ghost output = { λ fault. Some (unreadable_text fault) };

    fn fmt<W: fmt::Write>(&self, f: &mut fmt::Formatter<W>) -> fmt::Result {
        match self {
            Unreadable::UnknownCommand => write!(f, "unknown command"),
            Unreadable::WordCount => write!(f, "wrong count of words"),
            Unreadable::NoSuchRates => write!(f, "rates are scale or list"),
            Unreadable::NotNumber { word } => write!(f, "word {word} is not a number"),
            Unreadable::TooManyDigits { word } => write!(f, "word {word} has more than 18 digits"),
            Unreadable::NotOptionType { word } => write!(f, "word {word} is neither call nor put"),
        }
    }
}

impl fmt::Display for Answer {
    ghost output = { λ answer. Some (answer_text answer) };

    fn fmt<W: fmt::Write>(&self, f: &mut fmt::Formatter<W>) -> fmt::Result {
        match self {
            Answer::Done => write!(f, "ok"),
            Answer::Rate(Some(amount)) => write!(f, "rate {amount}"),
            Answer::Rate(None) => write!(f, "no rate"),
            Answer::Read(count) => write!(f, "read {count}"),
        }
    }
}

impl fmt::Display for Refusal {
    ghost output = { λ r. Some (refusal_text r) };

    fn fmt<W: fmt::Write>(&self, f: &mut fmt::Formatter<W>) -> fmt::Result {
        match self {
            Refusal::Denied(fault) => {
                let layer = fault.layer();
                let number = fault.number();
                let place = fault.place();
                write!(f, "denied {layer} {number}{place}: {fault}")
            }
            Refusal::Unreadable(fault) => write!(f, "error: {fault}"),
            Refusal::NoFile => write!(f, "error: the file cannot be opened"),
            Refusal::NoMemory => write!(f, "error: out of memory"),
        }
    }
}
