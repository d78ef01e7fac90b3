// Why a call on a book was denied: the fault, and the argument, the security or the row that it lies in.
ghost use Rattle.std.specs.Prelude.{◌≡◌, Some};
ghost use Rattle.denials.specs.Book.{book_layer, book_number, book_place, limits_text, book_text};
ghost use Rattle.denials.specs.declared.book.BookFault.TheVariants as book;

use crate::sheet::SheetFault;
use std::fmt;
use terms::denial::{Denial, Layer, Place};
use terms::limits::{ROWS, SECURITIES};

/// A figure that a call on a book is given.
#[derive(Clone, Copy, PartialEq, Eq, Debug)]
pub enum Figure {
    BookNumber,
    Day,
    LotSize,
    ClosingPrice,
    Strike,
    LastDay,
    Premium,
    TermPrice,
    Guarantee,
    Lots,
    NextDay,
}

/// Why a call on a book was denied.
#[derive(Clone, Copy, PartialEq, Eq, Debug)]
pub enum BookFault {
    /// The slip's book, day or stage is not the book's.
    Stale,
    /// An argument is outside its limits; it goes by its position, from 0.
    OutOfLimits { position: u64, figure: Figure },
    NoSuchSecurity { security: u64 },
    NoSuchRow { row: u64 },
    /// The row is not listed, or is no option series.
    NoSuchSeries { row: u64 },
    SecuritiesFull,
    RowsFull,
    /// In listing: the last day is today or past.
    LastDayPast,
    /// In trading: the row's last day is today or past.
    RowEnds { row: u64 },
    /// The row is equal to the one that was to be listed.
    AlreadyListed { row: u64 },
    NetTooFar { row: u64 },
    DepositBelowZero { row: u64 },
    /// A fault of the sheet, handed on whole.
    Sheet(SheetFault),
}

impl From<SheetFault> for BookFault {
    ghost from_gives = { λ fault r. r ≡ book.Sheet fault };

    fn from(fault: SheetFault) -> BookFault {
        BookFault::Sheet(fault)
    }
}

impl Denial for BookFault {
    ghost layer_of = { book_layer };

    ghost number_of = { book_number };

    ghost place_of = { book_place };

    fn layer(&self) -> Layer {
        match self {
            BookFault::Sheet(fault) => fault.layer(),
            _ => Layer::Book,
        }
    }

    // Stays: the product numbers its denials.
    fn number(&self) -> u64 {
        match self {
            BookFault::Stale => 1,
            BookFault::OutOfLimits { .. } => 2,
            BookFault::NoSuchSecurity { .. }
            | BookFault::NoSuchRow { .. }
            | BookFault::NoSuchSeries { .. } => 3,
            BookFault::SecuritiesFull | BookFault::RowsFull => 4,
            BookFault::LastDayPast | BookFault::RowEnds { .. } => 5,
            BookFault::AlreadyListed { .. } => 6,
            BookFault::NetTooFar { .. } => 7,
            BookFault::DepositBelowZero { .. } => 8,
            BookFault::Sheet(fault) => fault.number(),
        }
    }

    fn place(&self) -> Place {
        match *self {
            BookFault::Stale | BookFault::LastDayPast => Place::Nowhere,
            BookFault::OutOfLimits { position, .. } => Place::Number(position),
            BookFault::NoSuchSecurity { security } => Place::Number(security),
            BookFault::SecuritiesFull => Place::Number(SECURITIES as u64),
            BookFault::RowsFull => Place::Number(ROWS as u64),
            BookFault::NoSuchRow { row }
            | BookFault::NoSuchSeries { row }
            | BookFault::RowEnds { row }
            | BookFault::AlreadyListed { row }
            | BookFault::NetTooFar { row }
            | BookFault::DepositBelowZero { row } => Place::Number(row),
            BookFault::Sheet(fault) => fault.place(),
        }
    }
}

impl fmt::Display for Figure {
    ghost output = { λ figure. Some (limits_text figure) };

    fn fmt<W: fmt::Write>(&self, f: &mut fmt::Formatter<W>) -> fmt::Result {
        match self {
            Figure::BookNumber => write!(f, "the book's number is outside 0 to 65535"),
            Figure::Day => write!(f, "the day is outside 1 to 1000000"),
            Figure::LotSize => write!(f, "the lot size is outside 1 to 10000"),
            Figure::ClosingPrice => write!(f, "the closing price is outside 1 to 10000000"),
            Figure::Strike => write!(f, "the strike is outside 1 to 10000000"),
            Figure::LastDay => write!(f, "the last day is outside 1 to 1000000"),
            Figure::Premium => write!(f, "the premium is outside 0 to 10000000"),
            Figure::TermPrice => write!(f, "the term price is outside 1 to 10000000"),
            Figure::Guarantee => write!(f, "the guarantee is outside 0 to 1000000000000"),
            Figure::Lots => write!(f, "the lots are 0"),
            Figure::NextDay => write!(f, "the day is not after the book's day, up to 1000000"),
        }
    }
}

impl fmt::Display for BookFault {
    ghost output = { λ fault. Some (book_text fault) };

    fn fmt<W: fmt::Write>(&self, f: &mut fmt::Formatter<W>) -> fmt::Result {
        match self {
            BookFault::Stale => write!(f, "the slip is of another book, day or stage"),
            BookFault::OutOfLimits { figure, .. } => write!(f, "{figure}"),
            BookFault::NoSuchSecurity { security } => write!(f, "there is no security {security}"),
            BookFault::NoSuchRow { row } => write!(f, "there is no row {row}"),
            BookFault::NoSuchSeries { row } => write!(f, "row {row} is no option series"),
            BookFault::SecuritiesFull => write!(f, "the book has 16 securities already"),
            BookFault::RowsFull => write!(f, "the book has 64 rows already"),
            BookFault::LastDayPast => write!(f, "the last day is today or past"),
            BookFault::RowEnds { row } => write!(f, "the last day of row {row} is today or past"),
            BookFault::AlreadyListed { row } => write!(f, "row {row} lists an equal one"),
            BookFault::NetTooFar { row } => write!(f, "the net of row {row} would pass 10000 lots"),
            BookFault::DepositBelowZero { row } => write!(
                f,
                "the deposit in row {row} would fall below 0"
            ),
            BookFault::Sheet(fault) => write!(f, "{fault}"),
        }
    }
}
