// The commands of a journal, read from its lines.
ghost use Rattle.std.specs.Prelude.{◌≡◌, ◌<◌, length, vec_items, OnOk};
ghost use Rattle.std.specs.Option.{option_map};
ghost use Rattle.journal.specs.Words.{texts, number_of};
ghost use Rattle.journal.specs.declared.command.ReadError.TheVariants as read_error;
ghost use Rattle.journal.specs.Commands.{spells, has_count, number_at, numbers_from, fault_at, placed, option_of, option_at, rates_by, rates_of, surcharge_of, rate_of, sheet_file_of, order_by, is_comment, order_file, reading, heard, Tells, ordered, dated};

use crate::words::{NotNumber, number, words};
use rates::rate_book::Quote;
use std::alloc::{AllocError, AllocFailed, Global};
use terms::OptionType;
use terms::limits::SECURITIES;

/// How many words `rates scale` is.
const SCALE_WORDS: usize = 2;

/// How many words `rate ROW SECURITY call STRIKE PREMIUM CLOSE LOT` is.
const RATE_WORDS: usize = 8;

/// How many words `check DAY FILE` and `copy DAY FILE` are.
const SHEET_WORDS: usize = 3;

/// A command of the journal.
#[derive(Drop)]
pub enum Command {
    RatesScale,
    RatesList(Vec<u64>),
    Surcharge([u64; SECURITIES]),
    Rate(Quote),
    Check(SheetFile),
    Copy(SheetFile),
}

/// A file with a sheet as text, and the day that the sheet should be of.
#[derive(Drop)]
pub struct SheetFile {
    pub day: u64,
    pub file: Vec<u8>,
}

/// Why a line is no command. A word goes by its index in the line, from 0.
#[derive(Clone, Copy, PartialEq, Eq, Debug)]
pub enum Unreadable {
    UnknownCommand,
    WordCount,
    NoSuchRates,
    NotNumber { word: usize },
    TooManyDigits { word: usize },
    NotOptionType { word: usize },
}

impl From<(usize, NotNumber)> for Unreadable {
    ghost from_gives = { λ at r. r ≡ fault_at at.0 at.1 };

    fn from(at: (usize, NotNumber)) -> Unreadable {
        let (word, fault) = at;
        match fault {
            NotNumber::NotDigits => Unreadable::NotNumber { word },
            NotNumber::TooManyDigits => Unreadable::TooManyDigits { word },
        }
    }
}

/// Why a line could not be read.
#[derive(Clone, Copy, PartialEq, Eq, Debug)]
pub enum ReadError {
    NoMemory,
    Unreadable(Unreadable),
}

impl From<AllocError> for ReadError {
    ghost from_gives = { λ _ error. error ≡ read_error.NoMemory };

    fn from(_error: AllocError) -> ReadError {
        ReadError::NoMemory
    }
}

impl<T: Drop> From<AllocFailed<T>> for ReadError {
    ghost from_gives = { λ _ error. error ≡ read_error.NoMemory };

    fn from(_error: AllocFailed<T>) -> ReadError {
        ReadError::NoMemory
    }
}

impl From<Unreadable> for ReadError {
    ghost from_gives = { λ fault error. error ≡ read_error.Unreadable fault };

    fn from(fault: Unreadable) -> ReadError {
        ReadError::Unreadable(fault)
    }
}

impl Command {
    /// The name of the file that a command wants to read.
    pub fn file(&self) -> Option<&[u8]>
        ensures { option_map (λ x. x.now) result ≡ order_file (ordered self.now) }
    {
        match self {
            Command::Check(sheet) | Command::Copy(sheet) => Some(sheet.file.as_slice()),
            _ => None,
        }
    }
}

/// Reads a line, without its line feed. A line with no words, or that begins with `#`, is skipped.
pub fn read(heap: Global, line: &[u8]) -> Result<Option<Command>, ReadError>
    ensures { Tells (option_map ordered) (reading line.now) result }
{
    if line.is_empty() || is_comment(line) {
        return Ok(None);
    }
    let line = words(heap, line)?;
    let Some(verb) = line.first() else {
        return Ok(None);
    };
    command_by(heap, verb, line.as_slice()).map(Some)
}

fn is_comment(line: &[u8]) -> bool
    ensures { result ≡ is_comment line.now }
{
    line.starts_with(b"#")
}

/// The command of a line that begins with `verb`.
// Stays: a test after another, here and in `rates_by`: a `match` on text reads each word whole first, which took 1.2 times the
// instructions on `rates scale` and 1.6 times on a long word, and of a `match` on bytes the proof stayed open.
fn command_by(heap: Global, verb: &[u8], line: &[&[u8]]) -> Result<Command, ReadError>
    ensures { Tells ordered (order_by verb.now (texts line.now)) result }
{
    if is(verb, "rates") {
        rates(heap, line)
    } else if is(verb, "surcharge") {
        Ok(surcharge(line)?)
    } else if is(verb, "rate") {
        Ok(rate(line)?)
    } else if is(verb, "check") {
        Ok(Command::Check(sheet_file(heap, line)?))
    } else if is(verb, "copy") {
        Ok(Command::Copy(sheet_file(heap, line)?))
    } else {
        Err(ReadError::Unreadable(Unreadable::UnknownCommand))
    }
}

/// `rates scale`, or `rates list A B ..`.
fn rates(heap: Global, line: &[&[u8]]) -> Result<Command, ReadError>
    ensures { Tells ordered (rates_of (texts line.now)) result }
{
    if line.len() < 2 {
        return Err(ReadError::Unreadable(Unreadable::NoSuchRates));
    }
    rates_by(heap, line[1], line)
}

/// The rates of a line whose second word is `source`.
fn rates_by(heap: Global, source: &[u8], line: &[&[u8]]) -> Result<Command, ReadError>
    ensures { Tells ordered (rates_by source.now (texts line.now)) result }
{
    if is(source, "scale") {
        counted(line, SCALE_WORDS)?;
        Ok(Command::RatesScale)
    } else if is(source, "list") {
        Ok(Command::RatesList(numbers_from(heap, line, 2)?))
    } else {
        Err(ReadError::Unreadable(Unreadable::NoSuchRates))
    }
}

/// `surcharge P0 P1 ..`: 0 where none is given.
fn surcharge(line: &[&[u8]]) -> Result<Command, Unreadable>
    ensures { heard result ≡ surcharge_of (texts line.now) }
{
    let mut percentages = [0; SECURITIES];
    if line.len() > 1 + percentages.len() {
        return Err(Unreadable::WordCount);
    }
    // Stays: an index to write at, as over a zip with iter_mut an invariant cannot name what was written.
    for (k, word) in line.iter().enumerate().skip(1) {
        percentages[k - 1] = placed_number(k, word)?;
    }
    Ok(Command::Surcharge(percentages))
}

/// `rate ROW SECURITY call STRIKE PREMIUM CLOSE LOT`, or `put`.
fn rate(line: &[&[u8]]) -> Result<Command, Unreadable>
    ensures { heard result ≡ rate_of (texts line.now) }
{
    counted(line, RATE_WORDS)?;
    let row = number_at(line, 1)?;
    let security = number_at(line, 2)?;
    let option = option_at(line, 3)?;
    let strike = number_at(line, 4)?;
    let premium = number_at(line, 5)?;
    let close = number_at(line, 6)?;
    let lot = number_at(line, 7)?;
    Ok(Command::Rate(Quote {
        row,
        security,
        option,
        strike,
        premium,
        close,
        lot,
    }))
}

/// The day and the file of `check DAY FILE` and `copy DAY FILE`.
fn sheet_file(heap: Global, line: &[&[u8]]) -> Result<SheetFile, ReadError>
    ensures { Tells dated (sheet_file_of (texts line.now)) result }
{
    counted(line, SHEET_WORDS)?;
    let day = number_at(line, 1)?;
    let file = Vec::from_slice(heap, line[2])?;
    Ok(SheetFile { day, file })
}

/// The numbers from the word of index `first` on.
fn numbers_from(heap: Global, line: &[&[u8]], first: usize) -> Result<Vec<u64>, ReadError>
    ensures { Tells vec_items (numbers_from (texts line.now) first) result }
{
    let mut numbers = Vec::new(heap);
    // Stays: a `for` with `?`; with `try_collect` it stayed open what is answered where a word is no number.
    for (k, word) in line.iter().enumerate().skip(first) {
        numbers.push(placed_number(k, word)?)?;
    }
    Ok(numbers)
}

#[tactic(auto, using(crate::proofs::Lines::length_texts), unfolding(crate::specs::Commands::has_count))]
fn counted(line: &[&[u8]], count: usize) -> Result<(), Unreadable>
    ensures value { result ≡ has_count (texts line.now) count }
    ensures long { OnOk result (length line.now ≡ count) }
{
    (line.len() == count)
        .then_some(())
        .ok_or(Unreadable::WordCount)
}

#[tactic(auto, using(crate::proofs::Lines::word_at), unfolding(crate::specs::Commands::number_at))]
fn number_at(line: &[&[u8]], k: usize) -> Result<u64, Unreadable>
    requires { k < length line.now }
    ensures { result ≡ number_at (texts line.now) k }
{
    placed_number(k, line[k])
}

/// The number that a word writes, which stands at index `k`.
fn placed_number(k: usize, word: &[u8]) -> Result<u64, Unreadable>
    ensures { result ≡ placed k (number_of word.now) }
{
    Ok(number(word).map_err(|fault| (k, fault))?)
}

#[tactic(auto, using(crate::proofs::Lines::word_at), unfolding(crate::specs::Commands::option_at))]
fn option_at(line: &[&[u8]], k: usize) -> Result<OptionType, Unreadable>
    requires { k < length line.now }
    ensures { result ≡ option_at (texts line.now) k }
{
    option_of(line[k]).ok_or(Unreadable::NotOptionType { word: k })
}

// Stays: no `TryFrom`, since both types are of other crates.
#[tactic(auto, unfolding(crate::specs::Commands::spells))]
fn option_of(word: &[u8]) -> Option<OptionType>
    ensures { result ≡ option_of word.now }
{
    match word {
        b"call" => Some(OptionType::Call),
        b"put" => Some(OptionType::Put),
        _ => None,
    }
}

#[tactic(auto, unfolding(crate::specs::Commands::spells))]
fn is(word: &[u8], keyword: &str) -> bool
    ensures { result ≡ spells word.now keyword.now }
{
    word == keyword.as_bytes()
}
