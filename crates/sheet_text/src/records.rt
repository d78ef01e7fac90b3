// A record of a text, cut into its fields.
ghost use Rattle.std.specs.Prelude.{◌≡◌, ◌≤◌, length};
ghost use Rattle.std.specs.List.{between};
ghost use Rattle.sheet_text.specs.Records.{record_of, shape_ok, WideOk};

use crate::fault::TextFault;
use crate::letters::{Sort, sort_of};
use terms::strategy::Kind;

/// How many bytes a record has.
pub(super) const RECORD: usize = 38;

/// Where its line feed stands.
pub(super) const LINE_FEED: usize = 37;

/// The fields of a head or a trailer, as parts of the text.
#[derive(Clone, Copy)]
pub(super) struct Count<'a> {
    pub(super) number: &'a [u8],
    pub(super) spaces: &'a [u8],
}

/// A record, by its fields.
#[derive(Clone, Copy)]
pub(super) enum Record<'a> {
    Head(Count<'a>),
    // Stays: four parts, since the check covers no array of references in a case of an enum.
    Strategy(Kind, &'a [u8], &'a [u8], &'a [u8], &'a [u8]),
    Trailer(Count<'a>),
}

/// The fields of a whole head or trailer.
fn count_of(text: &[u8]) -> Count<'_>
    requires { 38 ≤ length text.now }
    ensures number { result.number.now ≡ between 1 9 text.now }
    ensures spaces { result.spaces.now ≡ between 9 37 text.now }
    ensures wide { (length result.number.now ≡ 8) × (length result.spaces.now ≡ 28) }
{
    Count {
        number: &text[1..9],
        spaces: &text[9..37],
    }
}

/// The record at the front of `text`, of which `at` bytes are read.
pub(super) fn record_of(text: &[u8], at: u64) -> Result<Record<'_>, TextFault>
    ensures shape { shape_ok result ≡ record_of at text.now }
    ensures wide { WideOk result }
{
    if text.len() < RECORD || text[LINE_FEED] != b'\n' {
        return Err(TextFault::BrokenRecord { at });
    }
    match sort_of(char::from(text[0])).ok_or(TextFault::UnknownLetter { at })? {
        Sort::Head => Ok(Record::Head(count_of(text))),
        Sort::Strategy(kind) => Ok(Record::Strategy(
            kind,
            &text[1..10],
            &text[10..19],
            &text[19..28],
            &text[28..37],
        )),
        Sort::Trailer => Ok(Record::Trailer(count_of(text))),
    }
}
