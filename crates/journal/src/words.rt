// The words of a line, and the number that a word writes.
ghost use Rattle.std.specs.Prelude.{◌≡◌, IfOk};
ghost use Rattle.std.specs.Char.{is_ascii_digit};
ghost use Rattle.std.specs.List.{list_all};
ghost use Rattle.journal.specs.Words.{without_line_feed, words_of, Cuts, texts, number_of};

use std::alloc::{AllocError, Global};

/// The most digits that a number can have.
const MAX_DIGITS: usize = 18;

/// Why a word is not a number.
#[derive(Clone, Copy, PartialEq, Eq, Debug)]
pub enum NotNumber {
    NotDigits,
    TooManyDigits,
}

/// A line without its line feed, where it ends with one.
pub fn without_line_feed(line: &[u8]) -> &[u8]
    ensures { result.now ≡ without_line_feed line.now }
{
    line.strip_suffix(b"\n").unwrap_or(line)
}

/// The words of a line: its longest runs of bytes other than spaces.
pub fn words<'a>(heap: Global, line: &'a [u8]) -> Result<Vec<&'a [u8]>, AllocError>
    ensures value { IfOk result (λ v. texts v.items ≡ words_of line.now) }
    ensures cuts { IfOk result (λ v. Cuts (texts v.items) line.now) }
{
    line.split(|b| *b == b' ')
        .filter(|word| !word.is_empty())
        .collect(heap)
}

/// The number that 1 to 18 decimal digits write.
pub fn number(word: &[u8]) -> Result<u64, NotNumber>
    ensures { result ≡ number_of word.now }
{
    if word.is_empty() || !all_digits(word) {
        return Err(NotNumber::NotDigits);
    }
    if word.len() > MAX_DIGITS {
        return Err(NotNumber::TooManyDigits);
    }
    let mut n = 0;
    // Stays: a loop; `parse` reads a word as text first, and commands of numbers took a third longer.
    for digit in word {
        n = n * 10 + u64::from(*digit - b'0');
    }
    Ok(n)
}

fn all_digits(word: &[u8]) -> bool
    ensures { result ≡ list_all is_ascii_digit word.now }
{
    word.iter().all(|b| b.is_ascii_digit())
}
