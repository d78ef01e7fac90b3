// Sheets that stand in files: reading one, and writing it out again.
ghost use Rattle.std.specs.Prelude.{◌≡◌, length, Ok};
ghost use Rattle.sheet_text.specs.Sheet.{render};
ghost use Rattle.sheet_text.specs.Writing.{writes};
ghost use Rattle.desk.specs.Sheets.{ShowsOr};
ghost use Rattle.desk.specs.Answers.{contents, Checks, Copies};

use journal::answer::{Answer, Refusal, Reply};
use sheet_text::reader::read;
use sheet_text::writer::write;
use std::alloc::Global;
use terms::limits::MAX_LINES;
use terms::strategy::Line;

/// How many lines the file has as a sheet of the day, or why it is none.
pub(super) fn check(day: u64, file: Option<Vec<u8>>) -> Result<Reply, Refusal>
    ensures { Checks day (contents file) result }
{
    let text = file.ok_or(Refusal::NoFile)?;
    let mut list = [Line::default(); MAX_LINES];
    let count = read(text.as_slice(), day, &mut list)?;
    Ok(Reply::Line(Answer::Read(count as u64)))
}

/// The file as it is written again after it was read, or why it is no sheet of the day.
pub(super) fn copy(heap: Global, day: u64, file: Option<Vec<u8>>) -> Result<Reply, Refusal>
    ensures { Copies day (contents file) result }
{
    let text = file.ok_or(Refusal::NoFile)?;
    let mut list = [Line::default(); MAX_LINES];
    let count = read(text.as_slice(), day, &mut list)?;
    write_again(heap, day, &list[..count], text.as_slice())
}

/// The text of lines that were read from it.
fn write_again(heap: Global, day: u64, lines: &[Line], text: &[u8]) -> Result<Reply, Refusal>
    requires written { writes day lines.now (length text.now) ≡ Ok (length text.now) }
    requires same { render day lines.now ≡ text.now }
    ensures { ShowsOr text.now result }
{
    let mut again = vec![in heap; 0u8; text.len()]?;
    write(day, lines, again.as_mut_slice()).unwrap();
    Ok(Reply::Sheet(again))
}
