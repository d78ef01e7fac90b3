// Reading a text: record after record, each by what may come next.
ghost use Rattle.std.specs.Prelude.{◌≡◌, ◌+◌, ◌*◌, ◌^◌, ◌<◌, ◌≤◌, [], min, length, IfOk};
ghost use Rattle.arrayvec.specs.ArrayVec.{array_vec_len};
ghost use Rattle.terms.specs.Limits.{most_lines};
ghost use Rattle.sheet_text.specs.Columns.{blank, field_of};
ghost use Rattle.sheet_text.specs.Records.{strategy, part, shape_of, Wide};
ghost use Rattle.sheet_text.specs.Reading.{leg_of, line_of, count_is, taken, turned, step_of, ended, ReadIs};
ghost use Rattle.sheet_text.specs.declared.reader.State.TheVariants.{Head};
ghost use Rattle.sheet_text.specs.Laws.{Accepted, Refused, Again};
ghost use Rattle.sheet_text.specs.Told.{Told};

use crate::fault::TextFault;
use crate::fields::{is_blank, parse_field};
use crate::records::{Count, RECORD, Record, record_of};
use arrayvec::ArrayVec;
use terms::limits::{Day, HasLimits, MAX_LINES};
use terms::strategy::{Kind, Leg, Line};

/// What may come next.
#[derive(Clone, Copy)]
enum State {
    Head,
    Strategies,
    End,
}

/// A leg's nine columns, which stand at `at`.
fn leg_of(field: &[u8], at: u64) -> Result<Leg, TextFault>
    requires { (length field.now ≡ 9) × (at + 3 < 2 ^ 64) }
    ensures { result ≡ leg_of at field.now }
{
    if is_blank(field) {
        return Ok(Leg::default());
    }
    let row = parse_field(&field[0..3]).ok_or(TextFault::IllFormed { at })?;
    let lots = parse_field(&field[3..9])
        .filter(|lots| *lots > 0)
        .ok_or(TextFault::IllFormed { at: at + 3 })?;
    Ok(Leg { row, lots })
}

/// A reading of a text: what the text is held to, and how far it is read.
#[derive(Drop)]
struct Reader {
    day: u64,
    room: usize,
    at: u64,
    state: State,
    found: ArrayVec<Line, MAX_LINES>,
    ghost within: { (array_vec_len found ≤ room) × (room ≤ most_lines) },
    ghost short: { at ≤ 38 * taken state (array_vec_len found) },
}

impl Reader {
    ghost use Rattle.sheet_text.specs.Readers.{found_lines, answered, Goes};

    /// Before the first record, with room for as many lines as there are entries.
    fn new(day: u64, entries: usize) -> Reader
        ensures held { (result.day ≡ day) × (result.room ≡ min entries most_lines) }
        ensures front { (result.at ≡ 0) × (result.state ≡ Head) × (found_lines result ≡ []) }
    {
        Reader {
            day,
            room: entries.min(MAX_LINES),
            at: 0,
            state: State::Head,
            found: ArrayVec::new(),
        }
    }

    /// The strategy of the record that is read.
    fn line_of(&self, kind: Kind, legs: [&[u8]; 4]) -> Result<Line, TextFault>
        requires { Wide (strategy kind (part legs 0) (part legs 1) (part legs 2) (part legs 3)) }
        ensures { result ≡ line_of self.now.at kind (part legs.entry 0) (part legs.entry 1) (part legs.entry 2) (part legs.entry 3) }
    {
        let [first, second, third, fourth] = legs;
        // Stays: four calls, since a chain that stops at the first fault would have to fill an array as it goes.
        Ok(Line {
            kind,
            legs: [
                leg_of(first, self.at + 1)?,
                leg_of(second, self.at + 10)?,
                leg_of(third, self.at + 19)?,
                leg_of(fourth, self.at + 28)?,
            ],
        })
    }

    /// Whether the number of a head or a trailer is the expected one, and spaces follow.
    fn count_is(&self, count: Count<'_>, expected: u64) -> Result<(), TextFault>
        requires { length count.number.now ≡ 8 }
        ensures { result ≡ count_is self.now.at expected (field_of count.entry.number.now) (blank count.entry.spaces.now) tt }
    {
        let at = self.at;
        let number = parse_field(count.number).ok_or(TextFault::IllFormed { at: at + 1 })?;
        if !is_blank(count.spaces) {
            return Err(TextFault::IllFormed { at: at + 9 });
        }
        (u64::from(number) == expected)
            .then_some(())
            .ok_or(TextFault::Differs { at: at + 1 })
    }

    /// Takes a record's fields, where such a record may come next.
    fn turn(&mut self, came: Record<'_>) -> Result<(), TextFault>
        requires { Wide (shape_of came) }
        ensures { Goes self.old self.new (turned self.old.day self.old.room (length (found_lines self.old)) self.old.at self.old.state (shape_of came.entry)) result }
    {
        match (self.state, came) {
            (State::Head, Record::Head(count)) => {
                self.count_is(count, self.day)?;
                self.state = State::Strategies;
            }
            (State::Strategies, Record::Strategy(kind, first, second, third, fourth)) => {
                if self.found.len() == self.room {
                    return Err(TextFault::TooManyLines {
                        limit: self.room as u64,
                    });
                }
                let line = self.line_of(kind, [first, second, third, fourth])?;
                self.found.push(line);
            }
            (State::Strategies, Record::Trailer(count)) => {
                self.count_is(count, self.found.len() as u64)?;
                self.state = State::End;
            }
            _ => return Err(TextFault::OutOfTurn { at: self.at }),
        }
        self.at += RECORD as u64;
        Ok(())
    }

    /// Reads the record that comes next.
    fn take(&mut self, bytes: &[u8]) -> Result<(), TextFault>
        ensures { Goes self.old self.new (step_of self.old.day self.old.room (length (found_lines self.old)) self.old.at self.old.state bytes.now) result }
    {
        self.turn(record_of(bytes, self.at)?)
    }

    /// The lines, where the trailer was the last record.
    fn lines(&self) -> Result<&[Line], TextFault>
        ensures lines { answered result ≡ ended self.now.state self.now.at (found_lines self.now) }
        ensures few { IfOk result (λ lines. length lines.now ≤ self.now.room) }
    {
        match self.state {
            State::End => Ok(self.found.as_slice()),
            _ => Err(TextFault::OutOfTurn { at: self.at }),
        }
    }
}

/// Reads the text of a day's sheet into the list, and answers how many lines it has; on a denial the list stays as it was.
// Stays: the caller's list and a count, the product's form: nothing lies on the heap, and on a denial the list is untouched.
pub fn read(text: &[u8], day: u64, list: &mut [Line]) -> Result<usize, TextFault>
    ensures exact { ReadIs day text.now list.old list.new result }
    ensures accepted { Accepted day text.now list.old list.new result }
    ensures refused { Refused day text.now list.old list.new result }
    ensures again { Again day text.now list.new result }
    ensures told { Told day text.now list.old result }
{
    if !Day::contains(day) {
        return Err(TextFault::DayOutsideLimits);
    }
    let mut reader = Reader::new(day, list.len());
    for piece in text.chunks(RECORD) {
        reader.take(piece)?;
    }
    let lines = reader.lines()?;
    list[0..lines.len()].copy_from_slice(lines);
    Ok(lines.len())
}
