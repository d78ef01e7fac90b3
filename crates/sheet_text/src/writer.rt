// Writing the text of a sheet.
ghost use Rattle.std.specs.Prelude.{◌≡◌, ◌+◌, ◌*◌, ◌≤◌, [], ◌∷◌, ◌++◌, length, drop, replicate};
ghost use Rattle.sheet_text.specs.Columns.{column};
ghost use Rattle.sheet_text.specs.Sheet.{leg_text, line_text, render};
ghost use Rattle.sheet_text.specs.Writing.{leg_fits, unfit, fit_of_lines, AllFit, Judged, writes, WriteIs};
ghost use Rattle.sheet_text.specs.Laws.{Back, Unique};

use crate::fault::TextFault;
use crate::fields::put_field;
use crate::letters::letter_of;
use crate::records::{LINE_FEED, RECORD};
use terms::limits::{Day, HasLimits, MAX_LINES};
use terms::strategy::{Leg, Line};

/// How many columns a leg has.
const LEG: usize = 9;

/// The most that a leg's columns can show.
const MAX_ROW: u32 = 999;

const MAX_LOTS: u32 = 999_999;

/// A head or a trailer: its letter and its number.
fn put_count(out: &mut [u8], letter: u8, n: u32)
    requires { length out.old ≡ 38 }
    ensures { out.new ≡ letter ∷ (column 8 n ++ (replicate 28 32 ++ (10 ∷ []))) }
{
    out[0] = letter;
    put_field(&mut out[1..9], n);
    out[9..37].fill(b' ');
    out[LINE_FEED] = b'\n';
}

/// A leg in its nine columns.
fn put_leg(out: &mut [u8], leg: Leg)
    requires { length out.old ≡ 9 }
    ensures { out.new ≡ leg_text leg }
{
    if leg.lots == 0 {
        out.fill(b' ');
    } else {
        put_field(&mut out[0..3], leg.row);
        put_field(&mut out[3..9], leg.lots);
    }
}

/// A strategy: its letter and its legs.
fn put_line(out: &mut [u8], line: &Line)
    requires { length out.old ≡ 38 }
    ensures { out.new ≡ line_text line.now }
{
    out[0] = letter_of(line.kind);
    let legs: &[Leg] = &line.legs;
    // Stays: places from an index. Tried with `chunks_exact_mut` and `zip`: what `out` holds afterwards stayed open; its length alone is known.
    for (j, leg) in legs.iter().enumerate() {
        let at = 1 + LEG * j;
        put_leg(&mut out[at..at + LEG], *leg);
    }
    out[LINE_FEED] = b'\n';
}

/// Writes a text for which there is room.
fn put_all(day: u32, lines: &[Line], out: &mut [u8])
    requires { (length lines.now ≤ 64) × (38 * (length lines.now + 2) ≤ length out.old) }
    ensures { out.new ≡ render day lines.now ++ drop (38 * (length lines.now + 2)) out.old }
{
    put_count(&mut out[0..RECORD], b'H', day);
    // Stays: places from an index, for the reason in `put_line`: tried here too, and the same stayed open.
    for (i, line) in lines.iter().enumerate() {
        let at = RECORD * (i + 1);
        put_line(&mut out[at..at + RECORD], line);
    }
    let at = RECORD * (lines.len() + 1);
    put_count(&mut out[at..at + RECORD], b'T', lines.len() as u32);
}

/// Whether the columns can show a leg; an unused one has row 0.
fn leg_fits(leg: Leg) -> bool
    ensures { result ≡ leg_fits leg }
{
    leg.row <= MAX_ROW && leg.lots <= MAX_LOTS && (leg.lots > 0 || leg.row == 0)
}

/// The first leg of a line that is outside its limits.
fn unfit_leg(legs: &[Leg]) -> Option<usize>
    ensures { result ≡ unfit legs.now }
{
    legs.iter().position(|leg| !leg_fits(*leg))
}

/// The first leg of all that is outside its limits.
// Stays: a `for` with `return`, the plainer: the chain ends in `find_map(..).map_or(Ok(()), Err)`, which turns a fault around twice.
fn fits(lines: &[Line]) -> Result<(), TextFault>
    ensures first { result ≡ fit_of_lines 0 lines.now }
    ensures all { AllFit result lines.now }
{
    for (i, line) in lines.iter().enumerate() {
        if let Some(j) = unfit_leg(&line.legs) {
            return Err(TextFault::LegOutsideFormat {
                line: i as u64,
                leg: j as u64,
            });
        }
    }
    Ok(())
}

/// How many bytes the text of a day's lines has, if it may be written to so much room.
fn bytes_for(day: u64, lines: &[Line], room: usize) -> Result<usize, TextFault>
    ensures answer { result ≡ writes day lines.now room }
    ensures told { Judged day lines.now room result }
{
    if !Day::contains(day) {
        return Err(TextFault::DayOutsideLimits);
    }
    fits(lines)?;
    if lines.len() > MAX_LINES {
        return Err(TextFault::TooManyLines {
            limit: MAX_LINES as u64,
        });
    }
    let needed = RECORD * (lines.len() + 2);
    if room < needed {
        return Err(TextFault::BufferTooShort {
            needed: needed as u64,
        });
    }
    Ok(needed)
}

/// Writes the text of a day's sheet, and answers how many bytes it has; on a denial the buffer stays as it was.
// Stays: the caller's buffer and a count, the product's form: nothing lies on the heap, and on a denial the buffer is untouched.
pub fn write(day: u64, lines: &[Line], out: &mut [u8]) -> Result<usize, TextFault>
    ensures exact { WriteIs day lines.now out.old out.new result }
    ensures told { Judged day lines.now (length out.old) result }
    ensures back { Back day lines.now out.new result }
    ensures unique { Unique day lines.now out.new result }
{
    let needed = bytes_for(day, lines, out.len())?;
    put_all(day as u32, lines, out);
    Ok(needed)
}
