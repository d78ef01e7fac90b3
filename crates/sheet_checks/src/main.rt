// Damages texts of sheets in every place, cuts them to every length, and shows what the reader answers.
#![tactic(auto)]

ghost use Rattle.std.specs.Prelude.{◌<◌};

mod limits;

use limits::{NONE, show_limits};
use sheet_text::fault::TextFault;
use sheet_text::reader::read;
use sheet_text::writer::write;
use std::alloc::Global;
use std::io::{BufWriter, Stdout, Write};
use std::{array, io, mem};
use terms::denial::Denial;
use terms::strategy::{Kind, Leg, Line};

const DAY: u64 = 12;

const TWO_LINES: usize = 152;

const LONGER: usize = 2_600;

/// What the reader answers: how many lines it read, or the denial.
type Answer = Result<usize, TextFault>;

fn answer_to(text: &[u8]) -> Answer {
    read(text, DAY, &mut [Line::default(); 64])
}

/// Places that follow one another and have one answer.
#[derive(Clone, Copy)]
struct Run {
    from: usize,
    to: usize,
    answer: Answer,
}

/// Lengthens the run by a place; or begins a new one there, and hands out the old one.
fn extend(run: &mut Option<Run>, place: usize, answer: Answer) -> Option<Run> {
    match run {
        Some(run) if run.answer == answer => {
            run.to = place;
            None
        }
        _ => run.replace(Run {
            from: place,
            to: place,
            answer,
        }),
    }
}

fn show(out: &mut BufWriter<Stdout>, what: &str, run: Option<Run>) -> io::Result<()> {
    let Some(Run { from, to, answer }) = run else {
        return Ok(());
    };
    match answer {
        Ok(count) => writeln!(out, "{what} {from} to {to}: read {count}"),
        Err(fault) => {
            let number = fault.number();
            let place = fault.place();
            writeln!(out, "{what} {from} to {to}: denied text {number}{place}")
        }
    }
}

/// Two lines with used and unused legs.
fn two_lines(text: &mut [u8]) -> Result<usize, TextFault> {
    let opposed = Line {
        kind: Kind::Opposed,
        legs: [
            Leg { row: 1, lots: 5 },
            Leg { row: 2, lots: 3 },
            NONE,
            Leg { row: 3, lots: 2 },
        ],
    };
    let covered = Line {
        kind: Kind::Covered,
        legs: [
            Leg {
                row: 63,
                lots: 999_999,
            },
            Leg { row: 0, lots: 40 },
            NONE,
            NONE,
        ],
    };
    write(DAY, &[opposed, covered], text)
}

const KINDS: [Kind; 7] = [
    Kind::Opposed,
    Kind::BoughtButterfly,
    Kind::SoldButterfly,
    Kind::SoldCone,
    Kind::Covered,
    Kind::TermPurchase,
    Kind::TermSale,
];

/// A line of a full sheet, of each kind in turn.
fn full_line(i: usize) -> Line
    requires { i < 64 }
{
    let number = i as u32;
    let first = Leg {
        row: number,
        lots: number + 1,
    };
    let second = Leg {
        row: 63 - number,
        lots: 1_000 * (number + 1),
    };
    Line {
        kind: KINDS[i % KINDS.len()],
        legs: [first, second, NONE, NONE],
    }
}

/// As many lines as a sheet can have, of all kinds.
fn full_sheet(text: &mut [u8]) -> Result<usize, TextFault> {
    let lines: [Line; 64] = array::from_fn(|i| full_line(i));
    write(DAY, &lines, text)
}

/// Each byte of a sheet in turn replaced by another.
fn damage(out: &mut BufWriter<Stdout>, text: &mut [u8], byte: u8, what: &str) -> io::Result<()> {
    let mut run = None;
    // Stays: by place, since the places are printed, and the whole text is read while one byte of it is another.
    for place in 0..text.len() {
        let kept = mem::replace(&mut text[place], byte);
        let ended = extend(&mut run, place, answer_to(text));
        text[place] = kept;
        show(out, what, ended)?;
    }
    show(out, what, run)
}

/// The same with bytes that are fields, letters or neither elsewhere.
fn damage_all(heap: Global, out: &mut BufWriter<Stdout>, text: &mut [u8]) -> io::Result<()> {
    for byte in [b' ', b'0', b'5', b'9', b'H', b'T', b'K', b'x', b'\n'] {
        let what = format!(in heap; "byte {byte} in place")?;
        damage(out, text, byte, what.as_str())?;
    }
    Ok(())
}

/// The front of a sheet, at every length.
fn cut(out: &mut BufWriter<Stdout>, text: &[u8]) -> io::Result<()> {
    let mut run = None;
    // Stays: by length, since the lengths are what is printed.
    for length in 0..=text.len() {
        let ended = extend(&mut run, length, answer_to(&text[..length]));
        show(out, "length", ended)?;
    }
    show(out, "length", run)
}

fn main(rt: HostRuntime) -> io::Result<()> {
    let heap = rt.alloc();
    let mut out = BufWriter::new(heap, rt.stdout())?;
    let mut two = [b' '; TWO_LINES];
    if two_lines(&mut two).is_ok() {
        damage_all(heap, &mut out, &mut two)?;
    }
    let mut text = [b' '; LONGER];
    if full_sheet(&mut text).is_ok() {
        cut(&mut out, &text)?;
    }
    show_limits(&mut out)?;
    out.flush()
}
