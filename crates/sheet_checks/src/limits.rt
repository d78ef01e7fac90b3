// What the reader and the writer answer at their limits: days, legs, lines and buffers.
use sheet_text::fault::TextFault;
use sheet_text::reader::read;
use sheet_text::writer::write;
use std::io;
use std::io::{BufWriter, Stdout, Write};
use terms::denial::Denial;
use terms::strategy::{Kind, Leg, Line};

pub const NONE: Leg = Leg { row: 0, lots: 0 };

const COVERED: Line = Line {
    kind: Kind::Covered,
    legs: [Leg { row: 1, lots: 5 }, Leg { row: 0, lots: 5 }, NONE, NONE],
};

fn show(
    out: &mut BufWriter<Stdout>,
    what: &str,
    answer: Result<usize, TextFault>,
) -> io::Result<()> {
    match answer {
        Ok(count) => writeln!(out, "{what}: {count}"),
        Err(fault) => {
            let number = fault.number();
            let place = fault.place();
            writeln!(out, "{what}: denied text {number}{place}")
        }
    }
}

/// A line whose third leg is this one.
fn with_leg(row: u32, lots: u32) -> Line {
    let [first, second, _, last] = COVERED.legs;
    Line {
        kind: Kind::Opposed,
        legs: [first, second, Leg { row, lots }, last],
    }
}

fn written(day: u64, lines: &[Line], room: usize) -> Result<usize, TextFault> {
    let mut text = [b'?'; 2_600];
    let room = room.min(text.len());
    write(day, lines, &mut text[..room])
}

fn legs(out: &mut BufWriter<Stdout>) -> io::Result<()> {
    show(out, "row 999", written(12, &[with_leg(999, 1)], 114))?;
    show(out, "row 1000", written(12, &[with_leg(1_000, 1)], 114))?;
    show(
        out,
        "lots 999999",
        written(12, &[with_leg(1, 999_999)], 114),
    )?;
    show(
        out,
        "lots 1000000",
        written(12, &[COVERED, with_leg(1, 1_000_000)], 152),
    )?;
    show(
        out,
        "row 7 and no lots",
        written(12, &[COVERED, with_leg(7, 0)], 152),
    )?;
    show(
        out,
        "a leg before the lines",
        written(12, &[with_leg(7, 0); 65], 0),
    )
}

fn lines(out: &mut BufWriter<Stdout>) -> io::Result<()> {
    show(out, "no line in 76 bytes", written(12, &[], 76))?;
    show(out, "no line in 75 bytes", written(12, &[], 75))?;
    show(out, "one line in no byte", written(12, &[COVERED], 0))?;
    show(
        out,
        "64 lines in 2508 bytes",
        written(12, &[COVERED; 64], 2_508),
    )?;
    show(
        out,
        "64 lines in 2507 bytes",
        written(12, &[COVERED; 64], 2_507),
    )?;
    show(out, "65 lines in no byte", written(12, &[COVERED; 65], 0))
}

fn days(out: &mut BufWriter<Stdout>) -> io::Result<()> {
    show(out, "write day 0", written(0, &[with_leg(7, 0)], 0))?;
    show(out, "write day 1", written(1, &[], 76))?;
    show(out, "write day 1000000", written(1_000_000, &[], 76))?;
    show(out, "write day 1000001", written(1_000_001, &[], 76))?;
    show(out, "read day 0", read(b"", 0, &mut []))?;
    show(out, "read day 1000001", read(b"", 1_000_001, &mut []))?;
    show(out, "read nothing", read(b"", 1, &mut []))
}

/// Three lines read into lists of too few, enough and more entries.
fn lists(out: &mut BufWriter<Stdout>) -> io::Result<()> {
    let mut text = [b' '; 190];
    show(out, "three lines", write(12, &[COVERED; 3], &mut text))?;
    show(out, "into no entry", read(&text, 12, &mut []))?;
    let mut two = [with_leg(9, 9); 2];
    show(out, "into two entries", read(&text, 12, &mut two))?;
    let first = two[0].legs[2].row;
    writeln!(out, "the list has row {first} as before")?;
    let mut four = [with_leg(9, 9); 4];
    show(out, "into four entries", read(&text, 12, &mut four))?;
    let third = four[2].legs[2].row;
    let fourth = four[3].legs[2].row;
    writeln!(
        out,
        "the third has row {third} now, and the fourth {fourth} as before"
    )
}

pub fn show_limits(out: &mut BufWriter<Stdout>) -> io::Result<()> {
    days(out)?;
    legs(out)?;
    lines(out)?;
    lists(out)
}
