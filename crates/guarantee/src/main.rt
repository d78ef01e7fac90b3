// Reads a journal from standard input and answers each of its commands on standard output.
#![tactic(auto)]

use desk::desk::Desk;
use journal::answer::{Refusal, Reply};
use journal::command::{Command, read};
use journal::words::without_line_feed;
use std::io::{BufRead, BufReader, BufWriter, Stdout, Write};
use std::{fs, io, str};

/// What the file holds that a command names; none where it names none or the file cannot be opened.
fn fetch(rt: &HostRuntime, command: &Command) -> Option<Vec<u8>> {
    let name = str::from_utf8(command.file()?).ok()?;
    fs::read(rt, name).ok()
}

fn answer(rt: &HostRuntime, desk: &mut Desk, line: &[u8]) -> Result<Option<Reply>, Refusal> {
    let said = read(rt.alloc(), without_line_feed(line));
    let file = if let Ok(Some(command)) = &said {
        fetch(rt, command)
    } else {
        None
    };
    desk.answer(rt.alloc(), said, file)
}

fn show(output: &mut BufWriter<Stdout>, answer: Result<Option<Reply>, Refusal>) -> io::Result<()> {
    match answer {
        Ok(Some(Reply::Line(answer))) => writeln!(output, "{answer}"),
        Ok(Some(Reply::Sheet(text))) => output.write_all(text.as_slice()),
        Ok(None) => Ok(()),
        Err(refusal) => writeln!(output, "{refusal}"),
    }
}

fn play(rt: &HostRuntime) -> io::Result<()> {
    let mut input = BufReader::new(rt.alloc(), rt.stdin())?;
    let mut output = BufWriter::new(rt.alloc(), rt.stdout())?;
    let mut desk = Desk::new(rt.alloc());
    let mut line = Vec::new(rt.alloc());
    // Stays: one buffer for all lines, which `split` takes anew for each.
    for _ in 0..u64::MAX {
        line.clear();
        if input.read_until(b'\n', &mut line)? == 0 {
            break;
        }
        show(&mut output, answer(rt, &mut desk, line.as_slice()))?;
    }
    output.flush()
}

fn main(rt: HostRuntime) -> io::Result<()> {
    play(&rt)
}
