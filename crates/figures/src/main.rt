// Compares worked figures with what the engine answers: each line of standard input has a command, " = " and its answer.
#![tactic(auto)]

mod nested;
mod proved;

use desk::desk::Desk;
use journal::answer::Reply;
use journal::command::{ReadError, read};
use nested::surcharged_twice;
use rates::laws::laws_stand;
use rates::rate_book::Quote;
use std::alloc::{AllocError, Global};
use std::io;
use std::io::{BufRead, BufReader};
use terms::OptionType;

// What the desk answers; none to a blank line and a comment.
fn answered(heap: Global, desk: &mut Desk, command: &str) -> Result<Option<String>, AllocError> {
    let said = read(heap, command.as_bytes());
    if let Err(ReadError::NoMemory) = said {
        return Err(AllocError);
    }
    let answer = match desk.answer(heap, said, None) {
        Ok(Some(Reply::Line(answer))) => answer.to_string(heap)?,
        Ok(Some(Reply::Sheet(_))) => String::from_str(heap, "a sheet")?,
        Ok(None) => return Ok(None),
        Err(refusal) => refusal.to_string(heap)?,
    };
    Ok(Some(answer))
}

// What is said to be the answer to a command, and what the desk answers.
#[derive(Drop)]
struct Comparison {
    figure: String,
    answer: String,
}

fn compare(heap: Global, desk: &mut Desk, line: &str) -> Result<Option<Comparison>, AllocError> {
    let (command, figure) = line.split_once(" = ").unwrap_or((line, "a figure"));
    let Some(answer) = answered(heap, desk, command)? else {
        return Ok(None);
    };
    let figure = String::from_str(heap, figure)?;
    Ok(Some(Comparison { figure, answer }))
}

fn compare_all(rt: &HostRuntime) -> io::Result<()> {
    let heap = rt.alloc();
    let mut desk = Desk::new(heap);
    let mut agree: u64 = 0;
    let mut differ: u64 = 0;
    for line in BufReader::new(heap, rt.stdin())?.lines(heap) {
        let line = line?;
        if let Some(Comparison { figure, answer }) = compare(heap, &mut desk, line.as_str())? {
            if figure == answer {
                agree = agree.saturating_add(1);
            } else {
                differ = differ.saturating_add(1);
                println!(rt; "{line}, but the answer is {answer}")?;
            }
        }
    }
    println!(rt; "{agree} figures agree, {differ} differ")
}

// A call at 1,149 asks for 5,000 by the scale, 6,250 with 25% more, and 7,812.5 with 25% on top of that.
fn compare_nested(rt: &HostRuntime) -> io::Result<()> {
    let quote = Quote {
        row: 0,
        security: 3,
        option: OptionType::Call,
        strike: 1149,
        premium: 5,
        close: 1000,
        lot: 100,
    };
    match surcharged_twice([25; 16], [25; 16], &quote) {
        Ok(Some(7_813)) => println!(rt; "a surcharge on a surcharge agrees"),
        _ => println!(rt; "a surcharge on a surcharge differs"),
    }
}

fn main(rt: HostRuntime) -> io::Result<()> {
    let figures = proved::proved_figures();
    laws_stand();
    println!(rt; "{figures} figures and the laws of rates follow from the definitions")?;
    compare_nested(&rt)?;
    compare_all(&rt)
}
