//! Answers each line of standard input by one line: calculations of the crates below the program, in the texts of lines and reports.
#![tactic(auto)]

mod chain;
mod changes;
mod forms;
mod germs;
mod jets;
mod kills;
mod monomials;
mod numbers;
mod reports;
mod rows;
mod scalars;
mod shapes;
mod ternary;
mod texts;
mod words;

use line_io::{Lines, Next, Sink, Source, StdSink, StdSource, write_whole};
use std::alloc::{AllocError, Global};
use std::process::ExitCode;
use words::{Stop, Words, is};

// Appends the answer to the words.
fn put_answer(alloc: Global, words: &mut Words, out: &mut Vec<u8>) -> Result<(), Stop> {
    let group = words.next();
    if is(group, b"family") {
        return texts::put_family(words.rest, out);
    }
    if is(group, b"modulus") {
        return forms::put_modulus(alloc, words, out);
    }
    if is(group, b"pair") {
        return shapes::put_pair(words, out);
    }
    let command = words.next();
    if is(group, b"number") {
        numbers::calculate(alloc, command, words, out)
    } else if is(group, b"monomial") {
        monomials::calculate(alloc, command, words, out)
    } else if is(group, b"germ") {
        germs::calculate(alloc, command, words, out)
    } else if is(group, b"report") {
        reports::calculate(alloc, command, words, out)
    } else if is(group, b"ternary") {
        ternary::calculate(alloc, command, words, out)
    } else {
        scalars::calculate(alloc, group, command, words, out)
    }
}

// The answer to a line; where it begins with `repeat` and a number, after so many times.
fn answer_to(alloc: Global, line: &[u8]) -> Result<Vec<u8>, Stop> {
    let mut words = Words { rest: line };
    let mut count = 1u32;
    if line.starts_with(b"repeat ") {
        let _ = words.next();
        count = words.number(alloc)?;
    }
    let mut out = Vec::new(alloc);
    for _i in 0..count {
        out = Vec::new(alloc);
        put_answer(alloc, &mut Words { rest: words.rest }, &mut out)?;
    }
    Ok(out)
}

// What is printed for a line.
fn text_of(alloc: Global, line: &[u8]) -> Result<Vec<u8>, AllocError> {
    let mut text = Vec::new(alloc);
    match answer_to(alloc, line) {
        Ok(answer) => text.extend_from_slice(&answer)?,
        Err(stop) => stop.put(&mut text)?,
    }
    text.push(b'\n')?;
    Ok(text)
}

// Answers the next line; false where there is none, or where it cannot be answered.
fn answer_next<S: Source, W: Sink>(
    alloc: Global,
    lines: &mut Lines,
    source: &mut S,
    sink: &mut W,
) -> bool {
    match lines.next_line(source) {
        Next::Line => match text_of(alloc, lines.line()) {
            Ok(text) => write_whole(sink, &text).is_ok(),
            Err(_) => false,
        },
        Next::Long(_) => write_whole(sink, b"long\n").is_ok(),
        Next::End | Next::ReadFault | Next::InputLimit => false,
    }
}

fn main(rt: HostRuntime) -> ExitCode {
    let alloc = rt.alloc();
    let mut source = StdSource::new(rt.stdin());
    let mut sink = StdSink::new(rt.stdout());
    let Ok(mut lines) = Lines::new(alloc) else {
        return ExitCode::from(5);
    };
    for _i in 0..u64::MAX {
        if !answer_next(alloc, &mut lines, &mut source, &mut sink) {
            return ExitCode::from(0);
        }
    }
    ExitCode::from(0)
}
