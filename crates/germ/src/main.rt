//! `germ`: names the critical points of polynomials, with a certificate for each.
#![tactic(auto)]

use germ_cli::{Status, run};
use line_io::{StdSink, StdSource};
use std::alloc::AllocError;
use std::env;
use std::process::ExitCode;

// The words after the program's name; none where they are not all text, which is no command either.
fn words_of(rt: &HostRuntime) -> Result<Vec<String>, AllocError> {
    let mut words = Vec::new(rt.alloc());
    if let Ok(arguments) = env::args(rt) {
        for word in arguments.skip(1) {
            words.push(word)?;
        }
    }
    Ok(words)
}

fn main(rt: HostRuntime) -> ExitCode {
    let status = match words_of(&rt) {
        Ok(words) => {
            let mut source = StdSource::new(rt.stdin());
            let mut sink = StdSink::new(rt.stdout());
            run(rt.alloc(), &words, &mut source, &mut sink)
        }
        Err(_) => Status::NoMemory,
    };
    ExitCode::from(status.code())
}
