//! Runs a program's text from standard input, and writes the report to standard output.
#![tactic(auto)]

use hb_io::{RealSink, RealSource};
use hb_threads::OpenGate;
use hb_top::hbird;
use std::io::ErrorKind;
use std::process::ExitCode;
use std::rt::Env;

const NO_MEMORY: u8 = 3;

const NO_WORDS: u8 = 7;

// The words after the program's name, or the status that tells why there are none.
fn words_given(rt: &(impl Env + AllocGlobal)) -> Result<Vec<String>, u8> {
    match std::env::args(rt) {
        Ok(words) => words.skip(1).collect(rt.alloc()).map_err(|_| NO_MEMORY),
        Err(error) if error.kind() == ErrorKind::OutOfMemory => Err(NO_MEMORY),
        Err(_) => Err(NO_WORDS),
    }
}

fn main(rt: HostRuntime) -> ExitCode {
    let words = match words_given(&rt) {
        Ok(words) => words,
        Err(status) => return ExitCode::from(status),
    };
    let texts: Result<Vec<&str>, _> = words.iter().map(|word| word.as_str()).collect(rt.alloc());
    let status = match texts {
        Ok(texts) => {
            let mut source = RealSource::new(rt.stdin());
            let mut sink = RealSink::new(rt.stdout());
            hbird(
                &rt,
                rt.alloc(),
                texts.as_slice(),
                &mut source,
                &mut sink,
                &OpenGate,
            )
        }
        Err(_) => NO_MEMORY,
    };
    ExitCode::from(status)
}

#[cfg(test)]
mod tests;
