//! The program: standard input and output around `program_main`.
#![tactic(auto)]

mod console;

use console::{FlushingReader, SharedWriter};
use peer_run::{Sink, StdSink, StdSource, program_main};
use std::cell::RefCell;
use std::io::{BufReader, BufWriter, ErrorKind};
use std::process::ExitCode;
use std::{env, io};

/// The status where there is no memory for the words.
const MEMORY: u8 = 1;

/// The status where the output failed.
const UNWRITTEN: u8 = 5;

/// The words behind the program's name.
fn words(rt: &HostRuntime) -> io::Result<Vec<String>> {
    let mut words = Vec::new(rt.alloc());
    for word in env::args(rt)?.skip(1) {
        words.push(word)?;
    }
    Ok(words)
}

/// Says that there is no memory.
fn say_memory(rt: &HostRuntime) -> u8 {
    let _ = println!(rt; "memory");
    MEMORY
}

/// Runs the program of those words. Input and output go through buffers; what was printed is written before the program waits for more
/// input, and when it ends.
fn run(rt: &HostRuntime, words: &[String]) -> u8 {
    let Ok(writer) = BufWriter::new(rt.alloc(), io::writer(rt)) else {
        return say_memory(rt);
    };
    let printed = RefCell::new(writer);
    let reader = FlushingReader::new(rt.stdin(), &printed);
    let Ok(reader) = BufReader::new(rt.alloc(), reader) else {
        return say_memory(rt);
    };
    let mut input = StdSource::new(reader);
    let mut output = StdSink::new(SharedWriter::new(&printed));
    let status = program_main(rt.alloc(), words, &mut input, &mut output);
    match output.close() {
        Ok(()) => status,
        Err(_) => UNWRITTEN,
    }
}

/// The status where the words can't be had.
fn without_words(rt: &HostRuntime, kind: ErrorKind) -> u8 {
    if kind == ErrorKind::InvalidData {
        // A word that is no UTF-8 is none of the program's, and neither is the empty word, which needs no memory.
        return run(rt, &[String::new(rt.alloc())]);
    }
    say_memory(rt)
}

fn main(rt: HostRuntime) -> ExitCode {
    let status = match words(&rt) {
        Ok(words) => run(&rt, words.as_slice()),
        Err(error) => without_words(&rt, error.kind()),
    };
    ExitCode::from(status)
}
