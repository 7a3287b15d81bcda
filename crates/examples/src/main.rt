//! Five examples of how the library is used, each in a file of its own: `decode` decodes messages, `match` tests them
//! against match rules, `call` calls a method and takes its reply, `serve` serves objects, and `dump` prints messages as
//! `dbus-monitor` does.
//!
//! A line of the input that is one of these words begins that example. The lines after it, up to the next such line, are
//! the example's input. Lines before the first word are refused. If the program's first argument is `dump`, only that
//! example runs, with the other arguments in place of lines.
#![tactic(auto)]

mod calling;
mod decode;
mod dump;
mod matching;
mod serving;

use std::env;

/// Which example the lines are for.
#[derive(Clone, Copy)]
enum Example {
    Decode,
    Match,
    Call,
    Serve,
    Dump,
}

impl Example {
    /// The example that the word begins.
    fn named(word: &str) -> Option<Example> {
        match word {
            "decode" => Some(Example::Decode),
            "match" => Some(Example::Match),
            "call" => Some(Example::Call),
            "serve" => Some(Example::Serve),
            "dump" => Some(Example::Dump),
            _ => None,
        }
    }
}

/// Runs the example with these lines as its input. Lines of no example are refused.
fn run(rt: &HostRuntime, example: Option<Example>, lines: &[String]) -> anyhow::Result<()> {
    match example {
        Some(Example::Decode) => decode::run(rt, lines),
        Some(Example::Match) => matching::run(rt, lines),
        Some(Example::Call) => calling::run(rt, lines),
        Some(Example::Serve) => serving::run(rt, lines),
        Some(Example::Dump) => dump::run(rt, lines),
        None if lines.is_empty() => Ok(()),
        None => Ok(println!(rt; "refused: no example is chosen")?),
    }
}

/// The program's arguments, without its name.
fn words(rt: &HostRuntime) -> anyhow::Result<Vec<String>> {
    let mut words = Vec::new(rt.alloc());
    for word in env::args(rt)?.skip(1) {
        words.push(word)?;
    }
    Ok(words)
}

/// Runs the examples of the input's lines.
fn run_lines(rt: &HostRuntime) -> anyhow::Result<()> {
    let mut example = None;
    let mut lines = Vec::new(rt.alloc());
    for line in rt.lines(rt.alloc()) {
        let line = line?;
        match Example::named(line.as_str()) {
            None => lines.push(line)?,
            next => {
                run(rt, example, lines.as_slice())?;
                lines.clear();
                example = next;
            }
        }
    }
    run(rt, example, lines.as_slice())
}

fn main(rt: HostRuntime) -> anyhow::Result<()> {
    let words = words(&rt)?;
    match words.as_slice() {
        [word, others @ ..] if word.as_str() == "dump" => dump::run(&rt, others),
        _ => run_lines(&rt),
    }
}
