//! Reads rows, each a word and what it says, and prints what the library says of each:
//!
//! - `message HEX`: a recorded message's header and its body. The body is written again, and `same` stands where that gave the
//!   bytes that were read. Then the message is built anew of its header and its body, and the new header's bytes are printed:
//!   the same fields, in the order of their codes.
//! - `header HEX`: a message's header, the message in words, and the rule of its header.
//! - `rule HEX`: the text of a match rule, as the rule is printed.
//! - `match HEX HEX`: the text of a match rule and a message: `yes` where the rule matches it, else `no`.
//! - `turned HEX HEX HEX`: the text of a match rule and two messages: the same of the first, and of the second, to which the
//!   candidate turns.
//! - `encoded ORDER PLACE TYPE HEX`: the value that the bytes at this place encode, in the order `l` or `B`: its type, the
//!   value, and `same` where it is written as these bytes, and all of them are passed by the type and by its text.
//! - `value TYPE HEX`: the value that the bytes encode in little order, printed, behind its type, which is printed as a signature
//!   and as a type.
//! - `signature TEXT`: whether the text is a signature, and the length of the first type in it.
//! - `grammars TEXT`: the grammars that the text is in, each by its letter.
//! - `kind NAME`: the kind of standard errors with this name, and its name; `-` where there is none.
//! - `unique`, `well-known`, `bus`, `interface`, `error`, `member`, `path`, `guid` and a name: the name, and its owned form.
//! - `text` and any text: it.
//! - `printed HEX`: the message at the front of the bytes, and, behind ` | `, the same for debugging.
//! - `given HEX`: the error that this reply gives, and what describes it.
//! - `reply HEX`: the same as an error of an object's method, behind its name.
//! - `answer HEX`: the reply to this call that tells a standard error, and its bytes.
//! - `io`, `variant`, `names`, `plain`, `standard`, `failure`, `exists` and `encoding`: the error that the rest says, and what
//!   describes it.
//! - `transcript WORD`: a transcript with an answer that no script reaches.
//! - `command LINE`: the script of a peer without a bus, whose one command the line is, as a transcript that answers nothing; or why it
//!   is no script.
//! - `monitor CAPACITY PIECES RULE ..`: what a monitor prints of recorded traffic, and, after it, what it answers. The sink fails a write
//!   after CAPACITY bytes, or none for `-`. PIECES are the bytes that the source gives at once, with commas between them; for `fault` a
//!   read fails. Each RULE is the text of a match rule.
//! - `lines COUNT`: why as many empty lines are no script.
//!
//! `refused` and the error stand where the rest is no such thing. Where a message is wanted and a front of an unknown message type
//! stands there, `passed` and its length in bytes are printed.
#![tactic(auto)]

mod arguments;
mod commands;
mod encoded;
mod errors;
mod head;
mod leaf;
mod messages;
mod names;
mod read;
mod rebuilt;
mod replies;
mod row;
mod rules;
mod show;
mod traffic;
mod transcripts;

use crate::row::Written;
use std::alloc::Global;
use std::io;

/// Writes what is printed of rules, values and scripts.
fn write_other(alloc: Global, out: &mut String, word: &str, rest: &str) -> Written {
    match word {
        "rule" => rules::write_rule(alloc, out, rest),
        "match" => rules::write_match(alloc, out, rest),
        "turned" => rules::write_turned(alloc, out, rest),
        "encoded" => encoded::write_encoded(alloc, out, rest),
        "value" => encoded::write_printed(alloc, out, rest),
        "command" => commands::write_command(alloc, out, rest),
        "lines" | "faulted" => commands::write_refusal(alloc, out, word, rest),
        "monitor" => traffic::write_monitor(alloc, out, rest),
        "transcript" => transcripts::write_answered(alloc, out, rest),
        _ => out.push_str("refused: no such word"),
    }
}

/// Writes what is printed of a row.
fn write_row(alloc: Global, out: &mut String, word: &str, rest: &str) -> Written {
    match word {
        "signature" | "grammars" | "text" | "kind" => names::write_text(alloc, out, word, rest),
        "unique" | "well-known" | "bus" | "interface" | "error" | "member" | "path" | "guid" => {
            names::write_name(alloc, out, word, rest)
        }
        "message" | "header" | "printed" | "given" | "reply" | "answer" => {
            messages::write_asked(alloc, out, word, rest)
        }
        "io" | "variant" | "names" | "plain" | "standard" | "failure" | "exists" => {
            errors::write_error(alloc, out, word, rest)
        }
        "encoding" => errors::write_encoding(out, rest),
        _ => write_other(alloc, out, word, rest),
    }
}

/// Prints what is printed of a row.
fn print_row(rt: &impl Print, alloc: Global, row: &str) -> io::Result<()> {
    let (word, rest) = row::split(row);
    let mut out = String::new(alloc);
    match write_row(alloc, &mut out, word, rest) {
        Ok(()) => println!(rt; "{out}"),
        Err(error) => println!(rt; "refused: {error}"),
    }
}

fn main(rt: HostRuntime) -> io::Result<()> {
    let alloc = rt.alloc();
    for row in rt.lines(alloc) {
        print_row(&rt, alloc, row?.as_str())?;
    }
    Ok(())
}
