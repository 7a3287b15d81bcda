//! What a monitor prints of recorded traffic.
use crate::read::{bytes_of, rule_of};
use crate::row::{Written, split};
use rule_match::OwnedMatchRule;
use std::alloc::{AllocError, Global};
use watch_tool::monitor;
use wire_framing::{MemorySink, MemorySource, Piece};

/// Reads the pieces of a source, with commas between them: bytes, or `fault` for a read that fails.
fn pieces_of(
    alloc: Global,
    out: &mut String,
    text: &str,
) -> Result<Option<Vec<Piece>>, AllocError> {
    let mut pieces = Vec::new(alloc);
    for word in text.split(',') {
        let piece = if word == "fault" {
            Piece::Fault
        } else {
            let Some(bytes) = bytes_of(alloc, out, word)? else {
                return Ok(None);
            };
            Piece::Bytes(bytes)
        };
        pieces.push(piece)?;
    }
    Ok(Some(pieces))
}

/// Reads the texts of rules, with blanks between them.
fn rules_of(
    alloc: Global,
    out: &mut String,
    text: &str,
) -> Result<Option<Vec<OwnedMatchRule>>, AllocError> {
    let mut rules = Vec::new(alloc);
    if text.is_empty() {
        return Ok(Some(rules));
    }
    for digits in text.split(' ') {
        let Some(rule) = rule_of(alloc, out, digits)? else {
            return Ok(None);
        };
        rules.push(OwnedMatchRule::from(rule))?;
    }
    Ok(Some(rules))
}

/// A sink that takes so many bytes before a write fails, or any number of them.
fn sink_of(alloc: Global, capacity: &str) -> MemorySink {
    match capacity.parse::<u64>() {
        Ok(count) => MemorySink::with_fault(alloc, count, false),
        Err(_) => MemorySink::new(alloc, false),
    }
}

/// Writes what the monitor prints, and after it what it answers.
fn write_printed(
    alloc: Global,
    out: &mut String,
    mut sink: MemorySink,
    pieces: &[Piece],
    rules: &[OwnedMatchRule],
) -> Written {
    let mut source = MemorySource::new(pieces);
    let answer = monitor(alloc, rules, &mut source, &mut sink);
    match str::from_utf8(sink.bytes()) {
        Ok(text) => out.push_str(text)?,
        Err(_) => out.push_str("no text")?,
    }
    match &answer {
        Ok(error) => write!(out, "{error}"),
        Err(error) => write!(out, "{error:?}"),
    }
}

fn write_ruled(
    alloc: Global,
    out: &mut String,
    capacity: &str,
    pieces: &[Piece],
    rules: &str,
) -> Written {
    match rules_of(alloc, out, rules) {
        Ok(Some(rules)) => write_printed(alloc, out, sink_of(alloc, capacity), pieces, &rules),
        Ok(None) => Ok(()),
        Err(error) => Err(error),
    }
}

/// Writes what a monitor prints of the pieces, by the rules, into a sink of this capacity; and what it answers.
pub(crate) fn write_monitor(alloc: Global, out: &mut String, rest: &str) -> Written {
    let (capacity, rest) = split(rest);
    let (pieces, rules) = split(rest);
    match pieces_of(alloc, out, pieces) {
        Ok(Some(pieces)) => write_ruled(alloc, out, capacity, &pieces, rules),
        Ok(None) => Ok(()),
        Err(error) => Err(error),
    }
}
