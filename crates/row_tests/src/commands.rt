//! Scripts: lines of commands, as they are read and written again, and how many lines a script has at most.
use crate::row::{Written, refuse};
use crate::transcripts::{entry, write_lines};
use peer_script::{
    Setup, Transcript, Word, first_lines_outside_are_found, read_script, script_texts_are_read,
};
use peer_words::{Answer, Command, Entry};
use std::alloc::{AllocError, Global};
use std::slice;
use wire_framing::{MemorySource, Piece};

/// The script whose one command the line is.
fn script_of(alloc: Global, line: &str) -> Result<Piece, AllocError> {
    let text = format!(in alloc; "direct\n{line}\n")?;
    Ok(Piece::Bytes(text.into_bytes()))
}

/// As many empty lines.
fn empty_lines(alloc: Global, count: usize) -> Result<Piece, AllocError> {
    Ok(Piece::Bytes(Vec::from_elem(alloc, b'\n', count)?))
}

/// Adds the command, answered by nothing.
fn push_unanswered(alloc: Global, entries: &mut Vec<Entry>, command: &Command) -> Written {
    let words = command.words.try_clone(alloc)?;
    entries.push(entry(alloc, command.lane, words, Answer::Nothing))?;
    Ok(())
}

/// The commands, each answered by nothing.
fn unanswered(alloc: Global, commands: &[Command]) -> Result<Transcript, AllocError> {
    let mut entries = Vec::new(alloc);
    for command in commands {
        push_unanswered(alloc, &mut entries, command)?;
    }
    Ok(Transcript { entries })
}

/// Writes the commands as a transcript that answers nothing.
fn write_unanswered(
    alloc: Global,
    out: &mut String,
    setup: &Setup,
    commands: &[Command],
) -> Written {
    match unanswered(alloc, commands) {
        Ok(transcript) => write_lines(alloc, out, setup, &transcript),
        Err(error) => Err(error),
    }
}

/// Writes the script as it is read, or why it is none.
fn write_script(alloc: Global, out: &mut String, pieces: &[Piece]) -> Written {
    let mut source = MemorySource::new(pieces);
    match &read_script(alloc, Word::Run, &mut source) {
        Ok((setup, commands)) => write_unanswered(alloc, out, setup, commands.as_slice()),
        Err(error) => write!(out, "{error:?}"),
    }
}

/// Writes what the line is read as.
pub(crate) fn write_command(alloc: Global, out: &mut String, line: &str) -> Written {
    match script_of(alloc, line) {
        Ok(piece) => write_script(alloc, out, slice::from_ref(&piece)),
        Err(error) => Err(error),
    }
}

fn write_empty(alloc: Global, out: &mut String, word: &str, count: usize) -> Written {
    let mut pieces = Vec::new(alloc);
    pieces.push(empty_lines(alloc, count)?)?;
    if word == "faulted" {
        pieces.push(Piece::Fault)?;
    }
    write_script(alloc, out, pieces.as_slice())
}

/// Writes why as many empty lines are no script, at the end of the input or, for `faulted`, before a read that fails.
pub(crate) fn write_refusal(alloc: Global, out: &mut String, word: &str, count: &str) -> Written {
    script_texts_are_read();
    first_lines_outside_are_found();
    match count.parse::<usize>() {
        Ok(count) => write_empty(alloc, out, word, count),
        Err(error) => refuse(out, &error),
    }
}
