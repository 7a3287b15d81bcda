//! What is printed of a message.
use crate::arguments::write_arguments;
use crate::head::write_head;
use crate::read::message_of;
use crate::replies::{write_answer, write_given, write_reported};
use crate::row::Written;
use crate::rules::write_header_rule;
use std::alloc::Global;
use wire_message::Message;

/// Writes a line for the message's header, and the lines of its body.
fn write_whole(alloc: Global, out: &mut String, message: &Message) -> Written {
    write_head(out, message)?;
    write_arguments(alloc, out, message)
}

/// Writes a line for the header's fields, one for the message in words, and one for the rule of its header.
fn write_header(alloc: Global, out: &mut String, message: &Message) -> Written {
    write_head(out, message)?;
    write!(out, "\n  {message}")?;
    write_header_rule(alloc, out, message)
}

/// Writes what a word asks of a message.
fn write_seen(alloc: Global, out: &mut String, word: &str, message: &Message) -> Written {
    match word {
        "message" => write_whole(alloc, out, message),
        "header" => write_header(alloc, out, message),
        "printed" => write!(out, "{message} | {message:?}"),
        _ => write_answer(alloc, out, message),
    }
}

/// Writes what a word asks of a message, or of the error that it is made.
fn write_of(alloc: Global, out: &mut String, word: &str, message: Message) -> Written {
    match word {
        "given" => write_given(alloc, out, message),
        "reply" => write_reported(alloc, out, message),
        _ => write_seen(alloc, out, word, &message),
    }
}

/// Writes what a word asks of the message of these hexadecimal digits.
pub(crate) fn write_asked(alloc: Global, out: &mut String, word: &str, digits: &str) -> Written {
    match message_of(alloc, out, digits) {
        Ok(Some(message)) => write_of(alloc, out, word, message),
        Ok(None) => Ok(()),
        Err(error) => Err(error),
    }
}
