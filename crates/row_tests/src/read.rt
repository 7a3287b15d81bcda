//! Messages and rules of hexadecimal digits. A reader that answers `None` has written why the row is refused, or that its front is
//! ignored.
use crate::row::refuse;
use rule_match::MatchRule;
use std::alloc::{AllocError, Global};
use wire_message::{Error, Message, Received, header_front};

/// Writes the error, and answers nothing.
fn refused<T>(out: &mut String, error: &Error) -> Result<Option<T>, AllocError> {
    match refuse(out, error) {
        Ok(()) => Ok(None),
        Err(error) => Err(error),
    }
}

/// Reads the digits.
pub(crate) fn bytes_of(
    alloc: Global,
    out: &mut String,
    digits: &str,
) -> Result<Option<Vec<u8>>, AllocError> {
    match hex::decode(alloc, digits) {
        Ok(bytes) => Ok(Some(bytes)),
        Err(error) => {
            refuse(out, &error)?;
            Ok(None)
        }
    }
}

/// Writes the length of an ignored front, and answers nothing.
fn passed(out: &mut String, front: &[u8]) -> Result<Option<Message>, AllocError> {
    write!(out, "passed {}", front.len())?;
    Ok(None)
}

fn message_in(
    alloc: Global,
    out: &mut String,
    bytes: &[u8],
) -> Result<Option<Message>, AllocError> {
    match header_front(alloc, bytes) {
        Ok((Received::Message(message), _)) => Ok(Some(message)),
        Ok((Received::Passed(front), _)) => passed(out, front.as_slice()),
        Err(error) => refused(out, &error),
    }
}

fn rule_in(alloc: Global, out: &mut String, text: &[u8]) -> Result<Option<MatchRule>, AllocError> {
    match MatchRule::try_from_bytes(alloc, text) {
        Ok(rule) => Ok(Some(rule)),
        Err(error) => refused(out, &error),
    }
}

/// Reads the message at the front of the bytes. If a front of an unknown type stands there, it writes `passed` and its length.
pub(crate) fn message_of(
    alloc: Global,
    out: &mut String,
    digits: &str,
) -> Result<Option<Message>, AllocError> {
    match bytes_of(alloc, out, digits) {
        Ok(Some(bytes)) => message_in(alloc, out, bytes.as_slice()),
        Ok(None) => Ok(None),
        Err(error) => Err(error),
    }
}

/// Reads the rule of the text, which may be no UTF-8.
pub(crate) fn rule_of(
    alloc: Global,
    out: &mut String,
    digits: &str,
) -> Result<Option<MatchRule>, AllocError> {
    match bytes_of(alloc, out, digits) {
        Ok(Some(text)) => rule_in(alloc, out, text.as_slice()),
        Ok(None) => Ok(None),
        Err(error) => Err(error),
    }
}
