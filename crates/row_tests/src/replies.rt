//! Errors, and replies that report them.
use crate::row::{Written, refuse, write_digits};
use std::alloc::{AllocError, Global};
use wire_message::fdo::{self, Kind, StandardError};
use wire_message::{DBusError, Error, Message, NonePending, Serials};
use wire_value::Text;

/// Writes the error, and what describes it.
pub(crate) fn write_described(out: &mut String, error: &Error) -> Written {
    write!(out, "{error} | ")?;
    out.push_str(error.description().unwrap_or("-"))
}

/// Writes the error of an object's method, after its name.
fn write_named(out: &mut String, error: &fdo::Error) -> Written {
    write!(out, "{} | {error} | ", error.name().as_str())?;
    out.push_str(error.description().unwrap_or("-"))
}

/// The error that says that something failed.
fn failed(alloc: Global) -> Result<fdo::Error, AllocError> {
    let text = Text::from_str(alloc, "x")?;
    let kind = Kind::Failed;
    Ok(fdo::Error::Std(StandardError { kind, text }))
}

/// Writes a reply and its bytes.
fn write_built(alloc: Global, out: &mut String, reply: &Message) -> Written {
    write!(out, "{reply} ")?;
    write_digits(alloc, out, reply.data())
}

/// Writes the reply to the call that reports the error, and its bytes.
fn write_reply(alloc: Global, out: &mut String, call: &Message, error: &fdo::Error) -> Written {
    let mut serials = Serials::new();
    match error.create_reply_uncounted(alloc, &call.header(), &mut serials, &NonePending) {
        Ok(reply) => write_built(alloc, out, &reply),
        Err(error) => refuse(out, &error),
    }
}

/// Writes the reply to the call that reports that something failed.
pub(crate) fn write_answer(alloc: Global, out: &mut String, call: &Message) -> Written {
    match failed(alloc) {
        Ok(error) => write_reply(alloc, out, call, &error),
        Err(error) => Err(error),
    }
}

/// Writes the error that the reply gives.
pub(crate) fn write_given(alloc: Global, out: &mut String, reply: Message) -> Written {
    write_described(out, &Error::from_message(alloc, reply))
}

/// Writes the same as an error of an object's method.
pub(crate) fn write_reported(alloc: Global, out: &mut String, reply: Message) -> Written {
    write_named(out, &fdo::Error::from(Error::from_message(alloc, reply)))
}
