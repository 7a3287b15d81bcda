//! Errors, and what describes each.
use crate::replies::write_described;
use crate::row::{Written, refuse, split};
use std::alloc::Global;
use wire_message::fdo::{Kind, StandardError};
use wire_message::{Error, IoKind};
use wire_value::{
    EncodeError, NamesError, OwnedInterfaceName, OwnedObjectPath, Text, VariantError,
};

fn io_kind(word: &str) -> IoKind {
    match word {
        "Ended" => IoKind::Ended,
        "Fault" => IoKind::Fault,
        "Closed" => IoKind::Closed,
        "WriteFault" => IoKind::WriteFault,
        _ => IoKind::TimedOut,
    }
}

fn variant(word: &str) -> VariantError {
    match word {
        "Signature" => VariantError::Signature,
        "Depth" => VariantError::Depth,
        "Malformed" => VariantError::Malformed,
        "SignatureMismatch" => VariantError::SignatureMismatch,
        _ => VariantError::Memory,
    }
}

fn names(word: &str) -> NamesError {
    match word {
        "Unique" => NamesError::Unique,
        "WellKnown" => NamesError::WellKnown,
        "Bus" => NamesError::Bus,
        "Interface" => NamesError::Interface,
        "Member" => NamesError::Member,
        "Error" => NamesError::Error,
        "Path" => NamesError::Path,
        _ => NamesError::Memory,
    }
}

/// Those of messages that hold nothing.
fn of_messages(word: &str) -> Error {
    match word {
        "InterfaceNotFound" => Error::InterfaceNotFound,
        "InvalidField" => Error::InvalidField,
        "ExcessData" => Error::ExcessData,
        "IncorrectEndian" => Error::IncorrectEndian,
        "InvalidReply" => Error::InvalidReply,
        "MissingField" => Error::MissingField,
        "InvalidGUID" => Error::InvalidGUID,
        _ => Error::Unsupported,
    }
}

/// Those of peers that hold nothing of their own, and the others of messages.
fn plain(word: &str) -> Error {
    match word {
        "NameTaken" => Error::NameTaken,
        "InvalidMatchRule" => Error::InvalidMatchRule,
        "MissingParameter" => Error::MissingParameter("path"),
        "Memory" => Error::Memory,
        "SerialsSpent" => Error::SerialsSpent,
        "UnknownHandle" => Error::UnknownHandle,
        "Busy" => Error::Busy,
        _ => of_messages(word),
    }
}

/// The error of a child that could not be started.
fn standard(alloc: Global, text: &str) -> Result<Error, NamesError> {
    let text = Text::from_str(alloc, text)?;
    let kind = Kind::SpawnFailed;
    Ok(Error::FDO(StandardError { kind, text }))
}

fn failure(alloc: Global, text: &str) -> Result<Error, NamesError> {
    Ok(Error::Failure(Text::from_str(alloc, text)?))
}

/// The error that an interface stands at a path already.
fn exists(alloc: Global, text: &str) -> Result<Error, NamesError> {
    let (name, path) = split(text);
    let name = OwnedInterfaceName::try_from(alloc, name)?;
    let path = OwnedObjectPath::try_from(alloc, path)?;
    Ok(Error::InterfaceExists(name, path))
}

/// The error that a word and a text say.
fn error_of(alloc: Global, word: &str, text: &str) -> Result<Error, NamesError> {
    match word {
        "standard" => standard(alloc, text),
        "failure" => failure(alloc, text),
        "exists" => exists(alloc, text),
        "io" => Ok(Error::InputOutput(io_kind(text))),
        "variant" => Ok(Error::Variant(variant(text))),
        "names" => Ok(Error::Names(names(text))),
        _ => Ok(plain(text)),
    }
}

/// Writes what the error's kind is printed as, on a line of its own, where it has one.
fn write_kind(out: &mut String, word: &str, text: &str) -> Written {
    match word {
        "variant" => writeln!(out, "{}", variant(text)),
        "names" => writeln!(out, "{}", names(text)),
        _ => Ok(()),
    }
}

/// Writes a copy of the error, and what describes it.
fn write_copied(alloc: Global, out: &mut String, error: &Error) -> Written {
    match error.try_clone(alloc) {
        Ok(copy) => write_described(out, &copy),
        Err(error) => Err(error),
    }
}

/// Writes what the error is printed as.
pub(crate) fn write_error(alloc: Global, out: &mut String, word: &str, text: &str) -> Written {
    write_kind(out, word, text)?;
    match error_of(alloc, word, text) {
        Ok(error) => write_copied(alloc, out, &error),
        Err(error) => refuse(out, &error),
    }
}

/// Writes what a fault of encoding is printed as.
pub(crate) fn write_encoding(out: &mut String, word: &str) -> Written {
    let fault = match word {
        "ExcessData" => EncodeError::ExcessData,
        "Memory" => EncodeError::Memory,
        _ => EncodeError::Variant(variant(word)),
    };
    write!(out, "{fault}")
}
