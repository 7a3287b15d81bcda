//! Names, texts and kinds.
use crate::row::{Written, refuse};
use std::alloc::Global;
use std::fmt::Display;
use wire_message::fdo::Kind;
use wire_value::kinds::{Error, Interface, Member, Path, Unique, WellKnown};
use wire_value::{BusName, Guid, Name, NameKind, NamesError, Text, first_type, is_signature};

/// Writes the kind with this name, for debugging, and its name.
fn write_kind(out: &mut String, text: &str) -> Written {
    match Kind::from_name(text) {
        Some(kind) => write!(out, "{kind:?} {}", kind.name()),
        None => out.push('-'),
    }
}

/// Writes a name and its owned form.
fn write_both<A: Display, B: Display>(out: &mut String, name: &A, owned: &B) -> Written {
    write!(out, "{name} {owned}")
}

/// Writes a name of a kind.
fn write_name_of<K: NameKind>(alloc: Global, out: &mut String, text: &str) -> Written {
    let name: Result<Name<K>, NamesError> = Name::try_from(text);
    match &name {
        Ok(name) => write_both(out, name, &name.to_owned(alloc)?),
        Err(error) => refuse(out, error),
    }
}

fn write_bus(alloc: Global, out: &mut String, text: &str) -> Written {
    match &BusName::try_from(text) {
        Ok(name) => write_both(out, name, &name.to_owned(alloc)?),
        Err(error) => refuse(out, error),
    }
}

fn write_guid(alloc: Global, out: &mut String, text: &str) -> Written {
    match &Guid::try_from(text) {
        Ok(guid) => write_both(out, guid, &guid.to_owned(alloc)?),
        Err(error) => refuse(out, error),
    }
}

/// Writes what a name or a GUID is printed as.
pub(crate) fn write_name(alloc: Global, out: &mut String, word: &str, text: &str) -> Written {
    match word {
        "unique" => write_name_of::<Unique>(alloc, out, text),
        "well-known" => write_name_of::<WellKnown>(alloc, out, text),
        "bus" => write_bus(alloc, out, text),
        "interface" => write_name_of::<Interface>(alloc, out, text),
        "error" => write_name_of::<Error>(alloc, out, text),
        "member" => write_name_of::<Member>(alloc, out, text),
        "guid" => write_guid(alloc, out, text),
        _ => write_name_of::<Path>(alloc, out, text),
    }
}

/// Writes the letter if the text is a name of the kind.
fn write_letter<K: NameKind>(out: &mut String, text: &str, letter: char) -> Written {
    let name: Result<Name<K>, NamesError> = Name::try_from(text);
    if name.is_ok() {
        out.push(letter)
    } else {
        Ok(())
    }
}

fn write_bus_letter(out: &mut String, text: &str) -> Written {
    if BusName::try_from(text).is_ok() {
        out.push('B')
    } else {
        Ok(())
    }
}

/// Writes the letters of the grammars that the text is in: Unique, Well-known, Bus, Interface, Error, Member, Path.
fn write_grammars(out: &mut String, text: &str) -> Written {
    out.push_str("in ")?;
    write_letter::<Unique>(out, text, 'U')?;
    write_letter::<WellKnown>(out, text, 'W')?;
    write_bus_letter(out, text)?;
    write_letter::<Interface>(out, text, 'I')?;
    write_letter::<Error>(out, text, 'E')?;
    write_letter::<Member>(out, text, 'M')?;
    write_letter::<Path>(out, text, 'P')
}

/// Writes whether the text is a signature, and the length of its first type.
fn write_signature(out: &mut String, text: &str) -> Written {
    let bytes = text.as_bytes();
    out.push_str(if is_signature(bytes) { "yes" } else { "no" })?;
    match first_type(bytes) {
        Some(length) => write!(out, " {length}"),
        None => Ok(()),
    }
}

/// Writes the text by its owned form.
fn write_owned(alloc: Global, out: &mut String, text: &str) -> Written {
    match Text::from_str(alloc, text) {
        Ok(text) => write!(out, "{text}"),
        Err(error) => Err(error),
    }
}

/// Writes what a text is printed as.
pub(crate) fn write_text(alloc: Global, out: &mut String, word: &str, text: &str) -> Written {
    match word {
        "kind" => write_kind(out, text),
        "signature" => write_signature(out, text),
        "grammars" => write_grammars(out, text),
        _ => write_owned(alloc, out, text),
    }
}
