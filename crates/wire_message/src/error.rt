//! What goes wrong with messages and peers.
ghost use Rattle.std.specs.Prelude.{◌≡◌, [], IfOk};
ghost use Rattle.wire_message.specs.declared.error.Error.TheVariants.{Memory};
ghost use Rattle.wire_message.specs.ErrorKinds.{error_of_variant, error_of_names, error_of_guid};
ghost use Rattle.wire_message.specs.FdoErrors.{Becomes};

use crate::fdo::{self, Kind, StandardError};
use crate::message::Message;
use std::alloc::{AllocError, AllocFailed, Global};
use wire_names::{
    GuidError, NamesError, OwnedErrorName, OwnedInterfaceName, OwnedObjectPath, Text,
};
use wire_signature::VariantError;

/// Why reading or writing ended.
#[derive(Clone, Copy, PartialEq, Eq, Debug)]
pub enum IoKind {
    /// The bytes ended before the message did, or before any came.
    Ended,
    /// The source failed.
    Fault,
    /// The peer was closed.
    Closed,
    /// The sink failed.
    WriteFault,
    /// A wait passed its limit.
    TimedOut,
}

/// What goes wrong with messages and peers.
///
/// Two errors are equal where they are of one variant and hold the same beside it; of two `MethodError` what they hold
/// is not looked at.
#[derive(Debug)]
#[derive_where(PartialEq, Eq)]
pub enum Error {
    /// There is no such interface.
    InterfaceNotFound,
    /// Reading or writing ended.
    InputOutput(IoKind),
    /// A message of this type can't have this flag.
    InvalidField,
    /// A message would pass 134,217,728 bytes.
    ExcessData,
    /// A value or a header is outside its grammar.
    Variant(VariantError),
    /// A text is no name of its kind.
    Names(NamesError),
    /// The first byte names no byte order that is read.
    IncorrectEndian,
    /// What came as a reply is none: no method return, and no error with a name.
    InvalidReply,
    /// The error that answers a call: its name, its detail and the whole message (D-Bus Specification, "Message Types",
    /// "Errors").
    MethodError(
        #[derive_where(skip(EqHashOrd))] OwnedErrorName,
        #[derive_where(skip(EqHashOrd))] Option<Text>,
        #[derive_where(skip(EqHashOrd))] Message,
    ),
    /// A message lacks a header field that its type wants (D-Bus Specification, "Header Fields").
    MissingField,
    /// A text is no identifier of a server or a machine (D-Bus Specification, "UUIDs").
    InvalidGUID,
    /// The message has file descriptors, and the sink takes none.
    Unsupported,
    /// One of the standard errors.
    FDO(StandardError),
    /// The name that was asked for is another peer's.
    NameTaken,
    /// A match rule's text, or a part of a rule, is outside the grammar of match rules.
    InvalidMatchRule,
    /// Another failure, with its text.
    Failure(Text),
    /// A parameter of this name is wanted.
    MissingParameter(&'static str),
    /// An interface of this name stands at this path already.
    InterfaceExists(OwnedInterfaceName, OwnedObjectPath),
    /// There is no memory.
    Memory,
    /// Each of the 4,294,967,295 serials is pending.
    SerialsSpent,
    /// A number names nothing, or nothing any more.
    UnknownHandle,
    /// The peer does something else first that this waits for.
    Busy,
}

impl Drop for Error {
    fn drop(self) {
        match self {
            Error::InterfaceNotFound => {}
            Error::InputOutput(_) => {}
            Error::InvalidField => {}
            Error::ExcessData => {}
            Error::Variant(_) => {}
            Error::Names(_) => {}
            Error::IncorrectEndian => {}
            Error::InvalidReply => {}
            Error::MethodError(_, _, _) => {}
            Error::MissingField => {}
            Error::InvalidGUID => {}
            Error::Unsupported => {}
            Error::FDO(_) => {}
            Error::NameTaken => {}
            Error::InvalidMatchRule => {}
            Error::Failure(_) => {}
            Error::MissingParameter(_) => {}
            Error::InterfaceExists(_, _) => {}
            Error::Memory => {}
            Error::SerialsSpent => {}
            Error::UnknownHandle => {}
            Error::Busy => {}
        }
    }
}

/// A result with this crate's error.
pub type Result<T> = std::result::Result<T, Error>;

impl From<AllocError> for Error {
    ghost from_gives = { λ _ e. e ≡ Memory };

    fn from(_e: AllocError) -> Error {
        Error::Memory
    }
}

impl<T: Drop> From<AllocFailed<T>> for Error {
    ghost from_gives = { λ _ e. e ≡ Memory };

    fn from(_e: AllocFailed<T>) -> Error {
        Error::Memory
    }
}

/// Out of memory stays out of memory.
impl From<VariantError> for Error {
    ghost from_gives = { λ kind e. e ≡ error_of_variant kind };

    fn from(kind: VariantError) -> Error {
        match kind {
            VariantError::Memory => Error::Memory,
            _ => Error::Variant(kind),
        }
    }
}

/// Out of memory stays out of memory.
impl From<NamesError> for Error {
    ghost from_gives = { λ kind e. e ≡ error_of_names kind };

    fn from(kind: NamesError) -> Error {
        match kind {
            NamesError::Memory => Error::Memory,
            _ => Error::Names(kind),
        }
    }
}

/// Out of memory stays out of memory.
impl From<GuidError> for Error {
    ghost from_gives = { λ kind e. e ≡ error_of_guid kind };

    fn from(kind: GuidError) -> Error {
        match kind {
            GuidError::Memory => Error::Memory,
            GuidError::InvalidGUID => Error::InvalidGUID,
        }
    }
}

/// The empty text, in the memory of a name that is given up, so that it takes none.
fn emptied(name: OwnedErrorName) -> Text
    ensures { result ≡ [] }
{
    let mut string = name.into_text().into_string();
    string.clear();
    Text::from_string(string)
}

/// A copy of a text that may be absent.
fn copy_of(alloc: Global, text: &Option<Text>) -> std::result::Result<Option<Text>, AllocError>
    ensures { IfOk result (λ copy. copy ≡ text.now) }
{
    match text {
        Some(text) => Ok(Some(text.try_clone(alloc)?)),
        None => Ok(None),
    }
}

impl Error {
    /// The same error; a message in it shares its bytes.
    ///
    /// # Errors
    ///
    /// AllocError for want of memory, or where 2^63 - 1 messages share the bytes of one in it.
    pub fn try_clone(&self, alloc: Global) -> std::result::Result<Error, AllocError>
        ensures { IfOk result (λ copy. copy ≡ self.now) }
    {
        Ok(match self {
            Error::InterfaceNotFound => Error::InterfaceNotFound,
            Error::InputOutput(kind) => Error::InputOutput(*kind),
            Error::InvalidField => Error::InvalidField,
            Error::ExcessData => Error::ExcessData,
            Error::Variant(kind) => Error::Variant(*kind),
            Error::Names(kind) => Error::Names(*kind),
            Error::IncorrectEndian => Error::IncorrectEndian,
            Error::InvalidReply => Error::InvalidReply,
            Error::MethodError(name, detail, message) => Error::MethodError(
                name.try_clone(alloc)?,
                copy_of(alloc, detail)?,
                message.clone()?,
            ),
            Error::MissingField => Error::MissingField,
            Error::InvalidGUID => Error::InvalidGUID,
            Error::Unsupported => Error::Unsupported,
            Error::FDO(error) => Error::FDO(error.try_clone(alloc)?),
            Error::NameTaken => Error::NameTaken,
            Error::InvalidMatchRule => Error::InvalidMatchRule,
            Error::Failure(text) => Error::Failure(text.try_clone(alloc)?),
            Error::MissingParameter(name) => Error::MissingParameter(*name),
            Error::InterfaceExists(name, path) => {
                Error::InterfaceExists(name.try_clone(alloc)?, path.try_clone(alloc)?)
            }
            Error::Memory => Error::Memory,
            Error::SerialsSpent => Error::SerialsSpent,
            Error::UnknownHandle => Error::UnknownHandle,
            Error::Busy => Error::Busy,
        })
    }
    /// As the conversion to [`fdo::Error`].
    pub(crate) fn into_fdo(self) -> fdo::Error
        ensures { Becomes self result }
    {
        match self {
            Error::MethodError(name, detail, message) => {
                match Kind::from_name(name.as_str()) {
                    Some(kind) => {
                        let text = match detail {
                            Some(text) => text,
                            None => emptied(name),
                        };
                        fdo::Error::Std(StandardError { kind, text })
                    }
                    None => fdo::Error::ZBus(Error::MethodError(name, detail, message)),
                }
            }
            Error::FDO(error) => fdo::Error::Std(error),
            other => fdo::Error::ZBus(other),
        }
    }
}
