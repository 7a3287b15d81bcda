//! The standard errors, as errors that are given (D-Bus Specification, "Types of messages", "Errors").
ghost use Rattle.std.specs.Prelude.{◌≡◌, Some, IfOk};
ghost use Rattle.wire_message.specs.ErrorTexts.{standard_text};
ghost use Rattle.wire_message.specs.FdoErrors.{Becomes, error_within, fdo_text};

use crate::error;
pub use crate::fdo_kind::Kind;
use std::alloc::{AllocError, Global};
use std::fmt;
use wire_names::Text;

/// One of the standard errors: its kind, and what it says.
#[derive(Debug, PartialEq, Eq)]
pub struct StandardError {
    pub kind: Kind,
    pub text: Text,
}

impl Drop for StandardError {
    fn drop(self) {
        let StandardError { kind: _, text: _ } = self;
    }
}

impl StandardError {
    /// The same error.
    ///
    /// # Errors
    ///
    /// AllocError for want of memory.
    pub fn try_clone(&self, alloc: Global) -> std::result::Result<StandardError, AllocError>
        ensures { IfOk result (λ copy. copy ≡ self.now) }
    {
        Ok(StandardError {
            kind: self.kind,
            text: self.text.try_clone(alloc)?,
        })
    }
}

/// `NAME: TEXT`, with the name of the error in a message's header.
impl fmt::Display for StandardError {
    ghost output = { λ e. Some (standard_text e) };

    fn fmt<W: fmt::Write>(&self, f: &mut fmt::Formatter<W>) -> fmt::Result {
        write!(f, "{}: {}", self.kind.name(), self.text.as_str())
    }
}

/// What a call of an object's method gives where it fails: one of the standard errors, or any other.
///
/// Two are equal where both are standard errors of one kind and one text, or both are others that are equal.
#[derive(Debug, PartialEq, Eq)]
pub enum Error {
    /// An error that is none of the standard ones.
    ZBus(error::Error),
    /// One of the standard errors.
    Std(StandardError),
}

impl Drop for Error {
    fn drop(self) {
        match self {
            Error::ZBus(_) => {}
            Error::Std(_) => {}
        }
    }
}

impl Error {
    /// As the conversion to [`error::Error`].
    fn into_within(self) -> error::Error
        ensures { result ≡ error_within self }
    {
        match self {
            Error::ZBus(error) => error,
            Error::Std(error) => error::Error::FDO(error),
        }
    }

    /// The same error; a message in it shares its bytes.
    ///
    /// # Errors
    ///
    /// AllocError for want of memory, or where 2^63 - 1 messages share the bytes of one in it.
    pub fn try_clone(&self, alloc: Global) -> std::result::Result<Error, AllocError>
        ensures { IfOk result (λ copy. copy ≡ self.now) }
    {
        Ok(match self {
            Error::ZBus(error) => Error::ZBus(error.try_clone(alloc)?),
            Error::Std(error) => Error::Std(error.try_clone(alloc)?),
        })
    }
}

/// A result with [`Error`].
pub type Result<T> = std::result::Result<T, Error>;

impl From<error::Error> for Error {
    ghost from_gives = { λ error given. Becomes error given };

    /// The same error by its kind. A method's error with the name of a standard error is that one, with its detail as
    /// the text, or the empty text where it has none. It takes no memory.
    fn from(error: error::Error) -> Error {
        error.into_fdo()
    }
}

impl From<Error> for error::Error {
    ghost from_gives = { λ given error. error ≡ error_within given };

    /// The error that is held; a standard error is [`error::Error::FDO`]. It takes no memory.
    fn from(given: Error) -> error::Error {
        given.into_within()
    }
}

/// `NAME: TEXT` of a standard error, with its name in a message's header; of another what is printed of it.
impl fmt::Display for Error {
    ghost output = { λ e. Some (fdo_text e) };

    fn fmt<W: fmt::Write>(&self, f: &mut fmt::Formatter<W>) -> fmt::Result {
        match self {
            Error::ZBus(error) => write!(f, "{error}"),
            Error::Std(error) => write!(f, "{error}"),
        }
    }
}

impl std::error::Error for Error {}
