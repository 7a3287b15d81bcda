//! The errors that close a peer.
ghost use Rattle.std.specs.Prelude.{◌≡◌, Some, None, if◌then◌else◌};
ghost use Rattle.wire_message.specs.Closing.{closes};

use crate::error::{Error, IoKind};
use std::marker::Model;
use wire_signature::VariantError;

/// What closed a peer.
#[derive(Clone, Copy, Debug)]
enum Cause {
    InputOutput(IoKind),
    Variant(VariantError),
    IncorrectEndian,
    ExcessData,
}

/// An error that closes a peer: [`Error::InputOutput`], [`Error::Variant`], [`Error::IncorrectEndian`] or
/// [`Error::ExcessData`]. It is given again and again, and that takes no memory.
#[derive(Clone, Copy, Debug)]
pub struct ClosingError {
    cause: Cause,
}

impl Model for ClosingError {
    ghost use Rattle.wire_message.specs.declared.error.Error.{Error};
    ghost use Rattle.wire_message.specs.Closing.{error_of, cause_of};

    ghost Value = { Error };

    ghost view = { λ c. error_of c.cause };

    ghost inverse = { λ error. record { cause = cause_of error } };
}

impl ClosingError {
    /// The error as one that closes a peer; none of an error that closes none.
    pub fn of(error: &Error) -> Option<ClosingError>
        ensures { result ≡ (if closes error.now then Some error.now else None) }
    {
        let cause = match error {
            Error::InputOutput(kind) => Cause::InputOutput(*kind),
            Error::Variant(kind) => Cause::Variant(*kind),
            Error::IncorrectEndian => Cause::IncorrectEndian,
            Error::ExcessData => Cause::ExcessData,
            _ => return None,
        };
        Some(ClosingError { cause })
    }
}

/// The same error.
impl From<ClosingError> for Error {
    ghost from_gives = { λ closing e. e ≡ closing };

    fn from(closing: ClosingError) -> Error {
        match closing.cause {
            Cause::InputOutput(kind) => Error::InputOutput(kind),
            Cause::Variant(kind) => Error::Variant(kind),
            Cause::IncorrectEndian => Error::IncorrectEndian,
            Cause::ExcessData => Error::ExcessData,
        }
    }
}
