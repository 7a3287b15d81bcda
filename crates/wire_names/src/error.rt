//! The errors of names and object paths.
ghost use Rattle.std.specs.Prelude.{◌≡◌};
ghost use Rattle.wire_names.specs.declared.error.NamesError.TheVariants.{Memory};

use std::alloc::{AllocError, AllocFailed};
use thiserror::Error;

/// Which grammar a text is outside of, or want of memory.
#[derive(Clone, Copy, Debug, PartialEq, Eq, Error)]
pub enum NamesError {
    /// No unique name (D-Bus Specification, "Bus names").
    #[error("invalid Unique")]
    Unique,
    /// No well-known bus name (D-Bus Specification, "Bus names").
    #[error("invalid WellKnown")]
    WellKnown,
    /// No bus name of either kind (D-Bus Specification, "Bus names").
    #[error("invalid Bus")]
    Bus,
    /// No interface name (D-Bus Specification, "Interface names").
    #[error("invalid Interface")]
    Interface,
    /// No member name (D-Bus Specification, "Member names").
    #[error("invalid Member")]
    Member,
    /// No error name (D-Bus Specification, "Error names").
    #[error("invalid Error")]
    Error,
    /// No object path (D-Bus Specification, "Valid Object Paths").
    #[error("invalid Path")]
    Path,
    /// Memory ran out.
    #[error("Memory")]
    Memory,
}

impl From<AllocError> for NamesError {
    ghost from_gives = { λ _ e. e ≡ Memory };

    fn from(_error: AllocError) -> NamesError {
        NamesError::Memory
    }
}

impl<T: Drop> From<AllocFailed<T>> for NamesError {
    ghost from_gives = { λ _ e. e ≡ Memory };

    fn from(_error: AllocFailed<T>) -> NamesError {
        NamesError::Memory
    }
}
