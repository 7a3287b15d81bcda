//! Why a signature or a value is refused.
ghost use Rattle.std.specs.Prelude.{◌≡◌};
ghost use Rattle.wire_signature.specs.declared.error.VariantError.TheVariants.{Memory};

use std::alloc::{AllocError, AllocFailed};
use thiserror::Error;

/// Why a signature or a value is refused, or want of memory.
#[derive(Clone, Copy, Debug, PartialEq, Eq, Error)]
pub enum VariantError {
    /// A text is no signature (D-Bus Specification, "Valid Signatures").
    #[error("variant error: Signature")]
    Signature,
    /// More than 64 containers would be open at once (D-Bus Specification, "Message Protocol").
    #[error("variant error: Depth")]
    Depth,
    /// Bytes encode no value of their type, or a value breaks a rule of its type (D-Bus Specification, "Marshaling").
    #[error("variant error: Malformed")]
    Malformed,
    /// A value of another type was asked for.
    #[error("variant error: SignatureMismatch")]
    SignatureMismatch,
    /// Memory ran out.
    #[error("Memory")]
    Memory,
}

impl From<AllocError> for VariantError {
    ghost from_gives = { λ _ e. e ≡ Memory };

    fn from(_error: AllocError) -> VariantError {
        VariantError::Memory
    }
}

impl<T: Drop> From<AllocFailed<T>> for VariantError {
    ghost from_gives = { λ _ e. e ≡ Memory };

    fn from(_error: AllocFailed<T>) -> VariantError {
        VariantError::Memory
    }
}
