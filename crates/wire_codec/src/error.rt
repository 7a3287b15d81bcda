//! Why a value is not encoded.
ghost use Rattle.std.specs.Prelude.{◌≡◌};
ghost use Rattle.wire_codec.specs.declared.error.EncodeError.TheVariants.{Memory};

use std::alloc::{AllocError, AllocFailed};
use thiserror::Error;
use wire_signature::VariantError;

/// Why a value is not encoded, or want of memory.
#[derive(Clone, Copy, Debug, PartialEq, Eq, Error)]
pub enum EncodeError {
    /// More than 64 containers would be open at once: `Depth` (D-Bus Specification, "Message Protocol").
    #[error("{0}")]
    Variant(VariantError),
    /// The elements of an array would take more than 67,108,864 bytes (D-Bus Specification, "Marshaling", `ARRAY`).
    #[error("ExcessData")]
    ExcessData,
    /// Memory ran out.
    #[error("Memory")]
    Memory,
}

impl From<AllocError> for EncodeError {
    ghost from_gives = { λ _ e. e ≡ Memory };

    fn from(_error: AllocError) -> EncodeError {
        EncodeError::Memory
    }
}

impl<T: Drop> From<AllocFailed<T>> for EncodeError {
    ghost from_gives = { λ _ e. e ≡ Memory };

    fn from(_error: AllocFailed<T>) -> EncodeError {
        EncodeError::Memory
    }
}
