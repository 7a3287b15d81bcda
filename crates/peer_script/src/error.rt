//! Why an input is no script.
ghost use Rattle.std.specs.Prelude.{◌≡◌};
ghost use Rattle.peer_script.specs.declared.error.ScriptError.TheVariants.{Memory};

use std::alloc::{AllocError, AllocFailed};

/// Why an input is no script.
#[derive(Clone, Copy, PartialEq, Eq, Debug)]
pub enum ScriptError {
    /// Memory ran out.
    Memory,
    /// A read of the input failed before the input had passed a limit.
    InputFault,
    /// The input has more than 1,073,741,824 bytes or more than 1,000,000 lines, whatever comes after them.
    Limit,
    /// The first line outside the table of lines or out of its order, from 1 on.
    Line(u64),
}

impl From<AllocError> for ScriptError {
    ghost from_gives = { λ _ e. e ≡ Memory };

    fn from(_e: AllocError) -> ScriptError {
        ScriptError::Memory
    }
}

impl<T: Drop> From<AllocFailed<T>> for ScriptError {
    ghost from_gives = { λ _ e. e ≡ Memory };

    fn from(_e: AllocFailed<T>) -> ScriptError {
        ScriptError::Memory
    }
}
