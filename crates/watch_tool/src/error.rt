//! Why a monitor stopped early.
ghost use Rattle.std.specs.Prelude.{◌≡◌};
ghost use Rattle.watch_tool.specs.declared.error.WatchError.TheVariants.{Memory};

use std::alloc::AllocError;

/// Why a monitor stopped before it reached the end of the traffic.
#[derive(Clone, Copy, PartialEq, Eq, Debug)]
pub enum WatchError {
    /// Memory ran out.
    Memory,
    /// A read of the source failed.
    ReadFault,
    /// A write to the sink failed.
    WriteFault,
}

impl From<AllocError> for WatchError {
    ghost from_gives = { λ _ e. e ≡ Memory };

    fn from(_e: AllocError) -> WatchError {
        WatchError::Memory
    }
}
