//! Methods that take no arguments (D-Bus Specification, "Standard Interfaces").
ghost use Rattle.std.specs.Prelude.{[], IfOk};
ghost use Rattle.std.specs.Bool.{MatchBool};
ghost use Rattle.object_interface.specs.Arguments.{IsBody, IsNoBody};
ghost use Rattle.object_standard.specs.Arguments.{of_none};

use object_interface::read_arguments;
use std::alloc::{AllocError, Global};
use wire_message::Message;

/// Whether a message has no arguments: its body is of no types.
///
/// # Errors
///
/// AllocError if out of memory.
pub fn has_no_arguments(alloc: Global, message: &Message) -> Result<bool, AllocError>
    ensures { IfOk result (λ b. MatchBool b (IsBody message.now of_none []) (IsNoBody message.now of_none)) }
{
    Ok(read_arguments::<()>(alloc, message)?.is_some())
}
