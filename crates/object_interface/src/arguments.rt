//! The arguments of calls and of their replies (D-Bus Specification, "Message Format").
ghost use Rattle.std.specs.Prelude.{◌≡◌, List, IfOk, MatchOption, codes, unwrap_or};
ghost use Rattle.wire_tree.specs.Datum.{Datum};
ghost use Rattle.object_interface.specs.Arguments.{IsBody, IsNoBody};

use std::alloc::{AllocError, Global};
use wire_message::{Error, Message};
use wire_value::{BodyValues, FromBody, ObjectPath, ToBody, to};

/// Reads the arguments of a message, if its body is of their types.
///
/// # Errors
///
/// AllocError if out of memory.
pub fn read_arguments<T: FromBody>(
    alloc: Global,
    message: &Message,
) -> Result<Option<T>, AllocError>
    ensures { IfOk result (λ a. MatchOption a (IsNoBody message.now T.kinds) (λ x. (values : List Datum) × IsBody message.now T.kinds values × (x ≡ T.read values))) }
{
    match message.body().deserialize(alloc) {
        Ok(arguments) => Ok(Some(arguments)),
        Err(error) => match &error {
            Error::Memory => Err(AllocError),
            _ => Ok(None),
        },
    }
}

/// Makes the body of these arguments.
///
/// # Errors
///
/// AllocError if out of memory, and where the arguments are no body: their types together are no signature, or a text has a 0
/// byte or more than 4,294,967,295 bytes.
pub fn body_of<T: ToBody>(alloc: Global, arguments: T) -> Result<BodyValues, AllocError>
    ensures { IfOk result (λ body. body ≡ T.datums arguments) }
{
    match to(alloc, arguments) {
        Ok(body) => Ok(body),
        Err(_) => Err(AllocError),
    }
}

/// Returns the path of the object that a call names; the root if it names none.
#[tactic(auto, unfolding(wire_names::specs::Names::is_object_path))]
pub fn path_of(call: &Message) -> ObjectPath<'_>
    ensures { result ≡ unwrap_or call.now.path (codes "/") }
{
    let header = call.header();
    if let Some(path) = header.path() {
        return path;
    }
    ObjectPath::from_static_str("/")
}
