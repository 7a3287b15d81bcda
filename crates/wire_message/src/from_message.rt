//! The error that a message is.
ghost use Rattle.std.specs.Prelude.{◌≡◌, IfOk, option_map};
ghost use Rattle.wire_message.specs.MethodError.{IsErrorOf, name_of_error};
ghost use Rattle.wire_message.specs.Texts.{first_argument as argument_found};

use crate::error::Error;
use crate::kind::MessageType;
use crate::message::Message;
use std::alloc::{AllocError, Global};
use wire_names::{OwnedErrorName, Text};

/// The name of the error that a message is, where it is one and has a name.
fn name_of(alloc: Global, message: &Message) -> Result<Option<OwnedErrorName>, AllocError>
    ensures { IfOk result (λ name. name ≡ name_of_error message.now.kind message.now.error_name) }
{
    match (message.message_type(), message.header().error_name()) {
        (MessageType::Error, Some(name)) => Ok(Some(name.to_owned(alloc)?)),
        _ => Ok(None),
    }
}

/// The first argument, where it is a string and can be read.
fn detail_of(alloc: Global, message: &Message) -> Result<Option<Text>, AllocError>
    ensures { IfOk result (λ detail. detail ≡ argument_found message.now) }
{
    match message.first_argument() {
        Some(text) => Ok(Some(Text::from_str(alloc, text)?)),
        None => Ok(None),
    }
}

impl Error {
    /// The error that a message is, which is given up (D-Bus Specification, "Types of messages"): MethodError exactly
    /// where it is of the type `ERROR` and has a name; its detail is the first argument exactly where the first type of
    /// the signature is `s` and it can be read. InvalidReply exactly otherwise; Memory for want of memory.
    pub fn from_message(alloc: Global, message: Message) -> Error
        ensures { IsErrorOf result message }
    {
        let Ok(name) = name_of(alloc, &message) else {
            return Error::Memory;
        };
        let Some(name) = name else {
            return Error::InvalidReply;
        };
        match detail_of(alloc, &message) {
            Ok(detail) => Error::MethodError(name, detail, message),
            Err(_) => Error::Memory,
        }
    }
}
