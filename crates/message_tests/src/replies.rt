//! Answers to a call. The bytes are worked by hand from the D-Bus Specification, "Message Format" and "Types of messages".
use crate::test_support::{holds, is_built};
use std::alloc::Global;
use wire_message::{Message, NonePending, Result, Serials};
use wire_value::{Endian, ErrorName, Text};

/// A call in big order, of serial 9, with the flag NO_REPLY_EXPECTED, from `:1.72`.
const CALL: &[u8] =
    b"B\x01\x01\x01\x00\x00\x00\x00\x00\x00\x00\x09\x00\x00\x00.\x01\x01o\x00\x00\x00\x00\x01/\x00\x00\x00\x00\x00\x00\x00\x03\x01s\x00\x00\x00\x00\x02do\x00\x00\x00\x00\x00\x00\x07\x01s\x00\x00\x00\x00\x05:1.72\x00\x00\x00";

const RETURN: &[u8] =
    b"B\x02\x00\x01\x00\x00\x00\x00\x00\x00\x00\x01\x00\x00\x00\x16\x05\x01u\x00\x00\x00\x00\x09\x06\x01s\x00\x00\x00\x00\x05:1.72\x00\x00\x00";

const KABOOM: &[u8] =
    b"B\x03\x00\x01\x00\x00\x00\x10\x00\x00\x00\x01\x00\x00\x00H\x04\x01s\x00\x00\x00\x00\x1aorg.freedesktop.zbus.Error\x00\x00\x00\x00\x00\x00\x05\x01u\x00\x00\x00\x00\x09\x06\x01s\x00\x00\x00\x00\x05:1.72\x00\x00\x00\x08\x01g\x00\x02su\x00\x00\x00\x00\x07kaboom!\x00\x00\x00\x00 ";

/// Whether the return to the call is built so.
fn is_returned(alloc: Global, call: &Message) -> Result<bool> {
    is_built(alloc, Message::method_return(&call.header()), RETURN)
}

/// The error that answers the call.
fn error_to(alloc: Global, call: &Message) -> Result<Message> {
    let name = ErrorName::try_from("org.freedesktop.zbus.Error")?;
    let text = Text::from_str(alloc, "kaboom!")?;
    let error = Message::error(&call.header(), &name);
    error.build_uncounted(alloc, &mut Serials::new(), &NonePending, &(text, 32u32))
}

fn is_answered(alloc: Global, call: &Message) -> Result<bool> {
    Ok(is_returned(alloc, call)? && error_to(alloc, call)?.data() == KABOOM)
}

fn answers_are_built(alloc: Global) -> Result<bool> {
    is_answered(alloc, &Message::from_bytes(alloc, CALL, Endian::Big)?)
}

#[test]
fn answers_go_to_the_caller(rt: HostRuntime) {
    assert!(rt; holds(answers_are_built(rt.alloc())));
}
