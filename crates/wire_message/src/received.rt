//! What stands at the front of bytes that were read.
use crate::message::Message;
use wire_names::Bytes;

/// What stands at the front of bytes that were read: a message, or a front that a reader ignores (D-Bus Specification,
/// "Message Format").
#[derive(Drop)]
pub enum Received {
    /// A message.
    Message(Message),
    /// The bytes of a front whose message type isn't known, 5 to 255. But for its type it is laid out as a message.
    Passed(Bytes),
}
