//! The types of messages, and their codes (D-Bus Specification, "Message Format").
ghost use Rattle.std.specs.Prelude.{◌≡◌};
ghost use Rattle.wire_message.specs.Front.{kind_code};
ghost use Rattle.wire_message.specs.Outcome.{kind_of};

/// What a message is (D-Bus Specification, "Message Format", "Types of messages").
#[derive(Clone, Copy, PartialEq, Eq, Hash, Debug)]
pub enum MessageType {
    MethodCall,
    MethodReturn,
    Error,
    Signal,
}

/// The message type of a header's second byte: 1 to 4 in the order above.
pub fn message_type(code: u8) -> Option<MessageType>
    ensures { result ≡ kind_of code }
{
    match code {
        1 => Some(MessageType::MethodCall),
        2 => Some(MessageType::MethodReturn),
        3 => Some(MessageType::Error),
        4 => Some(MessageType::Signal),
        _ => None,
    }
}

/// The byte of a message type.
pub(crate) fn type_code(kind: MessageType) -> u8
    ensures { result ≡ kind_code kind }
{
    match kind {
        MessageType::MethodCall => 1,
        MessageType::MethodReturn => 2,
        MessageType::Error => 3,
        MessageType::Signal => 4,
    }
}
