//! How far streams are opened.
ghost use Rattle.std.specs.Prelude.{◌≡◌};
ghost use Rattle.wire_message.specs.Replying.{replies_to, is_return};
ghost use Rattle.peer_streams.specs.Keeping.{refusal_of};

use wire_message::{Error, Message, MessageType};

/// How far a stream is opened that was not closed.
pub enum Progress {
    /// It waits for the return to its AddMatch.
    AwaitingReply {
        /// The serial of that one.
        serial: u32,
        /// Its place in the outbox.
        index: u64,
        /// A copy of the error that is about to deny it, made before anything changes.
        denial: Option<Message>,
    },
    /// It was denied, by this error.
    Denied(Message),
    /// It takes messages.
    Active,
}

impl Drop for Progress {
    fn drop(self) {
        match self {
            Progress::AwaitingReply {
                serial: _,
                index: _,
                denial: _,
            } => {}
            Progress::Denied(_) => {}
            Progress::Active => {}
        }
    }
}

impl Progress {
    /// What who asked for the stream is told where it was denied; any other is unknown.
    pub(crate) fn into_refusal(self) -> OpenState
        ensures { result ≡ refusal_of self }
    {
        match self {
            Progress::Denied(message) => OpenState::Refused(message),
            Progress::AwaitingReply {
                serial: _,
                index: _,
                denial: _,
            } => OpenState::Unknown,
            Progress::Active => OpenState::Unknown,
        }
    }
}

/// What becomes of a stream that waits for the return to its AddMatch (D-Bus Specification, "Message Bus Messages",
/// `org.freedesktop.DBus.AddMatch`).
#[derive(Drop)]
pub enum OpenState {
    /// It isn't one that is being opened.
    Unknown,
    /// No reply came yet.
    NotYet,
    /// It is open.
    Open,
    /// It was denied, by this error.
    Refused(Message),
    /// The peer was closed before a reply came.
    Over(Error),
}

/// Whether the message is a method return.
pub(crate) fn is_return(message: &Message) -> bool
    ensures { result ≡ is_return message.now.kind }
{
    matches!(message.message_type(), MessageType::MethodReturn)
}

/// Whether the message is a return or an error to this serial.
#[tactic(auto, unfolding(wire_message::specs::Replying::replies_to))]
pub(crate) fn replies_to(serial: u32, message: &Message) -> bool
    ensures { result ≡ replies_to serial message.now }
{
    match message.message_type() {
        MessageType::MethodReturn | MessageType::Error => message.reply_serial() == Some(serial),
        MessageType::MethodCall | MessageType::Signal => false,
    }
}
