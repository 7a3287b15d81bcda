//! What commands are answered, and the entries of a history: each a command with its answer.
use crate::words::Words;
use std::marker::Model;
use wire_message::{Error, Message};
use wire_value::Bytes;

/// What a command was answered. Calls and streams have their numbers in their lanes, from 0 on; the position of a message is its
/// place among the messages that were read, from 1 on.
pub enum Answer {
    /// The call was sent: its number in its lane, and its serial.
    Called { call: u64, serial: u32 },
    /// The message was sent, with this serial; no reply is waited for.
    Sent(u32),
    /// The command did nothing, for this reason; or it closed streams of which the bus can't be told, for this reason.
    Refused(Error),
    /// The message, or one of several, wasn't sent, or not whole.
    SendFailed(Error),
    /// A message was read, which the entry holds.
    Got,
    /// A front of a type that isn't known was read and ignored: its bytes.
    Passed(Bytes),
    /// The error that closed the peer.
    Closed(Error),
    /// The position of the method return that answers the call.
    Reply(u64),
    /// The error with a name that answers the call.
    MethodError(Message),
    /// The position of an error without a name that answers the call.
    InvalidReply(u64),
    /// The call has no answer yet.
    NotYet,
    /// By position: the call has no answer yet, or the stream holds nothing, and more may come.
    NoneBefore,
    /// The call's answer is waited for no more.
    Dropped,
    /// The read took nothing, since a stream holds more than its capacity; or no stream of a rule was opened or closed, since a
    /// message by which the peer asked or told the bus is on its way.
    Busy,
    /// The stream was opened: its number in its lane.
    Streaming(u64),
    /// The bus was asked for the stream: its number in its lane, and the serial of the AddMatch.
    Opening { number: u64, serial: u32 },
    /// The stream, for which the bus was asked, is open.
    Opened,
    /// The position of the message that the stream gave.
    Item(u64),
    /// The stream holds nothing, or no method call waits that came for the objects; and more may come.
    Empty,
    /// The stream is over: it holds nothing, nothing comes any more, and the closing error isn't given again.
    Ended,
    /// The stream, or both, are closed; the serial of the last RemoveMatch that was sent, if one was.
    Gone(Option<u32>),
    /// The capacity is set, or asked for.
    Set,
    /// The interface stands at the object from now on.
    Added,
    /// It doesn't, since its name is taken there.
    Exists,
    /// The interface stands there no more; whether its object is gone with it.
    Removed(bool),
    /// The slot in which the interface is kept.
    Slot(u64),
    /// The position of the method call that was replied to.
    Served(u64),
    /// The position of the method call that was taken, whose sender waits for no reply.
    Silent(u64),
    /// The peer is closed.
    Shut,
    /// Whether the peer was given that unique name: it had none.
    Named(bool),
    /// A write: nothing is answered.
    Nothing,
}

impl Drop for Answer {
    fn drop(self) {
        match self {
            Answer::Called { call: _, serial: _ } => {}
            Answer::Sent(_) => {}
            Answer::Refused(_) => {}
            Answer::SendFailed(_) => {}
            Answer::Got => {}
            Answer::Passed(_) => {}
            Answer::Closed(_) => {}
            Answer::Reply(_) => {}
            Answer::MethodError(_) => {}
            Answer::InvalidReply(_) => {}
            Answer::NotYet => {}
            Answer::NoneBefore => {}
            Answer::Dropped => {}
            Answer::Busy => {}
            Answer::Streaming(_) => {}
            Answer::Opening {
                number: _,
                serial: _,
            } => {}
            Answer::Opened => {}
            Answer::Item(_) => {}
            Answer::Empty => {}
            Answer::Ended => {}
            Answer::Gone(_) => {}
            Answer::Set => {}
            Answer::Added => {}
            Answer::Exists => {}
            Answer::Removed(_) => {}
            Answer::Slot(_) => {}
            Answer::Served(_) => {}
            Answer::Silent(_) => {}
            Answer::Shut => {}
            Answer::Named(_) => {}
            Answer::Nothing => {}
        }
    }
}

/// Messages that one command put in the outbox, in order.
pub struct Posts(pub Vec<Message>);

impl Drop for Posts {
    fn drop(self) {
        let Posts(_) = self;
    }
}

impl Model for Posts {
    ghost use Rattle.std.specs.Prelude.{List};
    ghost use Rattle.wire_message.specs.Front.{MessageView};

    ghost Value = { List MessageView };

    ghost view = { λ p. p.0.items };
}

/// One entry of a history: a lane's command and its answer, the message that it read, the messages that it put, and what was
/// written of them within it.
pub struct Entry {
    /// Whose command it was; of a write, 4,294,967,295.
    pub lane: u32,
    /// The command.
    pub words: Words,
    /// Its answer.
    pub answer: Answer,
    /// The message that it read, if it did.
    pub read: Option<Message>,
    /// The messages that it put in the outbox, in order.
    pub put: Posts,
    /// How many of these were written, from the first on.
    pub written: u64,
    /// Whether the write of the next one failed; then none behind it was written.
    pub failed: bool,
}

impl Drop for Entry {
    fn drop(self) {
        let Entry {
            lane: _,
            words: _,
            answer: _,
            read: _,
            put: _,
            written: _,
            failed: _,
        } = self;
    }
}
