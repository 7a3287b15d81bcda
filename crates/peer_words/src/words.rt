//! What commands ask for: messages that are sent or read, the answers of calls, streams, objects, and the closing.
ghost use Rattle.std.specs.Prelude.{◌≡◌, IfOk, option_map};

use std::alloc::{AllocError, Global};
use wire_value::{Bytes, OwnedUniqueName};

/// What a script's flag letters ask of a call's message (D-Bus Specification, "Message Format").
#[derive(Clone, Copy, PartialEq, Eq, Debug)]
pub struct CallFlags {
    /// `n`: no reply is expected (0x1).
    pub no_reply_expected: bool,
    /// `a`: no service is started for it (0x2).
    pub no_auto_start: bool,
    /// `i`: the caller may be asked for authorization (0x4).
    pub allow_interactive_auth: bool,
    /// `b`: the message is in big order.
    pub big: bool,
    /// `d`: the message carries the list of the one descriptor 0.
    pub descriptor: bool,
}

/// Whether a message of a member is a method call or a signal (D-Bus Specification, "Types of messages").
#[derive(Clone, Copy, PartialEq, Eq, Debug)]
pub enum OutgoingKind {
    /// A method call.
    Call,
    /// A signal.
    Signal,
}

/// The words of a method call or of a signal (D-Bus Specification, "Types of messages").
pub struct Outgoing {
    /// Which of the two it is.
    pub kind: OutgoingKind,
    /// The connection that it is for, if one is named.
    pub destination: Option<Bytes>,
    /// The object that is called, or that the signal comes from.
    pub path: Bytes,
    /// The interface of the member, if one is named.
    pub interface: Option<Bytes>,
    /// The method or the signal.
    pub member: Bytes,
    /// The message's flags, its byte order, and whether it carries a descriptor.
    pub flags: CallFlags,
    /// The word of its body, if it has one.
    pub body: Option<Bytes>,
}

impl Drop for Outgoing {
    fn drop(self) {
        let Outgoing {
            kind: _,
            destination: _,
            path: _,
            interface: _,
            member: _,
            flags: _,
            body: _,
        } = self;
    }
}

/// What a command asks of a call.
#[derive(Clone, Copy, PartialEq, Eq, Debug)]
pub enum CallOp {
    /// Its answer.
    Poll,
    /// Its answer by position, which isn't looked at.
    Before(u64),
    /// That its answer is waited for no more.
    Drop,
}

/// What a command asks of a stream.
pub enum StreamOp {
    /// A method return to the message that it gave last, with the body of that word, if it has one.
    Reply(Option<Bytes>),
    /// An error to that message.
    Error {
        /// The error's name.
        name: Bytes,
        /// The word of its body, if it has one.
        body: Option<Bytes>,
    },
    /// Its next item.
    Take,
    /// Its next item by position, which isn't looked at.
    TakeBefore(u64),
    /// A stream that goes on where it is.
    Clone,
    /// Whether it is open, for which the bus was asked.
    Opened,
    /// That it may hold so many messages.
    Queue(u64),
    /// That it is closed, and perhaps another in the same step, which is closed after it.
    Unstream(Option<u64>),
}

impl Drop for StreamOp {
    fn drop(self) {
        match self {
            StreamOp::Reply(_) => {}
            StreamOp::Error { name: _, body: _ } => {}
            StreamOp::Take => {}
            StreamOp::TakeBefore(_) => {}
            StreamOp::Clone => {}
            StreamOp::Opened => {}
            StreamOp::Queue(_) => {}
            StreamOp::Unstream(_) => {}
        }
    }
}

/// What a command asks of the peer's objects.
pub enum ObjectOp {
    /// That an interface stands at an object: the one that was handed in with this number.
    At {
        /// The object's path.
        path: Bytes,
        /// The interface's number, from 0 on.
        number: u64,
    },
    /// That an interface stands at an object no more.
    Remove {
        /// The object's path.
        path: Bytes,
        /// The interface's name, if it is named.
        interface: Option<Bytes>,
    },
    /// In which slot an interface is kept.
    Interface {
        /// The object's path.
        path: Bytes,
        /// The interface's name, if it is named.
        interface: Option<Bytes>,
    },
    /// That the next method call that came for the objects is answered.
    Serve,
}

impl Drop for ObjectOp {
    fn drop(self) {
        match self {
            ObjectOp::At { path: _, number: _ } => {}
            ObjectOp::Remove {
                path: _,
                interface: _,
            } => {}
            ObjectOp::Interface {
                path: _,
                interface: _,
            } => {}
            ObjectOp::Serve => {}
        }
    }
}

/// What stands in the history, or in the scripts, of a connection whose lanes run at once, and in no script of `run`.
pub enum Live {
    /// The message at this place of the outbox, from 0 on, was written.
    Written(u64),
    /// Its write failed.
    Fault(u64),
    /// The peer is given its unique name (D-Bus Specification, "Valid Names", "Bus names").
    Unique(OwnedUniqueName),
    /// A line that waits for the answer of the lane's call with this number: it stands in the history as a `Poll`.
    Await(u64),
    /// A line that waits for the next item of the lane's stream with this number: it stands in the history as a `Take`.
    Next(u64),
    /// A line that serves until its stream ends: it stands in the history as one entry for each message.
    Worker,
}

impl Drop for Live {
    fn drop(self) {
        match self {
            Live::Written(_) => {}
            Live::Fault(_) => {}
            Live::Unique(_) => {}
            Live::Await(_) => {}
            Live::Next(_) => {}
            Live::Worker => {}
        }
    }
}

/// What a command asks for. Texts are kept as they stand: one outside its grammar is refused when the command runs.
pub enum Words {
    /// Send a method call to an object path, or a signal from one.
    Send(Outgoing),
    /// Take the next message from the source, or the next front that is ignored.
    Read,
    /// Ask something of a call of the lane.
    OfCall {
        /// The call's number in its lane, from 0 on.
        call: u64,
        /// What is asked.
        op: CallOp,
    },
    /// Open a stream of all messages that are read from now on.
    Stream,
    /// Open a stream of those messages that are read from now on and that a rule accepts.
    Open {
        /// How many messages each stream of the rule may hold before reads wait, if a number is asked for.
        max_queued: Option<u64>,
        /// The rule's text (D-Bus Specification, "Match Rules").
        rule: Bytes,
    },
    /// Ask something of a stream of the lane.
    OfStream {
        /// The stream's number in its lane, from 0 on.
        stream: u64,
        /// What is asked.
        op: StreamOp,
    },
    /// Set how many messages a stream without a rule may hold before reads wait.
    MainQueue(u64),
    /// Ask something of the peer's objects.
    Objects(ObjectOp),
    /// Close the peer.
    Close,
    /// What no script of `run` has.
    Live(Live),
}

impl Drop for Words {
    fn drop(self) {
        match self {
            Words::Send(_) => {}
            Words::Read => {}
            Words::OfCall { call: _, op: _ } => {}
            Words::Stream => {}
            Words::Open {
                max_queued: _,
                rule: _,
            } => {}
            Words::OfStream { stream: _, op: _ } => {}
            Words::MainQueue(_) => {}
            Words::Objects(_) => {}
            Words::Close => {}
            Words::Live(_) => {}
        }
    }
}

/// A copy of the text, if there is one.
fn clone_text(text: &Option<Bytes>, alloc: Global) -> Result<Option<Bytes>, AllocError>
    ensures { IfOk result (λ copy. copy ≡ text.now) }
{
    match text {
        Some(text) => Ok(Some(text.try_clone(alloc)?)),
        None => Ok(None),
    }
}

impl Outgoing {
    /// A copy of the words of a method call or of a signal.
    ///
    /// # Errors
    ///
    /// AllocError for want of memory.
    pub fn try_clone(&self, alloc: Global) -> Result<Outgoing, AllocError>
        ensures { IfOk result (λ words. words ≡ self.now) }
    {
        Ok(Outgoing {
            kind: self.kind,
            destination: clone_text(&self.destination, alloc)?,
            path: self.path.try_clone(alloc)?,
            interface: clone_text(&self.interface, alloc)?,
            member: self.member.try_clone(alloc)?,
            flags: self.flags,
            body: clone_text(&self.body, alloc)?,
        })
    }
}

impl StreamOp {
    /// A copy of what a command asks of a stream.
    ///
    /// # Errors
    ///
    /// AllocError for want of memory.
    pub fn try_clone(&self, alloc: Global) -> Result<StreamOp, AllocError>
        ensures { IfOk result (λ op. op ≡ self.now) }
    {
        Ok(match self {
            StreamOp::Reply(body) => StreamOp::Reply(clone_text(body, alloc)?),
            StreamOp::Error { name, body } => StreamOp::Error {
                name: name.try_clone(alloc)?,
                body: clone_text(body, alloc)?,
            },
            StreamOp::Take => StreamOp::Take,
            StreamOp::TakeBefore(before) => StreamOp::TakeBefore(*before),
            StreamOp::Clone => StreamOp::Clone,
            StreamOp::Opened => StreamOp::Opened,
            StreamOp::Queue(limit) => StreamOp::Queue(*limit),
            StreamOp::Unstream(second) => StreamOp::Unstream(*second),
        })
    }
}

impl ObjectOp {
    /// A copy of what a command asks of the peer's objects.
    ///
    /// # Errors
    ///
    /// AllocError for want of memory.
    pub fn try_clone(&self, alloc: Global) -> Result<ObjectOp, AllocError>
        ensures { IfOk result (λ op. op ≡ self.now) }
    {
        Ok(match self {
            ObjectOp::At { path, number } => ObjectOp::At {
                path: path.try_clone(alloc)?,
                number: *number,
            },
            ObjectOp::Remove { path, interface } => ObjectOp::Remove {
                path: path.try_clone(alloc)?,
                interface: clone_text(interface, alloc)?,
            },
            ObjectOp::Interface { path, interface } => ObjectOp::Interface {
                path: path.try_clone(alloc)?,
                interface: clone_text(interface, alloc)?,
            },
            ObjectOp::Serve => ObjectOp::Serve,
        })
    }
}

impl Live {
    /// A copy of what stands in no script of `run`.
    ///
    /// # Errors
    ///
    /// AllocError for want of memory.
    pub fn try_clone(&self, alloc: Global) -> Result<Live, AllocError>
        ensures { IfOk result (λ live. live ≡ self.now) }
    {
        Ok(match self {
            Live::Written(index) => Live::Written(*index),
            Live::Fault(index) => Live::Fault(*index),
            Live::Unique(name) => Live::Unique(name.try_clone(alloc)?),
            Live::Await(call) => Live::Await(*call),
            Live::Next(stream) => Live::Next(*stream),
            Live::Worker => Live::Worker,
        })
    }
}

impl Words {
    /// A copy of the words of a command.
    ///
    /// # Errors
    ///
    /// AllocError for want of memory.
    pub fn try_clone(&self, alloc: Global) -> Result<Words, AllocError>
        ensures { IfOk result (λ words. words ≡ self.now) }
    {
        Ok(match self {
            Words::Send(outgoing) => Words::Send(outgoing.try_clone(alloc)?),
            Words::Read => Words::Read,
            Words::OfCall { call, op } => Words::OfCall {
                call: *call,
                op: *op,
            },
            Words::Stream => Words::Stream,
            Words::Open { max_queued, rule } => Words::Open {
                max_queued: *max_queued,
                rule: rule.try_clone(alloc)?,
            },
            Words::OfStream { stream, op } => Words::OfStream {
                stream: *stream,
                op: op.try_clone(alloc)?,
            },
            Words::MainQueue(limit) => Words::MainQueue(*limit),
            Words::Objects(op) => Words::Objects(op.try_clone(alloc)?),
            Words::Close => Words::Close,
            Words::Live(live) => Words::Live(live.try_clone(alloc)?),
        })
    }
}

/// A command of a lane.
pub struct Command {
    /// Whose command it is; each lane numbers its calls, and its streams, from 0 on.
    pub lane: u32,
    /// What it asks for.
    pub words: Words,
}

impl Drop for Command {
    fn drop(self) {
        let Command { lane: _, words: _ } = self;
    }
}
