//! Messages to be sent.
ghost use Rattle.std.specs.Prelude.{ℕ, ◌≡◌, ◌<◌, ◌^◌, length, Ok, Some, false, IfOk};
ghost use Rattle.wire_message.specs.Outgoing.{expects, expects_reply, sender_of, sent_by, values_of, is_deep, MakesAt};

use crate::builder::Builder;
use crate::error::{Error, Result};
use crate::flags::Flags;
use crate::kind::MessageType;
use crate::message::Message;
use crate::outgoing_body::OutgoingBody;
use crate::serials::{NonePending, Serials};
use bitflags::Flags as _;
use std::alloc::{AllocError, Global};
use std::marker::Model;
use wire_body::{BodyValues, is_shallow};
use wire_names::OwnedUniqueName;

/// A message to be sent (D-Bus Specification, "Message Format"): its header, its body, and the file descriptors that go
/// with it.
pub struct OutgoingMessage<'a> {
    builder: Builder<'a>,
    body: OutgoingBody,
    fds: Vec<u32>,
}

impl<'a> Drop for OutgoingMessage<'a> {
    fn drop(self) {
        let OutgoingMessage {
            builder: _,
            body: _,
            fds: _,
        } = self;
    }
}

impl<'a> Model for OutgoingMessage<'a> {
    ghost use Rattle.std.specs.Prelude.{[]};
    ghost use mir.Syntax.{static};
    ghost use Rattle.wire_message.specs.contracts.builder.Builder as builders;
    ghost use Rattle.wire_message.specs.Outgoing.{OutgoingMessageView, values_of, parcel_code};

    ghost Value = { OutgoingMessageView };

    ghost coded = { parcel_code (builders.the_row (record { mir = static; lft = [] })).coded };

    ghost view = { λ l. record { builder = l.builder; values = values_of l.body; fds = l.fds.items } };
}

/// Whether a message of this type and these flags waits for a reply: it is a method call whose flags leave
/// NoReplyExpected out.
#[tactic(auto, unfolding(crate::specs::Outgoing::expects_reply))]
fn expects_reply(kind: MessageType, flags: Flags) -> bool
    ensures { result ≡ expects_reply kind flags.0 }
{
    match kind {
        MessageType::MethodCall => !flags.contains(Flags::NoReplyExpected),
        MessageType::MethodReturn | MessageType::Error | MessageType::Signal => false,
    }
}

impl Message {
    /// Whether the message expects a reply: it is a method call whose flags leave NoReplyExpected out (D-Bus
    /// Specification, "Message Format", `NO_REPLY_EXPECTED`).
    pub fn expects_reply(&self) -> bool
        ensures { result ≡ expects_reply self.now.kind self.now.flags }
    {
        expects_reply(self.message_type(), self.flags())
    }
}

/// Sent by the peer of that name, whatever sender it had; an error that serves a call has none.
fn from_peer<'a>(
    builder: Builder<'a>,
    name: &'a Option<OwnedUniqueName>,
    served: bool,
) -> Builder<'a>
    ensures { result ≡ record builder.entry { fields = record builder.entry.fields { sender = sender_of name.now served builder.entry.kind } } }
{
    let unsigned = match builder.message_type() {
        MessageType::Error => served,
        MessageType::MethodCall | MessageType::MethodReturn | MessageType::Signal => false,
    };
    if unsigned {
        return builder.without_sender();
    }
    match name {
        Some(name) => builder.sender(&name.as_ref()),
        None => builder.without_sender(),
    }
}

impl<'a> OutgoingMessage<'a> {
    /// A message with that header, these values as its body, and these file descriptors.
    pub fn new(builder: Builder<'a>, body: BodyValues, fds: Vec<u32>) -> OutgoingMessage<'a>
        ensures { result ≡ record { builder = builder.entry; values = body; fds = fds.items } }
    {
        OutgoingMessage {
            builder,
            body: OutgoingBody::Values(body),
            fds,
        }
    }

    /// A message with that header, that body, and these file descriptors.
    pub fn from_parts(
        builder: Builder<'a>,
        body: OutgoingBody,
        fds: Vec<u32>,
    ) -> OutgoingMessage<'a>
        ensures { result ≡ record { builder = builder.entry; values = values_of body; fds = fds.items } }
    {
        OutgoingMessage { builder, body, fds }
    }

    /// Whether a value opens more than 64 containers at once.
    pub fn is_deep(&self) -> bool
        ensures { result ≡ is_deep self.now }
    {
        match &self.body {
            OutgoingBody::Values(values) => !is_shallow(values),
            OutgoingBody::Long(_) => false,
        }
    }

    /// Whether it waits for a reply.
    pub fn expects_reply(&self) -> bool
        ensures { result ≡ expects self.now }
    {
        expects_reply(self.builder.message_type(), self.builder.flags())
    }

    /// The same message to be sent, whose header's texts are its own: those that are borrowed are copied.
    ///
    /// # Errors
    ///
    /// AllocError for want of memory; the message is given up then.
    pub fn into_owned(
        self,
        alloc: Global,
    ) -> std::result::Result<OutgoingMessage<'static>, AllocError>
        ensures { IfOk result (λ outgoing. outgoing ≡ self.entry) }
    {
        let OutgoingMessage { builder, body, fds } = self;
        let builder = builder.into_owned(alloc)?;
        Ok(OutgoingMessage { builder, body, fds })
    }

    /// Its message, sent by the peer of that name, with that serial, whatever serial it had.
    ///
    /// # Errors
    ///
    /// ExcessData exactly where an array, a text or the message passes its limit: 67,108,864 bytes of elements,
    /// 4,294,967,295 bytes of a text, 134,217,728 bytes of the message. Memory for want of memory.
    pub fn build(
        self,
        alloc: Global,
        name: &'a Option<OwnedUniqueName>,
        served: bool,
        serial: u32,
    ) -> Result<Message>
        requires some { 0 < serial }
        requires shallow { is_deep self ≡ false }
        requires few { length self.fds < 2 ^ 32 }
        ensures { MakesAt (sent_by name.now served self.entry) serial result }
    {
        let OutgoingMessage { builder, body, fds } = self;
        match &body {
            OutgoingBody::Values(values) => {
                let builder = from_peer(builder, name, served).serial(serial);
                // its serial is set, so that none is drawn
                let mut serials = Serials::new();
                builder.build_body_uncounted(
                    alloc,
                    &mut serials,
                    &NonePending,
                    values,
                    fds.as_slice(),
                )
            }
            OutgoingBody::Long(text) => {
                text.is_long();
                Err(Error::ExcessData)
            }
        }
    }
}
