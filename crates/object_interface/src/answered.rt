//! What goes out where a call is answered (D-Bus Specification, "Message Protocol", "Types of messages").
ghost use Rattle.std.specs.Prelude.{◌≡◌, ◌<◌, ◌^◌, ◌++◌, Err, IfErr, IfOk, None, OnOk, length, map, string_bytes};
ghost use Rattle.std.specs.List.{AllByRecursion};
ghost use Rattle.wire_message.specs.FdoErrors.{reply_text, one_string};
ghost use Rattle.wire_message.specs.Outgoing.{values_of};
ghost use Rattle.object_interface.specs.Answering.{answers, notifier_of, refusal, reply, reply_if, signal_of};
ghost use Rattle.object_interface.specs.Sending.{HasSendableError, IsSendableError};

use crate::answer::{DispatchResult2, Signal};
use crate::arguments::path_of;
use crate::errors::unknown_method;
use crate::items::Items;
use std::alloc::{AllocError, Global};
use wire_message::{DBusError, LongText, Message, OutgoingBody, OutgoingMessage, fdo};
use wire_value::{BodyValues, MemberName, Text, VariantError, to};

/// What goes out where a call is answered: the messages, in order; and the number by which the caller of the server asks
/// whether the reply was put.
pub struct Answered<'a> {
    pub messages: Vec<OutgoingMessage<'a>>,
    pub notifier: Option<u64>,
}

impl<'a> Drop for Answered<'a> {
    fn drop(self) {
        let Answered {
            messages: _,
            notifier: _,
        } = self;
    }
}

/// What an error says to the caller. It fails only if memory ran out.
fn text_of(alloc: Global, error: &fdo::Error) -> Result<String, AllocError>
    ensures { IfOk result (λ text. string_bytes text ≡ reply_text error.now) }
{
    match error {
        fdo::Error::ZBus(error) => error.to_string(alloc),
        fdo::Error::Std(error) => String::from_str(alloc, error.text.as_str()),
    }
}

/// The body of an error's message: one text, which the message refuses if it is too long for a string. It fails only if memory
/// ran out.
fn error_body(alloc: Global, error: &fdo::Error) -> Result<OutgoingBody, AllocError>
    requires { IsSendableError error.now }
    ensures { IfOk result (λ body. values_of body ≡ one_string (reply_text error.now)) }
{
    let text = text_of(alloc, error)?;
    match LongText::of(Text::from_string(text)) {
        Ok(long) => Ok(OutgoingBody::Long(long)),
        Err(short) => match to(alloc, (short,)) {
            Ok(values) => Ok(OutgoingBody::Values(values)),
            // The text is UTF-8, has no 0 byte, and is short enough.
            Err(VariantError::Malformed) => unreachable!(),
            Err(_) => Err(AllocError),
        },
    }
}

/// The error that answers a call. It fails only if memory ran out.
fn error_reply<'a>(
    alloc: Global,
    call: &'a Message,
    error: &fdo::Error,
) -> Result<OutgoingMessage<'a>, AllocError>
    requires { IsSendableError error.now }
    ensures { IfOk result (λ message. message ≡ reply call.now (Err error.now)) }
{
    let name = error.name().to_owned(alloc)?;
    let body = error_body(alloc, error)?;
    let builder = Message::owned_error(&call.header(), name);
    Ok(OutgoingMessage::from_parts(builder, body, Vec::new(alloc)))
}

/// What replies to a call. It fails only if memory ran out.
fn reply<'a>(
    alloc: Global,
    call: &'a Message,
    outcome: fdo::Result<BodyValues>,
) -> Result<OutgoingMessage<'a>, AllocError>
    requires { IfErr outcome IsSendableError }
    ensures { IfOk result (λ message. message ≡ reply call.now outcome) }
{
    match outcome {
        Ok(body) => {
            let builder = Message::method_return(&call.header());
            Ok(OutgoingMessage::new(builder, body, Vec::new(alloc)))
        }
        Err(error) => error_reply(alloc, call, &error),
    }
}

/// A signal of the object that a call names. It fails only if memory ran out.
fn signal_of(
    alloc: Global,
    call: &Message,
    signal: Signal,
) -> Result<OutgoingMessage<'static>, AllocError>
    ensures { IfOk result (λ message. message ≡ signal_of call.now signal) }
{
    let (interface, member, destination, body) = signal.into_parts();
    let path = path_of(call).to_owned(alloc)?;
    let builder = Message::owned_signal(path, interface, member);
    let builder = match destination {
        Some(name) => builder.owned_destination(name),
        None => builder,
    };
    Ok(OutgoingMessage::new(builder, body, Vec::new(alloc)))
}

/// Adds these signals of the object that a call names, in their order. It fails only if memory ran out.
fn push_signals<'a>(
    alloc: Global,
    messages: &mut Vec<OutgoingMessage<'a>>,
    call: &Message,
    signals: Items<Signal>,
) -> Result<(), AllocError>
    ensures { OnOk result (messages.new.items ≡ messages.old.items ++ map (signal_of call.now) signals) }
{
    for signal in signals.into_vec() {
        messages.push(signal_of(alloc, call, signal)?)?;
    }
    Ok(())
}

/// Adds what replies to a call, if the call expects a reply. It fails only if memory ran out.
fn push_reply<'a>(
    alloc: Global,
    messages: &mut Vec<OutgoingMessage<'a>>,
    call: &'a Message,
    outcome: fdo::Result<BodyValues>,
) -> Result<(), AllocError>
    requires { IfErr outcome IsSendableError }
    ensures { OnOk result (messages.new.items ≡ messages.old.items ++ reply_if call.now outcome) }
{
    if call.expects_reply() {
        messages.push(reply(alloc, call, outcome)?)?;
    }
    Ok(())
}

impl<'a> Answered<'a> {
    /// Its parts: the messages, and the number.
    pub fn into_parts(self) -> (Vec<OutgoingMessage<'a>>, Option<u64>)
        ensures { result ≡ (self.entry.messages, self.entry.notifier) }
    {
        let Answered { messages, notifier } = self;
        (messages, notifier)
    }

    /// Returns the error that answers a call, if the call expects a reply, and nothing else.
    ///
    /// # Errors
    ///
    /// AllocError if out of memory.
    pub fn refused(
        alloc: Global,
        call: &'a Message,
        error: &fdo::Error,
    ) -> Result<Answered<'a>, AllocError>
        requires { IsSendableError error.now }
        ensures messages { IfOk result (λ a. a.messages.items ≡ refusal call.now error.now) }
        ensures notifier { IfOk result (λ a. a.notifier ≡ None) }
        ensures few { IfOk result (λ a. AllByRecursion (λ p. length p.fds < 2 ^ 32) a.messages.items) }
    {
        let mut messages = Vec::new(alloc);
        if call.expects_reply() {
            messages.push(error_reply(alloc, call, error)?)?;
        }
        Ok(Answered {
            messages,
            notifier: None,
        })
    }

    /// Returns what an interface answered to a call: its signals before the reply, the reply if the call expects one, and its
    /// signals after the reply. An error whose text is too long for a message is refused where its message is made.
    ///
    /// # Errors
    ///
    /// AllocError if out of memory.
    pub fn new(
        alloc: Global,
        call: &'a Message,
        member: &MemberName<'_>,
        answer: DispatchResult2,
    ) -> Result<Answered<'a>, AllocError>
        requires { HasSendableError answer }
        ensures messages { IfOk result (λ a. a.messages.items ≡ answers call.now member.now answer) }
        ensures notifier { IfOk result (λ a. a.notifier ≡ notifier_of answer) }
        ensures few { IfOk result (λ a. AllByRecursion (λ p. length p.fds < 2 ^ 32) a.messages.items) }
    {
        let Some(done) = answer.into_done() else {
            let error = unknown_method(alloc, member)?;
            return Answered::refused(alloc, call, &error);
        };
        let (outcome, before, after, notifier) = done.into_parts();
        let mut messages = Vec::new(alloc);
        push_signals(alloc, &mut messages, call, before)?;
        push_reply(alloc, &mut messages, call, outcome)?;
        push_signals(alloc, &mut messages, call, after)?;
        Ok(Answered { messages, notifier })
    }
}
