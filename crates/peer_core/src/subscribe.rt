//! Streams of rules: those that are open at once, and those for which the bus is asked (D-Bus Specification, "Match Rules").
ghost use Rattle.std.specs.Prelude.{◌&&◌, ⊤, ◌≡◌, ◌≢◌, ◌∷◌, [], IfOk, IfErr, None, true};
ghost use Rattle.wire_names.specs.Names.{is_member_name};
ghost use Rattle.wire_tree.specs.Datum.{text, string};
ghost use Rattle.rule_match.specs.Text.{rule_text};
ghost use Rattle.peer_core.specs.History.{OnBus, Past, after, after_all};
ghost use Rattle.peer_core.specs.Asked.{asks_bus, opening_answer, opening_events, may_be_signal};
ghost use Rattle.peer_core.specs.Issuing.{IssuesBy};
ghost use Rattle.peer_core.specs.Bus.{IsOpening, OpensRule, IsShownAs};
ghost use Rattle.peer_core.specs.BusCall.{bus_builder, match_call, asking_of};
ghost use Rattle.peer_core.specs.Refinement.{Refines};
ghost use Rattle.peer_core.specs.declared.subscribe.Opened.{Opened};
ghost use Rattle.peer_core.specs.Handles.{OpeningView};
ghost use Rattle.wire_message.specs.Outgoing.{values_of};
ghost use Rattle.peer_core.specs.Placing.{IsMore};

use crate::route::Route;
use peer_streams::{MessageStream, OpenState};
use rule_match::{MatchRule, OwnedMatchRule, rules_hold_their_grammar};
use std::alloc::Global;
use std::marker::Model;
use wire_message::{
    Builder, Error, IoKind, LongText, Message, MessageType, OutgoingBody, OutgoingMessage, Result,
};
use wire_value::{BusName, InterfaceName, MemberName, ObjectPath, Text, VariantError, to};

/// A stream that waits for the return to its AddMatch, for who asked for it (D-Bus Specification, "Message Bus Messages",
/// `org.freedesktop.DBus.AddMatch`). `open_rule` makes it, and `poll_open` hands it in for the stream once that is open.
pub struct Opening {
    stream: MessageStream,
    index: u64,
    serial: u32,
}

impl Drop for Opening {
    fn drop(self) {
        let Opening {
            stream: _,
            index: _,
            serial: _,
        } = self;
    }
}

impl Model for Opening {
    ghost use Rattle.peer_core.specs.Handles.{OpeningView};

    ghost Value = { OpeningView };

    ghost view = { λ o. record { stream = o.stream; index = o.index; serial = o.serial } };
}

impl Opening {
    /// The place of the AddMatch in the outbox, from 0 on.
    pub fn index(&self) -> u64
        ensures { result ≡ self.now.index }
    {
        self.index
    }

    /// The serial of the AddMatch.
    pub fn serial(&self) -> u32
        ensures { result ≡ self.now.serial }
    {
        self.serial
    }

    /// The stream, which is open.
    fn into_stream(self) -> MessageStream
        ensures { result ≡ self.stream }
    {
        let Opening {
            stream,
            index: _,
            serial: _,
        } = self;
        stream
    }
}

/// A stream of a rule that was opened.
#[derive(Drop)]
pub enum Opens {
    /// It is open at once.
    Open(MessageStream),
    /// It waits for the return to its AddMatch.
    Opening(Opening),
}

/// What became of a stream that waits for the return to its AddMatch.
#[derive(Drop)]
pub enum Opened {
    /// It is open.
    Open(MessageStream),
    /// No reply came yet.
    NotYet(Opening),
    /// There is no memory. `poll_open` takes none, so that it never gives this.
    Memory(Opening),
    /// The bus denied it, by this error.
    Refused(Message),
    /// It is over: the peer was closed before a reply came, or it wasn't one that is being opened.
    Over(Error),
}

/// The bus's name, which is its interface's name too.
const BUS: &str = "org.freedesktop.DBus";

/// Whether a signal may be what the rule accepts.
fn may_be_signal(rule: &MatchRule) -> bool
    ensures { result ≡ may_be_signal rule.now.kind }
{
    match rule.msg_type() {
        None | Some(MessageType::Signal) => true,
        Some(MessageType::MethodCall | MessageType::MethodReturn | MessageType::Error) => false,
    }
}

/// The call of a method of the bus; its sender isn't set yet.
fn bus_call(member: &'static str) -> Builder<'static>
    requires { is_member_name member.now ≡ true }
    ensures { result ≡ bus_builder None member.now }
{
    let Ok(path) = ObjectPath::try_from("/org/freedesktop/DBus") else {
        unreachable!()
    };
    let Ok(interface) = InterfaceName::try_from(BUS) else {
        unreachable!()
    };
    let Ok(destination) = BusName::try_from(BUS) else {
        unreachable!()
    };
    let Ok(member) = MemberName::try_from(member) else {
        unreachable!()
    };
    Message::method_call(&path, &member)
        .interface(&interface)
        .destination(&destination)
}

/// The body with a rule's text.
fn rule_body(alloc: Global, rule: &MatchRule) -> Result<OutgoingBody>
    ensures body { IfOk result (λ body. values_of body ≡ text string (rule_text rule.now) ∷ []) }
    ensures error { IfErr result (λ e. e ≡ Error.Memory) }
{
    rules_hold_their_grammar(rule);
    match LongText::of(Text::from_string(rule.to_string(alloc)?)) {
        Ok(long) => Ok(OutgoingBody::Long(long)),
        Err(short) => match to(alloc, (short,)) {
            Ok(values) => Ok(OutgoingBody::Values(values)),
            // A rule's text is UTF-8, has no 0 byte, and is short enough.
            Err(VariantError::Malformed) => unreachable!(),
            Err(error) => {
                // One string is a signature, so that nothing but memory was wanting.
                prove!(matches!(&error, VariantError::Memory));
                Err(Error::Memory)
            }
        },
    }
}

/// The call of a method of the bus about a rule; its sender isn't set yet.
pub(crate) fn match_message(
    alloc: Global,
    member: &'static str,
    rule: &MatchRule,
) -> Result<OutgoingMessage<'static>>
    requires { is_member_name member.now ≡ true }
    ensures message { IfOk result (λ message. message ≡ match_call member.now None rule.now) }
    ensures error { IfErr result (λ e. e ≡ Error.Memory) }
{
    let body = rule_body(alloc, rule)?;
    Ok(OutgoingMessage::from_parts(bus_call(member), body, Vec::new(alloc)))
}

impl Route {
    /// From now on the peer stands on a message bus: it asks the bus for what its rules accept.
    pub fn set_bus(&mut self)
        ensures { (p : Past) → Refines self.old p → Refines self.new (after OnBus p) }
    {
        self.bus = true;
    }

    /// Whether the peer stands on a message bus.
    pub fn is_bus(&self) -> bool
        ensures { (p : Past) → Refines self.now p → result ≡ p.bus }
    {
        self.bus
    }

    /// Whether the bus sends what the rule accepts only to who asks for it: the peer stands on one, and a signal may be accepted.
    pub(crate) fn serves(&self, rule: &OwnedMatchRule) -> bool
        ensures { (p : Past) → Refines self.now p → result ≡ (p.bus && may_be_signal rule.now.kind) }
    {
        self.bus && may_be_signal(rule.inner())
    }

    /// Whether the bus has to be asked for what the rule accepts: no stream of it is open, or being opened.
    fn asks_bus(&self, rule: &OwnedMatchRule) -> bool
        ensures { (p : Past) → Refines self.now p → result ≡ asks_bus p rule.now }
    {
        self.serves(rule) && !self.streams.has_rule(rule)
    }

    /// Puts the AddMatch of a rule, and makes the stream that waits for its return. Where it is refused, some of it may have been
    /// done.
    fn put_asking(&mut self, rule: OwnedMatchRule, asked: Option<u64>) -> Result<Opening>
        ensures asks { (p : Past) → Refines self.old p
            → IssuesBy (λ opening serials. IsOpening p (Opens.Opening opening) serials) ⊤ (Refines self.new) (asking_of p rule asked ∷ []) p result }
        ensures more { IfErr result (λ e. IsMore self.old self.new) }
    {
        let mut messages = Vec::new(self.alloc);
        messages.push(match_message(self.alloc, "AddMatch", rule.inner())?)?;
        let index = self.outbox.len() as u64;
        let _ = self.put_all(messages, false, true)?;
        let serial = self.serials.last();
        let stream = self.streams.open_asking(rule, asked, serial, index)?;
        Ok(Opening {
            stream,
            index,
            serial,
        })
    }

    /// Opens a stream of those messages that are read from now on and that the rule accepts. On a bus, where the rule may accept
    /// signals and no stream of it is open, AddMatch is put, and the stream is open from the read of its return on.
    ///
    /// All streams of one rule share one capacity: the rule's first gives it the one that is asked for, or 8 where the rule is one
    /// of an owner's changes (the bus's NameOwnerChanged of one name), else 64; a later one that asks for more raises it.
    ///
    /// # Errors
    ///
    /// The first that holds: InputOutput(Closed) exactly where the peer is closed; Busy exactly where an AddMatch or a RemoveMatch
    /// of the peer is on its way; and where AddMatch is to be put, SerialsSpent exactly where each of the 4,294,967,295 serials is
    /// pending, ExcessData exactly where the message would pass 134,217,728 bytes, InputOutput(WriteFault) exactly where a write
    /// failed. Memory for want of memory. An error changes nothing.
    pub fn open_rule(&mut self, rule: OwnedMatchRule, max_queued: Option<u64>) -> Result<Opens>
        ensures opens { (p : Past) → Refines self.old p → OpensRule self.old self.new rule max_queued p result }
    {
        if self.calls.closing().is_some() {
            return Err(Error::InputOutput(IoKind::Closed));
        }
        if self.calls.match_call_pending() {
            return Err(Error::Busy);
        }
        if !self.asks_bus(&rule) {
            return Ok(Opens::Open(self.open_unasked(rule, max_queued)?));
        }
        let mark = self.mark();
        match self.put_asking(rule, max_queued) {
            Ok(opening) => Ok(Opens::Opening(opening)),
            Err(error) => {
                self.take_back(mark);
                Err(error)
            }
        }
    }

    /// What became of the stream: it is open from the read of the return to its AddMatch on, and holds what came since; NotYet
    /// exactly where the peer is open and no reply came. Refused with an error that is the reply, and Over with what closed the
    /// peer before a reply came, end it; Over(UnknownHandle) exactly where it isn't one that is being opened. Takes no memory, and
    /// never gives Memory.
    pub fn poll_open(&mut self, opening: Opening) -> Opened
        ensures given { (o : OpeningView) → result ≢ Opened.Memory o }
        ensures shown { (p : Past) → Refines self.old p → IsShownAs opening (opening_answer p opening.stream) result }
        ensures left { (p : Past) → Refines self.old p → Refines self.new (after_all (opening_events opening.stream (opening_answer p opening.stream)) p) }
    {
        let closing = self.calls.closing();
        match self.streams.ask_open(opening.stream.number(), closing) {
            OpenState::Unknown => Opened::Over(Error::UnknownHandle),
            OpenState::NotYet => Opened::NotYet(opening),
            OpenState::Open => Opened::Open(opening.into_stream()),
            OpenState::Refused(message) => Opened::Refused(message),
            OpenState::Over(error) => Opened::Over(error),
        }
    }
}
