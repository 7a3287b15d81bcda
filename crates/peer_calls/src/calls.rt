//! The calls of a peer: they are made, given their replies, polled and dropped, and end with the peer.
ghost use Rattle.std.specs.Prelude.{Bool, ℕ, ◌≡◌, ◌+◌, ◌<◌, ◌++◌, ◌∷◌, [], List, length, IfSome, IfNone, OnOk, OnErr, IfOk, None, is_none, ◌&&◌, option_map, unwrap_or, slice_set, take, true, false};
ghost use Rattle.peer_calls.specs.History.{Received, PeerClosed, Put, OfLane, CallsPast, after, after_all, no_past};
ghost use Rattle.wire_message.specs.Replying.{replies_to, is_reply, is_serial};
ghost use Rattle.peer_calls.specs.Calls.{poll_answer, poll_events, drop_answer, drop_events, match_call_pending};
ghost use Rattle.wire_message.specs.Polls as answers;
ghost use Rattle.peer_calls.specs.Refinement.{CallsView, RefinesCalls, waiting_serial, IsIndex};
ghost use Rattle.wire_message.specs.Front.{MessageView};
ghost use Rattle.wire_message.specs.Closing.{closes};

use crate::slot_table::{Slot, SlotTable};
use std::alloc::{AllocError, Global};
use std::collections::BTreeMap;
use std::marker::Model;
use wire_message::{
    ClosingError, Error, Message, MessageType, Polled, Sequence, Taken, by_position,
};

/// The calls of a peer, by the order in which they were made, with their answers: a method return or an error answers the call
/// whose serial it has as its reply serial (D-Bus Specification, "Message Protocol", "Types of messages"). At most 2^64 - 1 are
/// made.
pub struct PendingMethodCalls {
    slots: SlotTable,
    /// While the peer is open: for each serial that is waited for, the number of the call that waits, so that none is searched for.
    waiting: BTreeMap<u32, u64>,
    closing: Option<ClosingError>,
}

impl Drop for PendingMethodCalls {
    fn drop(self) {
        let PendingMethodCalls {
            slots: _,
            waiting: _,
            closing: _,
        } = self;
    }
}

impl Model for PendingMethodCalls {
    ghost use Rattle.std.specs.Prelude.{◌≡◌, None};
    ghost use Rattle.peer_calls.specs.Refinement.{CallsView, IsIndex};

    ghost Value = { CallsView };

    ghost view = { λ c. record { slots = c.slots; closing = c.closing } };

    ghost invariant = { λ c. c.closing ≡ None → IsIndex c.waiting c.slots };
}

/// The serial that a return or an error answers.
fn answered(message: &Message) -> Option<u32>
    ensures { (serial : ℕ) → replies_to serial message.now ≡ is_serial result serial }
{
    match message.message_type() {
        MessageType::MethodReturn | MessageType::Error => message.reply_serial(),
        MessageType::MethodCall | MessageType::Signal => None,
    }
}

/// Nothing is kept any more of the call with this number: its serial, if it waited, is waited for no more. Nothing changes past
/// the last call.
fn forget(slots: &mut SlotTable, waiting: &mut BTreeMap<u32, u64>, call: u64)
    ensures slots { slots.new ≡ slice_set slots.old call Slot.Gone }
    ensures waiting { IsIndex waiting.old slots.old → IsIndex waiting.new slots.new }
{
    if let Some(serial) = slots.take(call).serial() {
        let _ = waiting.remove(&serial);
    }
}

/// The calls behind the first `count` are taken back, and the serials that they waited for.
fn take_back_to(slots: &mut SlotTable, waiting: &mut BTreeMap<u32, u64>, count: u64)
    ensures slots { slots.new ≡ take count slots.old }
    ensures waiting { IsIndex waiting.old slots.old → IsIndex waiting.new slots.new }
{
    while slots.len() > count {
        let last = slots.len() - 1;
        forget(slots, waiting, last);
        let _ = slots.pop();
    }
}

impl PendingMethodCalls {
    /// No calls.
    pub fn new(alloc: Global) -> PendingMethodCalls
        ensures { RefinesCalls result no_past }
    {
        PendingMethodCalls {
            slots: SlotTable::new(alloc),
            waiting: BTreeMap::new(alloc),
            closing: None,
        }
    }

    /// A new call whose message has this serial, and its number, from 0 on. The serial isn't 0 and isn't pending.
    ///
    /// # Errors
    ///
    /// AllocError for want of memory, and where 2^64 - 1 calls were made. An error changes nothing.
    pub fn register_call(&mut self, serial: u32) -> Result<u64, AllocError>
        requires in_circle { 0 < serial }
        requires free { waiting_serial self.old serial ≡ false }
        ensures err { OnErr result (self.new ≡ self.old) }
        ensures number { IfOk result (λ k. k ≡ length self.old.slots) }
        ensures ok { OnOk result (self.new ≡ record self.old { slots = self.old.slots ++ Slot.Waiting serial false ∷ [] }) }
        ensures left { OnOk result ((p : CallsPast) (m : MessageView) → m.serial ≡ serial → RefinesCalls self.old p → RefinesCalls self.new (after (Put m (OfLane true)) p)) }
    {
        self.register(serial, false)
    }

    /// A new call whose message has this serial, one of the peer's own or another's, and its number, from 0 on. The serial isn't
    /// 0 and isn't pending.
    ///
    /// # Errors
    ///
    /// AllocError for want of memory, and where 2^64 - 1 calls were made. An error changes nothing.
    pub fn register(&mut self, serial: u32, internal: bool) -> Result<u64, AllocError>
        requires in_circle { 0 < serial }
        requires free { waiting_serial self.old serial ≡ false }
        ensures err { OnErr result (self.new ≡ self.old) }
        ensures number { IfOk result (λ k. k ≡ length self.old.slots) }
        ensures ok { OnOk result (self.new ≡ record self.old { slots = self.old.slots ++ Slot.Waiting serial internal ∷ [] }) }
    {
        let call = self.slots.len();
        self.slots.push(serial, internal)?;
        if self.closing.is_none() && self.waiting.insert(serial, call).is_err() {
            // without room for its serial the call is not made
            let _ = self.slots.pop();
            return Err(AllocError);
        }
        Ok(call)
    }

    /// Gives a message to the call that waits for its reply serial. It is handed back exactly where none does; after the closing
    /// error none waits.
    pub fn complete_call(&mut self, message: Message) -> Option<Message>
        ensures exact { is_none result ≡ (is_reply message.kind && unwrap_or (option_map (waiting_serial self.old) message.reply_serial) false) }
        ensures none { IfNone result ((p : CallsPast) → RefinesCalls self.old p → RefinesCalls self.new (after (Received message) p)) }
        ensures back { IfSome result (λ m. (m ≡ message) × (self.new ≡ self.old)) }
        ensures left { IfSome result (λ m. (p : CallsPast) → RefinesCalls self.old p → p.closing ≡ None → RefinesCalls self.new (after (Received message) p)) }
    {
        if self.closing.is_some() {
            return Some(message);
        }
        let Some(serial) = answered(&message) else {
            return Some(message);
        };
        match self.waiting.remove(&serial) {
            None => Some(message),
            Some(call) => {
                self.slots.put_reply(call, message);
                None
            }
        }
    }

    /// The call with this number gets no answer, since its message failed or it is dropped. Nothing changes where no such call was made.
    pub fn on_write_failed(&mut self, call: usize)
        ensures { self.new ≡ record { slots = slice_set self.old.slots call Slot.Gone; closing = self.old.closing } }
    {
        forget(&mut self.slots, &mut self.waiting, call as u64);
    }

    /// How many calls were made.
    pub fn len(&self) -> usize
        ensures { result ≡ length self.now.slots }
    {
        self.slots.len() as usize
    }

    /// Takes the calls back that were made since there were `count`, as if they had not been made.
    pub fn take_back(&mut self, count: usize)
        ensures { self.new ≡ record { slots = take count self.old.slots; closing = self.old.closing } }
    {
        take_back_to(&mut self.slots, &mut self.waiting, count as u64);
    }

    /// Answers each call that waits, and each one made later, with the closing error; a later one changes nothing.
    pub fn fail_all(&mut self, error: &Error)
        requires { closes error.now ≡ true }
        ensures { (p : CallsPast) → RefinesCalls self.old p → RefinesCalls self.new (after (PeerClosed error.now) p) }
    {
        if self.closing.is_none() {
            self.closing = ClosingError::of(error);
            self.waiting.clear();
        }
    }

    /// Whether an AddMatch or a RemoveMatch is on its way, on an open peer (D-Bus Specification, "Message Bus Messages").
    pub fn match_call_pending(&self) -> bool
        ensures flying { (p : CallsPast) → RefinesCalls self.now p → result ≡ match_call_pending p }
    {
        self.closing.is_none() && self.slots.has_internal()
    }

    /// The error that closed the peer.
    pub fn closing(&self) -> Option<Error>
        ensures { result ≡ self.now.closing }
    {
        match self.closing {
            Some(error) => Some(Error::from(error)),
            None => None,
        }
    }

    /// The answer of the call with this number: its reply once, else the closing error once, else NotYet. Takes no memory.
    ///
    /// # Errors
    ///
    /// UnknownHandle exactly where no such call was made, its answer was given, it was dropped, its message's write failed, or it
    /// is one of the peer's own. An error changes nothing.
    pub fn poll(&mut self, call: u64) -> Result<Polled<Message>, Error>
        ensures answer { (p : CallsPast) → RefinesCalls self.old p → result ≡ poll_answer p call }
        ensures left { (p : CallsPast) → RefinesCalls self.old p → RefinesCalls self.new (after_all (poll_events call result) p) }
    {
        if self.slots.is_empty(call) {
            return Err(Error::UnknownHandle);
        }
        if let Some(message) = self.slots.take_reply(call) {
            return Ok(Polled::Now(message));
        }
        let Some(error) = self.closing else {
            return Ok(Polled::NotYet);
        };
        let _ = self.slots.take(call);
        Ok(Polled::Closed(Error::from(error)))
    }
}

impl PendingMethodCalls {
    /// The answer of the call with this number as `poll` gives it, but NoneBefore in place of NotYet: what is there is the
    /// call's one answer, wherever it stands, so the position isn't looked at. Takes no memory.
    ///
    /// # Errors
    ///
    /// UnknownHandle exactly where `poll` gives it. An error changes nothing.
    pub fn poll_before(&mut self, call: u64, _before: Sequence) -> Result<Polled<Message>, Error>
        ensures answer { (p : CallsPast) → RefinesCalls self.old p → result ≡ answers.by_position (poll_answer p call) }
        ensures left { (p : CallsPast) → RefinesCalls self.old p → RefinesCalls self.new (after_all (poll_events call result) p) }
    {
        by_position(self.poll(call))
    }

    /// Drops the call with this number: its answer is waited for no more, and a poll of it is refused. Takes no memory.
    ///
    /// # Errors
    ///
    /// UnknownHandle exactly where no such call was made, its answer was given, it was dropped before, its message's write
    /// failed, or it is one of the peer's own. An error changes nothing.
    pub fn drop_call(&mut self, call: u64) -> Result<(), Error>
        ensures answer { (p : CallsPast) → RefinesCalls self.old p → result ≡ drop_answer p call }
        ensures left { (p : CallsPast) → RefinesCalls self.old p → RefinesCalls self.new (after_all (drop_events call result) p) }
    {
        if self.slots.is_empty(call) {
            return Err(Error::UnknownHandle);
        }
        forget(&mut self.slots, &mut self.waiting, call);
        Ok(())
    }
}

impl Taken for PendingMethodCalls {
    ghost is_taken = { waiting_serial };

    fn taken(&self, serial: u32) -> bool {
        self.closing.is_none() && self.waiting.contains_key(&serial)
    }

    fn count(&self) -> u64 {
        match self.closing {
            Some(_) => 0,
            None => self.waiting.len() as u64,
        }
    }
}
