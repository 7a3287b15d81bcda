//! The core's own state, and what messages that arrive, writes and the closing do to it; its calls and its outbox.
ghost use Rattle.std.specs.Prelude.{ℕ, ◌≡◌, ◌≢◌, ◌↔◌, IsTrue, ◌+◌, ◌<◌, ◌≤◌, ◌^◌, ◌-◌, ◌==◌, [], ◌∷◌, ◌++◌, List, length, position, slice_get, option_copied, option_map, is_none, Some, None, Ok, Err, true, false, IfOk, IfErr, OnOk, OnErr};
ghost use Rattle.std.specs.Borrow.{sem};
ghost use Rattle.peer_calls.specs.Refinement.{Rising};
ghost use Rattle.peer_core.specs.Lending.{LendsCalls};
ghost use Rattle.peer_core.specs.History.{Received, PeerClosed, Wrote, WriteFailed, Named, Past, after, after_all, no_past};
ghost use Rattle.peer_core.specs.Asked.{poll_answer, poll_events, drop_answer, drop_events, busy, subscribed_rules};
ghost use Rattle.wire_message.specs.Polls as answers;
ghost use Rattle.peer_core.specs.Refinement.{is_busy, RouteView, Refines};
ghost use Rattle.wire_message.specs.Front.{MessageView};
ghost use Rattle.wire_message.specs.Closing.{closes};

use peer_calls::{PendingMethodCalls, Writer};
use peer_streams::Streams;
use std::alloc::{AllocFailed, Global};
use std::marker::Model;
use std::sync::ledger::Ledger;
use wire_message::{Error, Message, Polled, Result, Sequence, Serials, Steps};
use wire_value::OwnedUniqueName;

/// How many messages a stream may hold before reads wait, until it is set.
const CAPACITY: u64 = 64;

/// The core of a peer: its calls, its streams, what was read, what closed it, its serials and its outbox (D-Bus Specification,
/// "Message Protocol", "Match Rules"). It holds what a history leaves, and no history.
pub struct Route {
    pub(crate) alloc: Global,
    pub(crate) calls: PendingMethodCalls,
    /// Whether the peer stands on a message bus.
    pub(crate) bus: bool,
    /// Its unique name, by which it sends.
    pub(crate) name: Option<OwnedUniqueName>,
    pub(crate) streams: Streams,
    /// How many messages a stream without a rule may hold before reads wait.
    pub(crate) main: u64,
    received: u64,
    pub(crate) serials: Serials,
    pub(crate) outbox: Vec<Message>,
    /// For each call, by its number, the place of its message in the outbox.
    pub(crate) places: Vec<u64>,
    done: u64,
    pub(crate) writer: Writer,
}

impl Drop for Route {
    fn drop(self) {
        let Route {
            alloc: _,
            calls: _,
            bus: _,
            name: _,
            streams: _,
            main: _,
            received: _,
            serials: _,
            outbox: _,
            places: _,
            done: _,
            writer: _,
        } = self;
    }
}

impl Model for Route {
    ghost use Rattle.peer_core.specs.Refinement.{RouteView};

    ghost Value = { RouteView };

    ghost view = { λ r. record { calls = r.calls; bus = r.bus; name = r.name; streams = r.streams; main = r.main; read = r.received; last = r.serials; outbox = r.outbox.items; places = r.places.items; done = r.done; writer = r.writer } };
}

/// The number of the call whose message has this place in the outbox, by the places of the calls, which rise.
fn call_at(places: &[u64], index: u64) -> Option<usize>
    ensures { Rising places.now → result ≡ position (λ place. place == index) places.now }
{
    places.binary_search(&index).ok()
}

impl Route {
    /// A peer that nothing happened to.
    pub fn new(alloc: Global) -> Route
        ensures { Refines result no_past }
    {
        Route {
            alloc,
            calls: PendingMethodCalls::new(alloc),
            bus: false,
            name: None,
            streams: Streams::new(alloc),
            main: CAPACITY,
            received: 0,
            serials: Serials::new(),
            outbox: Vec::new(alloc),
            places: Vec::new(alloc),
            done: 0,
            writer: Writer::Fine,
        }
    }

    /// Gives the peer its unique name: true exactly where it had none. One that it has stays (D-Bus Specification, "Bus names").
    pub fn set_unique_name(&mut self, name: OwnedUniqueName) -> bool
        ensures exact { result ≡ is_none self.old.name }
        ensures named { IsTrue result → (p : Past) → Refines self.old p → Refines self.new (after (Named name) p) }
        ensures same { result ≡ false → self.new ≡ self.old }
    {
        if self.name.is_some() {
            return false;
        }
        self.name = Some(name);
        true
    }

    /// The peer's unique name; None before it got one.
    pub fn unique_name(&self) -> Option<&OwnedUniqueName>
        ensures { option_map (λ name. name.now) result ≡ self.now.name }
    {
        self.name.as_ref()
    }

    /// Takes a message that was read: the call that it answers gets it, and each open stream that has no rule or whose rule
    /// accepts it; a stream whose AddMatch it answers is opened or denied. The peer is open and not busy, and the message's
    /// position is one above the number read, at most 2^64 - 2. One step is one test of a rule: each rule that is subscribed is
    /// tested once at most, however many streams share it. Who counts none hands in a ledger that a function of its own is given, as
    /// the program `examples` does in `calling.rt`.
    ///
    /// # Errors
    ///
    /// AllocFailed with the message for want of memory. An error changes nothing.
    pub fn arrive<L: Ledger>(
        &mut self,
        message: Message,
        steps: &mut Steps<L>,
    ) -> std::result::Result<(), AllocFailed<Message>>
        requires is_open { self.old.calls.closing ≡ None }
        requires has_room { is_busy self.old ≡ false }
        requires placed { message.position ≡ self.old.read + 1 }
        requires limit { message.position ≤ 2 ^ 64 - 2 }
        ensures left { OnOk result ((p : Past) → Refines self.old p → Refines self.new (after (Received message) p)) }
        ensures back { IfErr result (λ e. (e.value ≡ message) × (self.new ≡ self.old)) }
        ensures steps { (p : Past) → Refines self.old p → steps.new ≤ steps.old + subscribed_rules p }
    {
        if self.streams.arrive(&message, steps).is_err() {
            return Err(AllocFailed { value: message });
        }
        self.received += 1;
        let _ = self.calls.complete_call(message);
        Ok(())
    }

    /// Whether the peer is open and some open stream holds more messages than it may: then no message may be read.
    pub fn busy(&self) -> bool
        ensures view { result ≡ is_busy self.now }
        ensures busy { (p : Past) → Refines self.now p → result ≡ busy p }
    {
        self.calls.closing().is_none() && self.streams.is_over(self.main)
    }

    /// Closes the peer: each call without a reply is answered with the error, of several the first. InputOutput(Closed) closes
    /// its writer as well, so that nothing is put any more; any other is what ended a read, and leaves the writer as it is.
    pub fn close(&mut self, error: &Error)
        requires { closes error.now ≡ true }
        ensures { (p : Past) → Refines self.old p → Refines self.new (after (PeerClosed error.now) p) }
    {
        self.calls.fail_all(error);
        self.writer = self.writer.then(Writer::of(error));
    }

    /// The answer of the call with this number: its reply once, else the closing error once, else NotYet. Takes no memory.
    ///
    /// # Errors
    ///
    /// UnknownHandle exactly where no such call was made, its answer was given, it was dropped, its message's write failed, or it
    /// is one of the peer's own. An error changes nothing.
    ///
    /// # Examples
    ///
    /// ```
    /// use peer_core::{Polled, Route};
    /// use wire_message::{Message, OutgoingMessage};
    /// use wire_value::{MemberName, ObjectPath, to};
    /// let call = Message::method_call(&ObjectPath::try_from("/a")?, &MemberName::try_from("Ping")?);
    /// let mut list = Vec::new(rt.alloc());
    /// list.push(OutgoingMessage::new(call, to(rt.alloc(), ())?, Vec::new(rt.alloc())))?;
    /// let mut route = Route::new(rt.alloc());
    /// assert!(rt; route.poll(0).is_err() && route.issue(list, false).is_ok());
    /// assert!(rt; matches!(&route.poll(0)?, Polled::NotYet));
    /// Ok(())
    /// ```
    pub fn poll(&mut self, call: u64) -> Result<Polled<Message>>
        ensures answer { (p : Past) → Refines self.old p → result ≡ poll_answer p call }
        ensures left { (p : Past) → Refines self.old p → Refines self.new (after_all (poll_events call result) p) }
    {
        self.calls.poll(call)
    }

    /// The answer of the call with this number as `poll` gives it, but NoneBefore in place of NotYet: the position isn't looked
    /// at. Takes no memory.
    ///
    /// # Errors
    ///
    /// UnknownHandle exactly where `poll` gives it. An error changes nothing.
    pub fn poll_before(&mut self, call: u64, before: Sequence) -> Result<Polled<Message>>
        ensures answer { (p : Past) → Refines self.old p → result ≡ answers.by_position (poll_answer p call) }
        ensures left { (p : Past) → Refines self.old p → Refines self.new (after_all (poll_events call result) p) }
    {
        self.calls.poll_before(call, before)
    }

    /// The calls.
    pub fn calls(&self) -> &PendingMethodCalls
        ensures { result.now ≡ self.now.calls }
    {
        &self.calls
    }

    /// The calls, to be polled or dropped.
    pub fn calls_mut(&mut self) -> &mut PendingMethodCalls
        ensures* lends { sem 𝓛 (LendsCalls self.entry result) }
        ensures value { result.now ≡ self.old.calls }
    {
        &mut self.calls
    }

    /// Drops the call with this number: its answer is waited for no more, and a poll of it is refused. Takes no memory.
    ///
    /// # Errors
    ///
    /// UnknownHandle exactly where no such call was made, its answer was given, it was dropped before, its message's write
    /// failed, or it is one of the peer's own. An error changes nothing.
    pub fn drop_call(&mut self, call: u64) -> Result<()>
        ensures answer { (p : Past) → Refines self.old p → result ≡ drop_answer p call }
        ensures left { (p : Past) → Refines self.old p → Refines self.new (after_all (drop_events call result) p) }
    {
        self.calls.drop_call(call)
    }

    /// The error that closed the peer.
    pub fn closing(&self) -> Option<Error>
        ensures { result ≡ self.now.calls.closing }
    {
        self.calls.closing()
    }

    /// How many messages were read.
    pub fn received(&self) -> u64
        ensures { result ≡ self.now.read }
    {
        self.received
    }

    /// The message that was put at this place, from 0 on; None exactly past the last.
    pub fn outbox(&self, index: u64) -> Option<&Message>
        ensures { option_copied result ≡ slice_get self.now.outbox index }
    {
        self.outbox.get(index as usize)
    }

    /// How many messages were put.
    pub fn outbox_len(&self) -> u64
        ensures { result ≡ length self.now.outbox }
    {
        self.outbox.len() as u64
    }

    /// How many of them were written or failed.
    pub fn outbox_done(&self) -> u64
        ensures { result ≡ self.now.done }
    {
        self.done
    }

    /// Whether a write failed, and the peer wasn't closed before.
    pub fn is_failed(&self) -> bool
        ensures { IsTrue result ↔ (self.now.writer ≡ Writer.Failed) }
    {
        matches!(self.writer, Writer::Failed)
    }

    /// The message at this place, the first that isn't done, was written; no write failed before.
    pub fn wrote(&mut self, index: u64)
        requires first { index ≡ self.old.done }
        requires there { index < length self.old.outbox }
        requires unfailed { self.old.writer ≢ Writer.Failed }
        ensures left { (p : Past) → Refines self.old p → Refines self.new (after Wrote p) }
        ensures moves { (self.new.outbox ≡ self.old.outbox) × (self.new.done ≡ self.old.done + 1) × (self.new.writer ≡ self.old.writer) }
    {
        self.done += 1;
    }

    /// The write of the message at this place, the first that isn't done, failed: its call, if it made one, is gone. From
    /// now on `issue` is refused.
    pub fn write_fault(&mut self, index: u64)
        requires first { index ≡ self.old.done }
        requires there { index < length self.old.outbox }
        ensures left { (p : Past) → Refines self.old p → Refines self.new (after WriteFailed p) }
        ensures moves { (self.new.outbox ≡ self.old.outbox) × (self.new.done ≡ self.old.done + 1) }
    {
        self.done += 1;
        self.writer = self.writer.then(Writer::Failed);
        self.streams.on_write_failed(index);
        if let Some(call) = call_at(&self.places, index) {
            self.calls.on_write_failed(call);
        }
    }
}
