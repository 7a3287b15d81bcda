//! A peer's streams.
ghost use Rattle.peer_streams.specs.History.{Cloned, Plain, Ruled};
ghost use Rattle.peer_core.specs.History.{streams_of, Made, Main, Past, after, after_all};
ghost use Rattle.std.specs.Prelude.{ℕ, ◌≡◌, ◌++◌, ◌∷◌, List, length, option_map, OnOk, OnErr, IfOk};
ghost use Rattle.peer_core.specs.Asked.{take_answer, take_events, next_message, next_position, are_open, ask_answer, ask_events, limit_answer, rule_answer, stored};
ghost use Rattle.peer_streams.specs.Streams.{is_over};
ghost use Rattle.peer_streams.specs.Refinement.{ClonesBy};
ghost use Rattle.wire_message.specs.Polls as answers;
ghost use Rattle.peer_core.specs.Refinement.{Refines};

use crate::route::Route;
use peer_streams::MessageStream;
use rule_match::{MatchRule, OwnedMatchRule};
use std::alloc::AllocError;
use wire_message::{Error, Message, Polled, Result, Sequence, by_position};

impl Route {
    /// Opens a stream of all messages that are read from now on. One that is opened on a closed peer is ended.
    ///
    /// # Errors
    ///
    /// AllocError for want of memory, and where 2^64 - 1 streams were made. An error changes nothing.
    ///
    /// # Examples
    ///
    /// ```
    /// use peer_core::{Polled, Route};
    /// let mut route = Route::new(rt.alloc());
    /// let stream = route.open()?;
    /// assert!(rt; matches!(&route.take(&stream)?, Polled::NotYet));
    /// Ok(())
    /// ```
    pub fn open(&mut self) -> std::result::Result<MessageStream, AllocError>
        ensures number { IfOk result (λ s. s ≡ length self.old.streams) }
        ensures left { OnOk result ((p : Past) → Refines self.old p → Refines self.new (after (Made Plain) p)) }
        ensures same { OnErr result (self.new ≡ self.old) }
    {
        let closing_delivered = self.calls.closing().is_some();
        self.streams.open(closing_delivered)
    }

    /// Opens a stream of a rule at once, whatever is on its way, and doesn't ask the bus: for what a bus sends a peer unasked, as
    /// the calls of its methods (D-Bus Specification, "Message Bus Message Routing"). It asks for that capacity, if for one. One
    /// that is opened on a closed peer is ended. While it is open, `open_rule` doesn't ask the bus for its rule either.
    ///
    /// # Errors
    ///
    /// AllocError for want of memory, and where 2^64 - 1 streams were made. An error changes nothing.
    pub fn open_unasked(
        &mut self,
        rule: OwnedMatchRule,
        max_queued: Option<u64>,
    ) -> std::result::Result<MessageStream, AllocError>
        ensures number { IfOk result (λ s. s ≡ length self.old.streams) }
        ensures left { OnOk result ((p : Past) → Refines self.old p → Refines self.new (after (Made (Ruled rule max_queued)) p)) }
        ensures same { OnErr result (self.new ≡ self.old) }
    {
        let closing_delivered = self.calls.closing().is_some();
        self.streams.open_rule(rule, max_queued, closing_delivered)
    }

    /// The stream's rule; None where it has none, or isn't open.
    pub fn match_rule(&self, stream: &MessageStream) -> Option<&OwnedMatchRule>
        ensures { (p : Past) → Refines self.now p → option_map (λ r. r.now) result ≡ rule_answer p stream.now }
    {
        self.streams.rule(stream.number())
    }

    /// Opens a stream that goes on where that one is: it holds what that holds now, and tells the closing error unless that
    /// told it.
    ///
    /// # Errors
    ///
    /// UnknownHandle exactly where that stream isn't open. Memory for want of memory, and where 2^64 - 1 streams were made. An
    /// error changes nothing.
    pub fn clone_stream(&mut self, stream: &MessageStream) -> Result<MessageStream>
        ensures { (p : Past) → Refines self.old p → ClonesBy (Refines self.new (after (Made (Cloned stream.now)) p)) self.old self.new stream.now (streams_of p) result }
    {
        self.streams.open_clone(stream.number())
    }

    /// Whether the stream with this number is open, and the second, where there is one, and they are two.
    pub(crate) fn are_open(&self, stream: u64, second: Option<u64>) -> bool
        ensures { (p : Past) → Refines self.now p → result ≡ are_open p stream second }
    {
        match second {
            Some(other) => self.streams.are_two(stream, other),
            None => self.streams.is_open(stream),
        }
    }

    /// How many messages the stream may hold before reads wait.
    ///
    /// # Errors
    ///
    /// UnknownHandle exactly where it isn't open.
    pub fn max_queued(&self, stream: &MessageStream) -> Result<u64>
        ensures { (p : Past) → Refines self.now p → result ≡ limit_answer p stream.now }
    {
        self.streams
            .limit(stream.number(), self.main)
            .ok_or(Error::UnknownHandle)
    }

    /// Asks that the stream may hold so many messages. A larger number raises how many each open stream of its rule may hold, or,
    /// where it has none, each stream without a rule; a smaller one is passed over. Takes no memory.
    ///
    /// # Errors
    ///
    /// UnknownHandle exactly where it isn't open. An error changes nothing.
    pub fn set_max_queued(&mut self, stream: &MessageStream, max: u64) -> Result<()>
        ensures answer { (p : Past) → Refines self.old p → result ≡ ask_answer p stream.now }
        ensures left { (p : Past) → Refines self.old p → Refines self.new (after_all (ask_events stream.now max result) p) }
    {
        let number = stream.number();
        if !self.streams.is_open(number) {
            return Err(Error::UnknownHandle);
        }
        if !self.streams.ask(number, max) {
            self.main = self.main.max(max);
        }
        Ok(())
    }

    /// How many messages a stream without a rule may hold before reads wait: 64, until it is set or raised.
    pub fn main_max_queued(&self) -> u64
        ensures { (p : Past) → Refines self.now p → result ≡ p.capacities.main }
    {
        self.main
    }

    /// Sets how many messages a stream without a rule may hold before reads wait. Nothing that is held goes away.
    pub fn set_main_max_queued(&mut self, max: u64)
        ensures { (p : Past) → Refines self.old p → Refines self.new (after (Main max) p) }
    {
        self.main = max;
    }

    /// The most messages that an open stream of this rule holds, or one without a rule; 0 without one. Takes no memory.
    pub fn stored(&self, rule: Option<&MatchRule>) -> usize
        ensures { (p : Past) → Refines self.now p → result ≡ stored p (option_map (λ r. r.now) rule.entry) }
    {
        self.streams.stored(rule)
    }

    /// Whether nothing comes from the stream any more: it gave all and the closing error, or it isn't open.
    pub fn is_terminated(&self, stream: &MessageStream) -> bool
        ensures { (p : Past) → Refines self.now p → result ≡ is_over (take_answer p stream.now) }
    {
        let closed = self.calls.closing().is_some();
        self.streams.is_terminated(stream.number(), closed)
    }

    /// What the stream gives next: the first message that it holds; else NotYet on an open peer; else the closing error
    /// once; from then on Ended. Takes no memory.
    ///
    /// # Errors
    ///
    /// UnknownHandle exactly where it isn't open: it was never made, isn't open yet, or was closed. An error changes nothing.
    pub fn take(&mut self, stream: &MessageStream) -> Result<Polled<Message>>
        ensures answer { (p : Past) → Refines self.old p → result ≡ take_answer p stream.now }
        ensures left { (p : Past) → Refines self.old p → Refines self.new (after_all (take_events stream.now result) p) }
    {
        self.streams.take(stream.number(), self.calls.closing())
    }

    /// What the stream gives next as `take` gives it, but NoneBefore in place of NotYet: an item is given wherever it stands,
    /// so the position isn't looked at. Takes no memory.
    ///
    /// # Errors
    ///
    /// UnknownHandle exactly where it isn't open. An error changes nothing.
    pub fn take_before(
        &mut self,
        stream: &MessageStream,
        _before: Sequence,
    ) -> Result<Polled<Message>>
        ensures answer { (p : Past) → Refines self.old p → result ≡ answers.by_position (take_answer p stream.now) }
        ensures left { (p : Past) → Refines self.old p → Refines self.new (after_all (take_events stream.now result) p) }
    {
        by_position(self.take(stream))
    }

    /// The first message that the stream holds, which it gives next; None where it holds none, or isn't open.
    pub fn next_message(&self, stream: &MessageStream) -> Option<&Message>
        ensures { (p : Past) → Refines self.now p → option_map (λ m. m.now) result ≡ next_message p stream.now }
    {
        self.streams.next_message(stream.number())
    }

    /// The position of the first message that the stream holds; None where it holds none, or isn't open.
    pub fn next_position(&self, stream: &MessageStream) -> Option<u64>
        ensures { (p : Past) → Refines self.now p → result ≡ next_position p stream.now }
    {
        self.streams.next_position(stream.number())
    }
}
