//! Closing streams, and telling the bus which rules have none any more (D-Bus Specification, "Match Rules").
ghost use Rattle.peer_core.specs.History.{streams_of, Past, after_all};
ghost use Rattle.std.specs.Prelude.{ℕ, ◌≡◌, ◌↔◌, ◌<◌, ◌^◌, ◌||◌, [], List, length, filter, is_none, ◌&&◌, option_map, unwrap_or, false, IsTrue, Some, true, if◌then◌else◌, ◌∷◌, IfOk, OnOk, OnErr};
ghost use Rattle.std.specs.List.{AllByRecursion};
ghost use Rattle.peer_core.specs.Asked.{is_open, are_open, has_rule, close_waits, leaves, asks_bus, leaving, gone_if, gone_events};
ghost use Rattle.peer_core.specs.Refinement.{Refines};
ghost use Rattle.peer_streams.specs.Refinement.{RefinesStreams};
ghost use Rattle.peer_core.specs.Issuing.{IssuesBy};
ghost use Rattle.peer_core.specs.BusCall.{last_of, tellings_of};
ghost use Rattle.peer_core.specs.Unsubscribe.{MakesRemovals, ClosesStreams};
ghost use Rattle.peer_core.specs.Placing.{RefinesPosts, IsMore};

use crate::route::Route;
use crate::subscribe::match_message;
use peer_streams::MessageStream;
use rule_match::OwnedMatchRule;
use wire_message::{Error, OutgoingMessage, Result};

/// What closing streams gives.
#[derive(Drop)]
pub enum Spent {
    /// They are closed; the serial of the last RemoveMatch that was put for them, if one was.
    Gone(Option<u32>),
    /// They stay as they were, and are handed back.
    Back(MessageStream, Option<MessageStream>, Error),
    /// They are spent: closed, but the bus can't be told; or they were not open.
    Over(Error),
}

/// The stream's number, where there is one.
fn number_of(stream: &Option<MessageStream>) -> Option<u64>
    ensures { result ≡ stream.now }
{
    match stream {
        Some(stream) => Some(stream.number()),
        None => None,
    }
}

/// Whether it is want of memory.
fn is_memory(error: &Error) -> bool
    ensures { IsTrue result ↔ (error.now ≡ Error.Memory) }
{
    matches!(error, Error::Memory)
}

impl Route {
    /// Whether the bus has to be told of the rule once this stream is closed, and the one that goes before it.
    #[tactic(auto, unfolding(crate::specs::Asked::asks_bus))]
    fn must_tell(&self, rule: &OwnedMatchRule, stream: u64, before: Option<u64>) -> bool
        ensures { (p : Past) → Refines self.now p → filter (λ r. is_none (gone_if (Some stream) (gone_if before p)).closing && asks_bus (gone_if (Some stream) (gone_if before p)) r) (rule.now ∷ []) ≡ (if result then rule.now ∷ [] else []) }
    {
        if self.calls.closing().is_some() || !self.serves(rule) {
            return false;
        }
        !self.streams.rule_in_use(rule, stream, before)
    }

    /// Adds the message by which the bus is told of the stream's rule, where it has to be once the stream is closed, and the one that
    /// goes before it.
    fn add_removal(
        &self,
        messages: &mut Vec<OutgoingMessage<'static>>,
        stream: u64,
        before: Option<u64>,
    ) -> Result<()>
        ensures made { (p : Past) → Refines self.now p → is_open p stream ≡ true
            → MakesRemovals (λ done. messages.new.items) messages.old.items (leaves (gone_if (Some stream) (gone_if before p)) stream) result }
        ensures few { AllByRecursion (λ p. length p.fds < 2 ^ 32) messages.old.items → AllByRecursion (λ p. length p.fds < 2 ^ 32) messages.new.items }
    {
        match self.streams.rule(stream) {
            Some(rule) if self.must_tell(rule, stream, before) => {
                messages.push(match_message(self.alloc, "RemoveMatch", rule.inner())?)?;
                Ok(())
            }
            _ => Ok(()),
        }
    }

    /// The messages by which the bus is told once these streams are closed.
    fn removals(&self, stream: u64, second: Option<u64>) -> Result<Vec<OutgoingMessage<'static>>>
        ensures made { (p : Past) → Refines self.now p → are_open p stream second ≡ true
            → MakesRemovals (λ messages. messages.items) [] (leaving p stream second) result }
        ensures few { IfOk result (λ messages. AllByRecursion (λ p. length p.fds < 2 ^ 32) messages.items) }
    {
        let mut messages: Vec<OutgoingMessage<'static>> = Vec::new(self.alloc);
        self.add_removal(&mut messages, stream, None)?;
        match second {
            Some(second) => self.add_removal(&mut messages, second, Some(stream))?,
            None => {}
        }
        Ok(messages)
    }

    /// Tells the bus which rules have no stream any more once these are closed, and gives the serial of the last message.
    fn send_remove_matches(&mut self, stream: u64, second: Option<u64>) -> Result<Option<u32>>
        ensures tells { (p : Past) → Refines self.old p → are_open p stream second ≡ true
            → IssuesBy (λ last serials. last ≡ last_of serials) (0 < length (leaving p stream second)) (RefinesPosts self.new)
            (tellings_of (after_all (gone_events stream second) p) (leaving p stream second)) (after_all (gone_events stream second) p) result }
        ensures more { OnOk result (IsMore self.old self.new) }
        ensures same { OnErr result (self.new ≡ self.old) }
    {
        let messages = self.removals(stream, second)?;
        if messages.is_empty() {
            return Ok(None);
        }
        let _ = self.put(messages, false, true)?;
        Ok(Some(self.serials.last()))
    }

    /// Whether one of these streams has a rule.
    fn has_rules(&self, stream: u64, second: Option<u64>) -> bool
        ensures { (p : Past) → Refines self.now p → are_open p stream second ≡ true → result ≡ (has_rule p stream || unwrap_or (option_map (has_rule p) second) false) }
    {
        if self.streams.rule(stream).is_some() {
            return true;
        }
        match second {
            Some(second) => self.streams.rule(second).is_some(),
            None => false,
        }
    }

    /// Whether closing these streams has to wait: one of them has a rule, and an AddMatch or a RemoveMatch is on its way.
    #[tactic(auto, unfolding(crate::specs::Asked::close_waits))]
    fn close_waits(&self, stream: u64, second: Option<u64>) -> bool
        ensures { (p : Past) → Refines self.now p → are_open p stream second ≡ true → result ≡ close_waits p stream second }
    {
        self.calls.match_call_pending() && self.has_rules(stream, second)
    }

    /// Nothing is kept of these streams any more.
    fn end_both(&mut self, stream: u64, second: Option<u64>)
        ensures streams { (p : Past) → RefinesStreams self.old.streams (streams_of p) → RefinesStreams self.new.streams (streams_of (after_all (gone_events stream second) p)) }
        ensures same { self.new ≡ record self.old { streams = self.new.streams } }
    {
        self.streams.end(stream);
        if let Some(second) = second {
            self.streams.end(second);
        }
    }

    /// Closes the stream, and then the second, in one step; what they hold goes away. On a bus, RemoveMatch is put for each rule
    /// whose last streams they were, where the rule may accept signals (D-Bus Specification, "Message Bus Messages",
    /// `org.freedesktop.DBus.RemoveMatch`).
    ///
    /// # Errors
    ///
    /// Over(UnknownHandle) exactly where one of them isn't open, or they are one. Back(Busy) exactly where else one of them has a
    /// rule and an AddMatch or a RemoveMatch of the peer is on its way. Back(Memory) for want of memory, only where RemoveMatch
    /// is to be put: else no memory is taken. These change nothing. Else the streams are closed, also where the bus can't be
    /// told, by Over with the first that holds: SerialsSpent exactly where some RemoveMatch finds each of the 4,294,967,295
    /// serials pending, ExcessData exactly where one would pass 134,217,728 bytes, InputOutput(WriteFault) exactly where a write
    /// failed before. Of a closed peer's streams nothing is told.
    pub fn close_stream(&mut self, stream: MessageStream, second: Option<MessageStream>) -> Spent
        ensures closes { (p : Past) → Refines self.old p → ClosesStreams self.old self.new stream second p result }
    {
        let (number, other) = (stream.number(), number_of(&second));
        if !self.are_open(number, other) {
            return Spent::Over(Error::UnknownHandle);
        }
        if self.close_waits(number, other) {
            return Spent::Back(stream, second, Error::Busy);
        }
        match self.send_remove_matches(number, other) {
            Ok(last) => {
                self.end_both(number, other);
                Spent::Gone(last)
            }
            Err(error) => {
                if is_memory(&error) {
                    return Spent::Back(stream, second, error);
                }
                self.end_both(number, other);
                Spent::Over(error)
            }
        }
    }
}
