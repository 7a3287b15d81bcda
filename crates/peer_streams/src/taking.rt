//! What streams give, and how much they hold.
ghost use Rattle.peer_streams.specs.History.{StreamsPast, Did, Asked, after, after_all};
ghost use Rattle.std.specs.Prelude.{ℕ, nat_eq, ◌≡◌, [], option_map, is_some, true, Some, IfSome};
ghost use Rattle.std.specs.HashMap.{get, Updates};
ghost use Rattle.std.specs.List.{list_any};
ghost use Rattle.peer_streams.specs.Streams.{is_over as nothing_comes};
ghost use Rattle.peer_streams.specs.Streams.{is_open, has_rule, opening_answer, opening_events, take_answer, take_by, take_events, next_message, next_position, stored};
ghost use Rattle.peer_streams.specs.Refinement.{is_over, RefinesStreams};
ghost use Rattle.peer_streams.specs.Keeping.{once_told};

use crate::progress::OpenState;
use crate::stream_state::StreamState;
use crate::streams::{Streams, usable};
use rule_match::MatchRule;
use std::collections::HashMap;
use wire_message::{Error, Message, Polled};

/// Who asked for the stream was told that it is open.
fn report_open(states: &mut HashMap<u64, StreamState>, stream: u64)
    ensures { IfSome (get nat_eq states.old stream) (λ st. Updates nat_eq states.old states.new stream (Some (record st { open_reported = true }))) }
{
    if let Some(state) = states.get_mut(&stream) {
        state.open_reported = true;
    }
}

/// What a stream gives that is open and holds nothing: nothing yet; on a closed peer the closing error once, then the end.
fn tell(state: &mut StreamState, closing: Option<Error>) -> Polled<Message>
    ensures gives { result ≡ take_by [] closing state.old.closing_delivered }
    ensures left { state.new ≡ once_told closing state.old }
{
    let Some(error) = closing else {
        return Polled::NotYet;
    };
    if state.closing_delivered {
        return Polled::Ended;
    }
    state.closing_delivered = true;
    Polled::Closed(error)
}

impl Streams {
    /// Whether the stream with this number is open, as who asked for it is told now; one that will not be is gone. `closing` is
    /// what closed the peer.
    pub fn ask_open(&mut self, stream: u64, closing: Option<Error>) -> OpenState
        ensures told { (p : StreamsPast) → RefinesStreams self.old p → closing ≡ p.closing → result ≡ opening_answer p stream }
        ensures left { (p : StreamsPast) → RefinesStreams self.old p → closing ≡ p.closing → RefinesStreams self.new (after_all (opening_events stream (opening_answer p stream)) p) }
    {
        let Some(state) = self.states.get(&stream) else {
            return OpenState::Unknown;
        };
        if state.open_reported {
            return OpenState::Unknown;
        }
        if state.is_active() {
            report_open(&mut self.states, stream);
            return OpenState::Open;
        }
        if state.waits() {
            let Some(error) = closing else {
                return OpenState::NotYet;
            };
            self.end(stream);
            return OpenState::Over(error);
        }
        match self.states.remove(&stream) {
            Some(state) => state.into_refusal(),
            None => OpenState::Unknown,
        }
    }

    /// Whether some stream holds more messages than it may; one without a rule may hold `main` of them.
    pub fn is_over(&self, main: u64) -> bool
        ensures { result ≡ list_any (is_over main) self.now }
    {
        self.lists.is_over(main)
    }

    /// The most messages that an open stream of this rule holds, or one without a rule; 0 without one.
    pub fn stored(&self, rule: Option<&MatchRule>) -> usize
        ensures { (p : StreamsPast) → RefinesStreams self.now p → result ≡ stored p (option_map (λ r. r.now) rule.entry) }
    {
        self.lists.most(rule)
    }

    /// The stream with this number asks for so many messages, and each open stream of its rule may hold them then. Whether it has
    /// a rule; nothing changes where it has none.
    pub fn ask(&mut self, stream: u64, limit: u64) -> bool
        ensures has { (p : StreamsPast) → RefinesStreams self.old p → is_open p stream ≡ true → result ≡ has_rule p stream }
        ensures raised { (p : StreamsPast) → RefinesStreams self.old p → is_open p stream ≡ true → RefinesStreams self.new (after (Did stream (Asked limit)) p) }
    {
        let Some(state) = usable(&self.states, stream) else {
            return false;
        };
        let Some(rule) = &state.rule else {
            return false;
        };
        self.lists.rules.raise(rule.inner(), limit);
        true
    }

    /// The first message that the stream with this number holds; None where it holds none, or isn't open.
    pub fn next_message(&self, stream: u64) -> Option<&Message>
        ensures { (p : StreamsPast) → RefinesStreams self.now p → option_map (λ m. m.now) result ≡ next_message p stream }
    {
        let state = usable(&self.states, stream)?;
        self.lists.first(&state.rule, stream)
    }

    /// The position of the first message that the stream with this number holds; None where it holds none, or isn't open.
    pub fn next_position(&self, stream: u64) -> Option<u64>
        ensures { (p : StreamsPast) → RefinesStreams self.now p → result ≡ next_position p stream }
    {
        let message = self.next_message(stream)?;
        Some(message.recv_position())
    }

    /// Whether nothing comes from the stream with this number any more, on a peer that is closed or isn't.
    pub fn is_terminated(&self, stream: u64, closed: bool) -> bool
        ensures { (p : StreamsPast) → RefinesStreams self.now p → closed ≡ is_some p.closing → result ≡ nothing_comes (take_answer p stream) }
    {
        match usable(&self.states, stream) {
            Some(state) => closed
                && state.closing_delivered
                && self.lists.first(&state.rule, stream).is_none(),
            None => true,
        }
    }

    /// What the stream with this number gives next: the first message that it holds; else NotYet on an open peer; else the
    /// closing error once; from then on Ended. `closing` is what closed the peer.
    ///
    /// # Errors
    ///
    /// UnknownHandle exactly where it isn't open: it was never made, isn't open yet, or was closed. An error changes nothing.
    pub fn take(&mut self, stream: u64, closing: Option<Error>) -> Result<Polled<Message>, Error>
        ensures gives { (p : StreamsPast) → RefinesStreams self.old p → closing ≡ p.closing → result ≡ take_answer p stream }
        ensures left { (p : StreamsPast) → RefinesStreams self.old p → RefinesStreams self.new (after_all (take_events stream result) p) }
    {
        let Some(state) = usable(&self.states, stream) else {
            return Err(Error::UnknownHandle);
        };
        if let Some(message) = self.lists.take(&state.rule, stream) {
            return Ok(Polled::Now(message));
        }
        let Some(state) = self.states.get_mut(&stream) else {
            return Err(Error::UnknownHandle);
        };
        Ok(tell(state, closing))
    }
}
