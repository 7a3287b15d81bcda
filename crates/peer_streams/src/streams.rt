//! The streams of a peer by their numbers: they are opened, copied and closed here, and asked for their rule and their capacity.
ghost use Rattle.peer_streams.specs.History.{Request, Cloned, StreamsPast, Stream, Made, Plain, Ruled, Asks, Did, Gone, after, asked_limit, is_subscribed};
ghost use Rattle.std.specs.Prelude.{ℕ, nat_eq, ◌≡◌, ◌+◌, ◌<◌, ◌≤◌, ◌&&◌, ◌∷◌, ◌++◌, [], List, length, Option, Some, None, OnOk, OnErr, IfOk, option_map, slice_get, Bool, if◌then◌else◌, is_some, true, false, ok_or, unwrap_or};
ghost use Rattle.std.specs.Option.{option_and_then};
ghost use Rattle.std.specs.HashMap.{get, spare, Updates};
ghost use Rattle.peer_streams.specs.Names.{Rule, StreamState as State};
ghost use Rattle.peer_streams.specs.Keeping.{is_active, usable_in};
ghost use Rattle.peer_streams.specs.Streams.{is_open, are_open, gone_if, limit_answer, rule_answer};
ghost use Rattle.peer_streams.specs.Refinement.{RefinesStreams, AreStreams, IsWithin, ClonesBy};

use crate::lists::Lists;
use crate::stream_state::StreamState;
use rule_match::OwnedMatchRule;
use std::alloc::{AllocError, Global};
use std::collections::HashMap;
use std::marker::Model;
use wire_message::Error;

/// A stream of a peer, for who takes from it. The peer's streams make it, and closing the stream hands it in, so that there is
/// one for each stream that is open. A stream of a rule gives the messages that the rule accepts (D-Bus Specification, "Match
/// Rules"), one without a rule all.
pub struct MessageStream {
    number: u64,
}

impl Drop for MessageStream {
    fn drop(self) {
        let MessageStream { number: _ } = self;
    }
}

impl Model for MessageStream {
    ghost use Rattle.std.specs.Prelude.{ℕ};

    ghost Value = { ℕ };

    ghost view = { λ s. s.number };
}

impl MessageStream {
    /// Its number among the peer's streams, from 0 on.
    pub fn number(&self) -> u64
        ensures { result ≡ self.now }
    {
        self.number
    }
}

/// The streams of a peer, with their rules (D-Bus Specification, "Match Rules"). Of one that was closed nothing is stored, so it
/// costs nothing. At most 2^64 - 1 are made.
pub struct Streams {
    pub(crate) alloc: Global,
    /// How many were made.
    pub(crate) made: u64,
    /// What is known of those that were not closed, by number.
    pub(crate) states: HashMap<u64, StreamState>,
    /// The numbers of those that wait for the return to an AddMatch; and perhaps of some that did.
    pub(crate) waiting: Vec<u64>,
    /// What they hold.
    pub(crate) lists: Lists,
}

impl Drop for Streams {
    fn drop(self) {
        let Streams {
            alloc: _,
            made: _,
            states: _,
            waiting: _,
            lists: _,
        } = self;
    }
}

impl Model for Streams {
    ghost use Rattle.std.specs.Prelude.{List};
    ghost use Rattle.peer_streams.specs.Refinement.{StreamView};
    ghost use Rattle.peer_streams.specs.Keeping.{views, AreKept};

    ghost Value = { List StreamView };

    ghost view = { λ s. views (record { made = s.made; states = s.states.entries; lists = s.lists }) };

    ghost invariant = { λ s. AreKept (record { made = s.made; states = s.states.entries; lists = s.lists }) s.waiting.items };
}

/// What is known of the stream, where it is open.
pub(crate) fn usable(states: &HashMap<u64, StreamState>, stream: u64) -> Option<&StreamState>
    ensures { option_map (λ q. q.now) result ≡ usable_in (get nat_eq states.now stream) }
{
    let state = states.get(&stream)?;
    if state.is_usable() { Some(state) } else { None }
}

/// Keeps what is known of a stream. There is room.
fn put(states: &mut HashMap<u64, StreamState>, stream: u64, state: StreamState)
    requires { 0 < spare states.old }
    ensures { Updates nat_eq states.old states.new stream (Some state) }
{
    let before: Result<_, _> = states.insert(stream, state);
    let _ = before.unwrap();
}

/// The number of streams once there is one more.
fn one_more(made: u64) -> Result<u64, AllocError>
    ensures { IfOk result (λ n. n ≡ made + 1) }
{
    // No peer comes to 2^64 streams, in any time; to one that did this is want of room.
    made.checked_add(1).ok_or(AllocError)
}

impl Streams {
    /// No streams.
    pub fn new(alloc: Global) -> Streams
        ensures { result ≡ [] }
    {
        Streams {
            alloc,
            made: 0,
            states: HashMap::new(alloc),
            waiting: Vec::new(alloc),
            lists: Lists::new(alloc),
        }
    }

    /// A new stream without a rule that is open and holds nothing. `closing_delivered` is whether the peer is closed, so that the
    /// stream has nothing to tell any more.
    ///
    /// # Errors
    ///
    /// AllocError for want of memory, and where 2^64 - 1 streams were made. An error changes nothing.
    pub fn open(&mut self, closing_delivered: bool) -> Result<MessageStream, AllocError>
        ensures err { OnErr result (self.new ≡ self.old) }
        ensures number { IfOk result (λ k. k ≡ length self.old) }
        ensures ok { OnOk result ((p : StreamsPast) → RefinesStreams self.old p → closing_delivered ≡ is_some p.closing → RefinesStreams self.new (after (Made Plain) p)) }
    {
        let number = self.made;
        let made = one_more(number)?;
        self.states.reserve(1)?;
        self.lists.open(number)?;
        put(
            &mut self.states,
            number,
            StreamState::active(None, closing_delivered),
        );
        self.made = made;
        Ok(MessageStream { number })
    }

    /// A new stream of this rule that is open and holds nothing. `asked` is how many messages each stream of the rule may hold,
    /// if a number is asked for: the rule's first stream sets it, and a later one raises it. `closing_delivered` is whether the
    /// peer is closed, so that the stream has nothing to tell any more.
    ///
    /// # Errors
    ///
    /// AllocError for want of memory, and where 2^64 - 1 streams were made. An error changes nothing.
    pub fn open_rule(
        &mut self,
        rule: OwnedMatchRule,
        asked: Option<u64>,
        closing_delivered: bool,
    ) -> Result<MessageStream, AllocError>
        ensures err { OnErr result (self.new ≡ self.old) }
        ensures number { IfOk result (λ k. k ≡ length self.old) }
        ensures ok { OnOk result ((p : StreamsPast) → RefinesStreams self.old p → closing_delivered ≡ is_some p.closing → RefinesStreams self.new (after (Made (Ruled rule asked)) p)) }
    {
        let number = self.made;
        let made = one_more(number)?;
        self.states.reserve(1)?;
        self.lists.reserve(rule.inner(), asked, number)?;
        let rule = Some(rule);
        self.lists.begin(&rule, number);
        put(
            &mut self.states,
            number,
            StreamState::active(rule, closing_delivered),
        );
        self.made = made;
        Ok(MessageStream { number })
    }

    /// A new stream of this rule that waits for the return to its AddMatch, which has this serial and this place in the outbox,
    /// from 0 on (D-Bus Specification, "Message Bus Messages", `org.freedesktop.DBus.AddMatch`). `asked` is as in `open_rule`.
    ///
    /// # Errors
    ///
    /// AllocError for want of memory, and where 2^64 - 1 streams were made. An error changes nothing.
    pub fn open_asking(
        &mut self,
        rule: OwnedMatchRule,
        asked: Option<u64>,
        serial: u32,
        index: u64,
    ) -> Result<MessageStream, AllocError>
        ensures err { OnErr result (self.new ≡ self.old) }
        ensures number { IfOk result (λ k. k ≡ length self.old) }
        ensures ok { OnOk result ((p : StreamsPast) (add : Request) → RefinesStreams self.old p → serial ≡ add.serial → index ≡ add.index → add.from ≡ length p.read → RefinesStreams self.new (after (Asks add rule asked) p)) }
    {
        let number = self.made;
        let made = one_more(number)?;
        self.states.reserve(1)?;
        // Where the list has no room the number stays: it doesn't wait, and is dropped as those of streams that did.
        self.waiting.push(number)?;
        self.lists.reserve(rule.inner(), asked, number)?;
        put(
            &mut self.states,
            number,
            StreamState::asking(rule, serial, index),
        );
        self.made = made;
        Ok(MessageStream { number })
    }

    /// Whether a stream of this rule is open, or being opened.
    pub fn has_rule(&self, rule: &OwnedMatchRule) -> bool
        ensures { (p : StreamsPast) → RefinesStreams self.now p → result ≡ is_subscribed p.read p.streams rule.now }
    {
        self.lists.rules.has(rule.inner())
    }

    /// Whether a stream of this rule is open, or being opened, but for these.
    pub fn rule_in_use(&self, rule: &OwnedMatchRule, stream: u64, before: Option<u64>) -> bool
        ensures { (p : StreamsPast) → RefinesStreams self.now p → result ≡ is_subscribed p.read (gone_if (Some stream) (gone_if before p)).streams rule.now }
    {
        self.lists
            .rules
            .has_other(rule.inner(), Some(stream), before)
    }

    /// Whether the stream with this number is open.
    pub fn is_open(&self, stream: u64) -> bool
        ensures { (p : StreamsPast) → RefinesStreams self.now p → result ≡ is_open p stream }
    {
        usable(&self.states, stream).is_some()
    }

    /// Whether the streams with these numbers are open, and are two.
    pub fn are_two(&self, stream: u64, other: u64) -> bool
        ensures { (p : StreamsPast) → RefinesStreams self.now p → result ≡ are_open p stream (Some other) }
    {
        self.is_open(stream) && self.is_open(other) && stream != other
    }

    /// A new stream that holds what the stream with this number holds, and has its rule.
    ///
    /// # Errors
    ///
    /// UnknownHandle exactly where that isn't open. Memory for want of memory, and where 2^64 - 1 streams were made. An error
    /// changes nothing.
    pub fn open_clone(&mut self, stream: u64) -> Result<MessageStream, Error>
        ensures { (p : StreamsPast) → RefinesStreams self.old p → ClonesBy (RefinesStreams self.new (after (Made (Cloned stream)) p)) self.old self.new stream p result }
    {
        let Some(state) = usable(&self.states, stream) else {
            return Err(Error::UnknownHandle);
        };
        let copy = state.try_clone(self.alloc)?;
        let number = self.made;
        let made = one_more(number)?;
        self.states.reserve(1)?;
        self.lists.open_clone(&copy.rule, stream, number)?;
        put(&mut self.states, number, copy);
        self.made = made;
        Ok(MessageStream { number })
    }

    /// Closes the stream with this number; what it holds goes away. Nothing changes where there is none.
    pub fn end(&mut self, stream: u64)
        ensures { (p : StreamsPast) → RefinesStreams self.old p → RefinesStreams self.new (after (Did stream Gone) p) }
    {
        let Some(state) = self.states.remove(&stream) else {
            return;
        };
        self.lists.close(&state.rule, stream);
    }

    /// How many messages the stream with this number may hold, where one without a rule may hold so many; None where it isn't
    /// open.
    pub fn limit(&self, stream: u64, main: u64) -> Option<u64>
        ensures { (p : StreamsPast) → RefinesStreams self.now p → main ≡ p.capacities.main → ok_or result Error.UnknownHandle ≡ limit_answer p stream }
    {
        let state = usable(&self.states, stream)?;
        match &state.rule {
            Some(rule) => Some(self.lists.rules.limit(rule.inner())),
            None => Some(main),
        }
    }

    /// The rule of the stream with this number; None where it has none, or isn't open.
    pub fn rule(&self, stream: u64) -> Option<&OwnedMatchRule>
        ensures { (p : StreamsPast) → RefinesStreams self.now p → option_map (λ r. r.now) result ≡ rule_answer p stream }
    {
        match usable(&self.states, stream) {
            Some(state) => state.rule.as_ref(),
            None => None,
        }
    }
}
