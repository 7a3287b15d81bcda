//! What messages that are read, and writes that fail, do to streams.
ghost use Rattle.peer_streams.specs.History.{StreamsPast, Loses, Received, after};
ghost use Rattle.std.specs.Prelude.{ℕ, nat_eq, ◌≡◌, ◌≢◌, ◌==◌, ◌+◌, ◌≤◌, true, List, option_map, Option, Some, None, OnOk, OnErr};
ghost use Rattle.std.specs.List.{list_any};
ghost use Rattle.std.specs.HashMap.{get};
ghost use Rattle.peer_streams.specs.Names.{MessageView, Progress};
ghost use Rattle.peer_streams.specs.Streams.{subscribed_rules};
ghost use Rattle.peer_streams.specs.Refinement.{RefinesStreams, settled, lost};
ghost use Rattle.peer_streams.specs.Keeping.{AreKept, waits, is_waiting};
ghost use Rattle.peer_streams.specs.Arriving.{parts, quiet, is_answered, copy_in, is_put_at, IsReady, Changes, ChangesEach};

use crate::lists::Lists;
use crate::progress::{Progress, is_return, replies_to};
use crate::stream_state::StreamState;
use crate::streams::Streams;
use std::alloc::AllocError;
use std::collections::HashMap;
use std::sync::ledger::Ledger;
use wire_message::{Message, Steps};

impl StreamState {
    /// Whether the message answers the AddMatch whose return it waits for.
    fn is_answered(&self, message: &Message) -> bool
        ensures { result ≡ is_answered message.now self.now.progress }
    {
        match &self.progress {
            Progress::AwaitingReply { serial, .. } => replies_to(*serial, message),
            Progress::Denied(_) | Progress::Active => false,
        }
    }

    /// Whether it waits for the return to the AddMatch that has this place in the outbox.
    fn is_put_at(&self, place: u64) -> bool
        ensures { result ≡ is_put_at place self.now.progress }
    {
        match &self.progress {
            Progress::AwaitingReply { index, .. } => *index == place,
            Progress::Denied(_) | Progress::Active => false,
        }
    }

    /// Makes the copy of the message that is kept where it is an error that denies the stream.
    fn prepare(&mut self, message: &Message) -> Result<(), AllocError>
        ensures same { quiet self.new ≡ quiet self.old }
        ensures ready { OnOk result (IsReady message.now (Some self.new)) }
    {
        if !self.is_answered(message) || is_return(message) {
            return Ok(());
        }
        let copy = message.clone()?;
        self.keep(copy);
        Ok(())
    }

    /// Keeps the copy of the error that is about to deny it.
    fn keep(&mut self, copy: Message)
        ensures same { quiet self.new ≡ quiet self.old }
        ensures copy { waits self.old.progress ≡ true → copy_in self.new.progress ≡ Some copy }
    {
        if let Progress::AwaitingReply { denial, .. } = &mut self.progress {
            *denial = Some(copy);
        }
    }

    /// Takes the copy of the error that is about to deny it.
    fn take_copy(&mut self) -> Option<Message>
        ensures copy { result ≡ copy_in self.old.progress }
        ensures rest { self.new ≡ quiet self.old }
    {
        match &mut self.progress {
            Progress::AwaitingReply { denial, .. } => denial.take(),
            Progress::Denied(_) | Progress::Active => None,
        }
    }

    /// It is denied by the error of which it has a copy, and has no rule any more.
    fn deny(&mut self)
        ensures { (m : MessageView) → copy_in self.old.progress ≡ Some m → self.new ≡ record self.old { rule = None; progress = Progress.Denied m } }
    {
        if let Some(copy) = self.take_copy() {
            self.rule = None;
            self.progress = Progress::Denied(copy);
        }
    }
}

/// Makes the copy of the message that a stream keeps which it denies.
fn prepare(
    states: &mut HashMap<u64, StreamState>,
    stream: u64,
    message: &Message,
) -> Result<(), AllocError>
    ensures same { (k : ℕ) → option_map quiet (get nat_eq states.new k) ≡ option_map quiet (get nat_eq states.old k) }
    ensures others { (k : ℕ) → stream ≢ k → get nat_eq states.new k ≡ get nat_eq states.old k }
    ensures ready { OnOk result (IsReady message.now (get nat_eq states.new stream)) }
{
    match states.get_mut(&stream) {
        Some(state) => state.prepare(message),
        None => Ok(()),
    }
}

/// Makes the copy of the message that each of these streams keeps which it denies.
fn prepare_each(
    states: &mut HashMap<u64, StreamState>,
    streams: &[u64],
    message: &Message,
) -> Result<(), AllocError>
    ensures same { (k : ℕ) → option_map quiet (get nat_eq states.new k) ≡ option_map quiet (get nat_eq states.old k) }
    ensures ready { OnOk result ((k : ℕ) → list_any (λ n. n == k) streams.now ≡ true → IsReady message.now (get nat_eq states.new k)) }
{
    for stream in streams {
        prepare(states, *stream, message)?;
    }
    Ok(())
}

/// The message, which was given to the streams that take messages, may be the reply to the AddMatch of this one: the return opens it,
/// and an error denies it, whose copy is there.
fn settle(states: &mut HashMap<u64, StreamState>, lists: &mut Lists, stream: u64, message: &Message)
    ensures changes { (made : ℕ) (waiting : List ℕ) → AreKept (parts made states.old.entries lists.old) waiting → IsReady message.now (get nat_eq states.old stream)
        → Changes (settled message.now) stream waiting (parts made states.old.entries lists.old) (parts made states.new.entries lists.new) }
    ensures ready { ((k : ℕ) → IsReady message.now (get nat_eq states.old k)) → (k : ℕ) → IsReady message.now (get nat_eq states.new k) }
{
    let Some(state) = states.get_mut(&stream) else {
        return;
    };
    if !state.is_answered(message) {
        return;
    }
    if is_return(message) {
        lists.begin(&state.rule, stream);
        state.progress = Progress::Active;
    } else {
        lists.close(&state.rule, stream);
        state.deny();
    }
}

/// Settles each of these streams by the message: its return opens one, and an error denies it.
fn settle_each(
    states: &mut HashMap<u64, StreamState>,
    lists: &mut Lists,
    streams: &[u64],
    message: &Message,
)
    ensures { (made : ℕ) (waiting : List ℕ) → AreKept (parts made states.old.entries lists.old) waiting → ((k : ℕ) → IsReady message.now (get nat_eq states.old k))
        → ChangesEach (settled message.now) streams.now waiting (parts made states.old.entries lists.old) (parts made states.new.entries lists.new) }
{
    for stream in streams {
        settle(states, lists, *stream, message);
    }
}

/// The stream is gone where it waits for the return to the AddMatch that has this place in the outbox.
fn lose(states: &mut HashMap<u64, StreamState>, lists: &mut Lists, stream: u64, index: u64)
    ensures { (made : ℕ) (waiting : List ℕ) → AreKept (parts made states.old.entries lists.old) waiting → Changes (lost index) stream waiting (parts made states.old.entries lists.old) (parts made states.new.entries lists.new) }
{
    let waits = match states.get(&stream) {
        Some(state) => state.is_put_at(index),
        None => false,
    };
    if !waits {
        return;
    }
    if let Some(lost) = states.remove(&stream) {
        lists.close(&lost.rule, stream);
    }
}

/// Each of these streams is gone where it waits for the return to the AddMatch at this place in the outbox.
fn lose_each(states: &mut HashMap<u64, StreamState>, lists: &mut Lists, streams: &[u64], index: u64)
    ensures { (made : ℕ) (waiting : List ℕ) → AreKept (parts made states.old.entries lists.old) waiting → ChangesEach (lost index) streams.now waiting (parts made states.old.entries lists.old) (parts made states.new.entries lists.new) }
{
    for stream in streams {
        lose(states, lists, *stream, index);
    }
}

/// Whether the stream waits for the return to its AddMatch.
fn is_waiting(states: &HashMap<u64, StreamState>, stream: u64) -> bool
    ensures { result ≡ is_waiting (get nat_eq states.now stream) }
{
    match states.get(&stream) {
        Some(state) => state.waits(),
        None => false,
    }
}

/// Drops the numbers of streams that don't wait.
fn forget_settled(waiting: &mut Vec<u64>, states: &HashMap<u64, StreamState>)
    ensures { (k : ℕ) → is_waiting (get nat_eq states.now k) ≡ true → list_any (λ n. n == k) waiting.old.items ≡ true → list_any (λ n. n == k) waiting.new.items ≡ true }
{
    waiting.retain(|stream| is_waiting(states, *stream));
}

impl Streams {
    /// Gives a message to each stream that runs, and opens or denies each whose AddMatch it answers. One step is one test of a rule,
    /// which is made once for all its streams (D-Bus Specification, "Match Rules").
    ///
    /// # Errors
    ///
    /// AllocError for want of memory, to which a list counts that has no number for one message more. An error changes nothing.
    pub fn arrive<L: Ledger>(
        &mut self,
        message: &Message,
        steps: &mut Steps<L>,
    ) -> Result<(), AllocError>
        ensures err { OnErr result (self.new ≡ self.old) }
        ensures ok { OnOk result ((p : StreamsPast) → RefinesStreams self.old p → RefinesStreams self.new (after (Received message.now) p)) }
        ensures steps { (p : StreamsPast) → RefinesStreams self.old p → steps.new ≤ steps.old + subscribed_rules p }
    {
        prepare_each(&mut self.states, &self.waiting, message)?;
        self.lists.push(message, steps)?;
        settle_each(&mut self.states, &mut self.lists, &self.waiting, message);
        forget_settled(&mut self.waiting, &self.states);
        Ok(())
    }

    /// Each stream that waits for the return to an AddMatch with this place in the outbox, from 0 on, is gone.
    pub fn on_write_failed(&mut self, index: u64)
        ensures { (p : StreamsPast) → RefinesStreams self.old p → RefinesStreams self.new (after (Loses index) p) }
    {
        lose_each(&mut self.states, &mut self.lists, &self.waiting, index);
        forget_settled(&mut self.waiting, &self.states);
    }
}
