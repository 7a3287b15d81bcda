//! What commands ask of calls and of streams, and the streams that they open.
ghost use Rattle.std.specs.Prelude.{ℕ, ◌≡◌, ◌≢◌, [], ◌∷◌, ◌++◌, slice_set, OnOk, IfOk, Some, None};
ghost use Rattle.peer_words.specs.declared.words.StreamOp.TheVariants as ops;
ghost use Rattle.rule_match.specs.Bytes.{rule_in_bytes};
ghost use Rattle.peer_streams.specs.History.{Plain};
ghost use Rattle.peer_core.specs.History.{Main, Past, after};
ghost use Rattle.peer_route.specs.Replay as replays;
ghost use Rattle.peer_route.specs.Replay.{Replay, handle_index};
ghost use Rattle.peer_route.specs.Answers as shows;
ghost use Rattle.peer_route.specs.Plan.{where_named, on_call, on_stream, makes, ends, opens};
ghost use Rattle.wire_message.specs.Plain.{edit};
ghost use Rattle.peer_conn.specs.Handles.{open_at, without_open};
ghost use Rattle.peer_conn.specs.Invariant.{Keeps, StateInvariant, Did, HandedIn, plain, given_after, forgotten, SameOwners};

use crate::acting::{Acted, Makes, plainly};
use crate::answers::{answer_of_drop, answer_of_poll, refused, undone, unopened, unsent};
use crate::handles::{StreamHandle, number_of, open_stream};
use crate::state::{PeerState, RunError};
use peer_route::{Answer, CallOp, MessageStream, Opens, Polled, Spent, StreamOp};
use rule_match::OwnedMatchRule;
use std::alloc::Global;
use wire_message::{Error, Message, Sequence};
use wire_value::Bytes;

/// What is answered of a stream that isn't open, or isn't one for which the bus was asked.
fn unknown() -> Answer
    ensures { result ≡ Answer.Refused Error.UnknownHandle }
{
    Answer::Refused(Error::UnknownHandle)
}

/// Drops the message that the stream with this number gave last.
fn empty(given: &mut Vec<Option<Message>>, stream: u64)
    ensures { given.new.items ≡ slice_set given.old.items stream None }
{
    if let Some(slot) = given.get_mut(stream as usize) {
        *slot = None;
    }
}

impl PeerState {
    /// What is asked of the lane's call with this number.
    pub(crate) fn of_call(&mut self, lane: u32, number: u64, op: CallOp) -> Answer
        ensures did { (t : Replay) → StateInvariant self.old t → Did self.new t lane (where_named (on_call t.past op) (handle_index 0 lane number t.calls)) (plain result) }
        ensures rest { SameOwners self.old self.new }
    {
        let Some(call) = self.calls.handle_index(lane, number) else {
            return Answer::Refused(Error::UnknownHandle);
        };
        match op {
            CallOp::Poll => answer_of_poll(self.route.poll(call)),
            CallOp::Before(position) => answer_of_poll(
                self.route.poll_before(call, Sequence(position)),
            ),
            CallOp::Drop => answer_of_drop(self.route.drop_call(call)),
        }
    }

    /// What is asked of the lane's stream with this number.
    pub(crate) fn of_stream(
        &mut self,
        alloc: Global,
        lane: u32,
        number: u64,
        op: &StreamOp,
    ) -> Result<Acted, RunError>
        ensures did { (t : Replay) → StateInvariant self.old t → t.past.closing ≢ Some Error.UnknownHandle → IfOk result (Did self.new t lane (where_named (on_stream t lane op.now) (handle_index 0 lane number t.streams))) }
        ensures rest { SameOwners self.old self.new }
    {
        let Some(stream) = self.streams.handle_index(lane, number) else {
            return Ok(plainly(Answer::Refused(Error::UnknownHandle)));
        };
        match op {
            StreamOp::Reply(body) => self.reply(alloc, lane, stream, body),
            StreamOp::Error { name, body } => self.reply_error(alloc, lane, stream, name, body),
            StreamOp::Take => Ok(plainly(self.take(stream))),
            StreamOp::TakeBefore(position) => Ok(plainly(self.take_before(stream, *position))),
            StreamOp::Clone => self.clone_stream(lane, stream),
            StreamOp::Opened => Ok(plainly(self.opened(stream))),
            StreamOp::Queue(limit) => Ok(plainly(self.queue(stream, *limit))),
            StreamOp::Unstream(second) => self.unstream(lane, stream, *second),
        }
    }

    /// Sets how many messages a stream may hold.
    pub(crate) fn main_queue(&mut self, limit: u64) -> Answer
        ensures answer { result ≡ Answer.Set }
        ensures keeps { (p : Past) → Keeps self.old p → Keeps self.new (after (Main limit) p) }
        ensures rest { SameOwners self.old self.new }
    {
        self.route.set_main_max_queued(limit);
        Answer::Set
    }

    /// The lane holds its next stream, which the core made, and which has given nothing: its number is answered.
    fn made(&mut self, lane: u32, stream: MessageStream) -> Result<Acted, RunError>
        ensures answer { IfOk result (λ a. a ≡ record { answer = Answer.Streaming (replays.count lane self.old.streams); makes = Makes.Stream }) }
        ensures held { OnOk result (self.new.handles ≡ self.old.handles ++ StreamHandle.Open stream ∷ []) }
        ensures given { OnOk result (self.new.given ≡ self.old.given ++ None ∷ []) }
        ensures rest { (self.new.core ≡ self.old.core) × SameOwners self.old self.new }
    {
        self.handles.push(StreamHandle::Open(stream))?;
        self.given.push(None)?;
        Ok(Acted {
            answer: Answer::Streaming(self.streams.count(lane)),
            makes: Makes::Stream,
        })
    }

    /// Opens a stream for the lane.
    pub(crate) fn stream(&mut self, lane: u32) -> Result<Acted, RunError>
        ensures did { (t : Replay) → StateInvariant self.old t → IfOk result (Did self.new t lane (makes t lane Plain)) }
        ensures rest { SameOwners self.old self.new }
    {
        let stream = self.route.open()?;
        self.made(lane, stream)
    }

    /// Opens a stream for the lane that goes on where the one with this number is.
    fn clone_stream(&mut self, lane: u32, stream: u64) -> Result<Acted, RunError>
        ensures did { (t : Replay) → StateInvariant self.old t → IfOk result (Did self.new t lane (on_stream t lane ops.Clone stream)) }
        ensures rest { SameOwners self.old self.new }
    {
        let Some(stream) = open_stream(self.handles.as_slice(), stream) else {
            return Ok(plainly(unknown()));
        };
        match self.route.clone_stream(stream) {
            Ok(clone) => self.made(lane, clone),
            Err(error) => refused(error),
        }
    }

    /// Opens a stream of the rule that a text is, for the lane: at once, or by an AddMatch.
    pub(crate) fn open(
        &mut self,
        alloc: Global,
        lane: u32,
        max_queued: Option<u64>,
        text: &Bytes,
    ) -> Result<Acted, RunError>
        ensures did { (t : Replay) → StateInvariant self.old t → IfOk result (Did self.new t lane (opens t lane (rule_in_bytes text.now) max_queued t.past.closing)) }
        ensures rest { SameOwners self.old self.new }
    {
        let rule = match OwnedMatchRule::try_from_bytes(alloc, text.as_slice()) {
            Ok(rule) => rule,
            Err(error) => return refused(error),
        };
        match self.route.open_rule(rule, max_queued) {
            Ok(Opens::Open(stream)) => self.made(lane, stream),
            Ok(Opens::Opening(opening)) => {
                let serial = opening.serial();
                self.handles.push(StreamHandle::Opening(opening))?;
                self.given.push(None)?;
                Ok(Acted {
                    answer: Answer::Opening {
                        number: self.streams.count(lane),
                        serial,
                    },
                    makes: Makes::Opening,
                })
            }
            Err(error) => unopened(error),
        }
    }

    /// What is shown of a take from the stream with this number; an item that it gave is kept.
    fn show_take(&mut self, stream: u64, polled: wire_message::Result<Polled<Message>>) -> Answer
        ensures answer { result ≡ shows.answer_of_take polled }
        ensures kept { self.new ≡ record self.old { given = given_after stream polled self.old.given } }
    {
        match polled {
            Ok(Polled::Now(message)) => {
                let position = message.recv_position();
                if let Some(slot) = self.given.get_mut(stream as usize) {
                    *slot = Some(message);
                }
                Answer::Item(position)
            }
            Ok(Polled::NotYet) => Answer::Empty,
            Ok(Polled::NoneBefore) => Answer::NoneBefore,
            Ok(Polled::Closed(error)) => Answer::Closed(error),
            Ok(Polled::Ended) => Answer::Ended,
            Err(error) => Answer::Refused(error),
        }
    }

    /// What the stream with this number gives.
    pub(crate) fn take(&mut self, stream: u64) -> Answer
        ensures did { (t : Replay) (lane : ℕ) → StateInvariant self.old t → Did self.new t lane (on_stream t lane ops.Take stream) (plain result) }
        ensures rest { SameOwners self.old self.new }
    {
        let Some(handle) = open_stream(self.handles.as_slice(), stream) else {
            return unknown();
        };
        let polled = self.route.take(handle);
        self.show_take(stream, polled)
    }

    /// What it gives by position.
    fn take_before(&mut self, stream: u64, position: u64) -> Answer
        ensures did { (t : Replay) (lane : ℕ) → StateInvariant self.old t → Did self.new t lane (on_stream t lane (ops.TakeBefore position) stream) (plain result) }
        ensures rest { SameOwners self.old self.new }
    {
        let Some(handle) = open_stream(self.handles.as_slice(), stream) else {
            return unknown();
        };
        let polled = self.route.take_before(handle, Sequence(position));
        self.show_take(stream, polled)
    }

    /// Asks that the stream with this number may hold so many messages.
    fn queue(&mut self, stream: u64, limit: u64) -> Answer
        ensures did { (t : Replay) (lane : ℕ) → StateInvariant self.old t → Did self.new t lane (on_stream t lane (ops.Queue limit) stream) (plain result) }
        ensures rest { SameOwners self.old self.new }
    {
        let Some(handle) = open_stream(self.handles.as_slice(), stream) else {
            return unknown();
        };
        match self.route.set_max_queued(handle, limit) {
            Ok(()) => Answer::Set,
            Err(error) => Answer::Refused(error),
        }
    }

    /// Whether the stream with this number, for which the bus was asked, is open.
    fn opened(&mut self, stream: u64) -> Answer
        ensures did { (t : Replay) (lane : ℕ) → StateInvariant self.old t → t.past.closing ≢ Some Error.UnknownHandle → Did self.new t lane (on_stream t lane ops.Opened stream) (plain result) }
        ensures rest { SameOwners self.old self.new }
    {
        if stream >= self.handles.len() as u64 {
            return unknown();
        }
        self.handles[stream as usize].poll_open(&mut self.route)
    }

    /// What these streams gave last is kept no more.
    fn forget(&mut self, stream: u64, second: Option<u64>)
        ensures { self.new ≡ record self.old { given = forgotten stream second self.old.given } }
    {
        empty(&mut self.given, stream);
        if let Some(second) = second {
            empty(&mut self.given, second);
        }
    }

    /// The stream with this number, where its lane holds it open: it is handed in.
    fn hand_in(&mut self, stream: u64) -> Option<MessageStream>
        ensures stream { result ≡ open_at self.old.handles stream }
        ensures left { self.new ≡ record self.old { handles = edit stream without_open self.old.handles } }
    {
        if stream >= self.handles.len() as u64 {
            return None;
        }
        self.handles[stream as usize].take_open()
    }

    /// Its lane holds the stream open again.
    fn hand_back(&mut self, stream: MessageStream)
        ensures { self.new ≡ record self.old { handles = slice_set self.old.handles stream (StreamHandle.Open stream) } }
    {
        if let Some(handle) = self.handles.get_mut(stream.number() as usize) {
            *handle = StreamHandle::Open(stream);
        }
    }

    /// Closes the stream, and then the second, where one is there, which were handed in; RemoveMatch is put for each rule that has
    /// none any more.
    fn close_streams(
        &mut self,
        first: MessageStream,
        second: Option<MessageStream>,
    ) -> Result<Acted, RunError>
        ensures did { (t : Replay) (lane : ℕ) → HandedIn self.old t first second → IfOk result (Did self.new t lane (ends t.past first (Some second))) }
        ensures rest { SameOwners self.old self.new }
    {
        let (stream, other) = (first.number(), number_of(&second));
        let before = self.route.outbox_len();
        match self.route.close_stream(first, second) {
            Spent::Gone(last) => {
                self.forget(stream, other);
                Ok(Acted {
                    answer: Answer::Gone(last),
                    makes: Makes::Own(self.route.outbox_len().saturating_sub(before)),
                })
            }
            Spent::Back(first, second, error) => {
                if let Some(second) = second {
                    self.hand_back(second);
                }
                self.hand_back(first);
                undone(error)
            }
            Spent::Over(error) => {
                self.forget(stream, other);
                unsent(error)
            }
        }
    }

    /// Closes the stream with this number, and then the second, where one is there, if they are two that are open.
    fn end(&mut self, stream: u64, second: Option<u64>) -> Result<Acted, RunError>
        ensures did { (t : Replay) (lane : ℕ) → StateInvariant self.old t → IfOk result (Did self.new t lane (ends t.past stream (Some second))) }
        ensures rest { SameOwners self.old self.new }
    {
        let Some(first) = self.hand_in(stream) else {
            return Ok(plainly(unknown()));
        };
        let Some(second) = second else {
            return self.close_streams(first, None);
        };
        let Some(other) = self.hand_in(second) else {
            self.hand_back(first);
            return Ok(plainly(unknown()));
        };
        self.close_streams(first, Some(other))
    }

    /// Closes the stream with this place, and then the one that the lane's second number names.
    fn unstream(&mut self, lane: u32, stream: u64, second: Option<u64>) -> Result<Acted, RunError>
        ensures did { (t : Replay) → StateInvariant self.old t → IfOk result (Did self.new t lane (on_stream t lane (ops.Unstream second) stream)) }
        ensures rest { SameOwners self.old self.new }
    {
        let Some(number) = second else {
            return self.end(stream, None);
        };
        match self.streams.handle_index(lane, number) {
            Some(other) => self.end(stream, Some(other)),
            None => Ok(plainly(Answer::Refused(Error::UnknownHandle))),
        }
    }
}
