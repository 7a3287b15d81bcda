//! What lanes hold of streams.
ghost use Rattle.std.specs.Prelude.{ℕ, ◌≡◌, ◌≢◌, Some, option_map, slice_get};
ghost use Rattle.wire_message.specs.declared.error.Error.TheVariants as errors;
ghost use Rattle.peer_streams.specs.History.{Stream};
ghost use Rattle.peer_streams.specs.Streams.{opening_deeds};
ghost use Rattle.peer_core.specs.History.{Past, after_all};
ghost use Rattle.peer_core.specs.Asked.{opening_answer, opening_events};
ghost use Rattle.peer_core.specs.Refinement.{Refines};
ghost use Rattle.peer_route.specs.Answers.{answer_of_opening};
ghost use Rattle.peer_streams.specs.declared.progress.OpenState.{OpenState};
ghost use Rattle.peer_streams.specs.declared.progress.OpenState.TheVariants as states;
ghost use Rattle.peer_core.specs.declared.subscribe.Opened.{Opened};
ghost use Rattle.peer_core.specs.Bus.{IsShownAs};
ghost use Rattle.peer_core.specs.Handles.{OpeningView};
ghost use Rattle.peer_conn.specs.Handles.{IsHandleOf, did_all, open_in, open_at, without_open, held_after};

use crate::answers::{answer_of_error, answer_of_over};
use peer_route::{Answer, MessageStream, Opened, Opening, Route};
use std::mem;
use wire_message::Error;

/// What a lane holds of a stream.
#[derive(Drop)]
pub(crate) enum StreamHandle {
    /// The stream, which is open.
    Open(MessageStream),
    /// The stream for which the bus is asked, until its lane is told that it is open.
    Opening(Opening),
    /// Nothing any more: the stream was closed, or will not be open.
    Spent,
}

impl StreamHandle {
    /// The stream, where it is open.
    pub(crate) fn open(&self) -> Option<&MessageStream>
        ensures { option_map (λ s. s.now) result ≡ open_in self.now }
    {
        match self {
            StreamHandle::Open(stream) => Some(stream),
            StreamHandle::Opening(_) | StreamHandle::Spent => None,
        }
    }

    /// The stream, where it is open: its lane holds it no more.
    pub(crate) fn take_open(&mut self) -> Option<MessageStream>
        ensures stream { result ≡ open_in self.old }
        ensures left { self.new ≡ without_open self.old }
    {
        match mem::replace(self, StreamHandle::Spent) {
            StreamHandle::Open(stream) => Some(stream),
            StreamHandle::Opening(opening) => {
                *self = StreamHandle::Opening(opening);
                None
            }
            StreamHandle::Spent => None,
        }
    }

    /// Asks whether the stream is open, for which the bus was asked; its lane holds it from then on. What closed the peer is no
    /// handle that isn't known: else it couldn't be told from a stream for which the bus wasn't asked.
    pub(crate) fn poll_open(&mut self, route: &mut Route) -> Answer
        ensures answer { (p : Past) (k : ℕ) (s : Stream) → Refines route.old p → slice_get p.streams k ≡ Some s → IsHandleOf p.read k s self.old → p.closing ≢ Some errors.UnknownHandle → result ≡ answer_of_opening (opening_answer p k) }
        ensures left { (p : Past) (k : ℕ) (s : Stream) → Refines route.old p → slice_get p.streams k ≡ Some s → IsHandleOf p.read k s self.old → Refines route.new (after_all (opening_events k (opening_answer p k)) p) }
        ensures held { (p : Past) (k : ℕ) (s : Stream) → Refines route.old p → slice_get p.streams k ≡ Some s → IsHandleOf p.read k s self.old → IsHandleOf p.read k (did_all (opening_deeds (opening_answer p k)) s) self.new }
    {
        match mem::replace(self, StreamHandle::Spent) {
            StreamHandle::Open(stream) => {
                *self = StreamHandle::Open(stream);
                Answer::Refused(Error::UnknownHandle)
            }
            StreamHandle::Opening(opening) => {
                let (handle, answer) = told(route.poll_open(opening));
                *self = handle;
                answer
            }
            StreamHandle::Spent => Answer::Refused(Error::UnknownHandle),
        }
    }
}

/// What a lane holds of a stream, and is answered, once it asked whether that is open.
fn told(opened: Opened) -> (StreamHandle, Answer)
    requires given { (o : OpeningView) → opened ≢ Opened.Memory o }
    ensures held { (o : OpeningView) (state : OpenState) → IsShownAs o state opened → result.0 ≡ held_after state o }
    ensures answer { (o : OpeningView) (state : OpenState) → IsShownAs o state opened → state ≢ states.Over errors.UnknownHandle → result.1 ≡ answer_of_opening state }
{
    match opened {
        Opened::Open(stream) => (StreamHandle::Open(stream), Answer::Opened),
        Opened::NotYet(opening) => (StreamHandle::Opening(opening), Answer::NotYet),
        Opened::Memory(_) => unreachable!(),
        Opened::Refused(message) => (StreamHandle::Spent, answer_of_error(message)),
        Opened::Over(error) => (StreamHandle::Spent, answer_of_over(error)),
    }
}

/// The stream with this number, where its lane holds it open.
pub(crate) fn open_stream(handles: &[StreamHandle], stream: u64) -> Option<&MessageStream>
    ensures { option_map (λ s. s.now) result ≡ open_at handles.now stream }
{
    handles.get(stream as usize)?.open()
}

/// The stream's number, where there is one.
pub(crate) fn number_of(stream: &Option<MessageStream>) -> Option<u64>
    ensures { result ≡ stream.now }
{
    match stream {
        Some(stream) => Some(stream.number()),
        None => None,
    }
}
