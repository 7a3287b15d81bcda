//! Messages of a lane: calls, signals, and answers to what a stream gave.
ghost use Rattle.std.specs.Prelude.{ℕ, ◌≡◌, ◌<◌, ◌^◌, [], ◌∷◌, length, false, slice_get, option_map, IfOk};
ghost use Rattle.std.specs.Option.{option_flatten};
ghost use Rattle.peer_route.specs.Replay.{Replay};
ghost use Rattle.peer_words.specs.CallMessage.{PreparedSend, prepared_outgoing};
ghost use Rattle.wire_message.specs.Outgoing.{sent_by};
ghost use Rattle.peer_core.specs.History.{Past};
ghost use Rattle.peer_core.specs.Asked.{all_given};
ghost use Rattle.peer_core.specs.Refinement.{Refines};
ghost use Rattle.peer_core.specs.Issuing.{IssuesBy};
ghost use Rattle.peer_calls.specs.Issuing.{posted};
ghost use Rattle.peer_core.specs.Issuing.{issued_each};
ghost use Rattle.peer_route.specs.Plan.{sends, on_stream};
ghost use Rattle.peer_words.specs.declared.words.StreamOp.TheVariants as ops;
ghost use Rattle.peer_words.specs.Made.{MakesOutgoing, IsCarried};
ghost use Rattle.peer_conn.specs.Handles.{HasHandles};
ghost use Rattle.peer_conn.specs.Invariant.{named_send, PeerStateView, StateInvariant, Did, SameOwners};

use crate::acting::{Acted, Makes, plainly};
use crate::answers::{refused, unsent};
use crate::lanes::Lanes;
use crate::state::{PeerState, RunError};
use peer_route::{Answer, Issued, Outgoing, Route};
use peer_words::{error_message, outgoing_message, reply_message};
use std::alloc::Global;
use wire_message::{Error, Message, OutgoingMessage};
use wire_value::Bytes;

/// Issues one message, sent by the peer; no call is served by it.
fn issue_one(
    alloc: Global,
    route: &mut Route,
    outgoing: OutgoingMessage<'_>,
) -> wire_message::Result<Issued>
    requires { length outgoing.fds < 2 ^ 32 }
    ensures { (p : Past) → Refines route.old p → IssuesBy (λ issued serials. issued ∷ [] ≡ issued_each p (posted false (sent_by route.old.name false outgoing.entry) ∷ []) serials) (route.new ≡ route.old) (Refines route.new) (posted false (sent_by route.old.name false outgoing.entry) ∷ []) p result }
{
    let mut list = Vec::new(alloc);
    list.push(outgoing)?;
    let mut issued = route.issue(list, false)?;
    match issued.pop() {
        Some(issued) => Ok(issued),
        // One message is answered once.
        None => Err(Error::Memory),
    }
}

/// Puts a lane's message, or refuses it by why there is none.
fn put(
    alloc: Global,
    route: &mut Route,
    owners: &Lanes,
    lane: u32,
    outgoing: wire_message::Result<OutgoingMessage<'_>>,
) -> Result<Acted, RunError>
    requires { IfOk outgoing (λ outgoing. length outgoing.fds < 2 ^ 32) }
    ensures { (t : Replay) (v : PeerStateView) (asked : PreparedSend) → v.core ≡ route.new → Refines route.old t.past → HasHandles t.past v.handles → v.given ≡ all_given t.past → owners.now ≡ t.calls
        → MakesOutgoing outgoing.entry asked → IfOk outgoing.entry (λ outgoing. IsCarried t.setting.takes_fds outgoing) → IfOk result (Did v t lane (sends t lane (named_send t.past.name asked))) }
{
    let outgoing = match outgoing {
        Ok(outgoing) => outgoing,
        Err(error) => return refused(error),
    };
    match issue_one(alloc, route, outgoing) {
        Ok(issued) => match issued.call {
            Some(_) => Ok(Acted {
                answer: Answer::Called {
                    call: owners.count(lane),
                    serial: issued.serial,
                },
                makes: Makes::Call,
            }),
            None => Ok(plainly(Answer::Sent(issued.serial))),
        },
        Err(error) => unsent(error),
    }
}

/// The message that the stream with this number gave last.
fn given_last(given: &[Option<Message>], stream: u64) -> Option<&Message>
    ensures { option_map (λ m. m.now) result ≡ option_flatten (slice_get given.now stream) }
{
    match given.get(stream as usize)? {
        Some(message) => Some(message),
        None => None,
    }
}

impl PeerState {
    /// Puts a method call or a signal.
    pub(crate) fn send(
        &mut self,
        alloc: Global,
        takes_fds: bool,
        lane: u32,
        words: &Outgoing,
    ) -> Result<Acted, RunError>
        ensures did { (t : Replay) → StateInvariant self.old t → t.setting.takes_fds ≡ takes_fds → IfOk result (Did self.new t lane (sends t lane (prepared_outgoing t.past.name takes_fds words.now))) }
        ensures rest { SameOwners self.old self.new }
    {
        let outgoing = outgoing_message(alloc, words, takes_fds);
        put(alloc, &mut self.route, &self.calls, lane, outgoing)
    }

    /// Puts a method return to the message that the stream with this number gave last.
    pub(crate) fn reply(
        &mut self,
        alloc: Global,
        lane: u32,
        stream: u64,
        body: &Option<Bytes>,
    ) -> Result<Acted, RunError>
        ensures did { (t : Replay) → StateInvariant self.old t → IfOk result (Did self.new t lane (on_stream t lane (ops.Reply body.now) stream)) }
        ensures rest { SameOwners self.old self.new }
    {
        let Some(message) = given_last(self.given.as_slice(), stream) else {
            return Ok(plainly(Answer::Refused(Error::UnknownHandle)));
        };
        let outgoing = reply_message(alloc, message, body);
        put(alloc, &mut self.route, &self.calls, lane, outgoing)
    }

    /// Puts the error of that name to the message that the stream with this number gave last.
    pub(crate) fn reply_error(
        &mut self,
        alloc: Global,
        lane: u32,
        stream: u64,
        name: &Bytes,
        body: &Option<Bytes>,
    ) -> Result<Acted, RunError>
        ensures did { (t : Replay) → StateInvariant self.old t → IfOk result (Did self.new t lane (on_stream t lane (ops.Error name.now body.now) stream)) }
        ensures rest { SameOwners self.old self.new }
    {
        let Some(message) = given_last(self.given.as_slice(), stream) else {
            return Ok(plainly(Answer::Refused(Error::UnknownHandle)));
        };
        let outgoing = error_message(alloc, message, name, body);
        put(alloc, &mut self.route, &self.calls, lane, outgoing)
    }
}
