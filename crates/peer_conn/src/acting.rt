//! What commands do to a peer before anything of it is written.
ghost use Rattle.std.specs.Prelude.{ℕ, ◌≡◌, ◌≢◌, ◌++◌, drop, length, OnOk, IfOk, Some};
ghost use Rattle.wire_message.specs.declared.error.Error.TheVariants as errors;
ghost use Rattle.peer_route.specs.Replay.{Replay};
ghost use Rattle.peer_words.specs.OfRun.{IsOfRun};
ghost use Rattle.peer_route.specs.Plan.{plan};
ghost use Rattle.peer_conn.specs.Invariant.{StateInvariant, Did, call_owners, stream_owners, server_of, SameOwners};
ghost use Rattle.peer_conn.specs.Going.{IsBegun};

use crate::state::{PeerState, RunError};
use peer_route::{Answer, Posts, Words};
use std::alloc::{AllocError, Global};

/// What a command made, of calls and streams.
#[derive(Clone, Copy)]
pub(crate) enum Makes {
    /// Neither.
    Nothing,
    /// A call of its lane.
    Call,
    /// A stream that is open at once.
    Stream,
    /// A stream for which the bus is asked, by a call of the peer's own.
    Opening,
    /// So many calls of the peer's own.
    Own(u64),
    /// The object server's stream, which is open at once, and nobody's.
    Server,
}

/// What a command did: its answer, where all its messages are written, and what it made.
#[derive(Drop)]
pub(crate) struct Acted {
    pub(crate) answer: Answer,
    pub(crate) makes: Makes,
}

/// A command that made nothing, and has this answer.
pub(crate) fn plainly(answer: Answer) -> Acted
    ensures { result ≡ record { answer = answer; makes = Makes.Nothing } }
{
    Acted {
        answer,
        makes: Makes::Nothing,
    }
}

impl PeerState {
    /// Does what the words ask: its messages are put, and wait. They are no read and no `close`, and ask nothing of objects.
    pub(crate) fn act(
        &mut self,
        alloc: Global,
        takes_fds: bool,
        lane: u32,
        words: &Words,
    ) -> Result<Acted, RunError>
        requires runs { IsOfRun words.now }
        requires begun { IsBegun words.now }
        ensures did { (t : Replay) → StateInvariant self.old t → t.setting.takes_fds ≡ takes_fds → t.past.closing ≢ Some errors.UnknownHandle → IfOk result (Did self.new t lane (plan t lane words.now)) }
        ensures rest { OnOk result (SameOwners self.old self.new) }
    {
        match words {
            Words::Send(outgoing) => self.send(alloc, takes_fds, lane, outgoing),
            Words::OfCall { call, op } => Ok(plainly(self.of_call(lane, *call, *op))),
            Words::Stream => self.stream(lane),
            Words::Open { max_queued, rule } => self.open(alloc, lane, *max_queued, rule),
            Words::OfStream { stream, op } => self.of_stream(alloc, lane, *stream, op),
            Words::MainQueue(limit) => Ok(plainly(self.main_queue(*limit))),
            Words::Read | Words::Objects(_) | Words::Close | Words::Live(_) => unreachable!(),
        }
    }

    /// The messages that were put behind so many, in order.
    pub(crate) fn put_since(&self, alloc: Global, count: u64) -> Result<Posts, AllocError>
        ensures { IfOk result (λ posts. posts ≡ drop count self.now.core.outbox) }
    {
        let mut posts = Vec::new(alloc);
        for index in count..self.route.outbox_len() {
            match self.route.outbox(index) {
                Some(message) => posts.push(message.clone()?)?,
                None => unreachable!(),
            }
        }
        Ok(Posts(posts))
    }

    /// What the command made is its lane's, or nobody's where the write of a message failed.
    pub(crate) fn own(&mut self, lane: u32, failed: bool, makes: Makes) -> Result<(), AllocError>
        ensures { OnOk result (self.new ≡ record self.old { calls = self.old.calls ++ call_owners lane failed makes; streams = self.old.streams ++ stream_owners lane failed makes; server = server_of (length self.old.streams) self.old.server makes }) }
    {
        let owner = if failed { None } else { Some(lane) };
        match makes {
            Makes::Nothing => Ok(()),
            Makes::Call => self.calls.push(owner),
            Makes::Stream => self.streams.push(Some(lane)),
            Makes::Opening => {
                self.calls.push(None)?;
                self.streams.push(owner)
            }
            Makes::Own(count) => self.calls.push_nobodys(count),
            Makes::Server => {
                let number = self.streams.len();
                self.streams.push(None)?;
                self.server = Some(number);
                Ok(())
            }
        }
    }
}
