//! A peer's state: its core, whose its calls and its streams are, and what the command made that was begun last.
ghost use Rattle.std.specs.Prelude.{◌≡◌, ◌-◌, length, []};
ghost use Rattle.peer_core.specs.History.{Past, WriteFailed, after_all};
ghost use Rattle.peer_core.specs.Refinement.{Refines};
ghost use Rattle.peer_route.specs.Replay.{Setting};
ghost use Rattle.peer_route.specs.Entries.{repeat, replay};
ghost use Rattle.peer_conn.specs.Invariant.{StateInvariant};

use crate::acting::Makes;
use crate::handles::StreamHandle;
use crate::lanes::Lanes;
use peer_route::Route;
use std::alloc::{AllocError, AllocFailed, Global};
use std::marker::Model;
use wire_message::Message;
use wire_value::OwnedUniqueName;

/// Why a command has no entry, and a run no transcript.
#[derive(Clone, Copy, PartialEq, Eq, Debug)]
pub enum RunError {
    /// There is no memory.
    Memory,
}

impl From<AllocError> for RunError {
    fn from(_e: AllocError) -> RunError {
        RunError::Memory
    }
}

impl<T: Drop> From<AllocFailed<T>> for RunError {
    fn from(_e: AllocFailed<T>) -> RunError {
        RunError::Memory
    }
}

/// A peer's core, and whose its calls and its streams are: for each, by its number, its lane; none where a call's message
/// failed, and of the object server's stream, whose number is kept. For each stream, by its number, what its lane holds of it is
/// kept, and the message that it gave last. It knows no source and no sink: who holds it reads and writes, and tells it what was
/// found and what was written.
pub struct PeerState {
    pub(crate) route: Route,
    pub(crate) calls: Lanes,
    pub(crate) streams: Lanes,
    /// The number of the object server's stream, once it was made.
    pub(crate) server: Option<u64>,
    pub(crate) handles: Vec<StreamHandle>,
    pub(crate) given: Vec<Option<Message>>,
    /// What the command made that was begun last.
    pub(crate) makes: Makes,
}

impl Drop for PeerState {
    fn drop(self) {
        let PeerState {
            route: _,
            calls: _,
            streams: _,
            server: _,
            handles: _,
            given: _,
            makes: _,
        } = self;
    }
}

impl Model for PeerState {
    ghost use Rattle.peer_conn.specs.Invariant.{PeerStateView};

    ghost Value = { PeerStateView };

    ghost view = { λ p. record { core = p.route; calls = p.calls; streams = p.streams; server = p.server; handles = p.handles.items; given = p.given.items; makes = p.makes } };
}

impl PeerState {
    /// The state before any command: of a peer on a message bus or on none, with that unique name, if it has one (D-Bus
    /// Specification, "Valid Names", "Bus names"). Its streams without a rule may hold `queue` messages before reads wait, or 64
    /// where that isn't set.
    pub fn new(
        alloc: Global,
        bus: bool,
        name: Option<OwnedUniqueName>,
        queue: Option<u64>,
    ) -> PeerState
        ensures { (setting : Setting) → setting.bus ≡ bus → setting.name ≡ name → setting.queue ≡ queue → StateInvariant result (replay setting []) }
    {
        let mut route = Route::new(alloc);
        if let Some(limit) = queue {
            route.set_main_max_queued(limit);
        }
        if bus {
            route.set_bus();
        }
        if let Some(name) = name {
            route.set_unique_name(name);
        }
        PeerState {
            route,
            calls: Lanes::new(alloc),
            streams: Lanes::new(alloc),
            server: None,
            handles: Vec::new(alloc),
            given: Vec::new(alloc),
            makes: Makes::Nothing,
        }
    }

    /// No message that waits goes out any more.
    pub(crate) fn fail_rest(&mut self)
        ensures left { (p : Past) → Refines self.old.core p → Refines self.new.core (after_all (repeat (length self.old.core.outbox - self.old.core.done) WriteFailed) p) }
        ensures rest { self.new ≡ record self.old { core = self.new.core } }
    {
        while self.route.outbox_done() < self.route.outbox_len() {
            self.route.write_fault(self.route.outbox_done());
        }
    }
}
