//! A peer that puts signals.
ghost use Rattle.std.specs.Prelude.{◌≡◌, ◌<◌, ◌^◌, [], ◌∷◌, length};
ghost use Rattle.peer_core.specs.History.{Past};
ghost use Rattle.peer_core.specs.Refinement.{Refines};
ghost use Rattle.peer_core.specs.Issuing.{IssuesBy, issued_each};
ghost use Rattle.object_tests.specs.Putting.{PutsOne, one_of};

use peer_core::{Issued, Route};
use peer_objects::Emits;
use std::alloc::Global;
use wire_message::{Builder, Error, OutgoingMessage, Result};
use wire_value::BodyValues;

/// A peer that puts signals in its outbox.
pub(crate) struct Peer {
    pub(crate) alloc: Global,
    pub(crate) route: Route,
}

impl Drop for Peer {
    fn drop(self) {
        let Peer { alloc: _, route: _ } = self;
    }
}

/// Puts one message, and gives what is answered of it.
fn issue_one(alloc: Global, route: &mut Route, outgoing: OutgoingMessage<'_>) -> Result<Issued>
    requires { length outgoing.fds < 2 ^ 32 }
    ensures { (p : Past) → Refines route.old p → IssuesBy (λ issued serials. issued ∷ [] ≡ issued_each p (one_of route.old outgoing.entry) serials) (route.new ≡ route.old) (Refines route.new) (one_of route.old outgoing.entry) p result }
{
    let mut list = Vec::new(alloc);
    list.push(outgoing)?;
    let mut issued = route.issue(list, false)?;
    match issued.pop() {
        Some(issued) => Ok(issued),
        // One message is answered once.
        None => Err(Error::Memory),
    }
}

/// Puts one message, and gives its serial.
fn put_one(alloc: Global, route: &mut Route, outgoing: OutgoingMessage<'_>) -> Result<u32>
    requires { length outgoing.fds < 2 ^ 32 }
    ensures { PutsOne route.old outgoing.entry result route.new }
{
    let issued = issue_one(alloc, route, outgoing)?;
    Ok(issued.serial)
}

impl Emits for Peer {
    ghost use Rattle.object_tests.specs.Putting.{PutsOne};

    ghost puts = { λ old m result new. PutsOne old.route m result new.route };

    fn emit(&mut self, builder: Builder<'_>, body: BodyValues) -> Result<u32> {
        let outgoing = OutgoingMessage::new(builder, body, Vec::new(self.alloc));
        put_one(self.alloc, &mut self.route, outgoing)
    }
}
