//! Messages get their serials and their calls, are built, and are placed in the outbox.
ghost use Rattle.std.specs.Prelude.{ℕ, ◌≡◌, ◌<◌, ◌^◌, ◌∷◌, [], Bool, List, length, Option, false, IfOk};
ghost use Rattle.std.specs.List.{list_any, AllByRecursion};
ghost use Rattle.wire_message.specs.Outgoing.{is_deep, sent_by};
ghost use Rattle.peer_calls.specs.History.{CallsPast, after};
ghost use Rattle.peer_calls.specs.Issuing.{posted, put_of, put_each, next_serial, drawn};
ghost use Rattle.peer_calls.specs.Placing.{IsCounted, IsPlaced, posts, Draws, Places, AreMade, Grows};

use crate::calls::PendingMethodCalls;
use std::alloc::Global;
use wire_message::{Message, OutgoingMessage, Result, Serials};
use wire_value::OwnedUniqueName;

/// A message that was put in the outbox.
#[derive(Clone, Copy, PartialEq, Eq, Debug)]
pub struct Issued {
    /// Its place in the outbox, from 0 on.
    pub index: u64,
    /// Its serial.
    pub serial: u32,
    /// Its number among the calls, from 0 on; none where no reply is expected, so that nothing waits for one.
    pub call: Option<u64>,
}

/// Whether a value of some message opens more than 64 containers at once (D-Bus Specification, "Message Protocol").
pub fn is_some_deep(list: &[OutgoingMessage<'_>]) -> bool
    ensures { result ≡ list_any is_deep list.now }
{
    list.iter().any(|outgoing| outgoing.is_deep())
}

/// Draws the message's serial, and makes the call that waits for its reply, if it expects one.
fn draw(
    calls: &mut PendingMethodCalls,
    serials: &mut Serials,
    outgoing: &OutgoingMessage<'_>,
    internal: bool,
) -> Result<u32>
    ensures drawn { (p : CallsPast) (name : Option (List ℕ)) (served : Bool) → IsCounted calls.old serials.old p
        → Draws (λ serial. serial) (next_serial p) (λ serial. after (put_of (posted internal (sent_by name served outgoing.now)) serial) p) calls.new serials.new result }
    ensures some { IfOk result (λ serial. 0 < serial) }
    ensures made { AreMade calls.old calls.new }
{
    let serial = serials.next_uncounted(calls)?;
    if outgoing.expects_reply() {
        calls.register(serial, internal)?;
    }
    Ok(serial)
}

/// Draws the serials of messages, one after another: each sees the calls of those before it (D-Bus Specification, "Message
/// Format"). The calls of those that wait for a reply are made.
///
/// # Errors
///
/// SerialsSpent exactly where some message finds each of the 4,294,967,295 serials pending, once those before it have theirs.
/// Memory for want of memory. An error leaves the serials that were drawn and the calls that were made before it; no other call
/// changes.
pub fn draw_each(
    alloc: Global,
    calls: &mut PendingMethodCalls,
    serials: &mut Serials,
    list: &[OutgoingMessage<'_>],
    internal: bool,
) -> Result<Vec<u32>>
    ensures drawn { (p : CallsPast) (name : Option (List ℕ)) (served : Bool) → IsCounted calls.old serials.old p
        → Draws (λ drawn. drawn.items) (drawn p (posts internal name served list.now)) (λ ns. put_each (posts internal name served list.now) ns p) calls.new serials.new result }
    ensures some { IfOk result (λ drawn. AllByRecursion (λ serial. 0 < serial) drawn.items) }
    ensures count { IfOk result (λ drawn. length drawn.items ≡ length list.now) }
    ensures made { AreMade calls.old calls.new }
{
    let mut drawn = Vec::new(alloc);
    for outgoing in list {
        drawn.push(draw(calls, serials, outgoing, internal)?)?;
    }
    Ok(drawn)
}

/// Builds an outgoing message with that serial, sent by the peer of that name, and puts it at the end of the outbox; where it
/// expects a reply, its call is the next, and is at that place.
fn post<'a>(
    alloc: Global,
    outbox: &mut Vec<Message>,
    places: &mut Vec<u64>,
    name: &'a Option<OwnedUniqueName>,
    served: bool,
    outgoing: OutgoingMessage<'a>,
    serial: u32,
) -> Result<Issued>
    requires some { 0 < serial }
    requires shallow { is_deep outgoing ≡ false }
    requires few { length outgoing.fds < 2 ^ 32 }
    ensures placed { (p : CallsPast) (internal : Bool) → IsPlaced outbox.old.items places.old.items p
        → Places (λ issued. issued ∷ []) (posts internal name.now served (outgoing.entry ∷ [])) (serial ∷ []) p outbox.new.items places.new.items result }
    ensures more { Grows outbox.old.items outbox.new.items }
    ensures grown { Grows places.old.items places.new.items }
{
    let waits = outgoing.expects_reply();
    let message = outgoing.build(alloc, name, served, serial)?;
    let index = outbox.len() as u64;
    let call = if waits {
        let call = places.len() as u64;
        places.push(index)?;
        Some(call)
    } else {
        None
    };
    outbox.push(message)?;
    Ok(Issued {
        index,
        serial,
        call,
    })
}

/// Builds and puts these messages, each with its serial, in order; and what is answered of each.
///
/// # Errors
///
/// ExcessData exactly where the elements of an array would take more than 67,108,864 bytes, or a message more than 134,217,728.
/// Memory for want of memory. An error leaves the messages that were put before it, at the ends of the outbox and of the places.
pub fn post_each<'a>(
    alloc: Global,
    outbox: &mut Vec<Message>,
    places: &mut Vec<u64>,
    name: &'a Option<OwnedUniqueName>,
    served: bool,
    list: Vec<OutgoingMessage<'a>>,
    serials: &[u32],
) -> Result<Vec<Issued>>
    requires some { AllByRecursion (λ serial. 0 < serial) serials.now }
    requires count { length serials.now ≡ length list.items }
    requires shallow { list_any is_deep list.items ≡ false }
    requires few { AllByRecursion (λ p. length p.fds < 2 ^ 32) list.items }
    ensures placed { (p : CallsPast) (internal : Bool) → IsPlaced outbox.old.items places.old.items p
        → Places (λ issued. issued.items) (posts internal name.now served list.entry.items) serials.now p outbox.new.items places.new.items result }
    ensures more { Grows outbox.old.items outbox.new.items }
    ensures grown { Grows places.old.items places.new.items }
{
    let mut issued = Vec::new(alloc);
    for outgoing in list {
        let serial = serials[issued.len()];
        issued.push(post(alloc, outbox, places, name, served, outgoing, serial)?)?;
    }
    Ok(issued)
}
