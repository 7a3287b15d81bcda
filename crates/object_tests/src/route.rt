//! What a peer's core says of its streams and its calls, by the calls that no command of a script makes.
ghost use Rattle.std.specs.Prelude.{◌≡◌, ◌+◌, ◌-◌, ◌<◌, ◌≤◌, ◌^◌, None, false};
ghost use Rattle.peer_core.specs.Refinement.{is_busy};

use peer_core::{MessageStream, PendingMethodCalls, Route};
use std::alloc::Global;
use std::marker::Brand;
use std::sync::ledger::{Blank, Ledger};
use wire_message::{Message, Result, Serials, Steps, Taken, message_of};

/// A method return with serial 1 that answers serial 1 (D-Bus Specification, "Message Format").
const RETURN: [u8; 24] = [
    108, 2, 0, 1, 0, 0, 0, 0, 1, 0, 0, 0, 8, 0, 0, 0, 5, 1, 117, 0, 1, 0, 0, 0,
];

/// The message arrives, with its tests of rules counted for nobody.
fn takes_in<L: Ledger>(route: &mut Route, message: Message, blank: Blank) -> bool
    requires name { blank.name ≡ L.name }
    requires parts { blank.parts ≡ L.parts }
    requires some { 0 < blank.parts }
    requires is_open { route.old.calls.closing ≡ None }
    requires has_room { is_busy route.old ≡ false }
    requires placed { message.position ≡ route.old.read + 1 }
    requires limit { message.position ≤ 2 ^ 64 - 2 }
{
    route.arrive(message, &mut Steps::<L>::start(blank)).is_ok()
}

/// The message arrives, where the peer takes one and its position comes next; else it doesn't.
fn comes(route: &mut Route, message: Message) -> bool {
    if route.closing().is_some() || route.busy() {
        return false;
    }
    let received = route.received();
    if received > 1000 || message.recv_position() != received + 1 {
        return false;
    }
    takes_in::<Brand>(route, message, Blank::new(1))
}

/// The return, read from its bytes.
fn returned(alloc: Global) -> Result<Message> {
    message_of(alloc, RETURN.to_vec(alloc)?)
}

/// The return arrives at position 1.
fn return_comes(route: &mut Route, alloc: Global) -> bool {
    match returned(alloc) {
        Ok(message) => comes(route, message.at(1)),
        Err(_) => false,
    }
}

/// Whether the stream holds one message, which it gives next, and may hold 64.
fn holds_one(route: &Route, stream: &MessageStream) -> bool {
    route.stored(None) == 1
        && route.next_position(stream) == Some(1)
        && route.next_message(stream).is_some()
        && route.max_queued(stream).ok() == Some(64)
        && !route.is_terminated(stream)
}

#[test]
fn a_stream_holds_what_came(rt: HostRuntime) {
    let mut route = Route::new(rt.alloc());
    let stream = route.open().expect(&rt, "no memory");
    assert!(rt; return_comes(&mut route, rt.alloc()) && holds_one(&route, &stream));
}

/// Whether the first call waits for the reply to its serial.
fn waits(calls: &mut PendingMethodCalls) -> bool {
    !calls.taken(7) && calls.register_call(7).ok() == Some(0) && calls.taken(7)
}

#[test]
fn a_call_is_registered(rt: HostRuntime) {
    let mut calls = PendingMethodCalls::new(rt.alloc());
    assert!(rt; waits(&mut calls));
}

/// Whether a call of this serial waits for its reply from now on.
fn is_registered(calls: &mut PendingMethodCalls, serial: u32) -> bool
    requires { 0 < serial }
{
    !calls.taken(serial) && calls.register_call(serial).is_ok()
}

/// The next serial after 4,294,967,294 while 4,294,967,295 and 1 are pending.
fn serial_after_pending(alloc: Global) -> Option<u32> {
    let mut calls = PendingMethodCalls::new(alloc);
    if !is_registered(&mut calls, u32::MAX) || !is_registered(&mut calls, 1) {
        return None;
    }
    let mut serials = Serials::after(u32::MAX - 1);
    serials.next_uncounted(&calls).ok()
}

#[test]
fn pending_serials_are_skipped(rt: HostRuntime) {
    assert!(rt; serial_after_pending(rt.alloc()) == Some(2));
}
