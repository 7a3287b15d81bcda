//! Calls a method: a peer puts the call, messages arrive, and the call is polled until its reply is there.
//!
//! First the example prints `sent` and the call's bytes in hexadecimal, as they would go to a sink. Each line of the input is a
//! message in hexadecimal, which arrives. After each the call is polled: the example prints `not yet`, or the reply with the values
//! of its body. Where the line is no message, the peer doesn't take it, or the call was answered before, it prints `refused` and
//! why.
ghost use Rattle.std.specs.Prelude.{◌≡◌, ◌+◌, ◌-◌, ◌<◌, ◌≤◌, ◌^◌, None, false, length, IfOk};
ghost use Rattle.peer_core.specs.Refinement.{is_busy};
ghost use Rattle.std.specs.List.{AllByRecursion};

use peer_core::{Polled, Route};
use std::alloc::Global;
use std::io;
use std::marker::Brand;
use std::sync::ledger::{Blank, Ledger};
use wire_message::{Error, IoKind, Message, OutgoingMessage, Result, Steps, message_of};
use wire_value::{InterfaceName, MemberName, ObjectPath, Text, Value, to};

/// The call of `SayHello` with one string.
fn say_hello(alloc: Global, name: &str) -> Result<OutgoingMessage<'static>>
    ensures few { IfOk result (λ outgoing. length outgoing.fds < 2 ^ 32) }
{
    let path = ObjectPath::try_from("/org/zbus/MyGreeter")?;
    let interface = InterfaceName::try_from("org.zbus.MyGreeter1")?;
    let member = MemberName::try_from("SayHello")?;
    let builder = Message::method_call(&path, &member).interface(&interface);
    let body = to(alloc, (Text::from_str(alloc, name)?,))?;
    Ok(OutgoingMessage::new(builder, body, Vec::new(alloc)))
}

/// The list of that call alone.
fn messages(alloc: Global) -> Result<Vec<OutgoingMessage<'static>>>
    ensures few { IfOk result (λ list. AllByRecursion (λ p. length p.fds < 2 ^ 32) list.items) }
{
    let mut list = Vec::new(alloc);
    list.push(say_hello(alloc, "Maria")?)?;
    Ok(list)
}

/// Puts the call in the peer's outbox, and gives its number among the peer's calls.
fn call(alloc: Global, route: &mut Route) -> Result<u64> {
    let issued = route.issue(messages(alloc)?, false)?;
    let first = issued.as_slice().first().and_then(|issued| issued.call);
    first.ok_or(Error::UnknownHandle)
}

/// The message arrives. What it is tested against, of rules, is counted for nobody.
fn take_in<L: Ledger>(route: &mut Route, message: Message, blank: Blank) -> Result<()>
    requires name { blank.name ≡ L.name }
    requires parts { blank.parts ≡ L.parts }
    requires some { 0 < blank.parts }
    requires is_open { route.old.calls.closing ≡ None }
    requires has_room { is_busy route.old ≡ false }
    requires placed { message.position ≡ route.old.read + 1 }
    requires limit { message.position ≤ 2 ^ 64 - 2 }
{
    match route.arrive(message, &mut Steps::<L>::start(blank)) {
        Ok(()) => Ok(()),
        Err(_) => Err(Error::Memory),
    }
}

/// The message arrives as the next one that is read, where the peer takes one now.
fn arrive(route: &mut Route, message: Message) -> Result<()> {
    if let Some(error) = route.closing() {
        return Err(error);
    }
    if route.busy() {
        return Err(Error::Busy);
    }
    let received = route.received();
    if received > u64::MAX - 3 {
        return Err(Error::InputOutput(IoKind::Ended));
    }
    take_in::<Brand>(route, message.at(received + 1), Blank::new(1))
}

/// Prints the values.
fn print_values(rt: &HostRuntime, values: &[Value]) -> io::Result<()> {
    for value in values {
        println!(rt; "  {value}")?;
    }
    Ok(())
}

/// Prints the reply, and the values of its body.
fn print_reply(rt: &HostRuntime, reply: &Message) -> anyhow::Result<()> {
    println!(rt; "{reply}")?;
    let body = reply.body().values(rt.alloc())?;
    Ok(print_values(rt, body.values())?)
}

/// Prints what the poll gave.
fn print_answer(rt: &HostRuntime, answer: Polled<Message>) -> anyhow::Result<()> {
    match answer {
        Polled::Now(reply) => print_reply(rt, &reply),
        Polled::Closed(error) => Ok(println!(rt; "closed: {error}")?),
        Polled::NotYet | Polled::NoneBefore | Polled::Ended => Ok(println!(rt; "not yet")?),
    }
}

/// Lets the message of these hexadecimal digits arrive, and polls the call.
fn go_on(rt: &HostRuntime, route: &mut Route, call: u64, digits: &str) -> anyhow::Result<()> {
    let bytes = hex::decode(rt.alloc(), digits)?;
    arrive(route, message_of(rt.alloc(), bytes)?)?;
    print_answer(rt, route.poll(call)?)
}

/// Prints the messages of the outbox.
fn print_sent(rt: &HostRuntime, route: &Route) -> anyhow::Result<()> {
    for index in 0..route.outbox_len() {
        if let Some(message) = route.outbox(index) {
            println!(rt; "sent {}", hex::encode(rt.alloc(), message.data())?)?;
        }
    }
    Ok(())
}

/// Calls the method, and lets the message of each line arrive.
pub(crate) fn run(rt: &HostRuntime, lines: &[String]) -> anyhow::Result<()> {
    let mut route = Route::new(rt.alloc());
    let call = call(rt.alloc(), &mut route)?;
    print_sent(rt, &route)?;
    for line in lines {
        if let Err(error) = go_on(rt, &mut route, call, line.as_str()) {
            println!(rt; "refused: {error}")?;
        }
    }
    Ok(())
}
