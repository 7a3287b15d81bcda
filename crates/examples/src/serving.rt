//! Serves objects: two kinds of interface, each written with what it means, and a service over boxes of interfaces of any kind.
//!
//! `org.example.Counter` and `org.example.Greeting` stand at `/org/example`. Each line of the input is a message in hexadecimal. For
//! each line the example prints `sent` and the bytes of what goes out, in hexadecimal, or `-` where nothing does. Where the line is
//! no message, or what goes out can't be put, it prints `refused` and why.
ghost use Rattle.std.specs.Prelude.{IfOk};
ghost use Rattle.examples.specs.Example.{Answered};

mod counter;
mod greeting;
mod parts;

use counter::Counter;
use greeting::Greeting;
use peer_core::{Issued, Route};
use peer_objects::{Adding, Interface, ObjectServer};
use std::alloc::Global;
use wire_message::{Error, Message, Result, message_of};
use wire_value::ObjectPath;

/// A service with these interfaces at `/org/example`, each of a name of its own.
fn service<B: Interface>(alloc: Global, boxes: Vec<B>) -> Result<ObjectServer<B>> {
    let mut server = ObjectServer::new(alloc)?;
    let path = ObjectPath::try_from("/org/example")?;
    for object in boxes {
        match server.at(&path, object) {
            Ok(Adding::Added(_)) => {}
            Ok(Adding::Exists(_)) => return Err(Error::NameTaken),
            Err(_) => return Err(Error::Memory),
        }
    }
    Ok(server)
}

/// Answers a message by what it reaches of the service, and puts in the outbox what goes out: all of it, or nothing. It tells the
/// place, the serial and the call of each.
fn answer<B: Interface>(
    server: &mut ObjectServer<B>,
    route: &mut Route,
    message: &Message,
) -> Result<Vec<Issued>>
    ensures { IfOk result (λ told. Answered B.meaning B.state (server.old.0, server.old.1) (server.new.0, server.new.1) route.old route.new message.now told.items) }
{
    let (messages, _) = server.dispatch(message, None)?.into_parts();
    route.issue(messages, true)
}

/// The messages of the outbox behind so many, in hexadecimal.
fn sent_since(alloc: Global, route: &Route, count: u64) -> anyhow::Result<String> {
    let mut sent = String::new(alloc);
    for index in count..route.outbox_len() {
        if let Some(message) = route.outbox(index) {
            sent.push_str(hex::encode(alloc, message.data())?.as_str())?;
        }
    }
    if sent.is_empty() {
        sent.push_str("-")?;
    }
    Ok(sent)
}

/// What goes out where the message of these hexadecimal digits is taken in.
fn taken_in<B: Interface>(
    alloc: Global,
    server: &mut ObjectServer<B>,
    route: &mut Route,
    digits: &str,
) -> anyhow::Result<String> {
    let message = message_of(alloc, hex::decode(alloc, digits)?)?;
    let before = route.outbox_len();
    answer(server, route, &message)?;
    sent_since(alloc, route, before)
}

/// Serves these interfaces: the message of each line is answered.
fn serve<B: Interface>(rt: &HostRuntime, boxes: Vec<B>, lines: &[String]) -> anyhow::Result<()> {
    let alloc = rt.alloc();
    let mut server = service(alloc, boxes)?;
    let mut route = Route::new(alloc);
    for line in lines {
        match taken_in(alloc, &mut server, &mut route, line.as_str()) {
            Ok(sent) => println!(rt; "sent {sent}")?,
            Err(error) => println!(rt; "refused: {error}")?,
        }
    }
    Ok(())
}

/// Serves a counter and a greeting.
pub(crate) fn run(rt: &HostRuntime, lines: &[String]) -> anyhow::Result<()> {
    let alloc = rt.alloc();
    let mut boxes: Vec<Box<dyn Interface>> = Vec::new(alloc);
    boxes.push(Box::new(alloc, Counter::new())?)?;
    boxes.push(Box::new(alloc, Greeting)?)?;
    serve(rt, boxes, lines)
}
