//! Decodes messages, and prints what their headers and their bodies say.
//!
//! Each line of the input is a message in hexadecimal. For each line the example prints the message in words, the main parts of
//! its header, and the values of its body, a line each. Where the line is no message, or its body can't be read, it prints
//! `refused` and why. A front of a message type that isn't known is none: `Connection support is lacking`, which is Unsupported.

use std::io;
use wire_message::{Header, Message, message_of};
use wire_value::Value;

/// Prints what is called, or what the message tells of.
fn print_subject(rt: &HostRuntime, header: &Header<'_>) -> io::Result<()> {
    if let Some(path) = header.path() {
        println!(rt; "  path {path}")?;
    }
    if let Some(interface) = header.interface() {
        println!(rt; "  interface {interface}")?;
    }
    if let Some(member) = header.member() {
        println!(rt; "  member {member}")?;
    }
    Ok(())
}

/// Prints who the message is from and for, and which call it replies to.
fn print_ends(rt: &HostRuntime, header: &Header<'_>) -> io::Result<()> {
    if let Some(serial) = header.reply_serial() {
        println!(rt; "  reply to {serial}")?;
    }
    if let Some(destination) = header.destination() {
        println!(rt; "  destination {destination}")?;
    }
    if let Some(sender) = header.sender() {
        println!(rt; "  sender {sender}")?;
    }
    Ok(())
}

/// Prints the values.
fn print_values(rt: &HostRuntime, values: &[Value]) -> io::Result<()> {
    for value in values {
        println!(rt; "  {value}")?;
    }
    Ok(())
}

/// Prints the values of the body.
fn print_body(rt: &HostRuntime, message: &Message) -> anyhow::Result<()> {
    let body = message.body().values(rt.alloc())?;
    Ok(print_values(rt, body.values())?)
}

/// Prints the message at the front of these hexadecimal digits.
fn print_message(rt: &HostRuntime, digits: &str) -> anyhow::Result<()> {
    let bytes = hex::decode(rt.alloc(), digits)?;
    let message = message_of(rt.alloc(), bytes)?;
    println!(rt; "{message}")?;
    print_subject(rt, &message.header())?;
    print_ends(rt, &message.header())?;
    print_body(rt, &message)
}

/// Decodes the message of each line.
pub(crate) fn run(rt: &HostRuntime, lines: &[String]) -> anyhow::Result<()> {
    for line in lines {
        if let Err(error) = print_message(rt, line.as_str()) {
            println!(rt; "refused: {error}")?;
        }
    }
    Ok(())
}
