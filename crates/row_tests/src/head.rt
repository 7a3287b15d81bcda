//! Headers as text.
use crate::leaf::write_quoted;
use crate::row::Written;
use bitflags::Flags;
use wire_message::{Header, Message, MessageType};
use wire_value::Endian;

fn kind_word(kind: MessageType) -> &'static str {
    match kind {
        MessageType::MethodCall => "method_call",
        MessageType::MethodReturn => "method_return",
        MessageType::Error => "error",
        MessageType::Signal => "signal",
    }
}

fn order_letter(order: Endian) -> char {
    match order {
        Endian::Little => 'l',
        Endian::Big => 'B',
    }
}

fn write_text(out: &mut String, name: &str, text: &str) -> Written {
    write!(out, " {name}={text}")
}

fn write_number(out: &mut String, name: &str, number: u32) -> Written {
    write!(out, " {name}={number}")
}

/// Writes the fields that say what is called, or what came of it.
fn write_subject(out: &mut String, header: &Header<'_>) -> Written {
    if let Some(path) = header.path() {
        write_text(out, "path", path.as_str())?;
    }
    if let Some(interface) = header.interface() {
        write_text(out, "interface", interface.as_str())?;
    }
    if let Some(member) = header.member() {
        write_text(out, "member", member.as_str())?;
    }
    if let Some(name) = header.error_name() {
        write_text(out, "error_name", name.as_str())?;
    }
    Ok(())
}

/// Writes the fields that say who sent the message, and for whom.
fn write_ends(out: &mut String, header: &Header<'_>) -> Written {
    if let Some(serial) = header.reply_serial() {
        write_number(out, "reply_serial", serial)?;
    }
    if let Some(name) = header.destination() {
        write_text(out, "destination", name.as_str())?;
    }
    if let Some(name) = header.sender() {
        write_text(out, "sender", name.as_str())?;
    }
    if let Some(count) = header.unix_fds() {
        write_number(out, "unix_fds", count)?;
    }
    Ok(())
}

/// Writes a line with all that the header says.
pub(crate) fn write_head(out: &mut String, message: &Message) -> Written {
    let header = message.header();
    let kind = kind_word(header.message_type());
    let order = order_letter(header.endian());
    let flags = header.flags().bits();
    let serial = message.serial_num();
    write!(out, "{kind} {order} flags={flags} serial={serial}")?;
    write_subject(out, &header)?;
    write_ends(out, &header)?;
    out.push_str(" signature=")?;
    write_quoted(out, header.signature().unwrap_or(&[]))
}
