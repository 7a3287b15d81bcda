//! Bodies as text.
use crate::rebuilt::write_rebuilt;
use crate::row::{Written, refuse, write_digits};
use crate::show::show;
use std::alloc::Global;
use wire_message::Message;
use wire_value::{BodyValues, Value, VariantError, encode_body};

fn write_values(alloc: Global, out: &mut String, values: &[Value]) -> Written {
    for value in values {
        out.push_str("\n  ")?;
        show(alloc, out, value.tree())?;
    }
    Ok(())
}

/// Writes the line for the bytes of a body that was written again: `same` where they are those that were read.
fn write_again(alloc: Global, out: &mut String, body: &[u8], again: &[u8]) -> Written {
    out.push_str("\n  ")?;
    if again == body {
        out.push_str("same")
    } else {
        write_digits(alloc, out, again)
    }
}

/// Writes the lines of a body that was read as the values and written again. Bytes that are left over encode nothing.
fn write_lines(
    alloc: Global,
    out: &mut String,
    message: &Message,
    values: &[Value],
    again: &[u8],
) -> Written {
    let body = message.body().data();
    if again.len() != body.len() {
        return refuse(out, &VariantError::Malformed);
    }
    write_values(alloc, out, values)?;
    write_again(alloc, out, body, again)?;
    write_rebuilt(alloc, out, message)
}

/// Writes the values of a body again, and the lines of both.
fn write_read(alloc: Global, out: &mut String, message: &Message, values: &BodyValues) -> Written {
    match encode_body(alloc, message.header().endian(), values) {
        Ok(again) => write_lines(alloc, out, message, values.values(), again.as_slice()),
        Err(error) => refuse(out, &error),
    }
}

/// Writes a line for each argument, one for the body written again, and one for the message built anew.
pub(crate) fn write_arguments(alloc: Global, out: &mut String, message: &Message) -> Written {
    match message.body().values(alloc) {
        Ok(values) => write_read(alloc, out, message, &values),
        Err(error) => refuse(out, &error),
    }
}
