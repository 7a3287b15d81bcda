//! Bodies of messages, as arguments. The bytes are worked by hand from the D-Bus Specification, "Marshaling".
use crate::test_support::{do_call, holds};
use std::alloc::Global;
use wire_message::{Body, Message, NonePending, Result, Serials, built_bodies_are_read_again};
use wire_value::{Endian, Struct, Text, to};

/// A string of seven bytes, then a number on the next multiple of 4.
const LITTLE: &[u8] = b"\x07\0\0\0kaboom!\0\x20\0\0\0";

const BIG: &[u8] = b"\0\0\0\x07kaboom!\0\0\0\0\x20";

/// A call in little order with the text and the number, as values, and two descriptors.
fn call_of_values(alloc: Global) -> Result<Message> {
    let values = to(alloc, (Text::from_str(alloc, "kaboom!")?, 32i32))?;
    let mut serials = Serials::new();
    do_call()?.build_body_uncounted(alloc, &mut serials, &NonePending, &values, &[3, 4])
}

/// A call in big order with the same as arguments, without descriptors.
fn call_of_arguments(alloc: Global) -> Result<Message> {
    let text = Text::from_str(alloc, "kaboom!")?;
    let call = do_call()?.endian(Endian::Big);
    call.build_uncounted(alloc, &mut Serials::new(), &NonePending, &(text, 32i32))
}

/// Whether the arguments are the text and the number.
fn are_arguments(alloc: Global, body: &Body<'_>) -> Result<bool> {
    let (text, number) = body.deserialize::<(Text, i32)>(alloc)?;
    Ok(number == 32 && text.as_str() == "kaboom!")
}

/// Whether the body is these bytes, and has the text and the number.
fn is_right(alloc: Global, message: &Message, bytes: &[u8], fds: &[u32]) -> Result<bool> {
    let body = message.body();
    if body.data() != bytes || message.fds() != fds {
        return Ok(false);
    }
    are_arguments(alloc, &body)
}

fn values_are_read(alloc: Global) -> Result<bool> {
    is_right(alloc, &call_of_values(alloc)?, LITTLE, &[3, 4])
}

fn arguments_are_read(alloc: Global) -> Result<bool> {
    let call = call_of_arguments(alloc)?;
    let types = call.body().signature(alloc)?;
    Ok(types.types().len() == 2 && is_right(alloc, &call, BIG, &[])?)
}

/// A number of one byte, then on the next multiple of 8 a struct of a string of one byte and a number on a multiple of 4.
const STRUCT: &[u8] = b"\x07\0\0\0\0\0\0\0\x01\0\0\0a\0\0\0\x05\0\0\0";

/// Whether the body is the number and the struct, as arguments and as values.
fn is_struct(alloc: Global, body: &Body<'_>) -> Result<bool> {
    let (number, pair) = body.deserialize::<(u8, Struct<(Text, u32)>)>(alloc)?;
    let (text, count) = pair.fields();
    let fields = number == 7 && text.as_str() == "a" && *count == 5;
    Ok(fields && body.values(alloc)?.values().len() == 2)
}

fn structs_are_read(alloc: Global) -> Result<bool> {
    let arguments = (7u8, Struct::new((Text::from_str(alloc, "a")?, 5u32)));
    let call = do_call()?.build_uncounted(alloc, &mut Serials::new(), &NonePending, &arguments)?;
    let body = call.body();
    Ok(body.data() == STRUCT && is_struct(alloc, &body)?)
}

#[test]
fn bodies_are_read_in_both_orders(rt: HostRuntime) {
    built_bodies_are_read_again::<(Text, i32)>();
    assert!(rt; holds(values_are_read(rt.alloc())));
    assert!(rt; holds(arguments_are_read(rt.alloc())));
    assert!(rt; holds(structs_are_read(rt.alloc())));
}
