//! Bodies that are written, appended and read. The bytes are worked by hand from the D-Bus Specification, "Marshaling".
use std::alloc::Global;
use wire_value::{
    BodyValues, Endian, Text, VariantError, append_body, decode_body, encode_body, is_shallow, to,
};

/// Worked by hand from the D-Bus Specification, "Marshaling (Wire Format)": a string of seven bytes, then a number on the next
/// multiple of 4; in little order, then in big order.
const LITTLE: &[u8] = b"\x07\0\0\0kaboom!\0\x20\0\0\0";

const BIG: &[u8] = b"\0\0\0\x07kaboom!\0\0\0\0\x20";

fn sample(alloc: Global) -> Result<BodyValues, VariantError> {
    to(alloc, (Text::from_str(alloc, "kaboom!")?, 32i32))
}

/// Whether the body is written as these bytes.
fn is_written(alloc: Global, order: Endian, body: &BodyValues, bytes: &[u8]) -> bool {
    match encode_body(alloc, order, body) {
        Ok(written) => written.as_slice() == bytes,
        Err(_) => false,
    }
}

/// What stands in an output before a body.
const FRONT: &[u8] = b"l\x01\0\x01\0\0\0\x07";

/// Whether the body is appended as these bytes, and what stands before it stays.
fn is_appended(alloc: Global, order: Endian, body: &BodyValues, bytes: &[u8]) -> bool {
    let mut out = Vec::new(alloc);
    let front = out.extend_from_slice(FRONT).is_ok();
    if !front || out.len() % 8 != 0 || !is_shallow(body) {
        return false;
    }
    let written = append_body(order, body, &mut out).is_ok();
    written && out.as_slice().strip_prefix(FRONT) == Some(bytes)
}

/// Whether the bytes, all of them, are read as the body's values.
fn is_read(alloc: Global, order: Endian, body: &BodyValues, bytes: &[u8]) -> bool {
    match decode_body(alloc, order, body.signature(), bytes) {
        Ok((values, count)) => values.as_slice() == body.values() && count == bytes.len(),
        Err(_) => false,
    }
}

fn holds(alloc: Global, order: Endian, body: &BodyValues, bytes: &[u8]) -> bool {
    is_written(alloc, order, body, bytes)
        && is_appended(alloc, order, body, bytes)
        && is_read(alloc, order, body, bytes)
}

fn holds_in_both_orders(alloc: Global, body: &BodyValues) -> bool {
    holds(alloc, Endian::Little, body, LITTLE) && holds(alloc, Endian::Big, body, BIG)
}

fn sample_holds(alloc: Global) -> Result<bool, VariantError> {
    Ok(holds_in_both_orders(alloc, &sample(alloc)?))
}

#[test]
fn arguments_as_bytes(rt: HostRuntime) {
    assert!(rt; sample_holds(rt.alloc()) == Ok(true));
}
