//! Values from their bytes.
ghost use Rattle.std.specs.Prelude.{◌≤◌, IfErr, IfOk, length, take};
ghost use Rattle.wire_encoding.specs.Promises.{Explains, EncodeOnlyThe};
ghost use Rattle.wire_encoding.specs.Encoding.{Encodes};

use crate::read::read_value;
use std::alloc::Global;
use wire_encoding::MAX_DEPTH;
use wire_number::{Endian, Reader};
use wire_signature::{ValueType, VariantError};
use wire_tree::Value;

/// The value of the type that stands at the front of bytes, and how many bytes it takes (D-Bus Specification,
/// "Marshaling (Wire Format)"). The bytes begin at the place `at`, counted in bytes from the message's first; of what
/// stands behind the value nothing is asked. At most 64 containers are open at once and an array's elements take at most
/// 67,108,864 bytes, so hostile bytes can't exhaust the stack; nothing is allocated in advance by an announced length.
///
/// # Errors
///
/// [`VariantError::Malformed`] exactly where no front of the bytes encodes a value of the type.
/// [`VariantError::Memory`] for want of memory.
pub fn decode(
    alloc: Global,
    order: Endian,
    at: usize,
    value_type: &ValueType,
    bytes: &[u8],
) -> Result<(Value, usize), VariantError>
    ensures found { IfOk result (λ x. Encodes order at value_type.now x.0 (take x.1 bytes.now)) }
    ensures within { IfOk result (λ x. x.1 ≤ length bytes.now) }
    ensures only { IfOk result (λ x. EncodeOnlyThe order at value_type.now bytes.now x) }
    ensures error { IfErr result (λ e. Explains e order at value_type.now bytes.now) }
{
    let reader = Reader::new(at, bytes);
    let (tree, after) = read_value(alloc, order, MAX_DEPTH, value_type, reader)?;
    // Looking at the type tells the proof that it is within the limits.
    let _ = value_type.node();
    let value = Value::from_valid(tree);
    Ok((value, after.place - reader.place))
}
