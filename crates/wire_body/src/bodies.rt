//! The bytes of a body's values, and the values of its bytes.
ghost use Rattle.std.specs.Prelude.{◌≡◌, ◌%◌, ◌≤◌, ◌↔◌, IfErr, IfOk, IsTrue, None, length, take};
ghost use Rattle.wire_tree.specs.Datum.{data_of};
ghost use Rattle.wire_encoding.specs.Encoding.{AllFit, depths, encodings};
ghost use Rattle.wire_encoding.specs.Each.{EncodeEach};
ghost use Rattle.wire_body.specs.Bodies.{Explains, HasOnlyBody};
ghost use Rattle.wire_codec.specs.Writing.{EncodedAll, WritesAll, WroteWhole};

use crate::body::BodyValues;
use std::alloc::Global;
use std::mem;
use wire_codec::{EncodeError, Encoder, decode, is_within, write_value};
use wire_encoding::MAX_DEPTH;
use wire_number::Endian;
use wire_signature::{Signature, VariantError};
use wire_tree::Value;

/// Whether no more than 64 containers are open at once in each value.
fn are_shallow(values: &[Value]) -> bool
    ensures { IsTrue result ↔ (depths (data_of values.now) ≤ 64) }
{
    for value in values {
        if !is_within(MAX_DEPTH, value.tree()) {
            return false;
        }
    }
    true
}

/// Whether no more than 64 containers are open at once in each value of a body, so that its bytes are a body's (D-Bus
/// Specification, "Message Format", "Marshaling (Wire Format)"). Takes no memory.
pub fn is_shallow(body: &BodyValues) -> bool
    ensures { IsTrue result ↔ (depths (data_of body.now) ≤ 64) }
{
    are_shallow(body.values())
}

/// Appends values one after the other.
fn write_each(alloc: Global, encoder: &mut Encoder, values: &[Value]) -> Result<(), EncodeError>
    ensures { WritesAll result (data_of values.now) encoder.old encoder.new }
{
    for value in values {
        write_value(alloc, encoder, value.tree())?;
    }
    Ok(())
}

/// Appends the bytes of a body to an output that ends on a multiple of 8, where a body begins in its message (D-Bus
/// Specification, "Message Format", "Marshaling (Wire Format)"). How many containers its values open was asked before, by
/// [`is_shallow`]. After an error the output is as before.
///
/// # Errors
///
/// [`EncodeError::ExcessData`] exactly where the elements of an array take more than 67,108,864 bytes.
/// [`EncodeError::Memory`] for want of memory.
pub fn append_body(order: Endian, body: &BodyValues, out: &mut Vec<u8>) -> Result<(), EncodeError>
    requires shallow { depths (data_of body.now) ≤ 64 }
    requires placed { length out.old.items % 8 ≡ 0 }
    ensures { WroteWhole result (encodings order 0 (data_of body.now)) (AllFit order 0 (data_of body.now)) out.old.items out.new.items }
{
    let before = out.len();
    let alloc = *out.allocator();
    let bytes = mem::replace(out, Vec::new(alloc));
    let mut encoder = Encoder::new(order, 0, None, bytes);
    let written = write_each(alloc, &mut encoder, body.values());
    *out = encoder.into_bytes();
    match written {
        Ok(()) => Ok(()),
        Err(error) => {
            out.truncate(before);
            Err(error)
        }
    }
}

/// The bytes of a body: the encodings of its values, one behind the other (D-Bus Specification, "Message Format",
/// "Marshaling (Wire Format)"). A body begins at a multiple of 8 in its message, so places are counted from its first byte.
///
/// # Errors
///
/// [`EncodeError::Variant`] of `Depth` exactly where more than 64 containers are open at once in a value.
/// [`EncodeError::ExcessData`] exactly where no such depth is there and the elements of an array take more than
/// 67,108,864 bytes. [`EncodeError::Memory`] for want of memory.
pub fn encode_body(alloc: Global, order: Endian, body: &BodyValues) -> Result<Vec<u8>, EncodeError>
    ensures { EncodedAll (λ v. v.items) result order body.now }
{
    if !is_shallow(body) {
        return Err(EncodeError::Variant(VariantError::Depth));
    }
    let mut text = Vec::new(alloc);
    append_body(order, body, &mut text)?;
    Ok(text)
}

/// The values that a front of a message's body encodes in that byte order, one of each type of the signature, and how many
/// bytes they take (D-Bus Specification, "Message Format"). Of what stands behind them nothing is asked.
///
/// # Errors
///
/// [`VariantError::Malformed`] exactly where no front of the bytes encodes a value of each type.
/// [`VariantError::Memory`] for want of memory.
pub fn decode_body(
    alloc: Global,
    order: Endian,
    signature: &Signature,
    bytes: &[u8],
) -> Result<(Vec<Value>, usize), VariantError>
    ensures found { IfOk result (λ x. EncodeEach order 0 signature.now x.0.items (take x.1 bytes.now)) }
    ensures within { IfOk result (λ x. x.1 ≤ length bytes.now) }
    ensures only { IfOk result (λ x. HasOnlyBody order signature.now bytes.now x.0.items x.1) }
    ensures error { IfErr result (λ e. Explains e order signature.now bytes.now) }
{
    let mut values = Vec::new(alloc);
    let mut at = 0;
    let types = signature.types();
    for value_type in types {
        let (value, count) = decode(alloc, order, at, value_type, &bytes[at..])?;
        values.push(value)?;
        at += count;
    }
    Ok((values, at))
}
