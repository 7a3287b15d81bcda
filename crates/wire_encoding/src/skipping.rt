//! How many bytes a value takes, without memory.
ghost use Rattle.std.specs.Prelude.{◌≤◌, IfNone, IfSome, length, take};
ghost use Rattle.wire_signature.specs.SingleType.{SingleType};
ghost use Rattle.wire_tree.specs.Datum.{Datum};
ghost use Rattle.wire_encoding.specs.Promises.{EncodeNothing, EncodeOnly, StandsFirst};
ghost use Rattle.wire_encoding.specs.Encoding.{Encodes};

use crate::walk::{MAX_DEPTH, walk_value};
use wire_number::{Endian, Reader};
use wire_signature::{MAX_LENGTH, ValueType, first_type};

/// How many bytes the value of the type takes that stands at the front of bytes, without memory; nothing exactly
/// where no front of the bytes encodes a value of the type.
pub fn skip(order: Endian, at: usize, value_type: &ValueType, bytes: &[u8]) -> Option<usize>
    ensures found { IfSome result (λ n. (d : Datum) × Encodes order at value_type.now d (take n bytes.now)) }
    ensures within { IfSome result (λ n. n ≤ length bytes.now) }
    ensures only { IfSome result (EncodeOnly order at value_type.now bytes.now) }
    ensures none { IfNone result (EncodeNothing order at value_type.now bytes.now) }
{
    let mut text = [0; MAX_LENGTH];
    let end = value_type.put_text(&mut text);
    skip_by_text(order, at, &text[..end], bytes)
}

/// How many bytes the value takes that stands at the front of bytes, and whose type stands at the front of a text, without
/// memory. So the text of a body's signature leads over the body: [`first_type`] steps over the text, and this over the
/// bytes. Of the text behind the type nothing is asked.
pub fn skip_by_text(order: Endian, at: usize, types: &[u8], bytes: &[u8]) -> Option<usize>
    ensures found { IfSome result (λ n. (t : SingleType) × (d : Datum) × StandsFirst t types.now × Encodes order at t d (take n bytes.now)) }
    ensures within { IfSome result (λ n. n ≤ length bytes.now) }
    ensures only { IfSome result (λ n. (t : SingleType) → StandsFirst t types.now → EncodeOnly order at t bytes.now n) }
    ensures none { IfNone result ((t : SingleType) → StandsFirst t types.now → EncodeNothing order at t bytes.now) }
{
    if first_type(types)? > MAX_LENGTH {
        return None;
    }
    let reader = Reader::new(at, bytes);
    let (_, after) = walk_value(order, MAX_DEPTH, types, reader)?;
    Some(after.place - reader.place)
}
