//! Reading a field array, from left to right (D-Bus Specification, "Header Fields").
ghost use Rattle.std.specs.Prelude.{◌≡◌, ◌≤◌, length, option_map, slice_index, IfSome};
ghost use Rattle.wire_number.specs.Reading.{behind, made};
ghost use Rattle.wire_number.specs.ReaderView.{Finds, cursor_of};
ghost use Rattle.wire_encoding.specs.Reading.{value_at as datum_at};
ghost use Rattle.wire_message.specs.Field.{is_value as has_value};
ghost use Rattle.wire_message.specs.FieldValue.{value_of, field_of};
ghost use Rattle.wire_message.specs.FieldOffsets.{area, found_fields, AreSpans};
ghost use Rattle.wire_message.specs.FieldReading.{header_field_at as field_found, known_at as known_found, fields_in, value_at as value_found};
ghost use Rattle.wire_message.specs.HeaderField.{field_single_type, known, behind_bytes};

use crate::field::{FieldCode, code_at, is_number, is_text};
use crate::field_offsets::{FieldOffsets, FieldValue};
use wire_encoding::skip_by_text;
use wire_number::{Endian, Reader};
use wire_signature::BasicType;

/// A value of the type. It stands behind four bytes at a multiple of 8, so that a number needs no padding.
#[tactic(auto, unfolding(crate::specs::FieldReading::value_at))]
fn value<'a>(
    order: Endian,
    kind: BasicType,
    reader: Reader<'a>,
) -> Option<(FieldValue<'a>, Reader<'a>)>
    ensures { Finds (λ x. (value_of x.0, cursor_of x.1)) result (value_found order kind (cursor_of reader.entry)) }
{
    match kind {
        BasicType::Signature => {
            let (text, after) = reader.short_text(order)?;
            Some((FieldValue::Text(text), after))
        }
        BasicType::Uint32 => {
            let (number, after) = reader.u32(order)?;
            Some((FieldValue::Number(number), after))
        }
        _ => {
            let (text, after) = reader.long_text(order)?;
            Some((FieldValue::Text(text), after))
        }
    }
}

/// Whether the field may have the value.
fn is_value(code: FieldCode, field_value: FieldValue<'_>) -> bool
    ensures { result ≡ has_value code (value_of field_value.entry) }
{
    match field_value {
        FieldValue::Text(text) => is_text(code, text),
        FieldValue::Number(number) => is_number(code, number),
    }
}

/// The known field that stands here: its code and its value.
#[tactic(auto, unfolding(crate::specs::FieldReading::known_at))]
fn known_field<'a>(
    order: Endian,
    reader: Reader<'a>,
) -> Option<((FieldCode, FieldValue<'a>), Reader<'a>)>
    ensures { Finds (λ x. (field_of x.0, cursor_of x.1)) result (known_found order (cursor_of reader.entry)) }
{
    let (head, inner) = reader.bytes(4)?;
    let code = code_at(head)?;
    let (field_value, after) = value(order, code.value_type(), inner)?;
    if is_value(code, field_value) {
        Some(((code, field_value), after))
    } else {
        None
    }
}

/// How many bytes a field takes, as a value of any type in a struct with its code; `place` is that of the first byte.
fn field_len(order: Endian, place: usize, bytes: &[u8]) -> Option<usize>
    ensures found { Finds (λ n. behind_bytes n place bytes.now) result (behind (datum_at 64 order field_single_type (record { place = place; rest = bytes.now }))) }
    ensures within { IfSome result (λ n. n ≤ length bytes.now) }
{
    skip_by_text(order, place, b"(yv)", bytes)
}

/// The first byte; 0 where there is none.
fn first_byte(bytes: &[u8]) -> u8
    ensures { result ≡ slice_index bytes.now 0 }
{
    match bytes {
        [first, ..] => *first,
        [] => 0,
    }
}

/// The greatest code of a known field.
const LAST_CODE: u8 = 9;

/// The next field: its code and its value, or nothing where its code isn't known.
fn next_field<'a>(
    order: Endian,
    reader: Reader<'a>,
) -> Option<(Option<(FieldCode, FieldValue<'a>)>, Reader<'a>)>
    ensures { Finds (λ x. (option_map field_of x.0, cursor_of x.1)) result (made known (field_found order (cursor_of reader.entry))) }
{
    let start = reader.align(8)?;
    if LAST_CODE < first_byte(start.rest) {
        let count = field_len(order, reader.place, reader.rest)?;
        let (_, after) = reader.bytes(count)?;
        return Some((None, after));
    }
    let (field, after) = known_field(order, start)?;
    Some((Some(field), after))
}

/// Stands at the front of the field array, which ends at `end`.
fn reader_of(bytes: &[u8], end: usize) -> Reader<'_>
    requires from { 16 ≤ end }
    requires there { end ≤ length bytes.now }
    ensures { cursor_of result ≡ record { place = 16; rest = area bytes.now 16 end } }
{
    Reader {
        place: 16,
        rest: &bytes[16..end],
    }
}

/// The fields of a field array that ends at `end`; None where the bytes are no field array.
pub(crate) fn offsets_in(order: Endian, bytes: &[u8], end: usize) -> Option<FieldOffsets>
    requires from { 16 ≤ end }
    requires there { end ≤ length bytes.now }
    ensures found { option_map (found_fields bytes.now) result ≡ fields_in order (area bytes.now 16 end) }
    ensures spans { IfSome result (AreSpans end) }
{
    let mut offsets = FieldOffsets::none();
    let mut left = reader_of(bytes, end);
    while !left.rest.is_empty() {
        let (field, after) = next_field(order, left)?;
        offsets.set_field(field, after.place);
        left = after;
    }
    Some(offsets)
}
