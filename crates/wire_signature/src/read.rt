//! Building types from their text. Each function is the twin of one in `walk`, which takes no memory. What may still
//! stand in one another is counted down, so that no text leads deeper than the limits allow: `arrays` and `structs`
//! by the standard, and `room` for the calls themselves.
ghost use Rattle.std.specs.Prelude.{◌≡◌, ◌≤◌, ◌∷◌, length};
ghost use Rattle.wire_signature.specs.Parsing.{Gives, array_or_dict, entry_at, fields_at, many_at, skip_byte, type_at, type_step};
ghost use Rattle.wire_signature.specs.TypeView.{single_type_of};

use crate::basic::BasicType;
use crate::error::VariantError;
use crate::value_type::{TypeNode, ValueType};
use crate::walk::{End, skip_byte, split};
use std::alloc::Global;

/// A dict entry behind its opening bracket, as the array of such entries.
#[cycle(read)]
fn read_entry(
    alloc: Global,
    room: usize,
    arrays: usize,
    structs: usize,
    text: &[u8],
) -> Result<(TypeNode, &[u8]), VariantError>
    requires arrays { arrays ≤ 32 }
    requires structs { structs ≤ 32 }
    requires short { length text.now ≤ 255 }
    ensures { Gives (λ x. (single_type_of x.0, x.1.now)) result (entry_at (type_at room arrays structs) text.now) }
{
    let (first, rest) = split(text).ok_or(VariantError::Signature)?;
    let key = BasicType::from_letter(first).ok_or(VariantError::Signature)?;
    let (value, rest) = read_type(alloc, room, arrays, structs, rest)?;
    let rest = skip_byte(b'}', rest).ok_or(VariantError::Signature)?;
    Ok((TypeNode::Dict(key, Box::new(alloc, value)?), rest))
}

/// What stands behind the letter of an array.
#[cycle(read)]
fn read_array(
    alloc: Global,
    room: usize,
    arrays: usize,
    structs: usize,
    text: &[u8],
) -> Result<(TypeNode, &[u8]), VariantError>
    requires arrays { arrays ≤ 32 }
    requires structs { structs ≤ 32 }
    requires short { length text.now ≤ 255 }
    ensures { Gives (λ x. (single_type_of x.0, x.1.now)) result (array_or_dict (type_at room arrays structs) text.now (skip_byte 123 text.now)) }
{
    match skip_byte(b'{', text) {
        Some(entry) => read_entry(alloc, room, arrays, structs, entry),
        None => {
            let (element, rest) = read_type(alloc, room, arrays, structs, text)?;
            Ok((TypeNode::Array(Box::new(alloc, element)?), rest))
        }
    }
}

/// A struct behind its opening bracket.
#[cycle(read)]
fn read_fields(
    alloc: Global,
    room: usize,
    arrays: usize,
    structs: usize,
    text: &[u8],
) -> Result<(TypeNode, &[u8]), VariantError>
    requires arrays { arrays ≤ 32 }
    requires structs { structs ≤ 32 }
    requires short { length text.now ≤ 255 }
    ensures { Gives (λ x. (single_type_of x.0, x.1.now)) result (fields_at (type_at room arrays structs) text.now (skip_byte 41 text.now)) }
{
    match skip_byte(b')', text) {
        Some(_) => Err(VariantError::Signature),
        None => {
            let (fields, rest) = read_types(alloc, End::Bracket, room, arrays, structs, text)?;
            Ok((TypeNode::Struct(fields), rest))
        }
    }
}

/// The types up to their end, and the text behind it.
#[cycle(read)]
pub(crate) fn read_types(
    alloc: Global,
    until: End,
    room: usize,
    arrays: usize,
    structs: usize,
    text: &[u8],
) -> Result<(Vec<ValueType>, &[u8]), VariantError>
    requires arrays { arrays ≤ 32 }
    requires structs { structs ≤ 32 }
    requires short { length text.now ≤ 255 }
    ensures { Gives (λ x. (x.0.items, x.1.now)) result (many_at (length text.now) until (type_at room arrays structs) text.now) }
{
    let mut types = Vec::new(alloc);
    let mut rest = text;
    for _ in 0..text.len() {
        if let Some(after) = until.behind(rest) {
            return Ok((types, after));
        }
        let (one, others) = read_type(alloc, room, arrays, structs, rest)?;
        types.push(one)?;
        rest = others;
    }
    let after = until.behind(rest).ok_or(VariantError::Signature)?;
    Ok((types, after))
}

/// The outermost level of the type that begins with this byte.
#[cycle(read)]
fn read_kind(
    alloc: Global,
    room: usize,
    arrays: usize,
    structs: usize,
    first: u8,
    rest: &[u8],
) -> Result<(TypeNode, &[u8]), VariantError>
    requires arrays { arrays ≤ 32 }
    requires structs { structs ≤ 32 }
    requires short { length rest.now ≤ 255 }
    ensures { Gives (λ x. (single_type_of x.0, x.1.now)) result (type_step (type_at room) arrays structs (first ∷ rest.now)) }
{
    match first {
        b'a' if arrays > 0 => read_array(alloc, room, arrays - 1, structs, rest),
        b'(' if structs > 0 => read_fields(alloc, room, arrays, structs - 1, rest),
        b'v' => Ok((TypeNode::Variant, rest)),
        letter => {
            let basic = BasicType::from_letter(letter).ok_or(VariantError::Signature)?;
            Ok((TypeNode::Basic(basic), rest))
        }
    }
}

/// The type at the front of a text, and the text behind it.
#[cycle(read)]
#[tactic(auto, unfolding(crate::specs::Parsing::type_at))]
pub(crate) fn read_type(
    alloc: Global,
    room: usize,
    arrays: usize,
    structs: usize,
    text: &[u8],
) -> Result<(ValueType, &[u8]), VariantError>
    requires arrays { arrays ≤ 32 }
    requires structs { structs ≤ 32 }
    requires short { length text.now ≤ 255 }
    ensures { Gives (λ x. (x.0, x.1.now)) result (type_at room arrays structs text.now) }
{
    if room == 0 {
        return Err(VariantError::Signature);
    }
    let (first, rest) = split(text).ok_or(VariantError::Signature)?;
    let (node, rest) = read_kind(alloc, room - 1, arrays, structs, first, rest)?;
    Ok((ValueType::from_node(node), rest))
}
