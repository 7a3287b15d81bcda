//! Reading values by their types. `room` is how many containers may still be opened.
ghost use Rattle.std.specs.Prelude.{◌≡◌, ◌<◌, ℕ, get_or, length, map};
ghost use Rattle.wire_signature.specs.Parsing.{type_in};
ghost use Rattle.wire_signature.specs.SingleType.{alignment, single_types_of};
ghost use Rattle.wire_tree.specs.Datum.{array as array_datum, data_of, dict as dict_datum, entry_type, struct as struct_datum, variant};
ghost use Rattle.wire_tree.specs.DatumView.{datum_of, entry_of};
ghost use Rattle.wire_number.specs.Reading.{made};
ghost use Rattle.wire_encoding.specs.Reading.{array_at, fields_at, leaf_at, many_at, struct_at, value_at, value_step, variant_at};
ghost use Rattle.wire_number.specs.ReaderView.{cursor_of};
ghost use Rattle.wire_encoding.specs.ReaderView.{Gives};

use crate::basics::read_basic;
use crate::packed::fixed_of;
use crate::read_packed::read_packed;
use std::alloc::Global;
use wire_encoding::{boundary, elements, utf8};
use wire_number::{Endian, Reader};
use wire_signature::{BasicType, TypeNode, ValueType, VariantError};
use wire_tree::{Entries, Inner, Tree, Trees, Value};

/// The single complete type that bytes are the text of.
#[tactic(auto, using(wire_encoding::proofs::Ascii::no_type))]
fn read_type(alloc: Global, bytes: &[u8]) -> Result<ValueType, VariantError>
    ensures { Gives (λ t. t) result (type_in bytes.now) }
{
    let text = utf8(bytes).ok_or(VariantError::Malformed)?;
    match ValueType::try_from(alloc, text) {
        Ok(value_type) => Ok(value_type),
        Err(VariantError::Memory) => Err(VariantError::Memory),
        Err(_) => Err(VariantError::Malformed),
    }
}

/// A value, where no container may be opened any more.
fn read_leaf<'a>(
    alloc: Global,
    order: Endian,
    value_type: &ValueType,
    reader: Reader<'a>,
) -> Result<(Tree, Reader<'a>), VariantError>
    ensures { Gives (λ x. (datum_of x.0, cursor_of x.1)) result (leaf_at order value_type.now (cursor_of reader.entry)) }
{
    match value_type.node() {
        TypeNode::Basic(basic) => read_basic(alloc, order, *basic, reader),
        _ => Err(VariantError::Malformed),
    }
}

/// A value of the type, and what stands behind it. `room` is how many containers may be open at once in it.
#[cycle(read)]
#[tactic(auto, unfolding(wire_encoding::specs::Reading::value_at))]
pub(crate) fn read_value<'a>(
    alloc: Global,
    order: Endian,
    room: usize,
    value_type: &ValueType,
    reader: Reader<'a>,
) -> Result<(Tree, Reader<'a>), VariantError>
    ensures { Gives (λ x. (datum_of x.0, cursor_of x.1)) result (value_at room order value_type.now (cursor_of reader.entry)) }
{
    if room == 0 {
        read_leaf(alloc, order, value_type, reader)
    } else {
        read_kind(alloc, order, room - 1, value_type, reader)
    }
}

/// A value of the type, where a container may be opened.
#[cycle(read)]
fn read_kind<'a>(
    alloc: Global,
    order: Endian,
    room: usize,
    value_type: &ValueType,
    reader: Reader<'a>,
) -> Result<(Tree, Reader<'a>), VariantError>
    ensures { Gives (λ x. (datum_of x.0, cursor_of x.1)) result (value_step (value_at room order) order value_type.now (cursor_of reader.entry)) }
{
    match value_type.node() {
        TypeNode::Basic(basic) => read_basic(alloc, order, *basic, reader),
        TypeNode::Variant => read_variant(alloc, order, room, reader),
        TypeNode::Array(element) => read_array(alloc, order, room, element, reader),
        TypeNode::Dict(key, value) => read_dict(alloc, order, room, *key, value, reader),
        TypeNode::Struct(fields) => read_struct(alloc, order, room, fields, reader),
    }
}

/// A variant.
#[cycle(read)]
fn read_variant<'a>(
    alloc: Global,
    order: Endian,
    room: usize,
    reader: Reader<'a>,
) -> Result<(Tree, Reader<'a>), VariantError>
    ensures { Gives (λ x. (datum_of x.0, cursor_of x.1)) result (variant_at (value_at room order) order (cursor_of reader.entry)) }
{
    let (tree, after) = read_held(alloc, order, room, reader)?;
    Ok((Tree::Variant(Inner::new(alloc, tree)?), after))
}

/// What a variant holds: the signature of one type, and a value of it.
#[cycle(read)]
#[tactic(auto, unfolding(wire_encoding::specs::Reading::variant_at))]
fn read_held<'a>(
    alloc: Global,
    order: Endian,
    room: usize,
    reader: Reader<'a>,
) -> Result<(Tree, Reader<'a>), VariantError>
    ensures { Gives (λ x. (variant (datum_of x.0), cursor_of x.1)) result (variant_at (value_at room order) order (cursor_of reader.entry)) }
{
    let (bytes, inner) = reader.short_text(order).ok_or(VariantError::Malformed)?;
    let value_type = read_type(alloc, bytes)?;
    read_value(alloc, order, room, &value_type, inner)
}

/// Each is a byte: a proof knows that of a function's own argument, and not of what lies in a reader.
fn are_bytes(bytes: &[u8])
    ensures { (i : ℕ) → get_or bytes.now i 0 < 256 }
{}

/// The value that a variant holds, and what stands behind it. `room` is how many containers may be open at once in the value.
///
/// # Errors
///
/// Malformed exactly where no variant stands at the reader whose value opens at most `room` containers at once. Memory for want
/// of memory.
pub fn read_inner<'a>(
    alloc: Global,
    order: Endian,
    room: usize,
    reader: Reader<'a>,
) -> Result<(Value, Reader<'a>), VariantError>
    ensures { Gives (λ x. (variant x.0, cursor_of x.1)) result (variant_at (value_at room order) order (cursor_of reader.entry)) }
{
    let (tree, after) = read_held(alloc, order, room, reader)?;
    are_bytes(reader.rest);
    Ok((Value::from_valid(tree), after))
}

/// An array. Numbers of a fixed type lie packed.
#[cycle(read)]
#[tactic(auto, unfolding(wire_encoding::specs::Reading::array_at))]
fn read_array<'a>(
    alloc: Global,
    order: Endian,
    room: usize,
    element: &ValueType,
    reader: Reader<'a>,
) -> Result<(Tree, Reader<'a>), VariantError>
    ensures { Gives (λ x. (datum_of x.0, cursor_of x.1)) result (made (λ ds. array_datum element.now (data_of ds)) (array_at (alignment element.now) (value_at room order element.now) order (cursor_of reader.entry))) }
{
    let (elements, after) = elements(order, boundary(element), reader).ok_or(
        VariantError::Malformed,
    )?;
    match fixed_of(element) {
        Some(fixed) => {
            let numbers = read_packed(alloc, order, fixed, elements)?;
            Ok((Tree::Numbers(numbers), after))
        }
        None => {
            let trees = read_items(alloc, order, room, element, elements)?;
            let element = element.try_clone(alloc)?;
            Ok((Tree::Array(element, Trees::from_vec(trees)), after))
        }
    }
}

/// All values of a type, which fill the bytes.
#[cycle(read)]
#[tactic(auto, using(wire_encoding::proofs::Loops::gathered))]
fn read_items<'a>(
    alloc: Global,
    order: Endian,
    room: usize,
    element: &ValueType,
    elements: Reader<'a>,
) -> Result<Vec<Tree>, VariantError>
    ensures { Gives (λ v. map datum_of v.items) result (many_at (length elements.entry.rest.now) (value_at room order element.now) (cursor_of elements.entry)) }
{
    let mut items = Vec::new(alloc);
    let mut left = elements;
    for _ in 0..elements.rest.len() {
        if left.rest.is_empty() {
            return Ok(items);
        }
        let (item, after) = read_value(alloc, order, room, element, left)?;
        items.push(item)?;
        left = after;
    }
    if left.rest.is_empty() {
        Ok(items)
    } else {
        Err(VariantError::Malformed)
    }
}

/// An array of dict entries.
#[cycle(read)]
#[tactic(auto, using(crate::proofs::Pairs::entries), unfolding(wire_encoding::specs::Reading::array_at))]
fn read_dict<'a>(
    alloc: Global,
    order: Endian,
    room: usize,
    key: BasicType,
    value: &ValueType,
    reader: Reader<'a>,
) -> Result<(Tree, Reader<'a>), VariantError>
    ensures { Gives (λ x. (datum_of x.0, cursor_of x.1)) result (made (λ ds. dict_datum key value.now (data_of ds)) (array_at 8 (value_at room order (entry_type key value.now)) order (cursor_of reader.entry))) }
{
    let (entries, after) = elements(order, 8, reader).ok_or(VariantError::Malformed)?;
    let pairs = read_entries(alloc, order, room, key, value, entries)?;
    let value = value.try_clone(alloc)?;
    Ok((Tree::Dict(key, value, Entries::from_vec(pairs)), after))
}

/// All entries of a dict, which fill the bytes.
#[cycle(read)]
#[tactic(auto, using(wire_encoding::proofs::Loops::gathered))]
fn read_entries<'a>(
    alloc: Global,
    order: Endian,
    room: usize,
    key: BasicType,
    value: &ValueType,
    entries: Reader<'a>,
) -> Result<Vec<(Tree, Tree)>, VariantError>
    ensures { Gives (λ v. map entry_of v.items) result (many_at (length entries.entry.rest.now) (value_at room order (entry_type key value.now)) (cursor_of entries.entry)) }
{
    let mut pairs = Vec::new(alloc);
    let mut left = entries;
    for _ in 0..entries.rest.len() {
        if left.rest.is_empty() {
            return Ok(pairs);
        }
        let (pair, after) = read_entry(alloc, order, room, key, value, left)?;
        pairs.push(pair)?;
        left = after;
    }
    if left.rest.is_empty() {
        Ok(pairs)
    } else {
        Err(VariantError::Malformed)
    }
}

/// A dict entry, which counts as a container.
#[cycle(read)]
#[tactic(auto, using(crate::proofs::Pairs::entries), unfolding(wire_encoding::specs::Reading::value_at, wire_encoding::specs::Reading::struct_at, wire_encoding::specs::Reading::fields_at))]
fn read_entry<'a>(
    alloc: Global,
    order: Endian,
    room: usize,
    key: BasicType,
    value: &ValueType,
    reader: Reader<'a>,
) -> Result<((Tree, Tree), Reader<'a>), VariantError>
    ensures { Gives (λ x. (entry_of x.0, cursor_of x.1)) result (value_at room order (entry_type key value.now) (cursor_of reader.entry)) }
{
    if room == 0 {
        return Err(VariantError::Malformed);
    }
    let first = reader.align(8).ok_or(VariantError::Malformed)?;
    let (key, middle) = read_basic(alloc, order, key, first)?;
    let (value, after) = read_value(alloc, order, room - 1, value, middle)?;
    Ok(((key, value), after))
}

/// A struct.
#[cycle(read)]
#[tactic(auto, unfolding(wire_encoding::specs::Reading::struct_at))]
fn read_struct<'a>(
    alloc: Global,
    order: Endian,
    room: usize,
    fields: &[ValueType],
    reader: Reader<'a>,
) -> Result<(Tree, Reader<'a>), VariantError>
    ensures { Gives (λ x. (datum_of x.0, cursor_of x.1)) result (made (λ ds. struct_datum (data_of ds)) (struct_at (value_at room order) (single_types_of fields.now) (cursor_of reader.entry))) }
{
    let first = reader.align(8).ok_or(VariantError::Malformed)?;
    let (items, after) = read_fields(alloc, order, room, fields, first)?;
    Ok((Tree::Struct(Trees::from_vec(items)), after))
}

/// The fields of a struct.
#[cycle(read)]
fn read_fields<'a>(
    alloc: Global,
    order: Endian,
    room: usize,
    fields: &[ValueType],
    reader: Reader<'a>,
) -> Result<(Vec<Tree>, Reader<'a>), VariantError>
    ensures { Gives (λ x. (map datum_of x.0.items, cursor_of x.1)) result (fields_at (value_at room order) (single_types_of fields.now) (cursor_of reader.entry)) }
{
    let mut items = Vec::with_capacity(alloc, fields.len())?;
    let mut stand = reader;
    for each in fields {
        let (item, after) = read_value(alloc, order, room, each, stand)?;
        items.push(item)?;
        stand = after;
    }
    Ok((items, stand))
}
