//! Values, appended to an encoder: `ExcessData` says that an array takes too many bytes or that the output would pass its
//! end. How deep the recursion goes was asked before.
ghost use Rattle.std.specs.Prelude.{◌≡◌, IfSome, map};
ghost use Rattle.std.specs.Int.{w8};
ghost use Rattle.wire_number.specs.Number.{counted_text};
ghost use Rattle.wire_signature.specs.SingleType.{IsType, SingleType, basic, type_text};
ghost use Rattle.wire_signature.specs.declared.basic.BasicType.{BasicType};
ghost use Rattle.wire_tree.specs.Datum.{AreElements, AreWellTyped, WellTyped, array as array_datum, data_of, dict as dict_datum, entries_of, entry, struct as struct_datum, type_of, variant};
ghost use Rattle.wire_tree.specs.DatumView.{datum_of, pair_of};
ghost use Rattle.wire_codec.specs.Writing.{WritesAll, WritesText, WritesValue};

use crate::encoder::Encoder;
use crate::error::EncodeError;
use crate::opening::{close_array, open_array};
use crate::write_leaf::{
    put_letter, put_signature, write_number, write_path, write_signature, write_string,
};
use crate::write_packed::write_packed;
use std::alloc::Global;
use wire_encoding::boundary;
use wire_signature::{BasicType, ValueType};
use wire_tree::{Fixed, Fixed16, Fixed32, Fixed64, Tree, number_of, type_text};

const INT16: Fixed = Fixed::Of16(Fixed16::Int16);

const UINT16: Fixed = Fixed::Of16(Fixed16::Uint16);

const INT32: Fixed = Fixed::Of32(Fixed32::Int32);

const UINT32: Fixed = Fixed::Of32(Fixed32::Uint32);

const UNIX_FD: Fixed = Fixed::Of32(Fixed32::UnixFd);

const INT64: Fixed = Fixed::Of64(Fixed64::Int64);

const UINT64: Fixed = Fixed::Of64(Fixed64::Uint64);

const DOUBLE: Fixed = Fixed::Of64(Fixed64::Double);

/// Appends the encoding of a value.
///
/// # Errors
///
/// ExcessData exactly where the elements of an array take more than 67,108,864 bytes or the output would pass its end. Memory
/// for want of memory. On an error the output keeps the bytes that it had, and some may stand after them.
#[cycle(write)]
pub fn write_value(alloc: Global, encoder: &mut Encoder, tree: &Tree) -> Result<(), EncodeError>
    requires well_typed { WellTyped (datum_of tree.now) }
    ensures { WritesValue result (datum_of tree.now) encoder.old encoder.new }
{
    match tree {
        Tree::U8(x) => write_number(encoder, Fixed::Byte, u64::from(*x)),
        Tree::Bool(x) => write_number(encoder, Fixed::Boolean, u64::from(*x)),
        Tree::I16(x) => write_number(encoder, INT16, u64::from(x.cast_unsigned())),
        Tree::U16(x) => write_number(encoder, UINT16, u64::from(*x)),
        Tree::I32(x) => write_number(encoder, INT32, u64::from(x.cast_unsigned())),
        Tree::U32(x) => write_number(encoder, UINT32, u64::from(*x)),
        Tree::I64(x) => write_number(encoder, INT64, x.cast_unsigned()),
        Tree::U64(x) => write_number(encoder, UINT64, *x),
        Tree::F64(x) => write_number(encoder, DOUBLE, *x),
        Tree::Fd(x) => write_number(encoder, UNIX_FD, u64::from(*x)),
        Tree::Str(text) => write_string(encoder, text.as_str()),
        Tree::Path(text) => write_path(encoder, text.as_str()),
        Tree::Sig(text) => write_signature(encoder, text.as_str()),
        Tree::Array(element, elements) => {
            write_array(alloc, encoder, element, elements.as_slice())
        }
        Tree::Numbers(numbers) => write_packed(encoder, numbers),
        Tree::Dict(_, _, entries) => write_dict(alloc, encoder, entries.as_slice()),
        Tree::Struct(fields) => write_struct(alloc, encoder, fields.as_slice()),
        Tree::Variant(inner) => write_variant(alloc, encoder, inner.as_tree()),
    }
}

/// The type of a value that is a number or a text.
fn basic_type(tree: &Tree) -> Option<BasicType>
    ensures { IfSome result (λ b. type_of (datum_of tree.now) ≡ basic b) }
{
    match tree {
        Tree::Str(_) => Some(BasicType::String),
        Tree::Path(_) => Some(BasicType::ObjectPath),
        Tree::Sig(_) => Some(BasicType::Signature),
        _ => Some(number_of(tree)?.0),
    }
}

/// Appends the signature of a value's type: mostly it is a letter, which takes no memory of its own.
fn put_type(alloc: Global, encoder: &mut Encoder, tree: &Tree) -> Result<(), EncodeError>
    requires kind { IsType (type_of (datum_of tree.now)) }
    ensures { WritesText result (counted_text w8 encoder.old.order (type_text (type_of (datum_of tree.now)))) encoder.old encoder.new }
{
    match basic_type(tree) {
        Some(basic) => put_letter(encoder, basic.letter()),
        None => {
            let text = type_text(alloc, tree)?;
            put_signature(encoder, text.as_str())
        }
    }
}

/// Appends a variant: the signature of the value's type, and the value.
///
/// # Errors
///
/// ExcessData exactly where the elements of an array take more than 67,108,864 bytes or the output would pass its end. Memory
/// for want of memory. On an error the output keeps the bytes that it had, and some may stand after them.
#[cycle(write)]
pub fn write_variant(alloc: Global, encoder: &mut Encoder, tree: &Tree) -> Result<(), EncodeError>
    requires well_typed { WellTyped (datum_of tree.now) }
    requires kind { IsType (type_of (datum_of tree.now)) }
    ensures { WritesValue result (variant (datum_of tree.now)) encoder.old encoder.new }
{
    put_type(alloc, encoder, tree)?;
    write_value(alloc, encoder, tree)
}

/// Appends an array.
#[cycle(write)]
fn write_array(
    alloc: Global,
    encoder: &mut Encoder,
    element: &ValueType,
    elements: &[Tree],
) -> Result<(), EncodeError>
    requires well_typed { AreWellTyped (data_of (map datum_of elements.now)) }
    ensures { WritesValue result (array_datum element.now (data_of (map datum_of elements.now))) encoder.old encoder.new }
{
    let array = open_array(encoder, boundary(element))?;
    let written = write_items(alloc, encoder, elements);
    close_array(encoder, array);
    written
}

/// Appends values one behind the other.
#[cycle(write)]
fn write_items(alloc: Global, encoder: &mut Encoder, trees: &[Tree]) -> Result<(), EncodeError>
    requires well_typed { AreWellTyped (data_of (map datum_of trees.now)) }
    ensures { WritesAll result (data_of (map datum_of trees.now)) encoder.old encoder.new }
{
    for each in trees {
        write_value(alloc, encoder, each)?;
    }
    Ok(())
}

/// Appends an array of dict entries.
#[cycle(write)]
fn write_dict(
    alloc: Global,
    encoder: &mut Encoder,
    pairs: &[(Tree, Tree)],
) -> Result<(), EncodeError>
    requires well_typed { AreWellTyped (entries_of (map pair_of pairs.now)) }
    ensures { (k : BasicType) (v : SingleType) → WritesValue result (dict_datum k v (entries_of (map pair_of pairs.now))) encoder.old encoder.new }
{
    let array = open_array(encoder, 8)?;
    let written = write_entries(alloc, encoder, pairs);
    close_array(encoder, array);
    written
}

/// Appends dict entries one behind the other.
#[cycle(write)]
fn write_entries(
    alloc: Global,
    encoder: &mut Encoder,
    pairs: &[(Tree, Tree)],
) -> Result<(), EncodeError>
    requires well_typed { AreWellTyped (entries_of (map pair_of pairs.now)) }
    ensures { WritesAll result (entries_of (map pair_of pairs.now)) encoder.old encoder.new }
{
    for each in pairs {
        write_entry(alloc, encoder, &each.0, &each.1)?;
    }
    Ok(())
}

/// Appends a dict entry.
#[cycle(write)]
fn write_entry(
    alloc: Global,
    encoder: &mut Encoder,
    key: &Tree,
    value: &Tree,
) -> Result<(), EncodeError>
    requires key { WellTyped (datum_of key.now) }
    requires value { WellTyped (datum_of value.now) }
    ensures { WritesValue result (entry (datum_of key.now, datum_of value.now)) encoder.old encoder.new }
{
    encoder.pad(8)?;
    write_value(alloc, encoder, key)?;
    write_value(alloc, encoder, value)
}

/// Appends a struct.
#[cycle(write)]
fn write_struct(alloc: Global, encoder: &mut Encoder, fields: &[Tree]) -> Result<(), EncodeError>
    requires well_typed { AreWellTyped (data_of (map datum_of fields.now)) }
    ensures { WritesValue result (struct_datum (data_of (map datum_of fields.now))) encoder.old encoder.new }
{
    encoder.pad(8)?;
    write_items(alloc, encoder, fields)
}
