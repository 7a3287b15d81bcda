//! The types of trees.
ghost use Rattle.std.specs.Prelude.{◌≡◌, ◌↔◌, ◌++◌, IfOk, IsTrue, OnOk, map, string_bytes};
ghost use Rattle.wire_signature.specs.SingleType.{IsType, array, basic as basic_single_type, dict, single_types_of, type_text, types_text};
ghost use Rattle.wire_tree.specs.Check.{TellsOwn, TellsType};
ghost use Rattle.wire_tree.specs.Datum.{data_of, type_of, types_of};
ghost use Rattle.wire_tree.specs.DatumView.{datum_of};

use crate::tree::Tree;
use std::alloc::{AllocError, Global};
use wire_signature::{BasicType, TypeNode, ValueType, VariantError};

/// Writes the texts of the trees' types, one after another, at the end of `out`.
#[cycle(texts)]
fn write_types(out: &mut String, alloc: Global, trees: &[Tree]) -> Result<(), AllocError>
    ensures { OnOk result (string_bytes out.new ≡ string_bytes out.old ++ types_text (types_of (data_of (map datum_of trees.now)))) }
{
    for each in trees {
        write_type(out, alloc, each)?;
    }
    Ok(())
}

/// Writes the text of the tree's type at the end of `out`.
#[cycle(texts)]
fn write_type(out: &mut String, alloc: Global, tree: &Tree) -> Result<(), AllocError>
    ensures { OnOk result (string_bytes out.new ≡ string_bytes out.old ++ type_text (type_of (datum_of tree.now))) }
{
    match tree {
        Tree::U8(_) => out.push('y'),
        Tree::Bool(_) => out.push('b'),
        Tree::I16(_) => out.push('n'),
        Tree::U16(_) => out.push('q'),
        Tree::I32(_) => out.push('i'),
        Tree::U32(_) => out.push('u'),
        Tree::I64(_) => out.push('x'),
        Tree::U64(_) => out.push('t'),
        Tree::F64(_) => out.push('d'),
        Tree::Str(_) => out.push('s'),
        Tree::Path(_) => out.push('o'),
        Tree::Sig(_) => out.push('g'),
        Tree::Fd(_) => out.push('h'),
        Tree::Array(element, _) => {
            out.push('a')?;
            let text = element.to_text(alloc)?;
            out.push_str(text.as_str())
        }
        Tree::Numbers(numbers) => {
            out.push('a')?;
            out.push(char::from(numbers.basic().letter()))
        }
        Tree::Dict(key, value, _) => {
            out.push_str("a{")?;
            out.push(char::from(key.letter()))?;
            let text = value.to_text(alloc)?;
            out.push_str(text.as_str())?;
            out.push('}')
        }
        Tree::Struct(fields) => {
            out.push('(')?;
            write_types(out, alloc, fields.as_slice())?;
            out.push(')')
        }
        Tree::Variant(_) => out.push('v'),
    }
}

/// The text of the tree's type, as `a{sv}` (D-Bus Specification, "Type System").
///
/// # Errors
///
/// AllocError for want of memory.
pub fn type_text(alloc: Global, tree: &Tree) -> Result<String, AllocError>
    ensures { IfOk result (λ text. string_bytes text ≡ type_text (type_of (datum_of tree.now))) }
{
    let mut text = String::new(alloc);
    write_type(&mut text, alloc, tree)?;
    Ok(text)
}

/// Whether the trees are of the types, one of each.
#[cycle(of_type)]
fn have_types(trees: &[Tree], types: &[ValueType]) -> bool
    ensures { IsTrue result ↔ (types_of (data_of (map datum_of trees.now)) ≡ single_types_of types.now) }
{
    if trees.len() != types.len() {
        return false;
    }
    for i in 0..trees.len() {
        if !has_type(&trees[i], &types[i]) {
            return false;
        }
    }
    true
}

/// Whether the tree is of the type.
#[cycle(of_type)]
pub(crate) fn has_type(tree: &Tree, value_type: &ValueType) -> bool
    ensures { IsTrue result ↔ (type_of (datum_of tree.now) ≡ value_type.now) }
{
    match value_type.node() {
        TypeNode::Basic(basic) => has_basic(tree, *basic),
        TypeNode::Variant => matches!(tree, Tree::Variant(_)),
        TypeNode::Array(element) => is_array_of(tree, element),
        TypeNode::Dict(key, value) => is_dict_of(tree, *key, value),
        TypeNode::Struct(types) => match tree {
            Tree::Struct(fields) => have_types(fields.as_slice(), types),
            _ => false,
        },
    }
}

/// Whether the tree is of the basic type.
pub(crate) fn has_basic(tree: &Tree, basic: BasicType) -> bool
    ensures { IsTrue result ↔ (type_of (datum_of tree.now) ≡ basic_single_type basic) }
{
    match tree {
        Tree::U8(_) => basic == BasicType::Byte,
        Tree::Bool(_) => basic == BasicType::Boolean,
        Tree::I16(_) => basic == BasicType::Int16,
        Tree::U16(_) => basic == BasicType::Uint16,
        Tree::I32(_) => basic == BasicType::Int32,
        Tree::U32(_) => basic == BasicType::Uint32,
        Tree::I64(_) => basic == BasicType::Int64,
        Tree::U64(_) => basic == BasicType::Uint64,
        Tree::F64(_) => basic == BasicType::Double,
        Tree::Str(_) => basic == BasicType::String,
        Tree::Path(_) => basic == BasicType::ObjectPath,
        Tree::Sig(_) => basic == BasicType::Signature,
        Tree::Fd(_) => basic == BasicType::UnixFd,
        Tree::Array(_, _)
        | Tree::Numbers(_)
        | Tree::Dict(_, _, _)
        | Tree::Struct(_)
        | Tree::Variant(_) => false,
    }
}

/// Whether the type is the basic one.
pub(crate) fn is_basic(value_type: &ValueType, basic: BasicType) -> bool
    ensures { IsTrue result ↔ (value_type.now ≡ basic_single_type basic) }
{
    match value_type.node() {
        TypeNode::Basic(own) => *own == basic,
        TypeNode::Variant | TypeNode::Array(_) | TypeNode::Dict(_, _) | TypeNode::Struct(_) =>
            false,
    }
}

fn is_array_of(tree: &Tree, element: &ValueType) -> bool
    ensures { IsTrue result ↔ (type_of (datum_of tree.now) ≡ array element.now) }
{
    match tree {
        Tree::Array(own, _) => is_same_type(own, element),
        Tree::Numbers(numbers) => is_basic(element, numbers.basic()),
        _ => false,
    }
}

fn is_dict_of(tree: &Tree, key: BasicType, value: &ValueType) -> bool
    ensures { IsTrue result ↔ (type_of (datum_of tree.now) ≡ dict key value.now) }
{
    match tree {
        Tree::Dict(own_key, own, _) => *own_key == key && is_same_type(own, value),
        _ => false,
    }
}

pub(crate) fn is_same_type(value_type: &ValueType, other: &ValueType) -> bool
    ensures { IsTrue result ↔ (value_type.now ≡ other.now) }
{
    // The calls of `node` tell the proof that both types are within the limits, where a text is of one type alone.
    let _ = value_type.node();
    let _ = other.node();
    value_type == other
}

/// The type itself, where the tree is of it.
fn if_own(tree: &Tree, value_type: ValueType) -> Option<ValueType>
    ensures own { TellsOwn result (type_of (datum_of tree.now)) value_type }
    ensures valid { IsType value_type }
{
    let _ = value_type.node();
    if has_type(tree, &value_type) {
        Some(value_type)
    } else {
        None
    }
}

/// The type of a tree; none where no signature may hold it.
pub(crate) fn type_of(alloc: Global, tree: &Tree) -> Result<Option<ValueType>, AllocError>
    ensures { IfOk result (λ kind. TellsType kind (type_of (datum_of tree.now))) }
{
    let text = type_text(alloc, tree)?;
    match ValueType::try_from(alloc, text.as_str()) {
        Ok(value_type) => Ok(if_own(tree, value_type)),
        Err(VariantError::Memory) => Err(AllocError),
        Err(_) => Ok(None),
    }
}
