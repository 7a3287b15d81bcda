//! Whether a tree is a value that a message may hold.
ghost use Rattle.std.specs.Prelude.{◌≡◌, ◌<◌, ◌↔◌, IfOk, IsTrue, map};
ghost use Rattle.std.specs.List.{All};
ghost use Rattle.wire_tree.specs.Datum.{AreElements, AreWellTyped, HasNoZero, IsNumber, WellTyped, IsTextOf, bound, boolean, byte, data_of, entries_of, entry_type, object_path, signature, string, type_of, uint16, uint32, uint64};
ghost use Rattle.wire_signature.specs.SingleType.{basic as basic_single_type};
ghost use Rattle.wire_tree.specs.DatumView.{datum_of, pair_of};
ghost use Rattle.wire_tree.specs.Packed.{bit, numbers_bits, numbers_type};

use crate::numbers::Numbers;
use crate::tree::Tree;
use crate::typed::{has_basic, has_type, type_of};
use std::alloc::{AllocError, Global};
use wire_names::{ObjectPath, Text};
use wire_signature::{BasicType, ValueType, is_signature};

/// The longest text or path, in bytes: its length is a number of 32 bits (D-Bus Specification, "Marshaling").
pub const MAX_TEXT: usize = 4294967295;

/// Whether no byte is 0.
pub(crate) fn has_no_zero(bytes: &[u8]) -> bool
    ensures { IsTrue result ↔ HasNoZero bytes.now }
{
    bytes.iter().all(|byte| *byte > 0)
}

fn is_string(text: &Text) -> bool
    ensures { IsTrue result ↔ IsTextOf string text.now }
{
    text.len() <= MAX_TEXT && has_no_zero(text.as_str().as_bytes())
}

fn is_path(text: &Text) -> bool
    ensures { IsTrue result ↔ IsTextOf object_path text.now }
{
    text.len() <= MAX_TEXT && ObjectPath::try_from(text.as_str()).is_ok()
}

fn is_signature_text(text: &Text) -> bool
    ensures { IsTrue result ↔ IsTextOf signature text.now }
{
    is_signature(text.as_str().as_bytes())
}

/// Whether the tree is a number: its Rust type keeps it in its range. Reading it tells the proof so.
fn is_number(tree: &Tree) -> bool
    ensures number { IsTrue result ↔ IsNumber (datum_of tree.now) }
    ensures well_typed { IsTrue result → WellTyped (datum_of tree.now) }
{
    match tree {
        Tree::U8(x) => {
            let _number = *x;
            true
        }
        Tree::Bool(_) => true,
        Tree::I16(x) => {
            let _number = *x;
            true
        }
        Tree::U16(x) => {
            let _number = *x;
            true
        }
        Tree::I32(x) => {
            let _number = *x;
            true
        }
        Tree::U32(x) | Tree::Fd(x) => {
            let _number = *x;
            true
        }
        Tree::I64(x) => {
            let _number = *x;
            true
        }
        Tree::U64(x) | Tree::F64(x) => {
            let _number = *x;
            true
        }
        _ => false,
    }
}

// What follows computes nothing: it tells the proof that the Rust types of packed numbers keep them in their range.
fn u8s_fit(items: &[u8])
    ensures { All (λ v. v < bound byte) items.now }
{}

fn bools_fit(items: &[bool])
    ensures { All (λ v. v < bound boolean) (map bit items.now) }
{}

fn u16s_fit(items: &[u16])
    ensures { All (λ v. v < bound uint16) items.now }
{}

fn u32s_fit(items: &[u32])
    ensures { All (λ v. v < bound uint32) items.now }
{}

fn u64s_fit(items: &[u64])
    ensures { All (λ v. v < bound uint64) items.now }
{}

fn numbers_fit(numbers: &Numbers)
    ensures { All (λ v. v < bound (numbers_type numbers.now)) (numbers_bits numbers.now) }
{
    match numbers {
        Numbers::Bytes(items) => u8s_fit(items.as_slice()),
        Numbers::Booleans(items) => bools_fit(items.as_slice()),
        Numbers::Of16(_, items) => u16s_fit(items.as_slice()),
        Numbers::Of32(_, items) => u32s_fit(items.as_slice()),
        Numbers::Of64(_, items) => u64s_fit(items.as_slice()),
    }
}

/// Whether all that the tree holds keeps the rules of its type. The tree's own type is not looked at.
#[cycle(well_typed)]
pub(crate) fn is_well_typed(alloc: Global, tree: &Tree) -> Result<bool, AllocError>
    ensures { IfOk result (λ well_typed. IsTrue well_typed ↔ WellTyped (datum_of tree.now)) }
{
    match tree {
        Tree::Str(text) => Ok(is_string(text)),
        Tree::Path(text) => Ok(is_path(text)),
        Tree::Sig(text) => Ok(is_signature_text(text)),
        Tree::Array(element, elements) => are_elements(alloc, element, elements.as_slice()),
        Tree::Numbers(numbers) => {
            numbers_fit(numbers);
            Ok(true)
        }
        Tree::Dict(key, value, entries) => are_entries(alloc, *key, value, entries.as_slice()),
        Tree::Struct(fields) => are_well_typed(alloc, fields.as_slice()),
        Tree::Variant(inner) => {
            let tree = inner.as_tree();
            Ok(is_well_typed(alloc, tree)? && type_of(alloc, tree)?.is_some())
        }
        Tree::U8(_)
        | Tree::Bool(_)
        | Tree::I16(_)
        | Tree::U16(_)
        | Tree::I32(_)
        | Tree::U32(_)
        | Tree::I64(_)
        | Tree::U64(_)
        | Tree::F64(_)
        | Tree::Fd(_) => Ok(is_number(tree)),
    }
}

/// Whether each field of a struct is well typed.
#[cycle(well_typed)]
fn are_well_typed(alloc: Global, fields: &[Tree]) -> Result<bool, AllocError>
    ensures { IfOk result (λ well_typed. IsTrue well_typed ↔ AreWellTyped (data_of (map datum_of fields.now))) }
{
    for each in fields {
        if !is_well_typed(alloc, each)? {
            return Ok(false);
        }
    }
    Ok(true)
}

/// Whether each element of an array is well typed and of the array's type.
#[cycle(well_typed)]
fn are_elements(alloc: Global, element: &ValueType, elements: &[Tree]) -> Result<bool, AllocError>
    ensures { IfOk result (λ well_typed. IsTrue well_typed ↔ AreElements element.now (data_of (map datum_of elements.now))) }
{
    for each in elements {
        if !is_element(alloc, element, each)? {
            return Ok(false);
        }
    }
    Ok(true)
}

/// Whether each key and value of a dict is well typed and of the dict's type.
#[cycle(well_typed)]
fn are_entries(
    alloc: Global,
    key: BasicType,
    value: &ValueType,
    entries: &[(Tree, Tree)],
) -> Result<bool, AllocError>
    ensures { IfOk result (λ well_typed. IsTrue well_typed ↔ AreElements (entry_type key value.now) (entries_of (map pair_of entries.now))) }
{
    for each in entries {
        if !is_entry(alloc, key, value, &each.0, &each.1)? {
            return Ok(false);
        }
    }
    Ok(true)
}

#[cycle(well_typed)]
fn is_element(alloc: Global, element: &ValueType, tree: &Tree) -> Result<bool, AllocError>
    ensures { IfOk result (λ well_typed. IsTrue well_typed ↔ (WellTyped (datum_of tree.now) × (type_of (datum_of tree.now) ≡ element.now))) }
{
    Ok(has_type(tree, element) && is_well_typed(alloc, tree)?)
}

#[cycle(well_typed)]
fn is_entry(
    alloc: Global,
    basic: BasicType,
    value_type: &ValueType,
    key: &Tree,
    value: &Tree,
) -> Result<bool, AllocError>
    ensures { IfOk result (λ well_typed. IsTrue well_typed ↔ ((WellTyped (datum_of key.now) × (type_of (datum_of key.now) ≡ basic_single_type basic)) × (WellTyped (datum_of value.now) × (type_of (datum_of value.now) ≡ value_type.now)))) }
{
    Ok(
        has_basic(key, basic)
            && is_well_typed(alloc, key)?
            && has_type(value, value_type)
            && is_well_typed(alloc, value)?,
    )
}
