//! Values as trees (D-Bus Specification, "Type System").
use std::alloc::{AllocError, Global};
use std::hash::{DefaultHasher, Hash, Hasher};
use wire_value::{
    BasicType, EncodeError, Endian, Entries, Fixed32, Inner, Numbers, Text, Tree, Trees, Value,
    ValueType, VariantError, decode, encode, skip, skip_by_text, type_text,
};

/// An array of one element.
fn array(alloc: Global, element: &str, tree: Tree) -> Result<Tree, VariantError> {
    let elements = Trees::from_vec(vec![in alloc; tree]?);
    Ok(Tree::Array(ValueType::try_from(alloc, element)?, elements))
}

/// An array of one number, packed.
fn packed(alloc: Global, number: u32) -> Result<Tree, AllocError> {
    Ok(Tree::Numbers(Numbers::Of32(Fixed32::Uint32, vec![in alloc; number]?)))
}

/// A dict of numbers to bytes, with one entry.
fn dict(alloc: Global, key: Tree, value: Tree) -> Result<Tree, VariantError> {
    let entries = Entries::from_vec(vec![in alloc; (key, value)]?);
    Ok(Tree::Dict(BasicType::Int32, ValueType::try_from(alloc, "y")?, entries))
}

fn variant(alloc: Global, tree: Tree) -> Result<Tree, AllocError> {
    Ok(Tree::Variant(Inner::new(alloc, tree)?))
}

/// A container that no bytes encode ("Container types").
fn ill_typed(alloc: Global, case: &str) -> Result<Tree, VariantError> {
    match case {
        "an element of another type" => array(alloc, "n", Tree::U16(3)),
        "a key of another type" => dict(alloc, Tree::U8(1), Tree::U8(1)),
        "a value of another type" => dict(alloc, Tree::I32(1), Tree::U16(1)),
        _ => Ok(Tree::Struct(Trees::from_vec(Vec::new(alloc)))),
    }
}

const ILL_TYPED: &[&str] = &[
    "an element of another type",
    "a key of another type",
    "a value of another type",
    "an empty struct",
];

fn is_refused(alloc: Global, case: &str) -> Result<bool, VariantError> {
    let tree = ill_typed(alloc, case)?;
    Ok(matches!(&Value::from_tree(alloc, tree), Err(VariantError::Malformed)))
}

#[test]
fn what_no_message_holds(rt: HostRuntime) {
    for case in ILL_TYPED {
        assert!(rt; is_refused(rt.alloc(), case) == Ok(true), "{case}");
    }
}

fn hash_of(value: &Value) -> u64 {
    let mut state = DefaultHasher::new();
    value.hash(&mut state);
    state.finish()
}

fn are_one(value: &Value, copy: &Value) -> bool {
    value == copy && hash_of(value) == hash_of(copy)
}

/// Whether a value in a variant is its copy.
fn is_copied(alloc: Global) -> Result<bool, VariantError> {
    let tree = variant(alloc, dict(alloc, Tree::I32(1), Tree::U8(1))?)?;
    let value = Value::from_tree(alloc, tree)?;
    Ok(are_one(&value, &value.try_clone(alloc)?))
}

/// Whether numbers are one value, packed or each a tree, and so is their copy.
fn is_one_however_it_lies(alloc: Global) -> Result<bool, VariantError> {
    let value = Value::from_tree(alloc, packed(alloc, 7)?)?;
    let other = Value::from_tree(alloc, array(alloc, "u", Tree::U32(7))?)?;
    Ok(are_one(&value, &other) && are_one(&other, &value.try_clone(alloc)?))
}

/// Whether the dict has one entry.
fn has_entry(tree: Tree) -> bool {
    match &tree.into_dict() {
        Some((_, _, entries)) => entries.as_slice().len() == 1,
        None => false,
    }
}

fn has_element(alloc: Global, tree: Tree) -> Result<bool, AllocError> {
    match &tree.into_array(alloc)? {
        Some((_, elements)) => Ok(elements.as_slice().len() == 1),
        None => Ok(false),
    }
}

fn has_text(tree: Tree) -> bool {
    match &tree.into_str() {
        Some(text) => text.as_str() == "ab",
        None => false,
    }
}

fn has_inner(tree: Tree) -> bool {
    match tree.into_variant() {
        Some(inner) => matches!(&inner.into_tree(), Tree::U8(1)),
        None => false,
    }
}

fn are_taken(alloc: Global) -> Result<bool, VariantError> {
    Ok(
        has_entry(dict(alloc, Tree::I32(1), Tree::U8(2))?)
            && has_element(alloc, array(alloc, "y", Tree::U8(1))?)?
            && has_element(alloc, packed(alloc, 1)?)?
            && has_text(Tree::Str(Text::from_str(alloc, "ab")?))
            && has_inner(variant(alloc, Tree::U8(1))?),
    )
}

fn type_has_its_text(alloc: Global) -> Result<bool, VariantError> {
    let text = type_text(alloc, &dict(alloc, Tree::I32(1), Tree::U8(1))?)?;
    Ok(text.as_str() == "a{iy}")
}

#[test]
fn calls_of_values_and_trees(rt: HostRuntime) {
    let alloc = rt.alloc();
    for answer in [
        is_copied(alloc),
        is_one_however_it_lies(alloc),
        are_taken(alloc),
        type_has_its_text(alloc),
    ] {
        assert!(rt; answer == Ok(true));
    }
}

/// The signatures of so many variants in one another.
fn variants(alloc: Global) -> Result<Vec<u8>, AllocError> {
    let mut bytes = Vec::new(alloc);
    for _ in 0..350_000 {
        bytes.extend_from_slice(b"\x01v\0")?;
    }
    Ok(bytes)
}

/// Whether nothing is read of the bytes as a variant, and nothing is passed.
fn encode_nothing(alloc: Global, bytes: &[u8]) -> Result<bool, VariantError> {
    let order = Endian::Little;
    let any = ValueType::try_from(alloc, "v")?;
    Ok(
        skip(order, 0, &any, bytes).is_none()
            && skip_by_text(order, 0, b"v", bytes).is_none()
            && matches!(
                &decode(alloc, order, 0, &any, bytes),
                Err(VariantError::Malformed)
            ),
    )
}

fn are_no_value(alloc: Global) -> Result<bool, VariantError> {
    encode_nothing(alloc, &variants(alloc)?)
}

/// A megabyte of variants in variants exhausts no stack.
#[test]
fn a_megabyte_of_variants(rt: HostRuntime) {
    assert!(rt; are_no_value(rt.alloc()) == Ok(true));
}

/// A byte in so many variants, one in another.
fn in_variants(alloc: Global, count: usize) -> Result<Value, VariantError> {
    let mut tree = Tree::U8(0);
    for _ in 0..count {
        tree = variant(alloc, tree)?;
    }
    Value::from_tree(alloc, tree)
}

/// How many bytes the value takes, or why it can't be written.
fn length_of(alloc: Global, value: &Value) -> Result<usize, EncodeError> {
    let mut out = Vec::new(alloc);
    encode(Endian::Little, 0, value, &mut out)?;
    Ok(out.len())
}

/// The same of a byte in so many variants.
fn nested_length(alloc: Global, count: usize) -> Result<Result<usize, EncodeError>, VariantError> {
    Ok(length_of(alloc, &in_variants(alloc, count)?))
}

/// Up to 64 containers may be open at once (D-Bus Specification, "Message Protocol"). Each variant takes three bytes before its
/// value.
#[test]
fn variants_up_to_the_limit(rt: HostRuntime) {
    let too_deep = EncodeError::Variant(VariantError::Depth);
    assert!(rt; nested_length(rt.alloc(), 64) == Ok(Ok(193)));
    assert!(rt; nested_length(rt.alloc(), 65) == Ok(Err(too_deep)));
}
