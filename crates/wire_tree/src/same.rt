//! Whether two trees are one value.
ghost use Rattle.std.specs.Prelude.{◌≡◌, ◌<◌, ◌↔◌, IsTrue, get_or, length, map};
ghost use Rattle.wire_tree.specs.Datum.{array, data_of, num};
ghost use Rattle.wire_tree.specs.DatumView.{datum_of, pair_of};
ghost use Rattle.wire_tree.specs.Packed.{numbers_array, numbers_bits, numbers_data, numbers_type};

use crate::numbers::{Numbers, number_of};
use crate::tree::Tree;
use crate::typed::{is_basic, is_same_type};
use wire_signature::{BasicType, ValueType};

/// Whether the trees, as an array of the type, are the array of the numbers.
fn is_array_of_numbers(element: &ValueType, trees: &[Tree], numbers: &Numbers) -> bool
    ensures { IsTrue result ↔ (array element.now (data_of (map datum_of trees.now)) ≡ numbers_array numbers.now) }
{
    is_basic(element, numbers.basic()) && are_numbers(trees, numbers)
}

#[cycle(same)]
fn are_same(trees: &[Tree], others: &[Tree]) -> bool
    ensures { IsTrue result ↔ (map datum_of trees.now ≡ map datum_of others.now) }
{
    if trees.len() != others.len() {
        return false;
    }
    for i in 0..trees.len() {
        if !is_same(&trees[i], &others[i]) {
            return false;
        }
    }
    true
}

#[cycle(same)]
fn are_same_pairs(pairs: &[(Tree, Tree)], others: &[(Tree, Tree)]) -> bool
    ensures { IsTrue result ↔ (map pair_of pairs.now ≡ map pair_of others.now) }
{
    if pairs.len() != others.len() {
        return false;
    }
    for i in 0..pairs.len() {
        if !is_same_pair(&pairs[i], &others[i]) {
            return false;
        }
    }
    true
}

#[cycle(same)]
fn is_same_pair(pair: &(Tree, Tree), other: &(Tree, Tree)) -> bool
    ensures { IsTrue result ↔ (pair_of pair.now ≡ pair_of other.now) }
{
    is_same(&pair.0, &other.0) && is_same(&pair.1, &other.1)
}

/// Whether numbers are of one type and have the same bits.
fn are_same_bits(numbers: &Numbers, others: &Numbers) -> bool
    ensures { IsTrue result ↔ ((numbers_type numbers.now ≡ numbers_type others.now) × (numbers_bits numbers.now ≡ numbers_bits others.now)) }
{
    match (numbers, others) {
        (Numbers::Bytes(x), Numbers::Bytes(y)) => x == y,
        (Numbers::Booleans(x), Numbers::Booleans(y)) => x == y,
        (Numbers::Of16(fixed, x), Numbers::Of16(other, y)) => fixed == other && x == y,
        (Numbers::Of32(fixed, x), Numbers::Of32(other, y)) => fixed == other && x == y,
        (Numbers::Of64(fixed, x), Numbers::Of64(other, y)) => fixed == other && x == y,
        _ => false,
    }
}

/// Whether numbers are one array.
fn are_same_numbers(numbers: &Numbers, others: &Numbers) -> bool
    ensures { IsTrue result ↔ (numbers_array numbers.now ≡ numbers_array others.now) }
{
    are_same_bits(numbers, others)
}

/// Whether the tree is the number at that place.
fn is_number_at(tree: &Tree, numbers: &Numbers, index: usize) -> bool
    requires { index < length (numbers_bits numbers.now) }
    ensures { IsTrue result ↔ (datum_of tree.now ≡ num (numbers_type numbers.now) (get_or (numbers_bits numbers.now) index 0)) }
{
    number_of(tree) == Some((numbers.basic(), numbers.bits(index)))
}

/// Whether the trees are the numbers, one for each.
fn are_numbers(trees: &[Tree], numbers: &Numbers) -> bool
    ensures { IsTrue result ↔ (map datum_of trees.now ≡ numbers_data numbers.now) }
{
    if trees.len() != numbers.len() {
        return false;
    }
    for i in 0..trees.len() {
        if !is_number_at(&trees[i], numbers, i) {
            return false;
        }
    }
    true
}

fn is_same_entry_type(
    key: BasicType,
    value: &ValueType,
    other_key: BasicType,
    other: &ValueType,
) -> bool
    ensures { IsTrue result ↔ ((key ≡ other_key) × (value.now ≡ other.now)) }
{
    key == other_key && is_same_type(value, other)
}

#[cycle(same)]
pub(crate) fn is_same(tree: &Tree, other: &Tree) -> bool
    ensures { IsTrue result ↔ (datum_of tree.now ≡ datum_of other.now) }
{
    match (tree, other) {
        (Tree::U8(x), Tree::U8(y)) => x == y,
        (Tree::Bool(x), Tree::Bool(y)) => x == y,
        (Tree::I16(x), Tree::I16(y)) => x == y,
        (Tree::U16(x), Tree::U16(y)) => x == y,
        (Tree::I32(x), Tree::I32(y)) => x == y,
        (Tree::U32(x), Tree::U32(y)) => x == y,
        (Tree::I64(x), Tree::I64(y)) => x == y,
        (Tree::U64(x), Tree::U64(y)) => x == y,
        (Tree::F64(x), Tree::F64(y)) => x == y,
        (Tree::Str(x), Tree::Str(y)) => x == y,
        (Tree::Path(x), Tree::Path(y)) => x == y,
        (Tree::Sig(x), Tree::Sig(y)) => x == y,
        (Tree::Fd(x), Tree::Fd(y)) => x == y,
        (Tree::Array(x, elements), Tree::Array(y, others)) => is_same_type(x, y)
            && are_same(elements.as_slice(), others.as_slice()),
        (Tree::Numbers(numbers), Tree::Numbers(others)) => are_same_numbers(numbers, others),
        (Tree::Array(element, elements), Tree::Numbers(numbers)) => is_array_of_numbers(
            element,
            elements.as_slice(),
            numbers,
        ),
        (Tree::Numbers(numbers), Tree::Array(element, elements)) => is_array_of_numbers(
            element,
            elements.as_slice(),
            numbers,
        ),
        (Tree::Dict(key, value, entries), Tree::Dict(other_key, other_value, others)) =>
            is_same_entry_type(*key, value, *other_key, other_value)
                && are_same_pairs(entries.as_slice(), others.as_slice()),
        (Tree::Struct(fields), Tree::Struct(others)) => are_same(
            fields.as_slice(),
            others.as_slice(),
        ),
        (Tree::Variant(inner), Tree::Variant(other)) => is_same(inner.as_tree(), other.as_tree()),
        _ => false,
    }
}
