//! Numbers as arguments.
ghost use Rattle.std.specs.Prelude.{◌≡◌, ◌↔◌, ◌<◌, IfErr, IfNone, IfOk, IfSome, IsTrue, map, refl};
ghost use Rattle.wire_signature.specs.SingleType.{array as array_of, basic as basic_type};
ghost use Rattle.wire_tree.specs.Datum.{AreElements, WellTyped, bound, data_of, num, num_type, type_of};
ghost use Rattle.wire_signature.specs.declared.error.VariantError.TheVariants.{Memory};
ghost use Rattle.wire_tree.specs.DatumView.{datum_of};
ghost use Rattle.wire_tree.specs.Packed.{fixed_type, numbers_bits, numbers_type};
ghost use Rattle.wire_argument.specs.Arguments.{TellsRead};
ghost use Rattle.wire_argument.specs.Kinds.{bits_in, elements_in};

use crate::argument::Argument;
use crate::buffer::SignatureBuffer;
use std::alloc::{AllocError, Global};
use wire_codec::{
    Double, EncodeError, Encoder, Fd, Number, read_number, read_numbers, write_number,
    write_numbers,
};
use wire_number::{Endian, Reader};
use wire_signature::{BasicType, TypeNode, ValueType, VariantError};
use wire_tree::{Fixed, Numbers, Tree, number_of};

/// The numbers that are arguments. A trait of this crate, since another crate's says nothing of texts: any type might still
/// get it there, and then would be an argument twice.
pub trait Plain: Number {}

impl Plain for u8 {}

impl Plain for bool {}

impl Plain for i16 {}

impl Plain for u16 {}

impl Plain for i32 {}

impl Plain for u32 {}

impl Plain for i64 {}

impl Plain for u64 {}

impl Plain for Double {}

impl Plain for Fd {}

/// Each number is a value of its fixed type. Arrays of them lie packed.
impl<T: Plain> Argument for T {
    ghost kind = { basic_type (num_type T.fixed) };

    ghost datum = { λ x. num T.fixed (T.bits x) };

    ghost read = { λ d. T.of_bits (bits_in d) };

    ghost has_fields = { tt };

    ghost of_kind = { λ x. refl };

    fn write_kind(out: &mut SignatureBuffer) -> Result<(), VariantError> {
        out.push(T::fixed().basic().letter())
    }

    fn alignment() -> usize {
        T::fixed().basic().alignment()
    }

    fn check(&self, _room: usize) -> Result<(), VariantError> {
        let _bits = T::bits(*self);
        Ok(())
    }

    fn encode(&self, encoder: &mut Encoder) -> Result<(), EncodeError> {
        write_number(encoder, T::fixed(), T::bits(*self))
    }

    fn decode<'a>(
        _alloc: Global,
        order: Endian,
        _room: usize,
        reader: Reader<'a>,
    ) -> Result<(T, Reader<'a>), VariantError> {
        match read_number(order, T::fixed(), reader) {
            Some((bits, after)) => Ok((T::from_bits(bits), after)),
            None => Err(VariantError::Malformed),
        }
    }

    fn into_tree(self, _alloc: Global) -> Result<Tree, VariantError> {
        Ok(T::fixed().tree(T::bits(self)))
    }

    fn from_tree(_alloc: Global, tree: Tree) -> Result<T, VariantError> {
        match bits_of(T::fixed(), &tree) {
            Some(bits) => Ok(T::from_bits(bits)),
            None => Err(VariantError::SignatureMismatch),
        }
    }

    fn encode_each(encoder: &mut Encoder, items: &[T]) -> Result<(), EncodeError> {
        write_numbers(encoder, items)
    }

    fn decode_each<'a>(
        alloc: Global,
        order: Endian,
        _room: usize,
        elements: Reader<'a>,
    ) -> Result<Vec<T>, VariantError> {
        read_numbers(alloc, order, elements)
    }

    fn into_array(alloc: Global, items: &mut Vec<T>) -> Result<Tree, VariantError> {
        Ok(Tree::Numbers(packed(alloc, items.as_slice())?))
    }

    fn from_array(alloc: Global, tree: Tree) -> Result<Vec<T>, VariantError> {
        numbers_in(alloc, &tree)
    }
}

/// The bits of a tree that is a number of the type.
fn bits_of(fixed: Fixed, tree: &Tree) -> Option<u64>
    requires { WellTyped (datum_of tree.now) }
    ensures some { IfSome result (λ bits. datum_of tree.now ≡ num (fixed_type fixed) bits) }
    ensures within { IfSome result (λ bits. bits < bound (fixed_type fixed)) }
    ensures none { IfNone result (type_of (datum_of tree.now) ≡ basic_type (num_type (fixed_type fixed)) → ⊥) }
{
    match number_of(tree) {
        Some((basic, bits)) => {
            if basic == fixed.basic() {
                Some(bits)
            } else {
                None
            }
        }
        None => None,
    }
}

/// Numbers of another Rust type that have the same bits.
fn converted<T: Number, U: Number>(alloc: Global, items: &[T]) -> Result<Vec<U>, AllocError>
    requires { bound T.fixed ≡ bound U.fixed }
    ensures bits { IfOk result (λ v. map U.bits v.items ≡ map T.bits items.now) }
    ensures round { IfOk result (λ _. map T.of_bits (map T.bits items.now) ≡ items.now) }
{
    let mut others = Vec::with_capacity(alloc, items.len())?;
    for each in items {
        others.push(U::from_bits(T::bits(*each)))?;
    }
    Ok(others)
}

/// Numbers as they lie packed.
fn packed<T: Number>(alloc: Global, items: &[T]) -> Result<Numbers, AllocError>
    ensures kind { IfOk result (λ numbers. numbers_type numbers ≡ T.fixed) }
    ensures bits { IfOk result (λ numbers. numbers_bits numbers ≡ map T.bits items.now) }
    ensures round { IfOk result (λ _. map T.of_bits (map T.bits items.now) ≡ items.now) }
{
    match T::fixed() {
        Fixed::Byte => Ok(Numbers::Bytes(converted(alloc, items)?)),
        Fixed::Boolean => Ok(Numbers::Booleans(converted(alloc, items)?)),
        Fixed::Of16(fixed) => Ok(Numbers::Of16(fixed, converted(alloc, items)?)),
        Fixed::Of32(fixed) => Ok(Numbers::Of32(fixed, converted(alloc, items)?)),
        Fixed::Of64(fixed) => Ok(Numbers::Of64(fixed, converted(alloc, items)?)),
    }
}

/// The numbers of an array, where it is one of such numbers.
pub(crate) fn numbers_in<T: Number>(alloc: Global, tree: &Tree) -> Result<Vec<T>, VariantError>
    requires { WellTyped (datum_of tree.now) }
    ensures { TellsRead (λ v. v.items) result (map (λ d. T.of_bits (bits_in d)) (elements_in (datum_of tree.now))) (type_of (datum_of tree.now)) (array_of (basic_type (num_type T.fixed))) }
{
    match tree {
        Tree::Numbers(numbers) => unpacked(alloc, numbers),
        Tree::Array(element, trees) => {
            if is_basic(element, T::fixed().basic()) {
                listed(alloc, trees.as_slice())
            } else {
                Err(VariantError::SignatureMismatch)
            }
        }
        _ => Err(VariantError::SignatureMismatch),
    }
}

fn is_basic(value_type: &ValueType, basic: BasicType) -> bool
    ensures { IsTrue result ↔ (value_type.now ≡ basic_type basic) }
{
    match value_type.node() {
        TypeNode::Basic(own) => *own == basic,
        _ => false,
    }
}

/// Numbers that lie packed, where they are of the type.
fn unpacked<T: Number>(alloc: Global, numbers: &Numbers) -> Result<Vec<T>, VariantError>
    ensures { TellsRead (λ v. v.items) result (map T.of_bits (numbers_bits numbers.now)) (array_of (basic_type (num_type (numbers_type numbers.now)))) (array_of (basic_type (num_type T.fixed))) }
{
    if numbers.basic() != T::fixed().basic() {
        return Err(VariantError::SignatureMismatch);
    }
    let mut items = Vec::with_capacity(alloc, numbers.len())?;
    for index in 0..numbers.len() {
        items.push(T::from_bits(numbers.bits(index)))?;
    }
    Ok(items)
}

/// Numbers of the type, each from its tree.
fn listed<T: Number>(alloc: Global, trees: &[Tree]) -> Result<Vec<T>, VariantError>
    requires { AreElements (basic_type (num_type T.fixed)) (data_of (map datum_of trees.now)) }
    ensures value { IfOk result (λ v. v.items ≡ map (λ d. T.of_bits (bits_in d)) (map datum_of trees.now)) }
    ensures error { IfErr result (λ e. e ≡ Memory) }
{
    let mut items = Vec::with_capacity(alloc, trees.len())?;
    for each in trees {
        match bits_of(T::fixed(), each) {
            Some(bits) => items.push(T::from_bits(bits))?,
            None => return Err(VariantError::SignatureMismatch),
        }
    }
    Ok(items)
}
