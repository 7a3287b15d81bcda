//! The types of arguments.
ghost use Rattle.std.specs.Prelude.{◌≡◌, ◌↔◌, IfErr, IfOk, IsTrue, map};
ghost use Rattle.wire_signature.specs.SingleType.{HasFields, IsType, SingleType, TypeText, array as array_of};
ghost use Rattle.wire_signature.specs.declared.error.VariantError.TheVariants.{Memory};
ghost use Rattle.wire_tree.specs.Datum.{array, data_of, type_of};
ghost use Rattle.wire_tree.specs.DatumView.{datum_of};
ghost use Rattle.wire_argument.specs.Arguments.{IsWritten, TellsRead};
ghost use Rattle.wire_argument.specs.Kinds.{elements_in};

use crate::argument::Argument;
use crate::buffer::SignatureBuffer;
use std::alloc::Global;
use wire_encoding::utf8;
use wire_signature::{MAX_LENGTH, ValueType, VariantError};
use wire_tree::{Tree, Trees};

/// The type of an argument. It fails only for want of memory.
pub(crate) fn value_type<T: Argument>(alloc: Global) -> Result<ValueType, VariantError>
    requires { IsType T.kind }
    ensures value { IfOk result (λ t. t ≡ T.kind) }
    ensures error { IfErr result (λ e. e ≡ Memory) }
{
    let mut text = SignatureBuffer::new();
    T::write_kind(&mut text)?;
    type_of_text(alloc, &text)
}

/// Whether a type is that of an argument.
pub(crate) fn is_kind<T: Argument>(value_type: &ValueType) -> bool
    ensures { IsTrue result ↔ (value_type.now ≡ T.kind) }
{
    let mut text = SignatureBuffer::new();
    let written = T::write_kind(&mut text).is_ok();
    is_written(written, &text, value_type)
}

/// The type of which a text is. It fails only for want of memory.
pub(crate) fn type_of_text(alloc: Global, text: &SignatureBuffer) -> Result<ValueType, VariantError>
    requires { (t : SingleType) × TypeText t text.now }
    ensures value { (t : SingleType) → TypeText t text.now → IfOk result (λ x. x ≡ t) }
    ensures error { IfErr result (λ e. e ≡ Memory) }
{
    match utf8(text.as_bytes()) {
        Some(text) => ValueType::try_from(alloc, text),
        // The text of a type has bytes of ASCII alone.
        None => unreachable!(),
    }
}

/// Whether a type is one whose text was written, or was too long for a signature.
pub(crate) fn is_written(written: bool, text: &SignatureBuffer, value_type: &ValueType) -> bool
    ensures { (kind : SingleType) → HasFields kind → IsWritten written text.now kind → IsTrue result ↔ (value_type.now ≡ kind) }
{
    let mut own = [0; MAX_LENGTH];
    let end = value_type.put_text(&mut own);
    if written {
        text.as_bytes() == &own[..end]
    } else {
        false
    }
}

/// The tree of an array, of whose elements' type that text is. It fails only for want of memory.
pub(crate) fn array_tree(
    alloc: Global,
    text: &SignatureBuffer,
    trees: Vec<Tree>,
) -> Result<Tree, VariantError>
    requires { (t : SingleType) × TypeText t text.now }
    ensures value { (t : SingleType) → TypeText t text.now → IfOk result (λ tree. datum_of tree ≡ array t (data_of (map datum_of trees.items))) }
    ensures error { IfErr result (λ e. e ≡ Memory) }
{
    let element = type_of_text(alloc, text)?;
    Ok(Tree::Array(element, Trees::from_vec(trees)))
}

/// The elements of an array whose elements are of the type whose text was written, or was too long for a signature.
pub(crate) fn trees_in(
    alloc: Global,
    written: bool,
    text: &SignatureBuffer,
    tree: Tree,
) -> Result<Vec<Tree>, VariantError>
    ensures { (kind : SingleType) → HasFields kind → IsWritten written text.now kind
        → TellsRead (λ v. map datum_of v.items) result (elements_in (datum_of tree)) (type_of (datum_of tree)) (array_of kind) }
{
    match tree.into_array(alloc)? {
        Some((element, elements)) => {
            if is_written(written, text, &element) {
                Ok(elements.into_vec())
            } else {
                Err(VariantError::SignatureMismatch)
            }
        }
        None => Err(VariantError::SignatureMismatch),
    }
}
