//! Arrays as arguments.
ghost use Rattle.std.specs.Prelude.{◌≡◌, ◌+◌, IfOk, map, refl};
ghost use Rattle.wire_signature.specs.SingleType.{array as array_of};
ghost use Rattle.wire_tree.specs.Datum.{AreElements, array, data_of};
ghost use Rattle.wire_encoding.specs.Encoding.{depths};
ghost use Rattle.wire_argument.specs.Arguments.{Checks};
ghost use Rattle.wire_argument.specs.Kinds.{elements_in};

use crate::argument::Argument;
use crate::buffer::SignatureBuffer;
use std::alloc::Global;
use std::marker::Model;
use wire_codec::{EncodeError, Encoder, close_array, open_array};
use wire_encoding::elements;
use wire_number::{Endian, Reader};
use wire_signature::VariantError;
use wire_tree::Tree;

/// Arguments of one type in their order, which are one argument (D-Bus Specification, "Container types").
#[derive(Drop)]
pub struct Array<T> {
    items: Vec<T>,
}

impl<T> Model for Array<T> {
    ghost use Rattle.std.specs.Prelude.{List};

    ghost Value = { List T };

    ghost view = { λ a. a.items.items };
}

impl<T> Array<T> {
    /// Takes the `Vec` itself, with no memory of its own.
    pub fn from_vec(items: Vec<T>) -> Array<T>
        ensures { result ≡ items.items }
    {
        Array { items }
    }

    /// The arguments in their order, lent.
    pub fn as_slice(&self) -> &[T]
        ensures { result.now ≡ self.now }
    {
        self.items.as_slice()
    }

    /// Gives the `Vec` back.
    pub fn into_vec(self) -> Vec<T>
        ensures { result.items ≡ self }
    {
        self.items
    }
}

impl<T: Argument> Argument for Array<T> {
    ghost kind = { array_of T.kind };

    ghost datum = { λ xs. array T.kind (data_of (map T.datum xs)) };

    ghost read = { λ d. map T.read (elements_in d) };

    ghost has_fields = { T.has_fields };

    ghost of_kind = { λ x. refl };

    fn write_kind(out: &mut SignatureBuffer) -> Result<(), VariantError> {
        out.push(b'a')?;
        T::write_kind(out)
    }

    fn alignment() -> usize {
        4
    }

    fn check(&self, room: usize) -> Result<(), VariantError> {
        check_each(room, self.as_slice())
    }

    fn encode(&self, encoder: &mut Encoder) -> Result<(), EncodeError> {
        let array = open_array(encoder, T::alignment())?;
        let written = T::encode_each(encoder, self.as_slice());
        close_array(encoder, array);
        written
    }

    fn decode<'a>(
        alloc: Global,
        order: Endian,
        room: usize,
        reader: Reader<'a>,
    ) -> Result<(Array<T>, Reader<'a>), VariantError> {
        if room == 0 {
            return Err(VariantError::Malformed);
        }
        match elements(order, T::alignment(), reader) {
            Some((inner, after)) => {
                let items = T::decode_each(alloc, order, room - 1, inner)?;
                Ok((Array::from_vec(items), after))
            }
            None => Err(VariantError::Malformed),
        }
    }

    fn into_tree(self, alloc: Global) -> Result<Tree, VariantError> {
        let mut items = self.into_vec();
        T::into_array(alloc, &mut items)
    }

    fn from_tree(alloc: Global, tree: Tree) -> Result<Array<T>, VariantError> {
        match T::from_array(alloc, tree) {
            Ok(items) => Ok(Array::from_vec(items)),
            Err(error) => Err(error),
        }
    }
}

/// Whether a message may hold an array of these elements. All are looked at, since one that no message may hold goes before one
/// that opens too many containers.
fn check_each<T: Argument>(room: usize, items: &[T]) -> Result<(), VariantError>
    ensures told { Checks result (AreElements T.kind (data_of (map T.datum items.now))) (depths (data_of (map T.datum items.now)) + 1) room }
    ensures round { IfOk result (λ _. map T.read (map T.datum items.now) ≡ items.now) }
{
    let inner = if room == 0 { 0 } else { room - 1 };
    let mut deep = room == 0;
    for item in items {
        match item.check(inner) {
            Ok(()) => {}
            Err(VariantError::Depth) => deep = true,
            Err(_) => return Err(VariantError::Malformed),
        }
    }
    if deep {
        Err(VariantError::Depth)
    } else {
        Ok(())
    }
}
