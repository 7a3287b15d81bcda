//! Bytes as an argument, which lie in one piece.
ghost use Rattle.std.specs.Prelude.{ℕ, length, map, refl};
ghost use Rattle.wire_signature.specs.SingleType.{array as array_of, basic};
ghost use Rattle.wire_signature.specs.declared.basic.BasicType.TheVariants as basics;
ghost use Rattle.wire_number.specs.declared.endian.Endian.{Endian};
ghost use Rattle.wire_tree.specs.Datum.{array, byte, data_of, num};
ghost use Rattle.wire_encoding.specs.Reading.{many_at, num_value_at};
ghost use Rattle.wire_encoding.specs.ReaderView.{Gives};
ghost use Rattle.wire_argument.specs.Kinds.{bits_in, elements_in};

use crate::argument::Argument;
use crate::buffer::SignatureBuffer;
use crate::numbers::numbers_in;
use std::alloc::Global;
use wire_codec::{EncodeError, Encoder, close_array, open_array, write_bytes};
use wire_encoding::elements;
use wire_names::Bytes;
use wire_number::{Endian, Reader};
use wire_signature::VariantError;
use wire_tree::{Numbers, Tree};

/// Bytes are the array of their numbers.
impl Argument for Bytes {
    ghost kind = { array_of (basic basics.Byte) };

    ghost datum = { λ x. array (basic basics.Byte) (data_of (map (num byte) x)) };

    ghost read = { λ d. map bits_in (elements_in d) };

    ghost has_fields = { tt };

    ghost of_kind = { λ x. refl };

    fn write_kind(out: &mut SignatureBuffer) -> Result<(), VariantError> {
        out.push(b'a')?;
        out.push(b'y')
    }

    fn alignment() -> usize {
        4
    }

    fn check(&self, room: usize) -> Result<(), VariantError> {
        // Looking at the bytes tells the proof that they are bytes.
        let _bytes = self.as_slice();
        if room > 0 {
            Ok(())
        } else {
            Err(VariantError::Depth)
        }
    }

    fn encode(&self, encoder: &mut Encoder) -> Result<(), EncodeError> {
        let array = open_array(encoder, 1)?;
        let written = write_bytes(encoder, self.as_slice());
        close_array(encoder, array);
        written
    }

    fn decode<'a>(
        alloc: Global,
        order: Endian,
        room: usize,
        reader: Reader<'a>,
    ) -> Result<(Bytes, Reader<'a>), VariantError> {
        if room == 0 {
            return Err(VariantError::Malformed);
        }
        match elements(order, 1, reader) {
            Some((inner, after)) => {
                let bytes = read_bytes(alloc, inner.rest)?;
                Ok((bytes, after))
            }
            None => Err(VariantError::Malformed),
        }
    }

    fn into_tree(self, _alloc: Global) -> Result<Tree, VariantError> {
        Ok(Tree::Numbers(Numbers::Bytes(self.into_vec())))
    }

    fn from_tree(alloc: Global, tree: Tree) -> Result<Bytes, VariantError> {
        match numbers_in(alloc, &tree) {
            Ok(items) => Ok(Bytes::from_vec(items)),
            Err(error) => Err(error),
        }
    }
}

/// All bytes, by one copy.
fn read_bytes(alloc: Global, bytes: &[u8]) -> Result<Bytes, VariantError>
    ensures { (order : Endian) (place : ℕ) → Gives (λ v. map (num byte) v) result (many_at (length bytes.now) (num_value_at byte order) (record { place = place; rest = bytes.now })) }
{
    let copy = Vec::from_slice(alloc, bytes)?;
    Ok(Bytes::from_vec(copy))
}
