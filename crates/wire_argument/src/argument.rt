//! Arguments.
ghost use Rattle.std.specs.Prelude.{◌≡◌, ◌%◌, IfErr, IfOk, length, map};
ghost use Rattle.wire_signature.specs.SingleType.{HasFields, IsType, SingleType, alignment, array as array_of, type_text};
ghost use Rattle.wire_signature.specs.declared.error.VariantError.TheVariants.{Memory};
ghost use Rattle.wire_tree.specs.Datum.{AreWellTyped, Datum, WellTyped, array, data_of, type_of};
ghost use Rattle.wire_tree.specs.DatumView.{datum_of};
ghost use Rattle.wire_number.specs.Reading.{made};
ghost use Rattle.wire_number.specs.ReaderView.{cursor_of};
ghost use Rattle.wire_encoding.specs.Encoding.{depth};
ghost use Rattle.wire_encoding.specs.Reading.{many_at, value_at};
ghost use Rattle.wire_encoding.specs.ReaderView.{Gives};
ghost use Rattle.wire_codec.specs.Encoder.{place_of};
ghost use Rattle.wire_codec.specs.Writing.{WritesAll, WritesValue};
ghost use Rattle.wire_argument.specs.Arguments.{Checks, Puts, TellsRead};
ghost use Rattle.wire_argument.specs.Kinds.{elements_in};

use crate::buffer::SignatureBuffer;
use crate::kind::{array_tree, trees_in};
use std::alloc::Global;
use std::mem;
use wire_codec::{EncodeError, Encoder};
use wire_number::{Endian, Reader};
use wire_signature::VariantError;
use wire_tree::Tree;

/// What is one argument of a message: each value of the Rust type is a value of one D-Bus type. It is written to a message's
/// bytes and read from them without a tree in between.
pub trait Argument: Drop + Sized {
    /// the D-Bus type
    ghost kind: { SingleType };

    /// the value that an argument is
    ghost datum: { Self → Datum };

    /// the argument that a value of the type is read as
    ghost read: { Datum → Self };

    /// Puts the text of the D-Bus type behind what stands in the buffer.
    ///
    /// # Errors
    ///
    /// Signature exactly where both together are longer than a signature may be, which is 255 bytes.
    fn write_kind(out: &mut SignatureBuffer) -> Result<(), VariantError>
        ensures { Puts result (type_text kind) out.old out.new };

    /// The boundary on which a value of the type begins (D-Bus Specification, "Summary of D-Bus marshaling").
    fn alignment() -> usize
        ensures { result ≡ alignment kind };

    /// Whether a message may hold the argument, with no more than `room` containers open at once. Read again, the value is the
    /// argument. Takes no memory.
    ///
    /// # Errors
    ///
    /// Malformed exactly where a text holds a 0 byte, or a text or path is longer than 4,294,967,295 bytes; else Depth exactly
    /// where more containers are open.
    fn check(&self, room: usize) -> Result<(), VariantError>
        ensures told { Checks result (WellTyped (datum self.now)) (depth (datum self.now)) room }
        ensures round { IfOk result (λ _. read (datum self.now) ≡ self.now) };

    /// Appends the bytes of the value (D-Bus Specification, "Marshaling (Wire Format)").
    ///
    /// # Errors
    ///
    /// ExcessData exactly where the elements of an array take more than 67,108,864 bytes or the output would pass its end.
    /// Memory for want of memory. On an error the output keeps the bytes that it had, and some may stand after them.
    fn encode(&self, encoder: &mut Encoder) -> Result<(), EncodeError>
        requires well_typed { WellTyped (datum self.now) }
        ensures { WritesValue result (datum self.now) encoder.old encoder.new };

    /// The argument that stands at a reader, and what stands behind it; `room` is how many containers may be open at once.
    ///
    /// # Errors
    ///
    /// Malformed exactly where no value of the type that opens at most so many containers stands at the reader. Memory for want
    /// of memory.
    fn decode<'a>(
        alloc: Global,
        order: Endian,
        room: usize,
        reader: Reader<'a>,
    ) -> Result<(Self, Reader<'a>), VariantError>
        ensures { Gives (λ x. (x.0, cursor_of x.1)) result (made read (value_at room order kind (cursor_of reader.entry))) };

    /// The tree of the value. Read again, the value is the argument.
    ///
    /// # Errors
    ///
    /// Memory for want of memory, and no other. The argument is given up.
    fn into_tree(self, alloc: Global) -> Result<Tree, VariantError>
        requires { IsType kind }
        ensures value { IfOk result (λ tree. datum_of tree ≡ datum self) }
        ensures round { IfOk result (λ tree. read (datum self) ≡ self) }
        ensures error { IfErr result (λ e. e ≡ Memory) };

    /// The argument that a value is.
    ///
    /// # Errors
    ///
    /// SignatureMismatch exactly where it is of another type. Memory for want of memory.
    fn from_tree(alloc: Global, tree: Tree) -> Result<Self, VariantError>
        requires { WellTyped (datum_of tree) }
        ensures { TellsRead (λ x. x) result (read (datum_of tree)) (type_of (datum_of tree)) kind };

    /// Appends the bytes of an array's elements, which begin on their boundary.
    ///
    /// # Errors
    ///
    /// ExcessData exactly where the elements of an array take more than 67,108,864 bytes or the output would pass its end.
    /// Memory for want of memory. On an error the output keeps the bytes that it had, and some may stand after them.
    fn encode_each(encoder: &mut Encoder, items: &[Self]) -> Result<(), EncodeError>
        requires well_typed { AreWellTyped (data_of (map datum items.now)) }
        requires placed { place_of encoder.old % alignment kind ≡ 0 }
        ensures { WritesAll result (data_of (map datum items.now)) encoder.old encoder.new }
    {
        for each in items {
            each.encode(encoder)?;
        }
        Ok(())
    }

    /// An array's elements, which begin on their boundary and fill their bytes.
    ///
    /// # Errors
    ///
    /// Malformed exactly where values of the type that open at most `room` containers each, one behind the other, don't fill
    /// the bytes. Memory for want of memory.
    fn decode_each<'a>(
        alloc: Global,
        order: Endian,
        room: usize,
        elements: Reader<'a>,
    ) -> Result<Vec<Self>, VariantError>
        requires { elements.place % alignment kind ≡ 0 }
        ensures { Gives (λ v. v.items) result (many_at (length elements.entry.rest.now) (λ c. made read (value_at room order kind c)) (cursor_of elements.entry)) }
    {
        let mut items = Vec::new(alloc);
        let mut left = elements;
        for _ in 0..elements.rest.len() {
            if left.rest.is_empty() {
                return Ok(items);
            }
            let (item, after) = Self::decode(alloc, order, room, left)?;
            items.push(item)?;
            left = after;
        }
        if left.rest.is_empty() {
            Ok(items)
        } else {
            Err(VariantError::Malformed)
        }
    }

    /// The tree of an array of such elements, which are given up: what is left in the `Vec` is not said. It fails only for want
    /// of memory. Read again, they are the elements.
    fn into_array(alloc: Global, items: &mut Vec<Self>) -> Result<Tree, VariantError>
        requires { IsType kind }
        ensures value { IfOk result (λ tree. datum_of tree ≡ array kind (data_of (map datum items.old.items))) }
        ensures round { IfOk result (λ _. map read (map datum items.old.items) ≡ items.old.items) }
        ensures error { IfErr result (λ e. e ≡ Memory) }
    {
        let mut trees = Vec::new(alloc);
        for item in mem::replace(items, Vec::new(alloc)) {
            trees.push(item.into_tree(alloc)?)?;
        }
        let mut text = SignatureBuffer::new();
        Self::write_kind(&mut text)?;
        array_tree(alloc, &text, trees)
    }

    /// The elements of the array that a value is. `SignatureMismatch` comes exactly where it is no array of such elements.
    fn from_array(alloc: Global, tree: Tree) -> Result<Vec<Self>, VariantError>
        requires { WellTyped (datum_of tree) }
        ensures { TellsRead (λ v. v.items) result (map read (elements_in (datum_of tree))) (type_of (datum_of tree)) (array_of kind) }
    {
        let mut text = SignatureBuffer::new();
        let written = Self::write_kind(&mut text).is_ok();
        let mut items = Vec::new(alloc);
        for each in trees_in(alloc, written, &text, tree)? {
            items.push(Self::from_tree(alloc, each)?)?;
        }
        Ok(items)
    }

    ghost has_fields: { HasFields kind };

    ghost of_kind: { (x : Self) → type_of (datum x) ≡ kind };
}
