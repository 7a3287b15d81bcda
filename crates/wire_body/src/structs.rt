//! Structs as arguments.
ghost use Rattle.std.specs.Prelude.{◌≡◌, IfNone, IfSome, map};
ghost use Rattle.wire_number.specs.Reading.{align_at};
ghost use Rattle.wire_number.specs.ReaderView.{cursor_of};
ghost use Rattle.wire_signature.specs.SingleType.{AreFields, SingleType, SingleTypes, single_types_of, struct as struct_of};
ghost use Rattle.wire_tree.specs.Datum.{data_of, struct as struct_datum, type_of};
ghost use Rattle.wire_tree.specs.DatumView.{datum_of};
ghost use Rattle.wire_encoding.specs.ReaderView.{Gives};
ghost use Rattle.wire_body.specs.Fields.{fields_in, struct_is};

use crate::arguments::Arguments;
use crate::message::{FromBody, ToBody};
use std::alloc::Global;
use std::marker::Model;
use wire_argument::{Argument, SignatureBuffer};
use wire_codec::{EncodeError, Encoder};
use wire_number::{Endian, Reader};
use wire_signature::VariantError;
use wire_tree::{Tree, Trees};

/// What can be the fields of a struct: at least one (D-Bus Specification, "Container types").
pub trait Fields: FromBody {
    ghost some: { AreFields (single_types_of Self.kinds) };
}

/// Arguments that are the fields of a struct, which is one argument (D-Bus Specification, "Container types").
pub struct Struct<T> {
    fields: T,
}

impl<T: Drop> Drop for Struct<T> {
    fn drop(self) {
        let Struct { fields: _ } = self;
    }
}

impl<T> Model for Struct<T> {
    ghost Value = { T };

    ghost view = { λ s. s.fields };
}

impl<T> Struct<T> {
    /// The struct with these fields.
    pub fn new(fields: T) -> Struct<T>
        ensures { result ≡ fields }
    {
        Struct { fields }
    }

    /// The fields, lent.
    pub fn fields(&self) -> &T
        ensures { result.now ≡ self.now }
    {
        &self.fields
    }

    /// Gives the fields back.
    pub fn into_fields(self) -> T
        ensures { result ≡ self }
    {
        let Struct { fields } = self;
        fields
    }
}

impl<T: Fields> Argument for Struct<T> {
    ghost kind = { struct_of (single_types_of T.kinds) };

    ghost datum = { λ x. struct_datum (data_of (T.datums x)) };

    ghost read = { λ d. T.read (fields_in d) };

    ghost has_fields = { (T.some, T.all_have_fields) };

    ghost of_kind = { λ x. struct_is (T.datums x) T.kinds (T.of_kinds x) };

    fn write_kind(out: &mut SignatureBuffer) -> Result<(), VariantError> {
        out.push(b'(')?;
        T::write_kinds(out)?;
        out.push(b')')
    }

    fn alignment() -> usize {
        8
    }

    fn check(&self, room: usize) -> Result<(), VariantError> {
        self.fields.check(room.saturating_sub(1))?;
        if room == 0 {
            return Err(VariantError::Depth);
        }
        Ok(())
    }

    fn encode(&self, encoder: &mut Encoder) -> Result<(), EncodeError> {
        encoder.pad(8)?;
        self.fields.encode(encoder)
    }

    fn decode<'a>(
        alloc: Global,
        order: Endian,
        room: usize,
        reader: Reader<'a>,
    ) -> Result<(Struct<T>, Reader<'a>), VariantError> {
        if room == 0 {
            return Err(VariantError::Malformed);
        }
        let inside = past_padding(reader)?;
        let (fields, after) = T::decode(alloc, order, room - 1, inside)?;
        Ok((Struct { fields }, after))
    }

    fn into_tree(self, alloc: Global) -> Result<Tree, VariantError> {
        let trees = self.into_fields().into_trees(alloc)?;
        Ok(Tree::Struct(Trees::from_vec(trees)))
    }

    fn from_tree(alloc: Global, tree: Tree) -> Result<Struct<T>, VariantError> {
        match fields_of(alloc, tree) {
            Some(trees) => {
                let fields = T::from_arguments(alloc, Arguments::of_fields(trees))?;
                Ok(Struct { fields })
            }
            None => Err(VariantError::SignatureMismatch),
        }
    }
}

/// The trees of a struct's fields.
fn fields_of(alloc: Global, mut tree: Tree) -> Option<Vec<Tree>>
    ensures some { IfSome result (λ trees. datum_of tree ≡ struct_datum (data_of (map datum_of trees.items))) }
    ensures none { IfNone result ((ts : SingleTypes) → type_of (datum_of tree) ≡ struct_of ts → ⊥) }
{
    match &mut tree {
        Tree::Struct(fields) => {
            let none = Trees::from_vec(Vec::new(alloc));
            Some(std::mem::replace(fields, none).into_vec())
        }
        _ => None,
    }
}

/// Past the padding before a struct.
fn past_padding<'a>(reader: Reader<'a>) -> Result<Reader<'a>, VariantError>
    ensures { Gives cursor_of result (align_at 8 (cursor_of reader.entry)) }
{
    match reader.align(8) {
        Some(inside) => Ok(inside),
        None => Err(VariantError::Malformed),
    }
}
