//! Tuples as bodies.
ghost use Rattle.std.specs.Prelude.{◌≡◌, IfOk};
ghost use Rattle.wire_tree.specs.Datum.{data_of};
ghost use Rattle.wire_encoding.specs.Encoding.{depths};
ghost use Rattle.wire_codec.specs.Writing.{WritesAll};
ghost use Rattle.wire_argument.specs.Arguments.{Checks};
ghost use Rattle.wire_body.specs.Arguments.{AreAllWellTyped};

use crate::arguments::Arguments;
use crate::chain::Chain;
use crate::message::{FromBody, ToBody};
use std::alloc::Global;
use wire_argument::SignatureBuffer;
use wire_codec::{EncodeError, Encoder};
use wire_number::{Endian, Reader};
use wire_signature::VariantError;
use wire_tree::Tree;

/// A tuple of arguments, which is taken apart into pairs and put together of them.
pub trait Tuple: Drop {
    type Pairs: Chain;

    /// the pairs of its fields
    ghost split: { Self → Self.Pairs };

    /// the tuple of pairs
    ghost join: { Self.Pairs → Self };

    fn split(self) -> Self::Pairs
        ensures { result ≡ split self };

    fn join(pairs: Self::Pairs) -> Self
        ensures { result ≡ join pairs };

    /// As [`ToBody::check`].
    fn check(&self, room: usize) -> Result<(), VariantError>
        ensures told { Checks result (AreAllWellTyped (Self.Pairs.datums (split self.now))) (depths (data_of (Self.Pairs.datums (split self.now)))) room }
        ensures round { IfOk result (λ _. join (Self.Pairs.read (Self.Pairs.datums (split self.now))) ≡ self.now) };

    /// As [`ToBody::encode`].
    fn encode(&self, encoder: &mut Encoder) -> Result<(), EncodeError>
        requires well_typed { AreAllWellTyped (Self.Pairs.datums (split self.now)) }
        ensures { WritesAll result (data_of (Self.Pairs.datums (split self.now))) encoder.old encoder.new };

    ghost joined: { (x : Self) → join (split x) ≡ x };
}

impl<T: Tuple> ToBody for T {
    ghost kinds = { T.Pairs.kinds };

    ghost datums = { λ x. T.Pairs.datums (T.split x) };

    ghost read = { λ ds. T.join (T.Pairs.read ds) };

    ghost all_have_fields = { T.Pairs.all_have_fields };

    ghost of_kinds = { λ x. T.Pairs.of_kinds (T.split x) };

    fn write_kinds(out: &mut SignatureBuffer) -> Result<(), VariantError> {
        T::Pairs::write_kinds(out)
    }

    fn check(&self, room: usize) -> Result<(), VariantError> {
        Tuple::check(self, room)
    }

    fn encode(&self, encoder: &mut Encoder) -> Result<(), EncodeError> {
        Tuple::encode(self, encoder)
    }

    fn into_trees(self, alloc: Global) -> Result<Vec<Tree>, VariantError> {
        let mut trees = Vec::new(alloc);
        self.split().put_trees(alloc, &mut trees)?;
        Ok(trees)
    }
}

impl<T: Tuple> FromBody for T {
    fn decode<'a>(
        alloc: Global,
        order: Endian,
        room: usize,
        reader: Reader<'a>,
    ) -> Result<(T, Reader<'a>), VariantError> {
        let (pairs, after) = T::Pairs::decode(alloc, order, room, reader)?;
        Ok((T::join(pairs), after))
    }

    fn from_arguments(alloc: Global, arguments: Arguments) -> Result<T, VariantError> {
        Ok(T::join(T::Pairs::from_arguments(alloc, arguments)?))
    }
}
