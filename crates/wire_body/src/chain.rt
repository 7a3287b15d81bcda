//! One argument, and those behind it.
ghost use Rattle.std.specs.Prelude.{◌≡◌, ◌++◌, ◌∷◌, [], IfErr, List, OnOk, map, refl};
ghost use Rattle.wire_signature.specs.SingleType.{AllHaveFields, SingleType, single_types_of, types_text};
ghost use Rattle.wire_signature.specs.declared.error.VariantError.TheVariants.{Memory};
ghost use Rattle.wire_tree.specs.Datum.{Datum, type_of};
ghost use Rattle.wire_tree.specs.DatumView.{datum_of};
ghost use Rattle.wire_number.specs.Reading.{made};
ghost use Rattle.wire_number.specs.ReaderView.{cursor_of};
ghost use Rattle.wire_encoding.specs.Reading.{fields_at, value_at};
ghost use Rattle.wire_encoding.specs.ReaderView.{Gives};
ghost use Rattle.wire_argument.specs.Arguments.{Puts};
ghost use Rattle.wire_body.specs.Arguments.{AllAreTypes, TellsFrom};
ghost use Rattle.wire_body.specs.Chained.{first_of, rest_of, same_cons};

use crate::arguments::{Arguments, take};
use std::alloc::Global;
use wire_argument::{Argument, SignatureBuffer};
use wire_number::{Endian, Reader};
use wire_signature::VariantError;
use wire_tree::Tree;

/// Arguments one behind the other, as pairs: the first, and those behind it.
pub trait Chain: Drop {
    /// the D-Bus types, in their order
    ghost kinds: { List SingleType };

    /// the values that the arguments are
    ghost datums: { Self → List Datum };

    /// the arguments that values of the types are read as
    ghost read: { List Datum → Self };

    /// Puts the texts of the D-Bus types, one after another, behind what stands in the buffer.
    fn write_kinds(out: &mut SignatureBuffer) -> Result<(), VariantError>
        ensures { Puts result (types_text (single_types_of kinds)) out.old out.new };

    /// Puts the trees of the values behind others. It fails only for want of memory.
    fn put_trees(self, alloc: Global, out: &mut Vec<Tree>) -> Result<(), VariantError>
        requires { AllAreTypes kinds }
        ensures value { OnOk result (map datum_of out.new.items ≡ map datum_of out.old.items ++ datums self) }
        ensures round { OnOk result (read (datums self) ≡ self) }
        ensures error { IfErr result (λ e. e ≡ Memory) };

    /// The arguments that stand at a reader, one behind the other, and what stands behind them.
    fn decode<'a>(
        alloc: Global,
        order: Endian,
        room: usize,
        reader: Reader<'a>,
    ) -> Result<(Self, Reader<'a>), VariantError>
        ensures { Gives (λ x. (x.0, cursor_of x.1)) result (made Self.read (fields_at (value_at room order) (single_types_of Self.kinds) (cursor_of reader.entry))) };

    /// The arguments that values are. `SignatureMismatch` comes exactly where their types are others.
    fn from_arguments(alloc: Global, arguments: Arguments) -> Result<Self, VariantError>
        ensures { TellsFrom result (Self.read arguments) (map type_of arguments) Self.kinds };

    ghost all_have_fields: { AllHaveFields (single_types_of kinds) };

    ghost of_kinds: { (x : Self) → map type_of (datums x) ≡ kinds };
}

impl Chain for () {
    ghost kinds = { [] };

    ghost datums = { λ x. [] };

    ghost read = { λ ds. tt };

    ghost all_have_fields = { tt };

    ghost of_kinds = { λ x. refl };

    fn write_kinds(_out: &mut SignatureBuffer) -> Result<(), VariantError> {
        Ok(())
    }

    fn put_trees(self, _alloc: Global, _out: &mut Vec<Tree>) -> Result<(), VariantError> {
        Ok(())
    }

    fn decode<'a>(
        _alloc: Global,
        _order: Endian,
        _room: usize,
        reader: Reader<'a>,
    ) -> Result<((), Reader<'a>), VariantError> {
        Ok(((), reader))
    }

    fn from_arguments(_alloc: Global, arguments: Arguments) -> Result<(), VariantError> {
        arguments.end()
    }
}

impl<A: Argument, R: Chain> Chain for (A, R) {
    ghost kinds = { A.kind ∷ R.kinds };

    ghost datums = { λ x. A.datum x.0 ∷ R.datums x.1 };

    ghost read = { λ ds. (A.read (first_of ds), R.read (rest_of ds)) };

    ghost all_have_fields = { (A.has_fields, R.all_have_fields) };

    ghost of_kinds = { λ x. same_cons _ _ _ _ (A.of_kind x.0) (R.of_kinds x.1) };

    fn write_kinds(out: &mut SignatureBuffer) -> Result<(), VariantError> {
        A::write_kind(out)?;
        R::write_kinds(out)
    }

    fn put_trees(self, alloc: Global, out: &mut Vec<Tree>) -> Result<(), VariantError> {
        let (first, rest) = self;
        out.push(first.into_tree(alloc)?)?;
        rest.put_trees(alloc, out)
    }

    fn decode<'a>(
        alloc: Global,
        order: Endian,
        room: usize,
        reader: Reader<'a>,
    ) -> Result<((A, R), Reader<'a>), VariantError> {
        let (first, behind) = A::decode(alloc, order, room, reader)?;
        let (rest, after) = R::decode(alloc, order, room, behind)?;
        Ok(((first, rest), after))
    }

    fn from_arguments(alloc: Global, mut arguments: Arguments) -> Result<(A, R), VariantError> {
        let first = take::<A>(alloc, &mut arguments)?;
        let rest = R::from_arguments(alloc, arguments)?;
        Ok((first, rest))
    }
}
