//! Lists of arguments as bodies.
ghost use Rattle.std.specs.Prelude.{◌≡◌, ◌+◌, [], IfErr, IfOk, List, map};
ghost use Rattle.wire_signature.specs.SingleType.{AllHaveFields, SingleType, single_types_of, types_text};
ghost use Rattle.wire_signature.specs.declared.error.VariantError.TheVariants.{Memory};
ghost use Rattle.wire_tree.specs.Datum.{Datum, data_of, type_of};
ghost use Rattle.wire_tree.specs.DatumView.{datum_of};
ghost use Rattle.wire_number.specs.Reading.{made};
ghost use Rattle.wire_number.specs.ReaderView.{cursor_of};
ghost use Rattle.wire_encoding.specs.Encoding.{depths};
ghost use Rattle.wire_encoding.specs.Reading.{fields_at, value_at};
ghost use Rattle.wire_encoding.specs.ReaderView.{Gives};
ghost use Rattle.wire_codec.specs.Writing.{WritesAll};
ghost use Rattle.wire_argument.specs.Arguments.{Checks, Puts};
ghost use Rattle.wire_body.specs.Arguments.{AllAreTypes, AreAllWellTyped, PutsSignature, TellsBack, TellsFrom, TellsKinds, TellsWellTyped, TellsTo};

use crate::arguments::Arguments;
use crate::body::BodyValues;
use std::alloc::Global;
use wire_argument::SignatureBuffer;
use wire_codec::{EncodeError, Encoder};
use wire_encoding::utf8;
use wire_number::{Endian, Reader};
use wire_signature::{Signature, VariantError, is_signature};
use wire_tree::{Tree, Value};

/// What is a whole body: so many arguments, each of one D-Bus type. They are written to a message's bytes without a tree in
/// between.
pub trait ToBody: Drop + Sized {
    /// the D-Bus types, in their order
    ghost kinds: { List SingleType };

    /// the values that the arguments are
    ghost datums: { Self → List Datum };

    /// the arguments that values of the types are read as
    ghost read: { List Datum → Self };

    /// Puts the texts of the D-Bus types, one after another, behind what stands in the buffer.
    ///
    /// # Errors
    ///
    /// Signature exactly where all of it is longer than a signature may be, which is 255 bytes.
    fn write_kinds(out: &mut SignatureBuffer) -> Result<(), VariantError>
        ensures { Puts result (types_text (single_types_of kinds)) out.old out.new };

    /// Whether a message may hold the arguments, with no more than `room` containers open at once in each. Read again, the
    /// values are the arguments. Takes no memory.
    ///
    /// # Errors
    ///
    /// Malformed exactly where a text holds a 0 byte, or a text or path is longer than 4,294,967,295 bytes; else Depth exactly
    /// where more containers are open.
    fn check(&self, room: usize) -> Result<(), VariantError>
        ensures told { Checks result (AreAllWellTyped (datums self.now)) (depths (data_of (datums self.now))) room }
        ensures round { IfOk result (λ _. read (datums self.now) ≡ self.now) };

    /// Appends the bytes of the values, one behind the other (D-Bus Specification, "Message Format", "Marshaling (Wire
    /// Format)").
    ///
    /// # Errors
    ///
    /// ExcessData exactly where the elements of an array take more than 67,108,864 bytes or the output would pass its end.
    /// Memory for want of memory. On an error the output keeps the bytes that it had, and some may stand after them.
    fn encode(&self, encoder: &mut Encoder) -> Result<(), EncodeError>
        requires well_typed { AreAllWellTyped (datums self.now) }
        ensures { WritesAll result (data_of (datums self.now)) encoder.old encoder.new };

    /// The trees of the values. Read again, the values are the arguments.
    ///
    /// # Errors
    ///
    /// Memory for want of memory, and no other. The arguments are given up.
    fn into_trees(self, alloc: Global) -> Result<Vec<Tree>, VariantError>
        requires { AllAreTypes kinds }
        ensures value { IfOk result (λ trees. map datum_of trees.items ≡ datums self) }
        ensures round { IfOk result (λ trees. read (datums self) ≡ self) }
        ensures error { IfErr result (λ e. e ≡ Memory) };

    /// The values of the arguments, which are given up. Read again, they are the arguments.
    ///
    /// # Errors
    ///
    /// Malformed exactly where a text holds a 0 byte, or a text or path is longer than 4,294,967,295 bytes. Memory for want
    /// of memory.
    fn into_values(self, alloc: Global) -> Result<Vec<Value>, VariantError>
        requires { AllAreTypes kinds }
        ensures told { TellsWellTyped result (datums self) }
        ensures value { IfOk result (λ values. values.items ≡ datums self) }
        ensures round { IfOk result (λ values. read (datums self) ≡ self) }
    {
        let trees = self.into_trees(alloc)?;
        values_of(alloc, trees)
    }

    ghost all_have_fields: { AllHaveFields (single_types_of kinds) };

    ghost of_kinds: { (x : Self) → map type_of (datums x) ≡ kinds };
}

/// What can be read of a whole body.
pub trait FromBody: ToBody {
    /// The arguments that stand at a reader, one behind the other, and what stands behind them; `room` is how many containers
    /// may be open at once in each.
    ///
    /// # Errors
    ///
    /// Malformed exactly where no values of the types that open at most so many containers each stand at the reader. Memory for
    /// want of memory.
    fn decode<'a>(
        alloc: Global,
        order: Endian,
        room: usize,
        reader: Reader<'a>,
    ) -> Result<(Self, Reader<'a>), VariantError>
        ensures { Gives (λ x. (x.0, cursor_of x.1)) result (made Self.read (fields_at (value_at room order) (single_types_of Self.kinds) (cursor_of reader.entry))) };

    /// The arguments that values are.
    ///
    /// # Errors
    ///
    /// SignatureMismatch exactly where their types are others. Memory for want of memory.
    fn from_arguments(alloc: Global, arguments: Arguments) -> Result<Self, VariantError>
        ensures { TellsFrom result (Self.read arguments) (map type_of arguments) Self.kinds };
}

/// The values that trees are, which are of types that a signature may hold.
fn values_of(alloc: Global, trees: Vec<Tree>) -> Result<Vec<Value>, VariantError>
    requires { AllAreTypes (map type_of (map datum_of trees.items)) }
    ensures told { TellsWellTyped result (map datum_of trees.items) }
    ensures value { IfOk result (λ values. values.items ≡ map datum_of trees.items) }
{
    let mut values = Vec::new(alloc);
    for tree in trees {
        values.push(Value::from_tree(alloc, tree)?)?;
    }
    Ok(values)
}

/// Puts the signature of a body of these arguments into an empty buffer.
///
/// # Errors
///
/// Signature exactly where their types together are none (D-Bus Specification, "Valid Signatures").
pub fn put_signature<T: ToBody>(out: &mut SignatureBuffer) -> Result<(), VariantError>
    requires { out.old ≡ [] }
    ensures { PutsSignature result T.kinds out.new }
{
    T::write_kinds(out)?;
    if is_signature(out.as_bytes()) {
        Ok(())
    } else {
        Err(VariantError::Signature)
    }
}

/// The signature of a body of these arguments; `Signature` comes exactly where their types together are none.
fn signature_of<T: ToBody>(alloc: Global) -> Result<Signature, VariantError>
    ensures { TellsKinds result T.kinds }
{
    let mut text = SignatureBuffer::new();
    T::write_kinds(&mut text)?;
    match utf8(text.as_bytes()) {
        Some(text) => Signature::try_from(alloc, text),
        None => Err(VariantError::Signature),
    }
}

/// The body of these arguments, which are given up. Read again by [`from`], it gives them.
///
/// # Errors
///
/// - [`VariantError::Signature`] exactly where the types together are no signature (D-Bus Specification, "Valid
///   Signatures").
/// - [`VariantError::Malformed`] exactly where they are one and a text holds a 0 byte, or a text or path is longer than
///   4,294,967,295 bytes.
/// - [`VariantError::Memory`] for want of memory.
///
/// # Examples
///
/// ```
/// use wire_value::{Text, to};
/// let name = Text::from_str(rt.alloc(), "Maria")?;
/// let body = to(rt.alloc(), (name, 7u32))?;
/// assert!(rt; body.values().len() == 2);
/// Ok(())
/// ```
pub fn to<T: ToBody>(alloc: Global, arguments: T) -> Result<BodyValues, VariantError>
    ensures told { TellsTo result T.kinds (T.datums arguments) }
    ensures round { IfOk result (λ body. T.read body ≡ arguments) }
{
    let signature = signature_of::<T>(alloc)?;
    let values = arguments.into_values(alloc)?;
    Ok(BodyValues::from_parts(values, signature))
}

/// The arguments of a body, which is given up.
///
/// # Errors
///
/// [`VariantError::SignatureMismatch`] exactly where the types of the body's values are not those of the arguments,
/// [`VariantError::Memory`] for want of memory.
pub fn from<T: FromBody>(alloc: Global, body: BodyValues) -> Result<T, VariantError>
    ensures { TellsFrom result (T.read body) (map type_of body) T.kinds }
{
    T::from_arguments(alloc, Arguments::new(body))
}

/// Arguments that became a body are read of it again, whatever they are.
///
/// # Errors
///
/// Those of [`to`], and so never SignatureMismatch: Signature where the types together are no signature, Malformed where a text
/// holds a 0 byte, or a text or path is longer than 4,294,967,295 bytes. Memory for want of memory.
pub fn there_and_back<T: FromBody>(alloc: Global, arguments: T) -> Result<T, VariantError>
    ensures same { IfOk result (λ read. read ≡ arguments) }
    ensures told { TellsBack result T.kinds (T.datums arguments) }
{
    let body = to(alloc, arguments)?;
    from(alloc, body)
}
