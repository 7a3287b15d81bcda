//! The bytes of a body's arguments, and the arguments of its bytes.
ghost use Rattle.std.specs.Prelude.{◌≡◌, ◌%◌, IfErr, IfOk, length};
ghost use Rattle.wire_signature.specs.SingleType.{IsSignature};
ghost use Rattle.wire_tree.specs.Datum.{data_of};
ghost use Rattle.wire_encoding.specs.Encoding.{AllFit, encodings};
ghost use Rattle.wire_codec.specs.Writing.{WroteWhole};
ghost use Rattle.wire_body.specs.Arguments.{AreAllWellTyped};
ghost use Rattle.wire_body.specs.Bodies.{Explains, HasArguments};

use crate::message::{FromBody, ToBody};
use std::alloc::Global;
use std::mem;
use wire_codec::{EncodeError, Encoder};
use wire_encoding::MAX_DEPTH;
use wire_number::{Endian, Reader};
use wire_signature::VariantError;

/// Appends the bytes of a body of arguments to an output that ends on a multiple of 8, where a body begins in its message
/// (D-Bus Specification, "Message Format", "Marshaling (Wire Format)"). Whether a message may hold them was asked before, by
/// [`ToBody::check`]. After an error the output is as before.
///
/// # Errors
///
/// [`EncodeError::ExcessData`] exactly where the elements of an array take more than 67,108,864 bytes.
/// [`EncodeError::Memory`] for want of memory.
pub fn append_arguments<T: ToBody>(
    order: Endian,
    body: &T,
    out: &mut Vec<u8>,
) -> Result<(), EncodeError>
    requires well_typed { AreAllWellTyped (T.datums body.now) }
    requires placed { length out.old.items % 8 ≡ 0 }
    ensures { WroteWhole result (encodings order 0 (data_of (T.datums body.now))) (AllFit order 0 (data_of (T.datums body.now))) out.old.items out.new.items }
{
    let before = out.len();
    let alloc = *out.allocator();
    let bytes = mem::replace(out, Vec::new(alloc));
    let mut encoder = Encoder::new(order, 0, None, bytes);
    let written = body.encode(&mut encoder);
    *out = encoder.into_bytes();
    match written {
        Ok(()) => Ok(()),
        Err(error) => {
            out.truncate(before);
            Err(error)
        }
    }
}

/// The arguments that a front of a message's body encodes in that byte order (D-Bus Specification, "Message Format"). Of what
/// stands behind them nothing is asked.
///
/// # Errors
///
/// [`VariantError::Malformed`] exactly where no front of the bytes encodes a value of each type.
/// [`VariantError::Memory`] for want of memory.
pub fn decode_arguments<T: FromBody>(
    alloc: Global,
    order: Endian,
    bytes: &[u8],
) -> Result<T, VariantError>
    requires { IsSignature T.kinds }
    ensures found { IfOk result (λ x. HasArguments order T.kinds bytes.now T.read x) }
    ensures error { IfErr result (λ e. Explains e order T.kinds bytes.now) }
{
    let (arguments, _behind) = T::decode(alloc, order, MAX_DEPTH, Reader::new(0, bytes))?;
    Ok(arguments)
}
