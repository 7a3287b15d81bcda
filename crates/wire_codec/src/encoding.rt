//! The bytes of values.
ghost use Rattle.std.specs.Prelude.{◌≡◌, ◌+◌, ◌%◌, ◌<◌};
ghost use Rattle.wire_codec.specs.Writing.{Encoded};

use crate::depth::is_within;
use crate::encoder::Encoder;
use crate::error::EncodeError;
use crate::write::write_value;
use std::mem;
use wire_encoding::MAX_DEPTH;
use wire_number::Endian;
use wire_signature::VariantError;
use wire_tree::Value;

/// The place below 8 of an output's first byte, where the place `at` stands behind so many of its bytes.
fn shift_of(at: usize, behind: usize) -> usize
    ensures small { result < 8 }
    ensures place { (result + behind) % 8 ≡ at % 8 }
{
    (at % 8 + (8 - behind % 8)) % 8
}

/// Appends the one encoding of a value to an output, as bytes that begin at the place `at`, counted in bytes from the
/// message's first (D-Bus Specification, "Marshaling (Wire Format)"). The signature of the value's type is no part of it.
///
/// # Errors
///
/// On any error the output is as before.
/// [`EncodeError::Variant`] of `Depth` exactly where more than 64 containers are open at once in the value.
/// [`EncodeError::ExcessData`] exactly where no such depth is there and the elements of an array take more than
/// 67,108,864 bytes. [`EncodeError::Memory`] for want of memory.
pub fn encode(order: Endian, at: usize, value: &Value, out: &mut Vec<u8>) -> Result<(), EncodeError>
    ensures { Encoded result order at value.now out.old.items out.new.items }
{
    let tree = value.tree();
    if !is_within(MAX_DEPTH, tree) {
        return Err(EncodeError::Variant(VariantError::Depth));
    }
    let before = out.len();
    let alloc = *out.allocator();
    let bytes = mem::replace(out, Vec::new(alloc));
    let mut encoder = Encoder::new(order, shift_of(at, before), None, bytes);
    let written = write_value(alloc, &mut encoder, tree);
    *out = encoder.into_bytes();
    match written {
        Ok(()) => Ok(()),
        Err(error) => {
            out.truncate(before);
            Err(error)
        }
    }
}
