//! Values of the basic types, appended to an encoder: `ExcessData` says that the output would pass its end.
ghost use Rattle.std.specs.Prelude.{◌<◌, ◌≤◌, ◌++◌, ◌∷◌, [], length};
ghost use Rattle.std.specs.Int.{w8, w32};
ghost use Rattle.wire_number.specs.Limits.{string_limit};
ghost use Rattle.wire_number.specs.Number.{counted_text, padding};
ghost use Rattle.wire_number.specs.declared.endian.Endian.{Endian};
ghost use Rattle.wire_tree.specs.Datum.{IsTextOf, bound, num, object_path, signature, string, text as text_of};
ghost use Rattle.wire_tree.specs.Packed.{fixed_type};
ghost use Rattle.wire_codec.specs.Encoder.{place_of};
ghost use Rattle.wire_codec.specs.Writing.{WritesText, WritesValue};

use crate::encoder::Encoder;
use crate::error::EncodeError;
use wire_number::{write_u16, write_u32, write_u64};
use wire_tree::Fixed;

/// Appends a number's bytes after its padding.
#[tactic(auto, using(crate::proofs::Texts::texts))]
fn put_number(encoder: &mut Encoder, boundary: usize, bytes: &[u8]) -> Result<(), EncodeError>
    requires some { 1 ≤ boundary }
    requires small { boundary ≤ 8 }
    ensures { WritesText result (padding (place_of encoder.old) boundary ++ bytes.now) encoder.old encoder.new }
{
    encoder.pad(boundary)?;
    encoder.put(bytes)
}

/// Appends a text's length, its bytes and a 0 byte.
#[tactic(auto, using(crate::proofs::Texts::texts))]
fn put_counted(encoder: &mut Encoder, length: &[u8], bytes: &[u8]) -> Result<(), EncodeError>
    ensures { WritesText result (length.now ++ (bytes.now ++ 0 ∷ [])) encoder.old encoder.new }
{
    encoder.put(length)?;
    encoder.put(bytes)?;
    encoder.put(&[0])
}

/// Appends a text whose length is a `UINT32`, after its padding.
#[tactic(auto, using(crate::proofs::Texts::texts))]
fn put_text(encoder: &mut Encoder, text: &str) -> Result<(), EncodeError>
    requires { length text.now ≤ string_limit }
    ensures { WritesText result (padding (place_of encoder.old) 4 ++ counted_text w32 encoder.old.order text.now) encoder.old encoder.new }
{
    let length = write_u32(encoder.order, text.len() as u32);
    encoder.pad(4)?;
    put_counted(encoder, &length, text.as_bytes())
}

/// Appends a text whose length is one byte.
pub(crate) fn put_signature(encoder: &mut Encoder, text: &str) -> Result<(), EncodeError>
    requires { length text.now ≤ 255 }
    ensures { WritesText result (counted_text w8 encoder.old.order text.now) encoder.old encoder.new }
{
    put_counted(encoder, &[text.len() as u8], text.as_bytes())
}

/// Appends the signature that is one letter.
pub(crate) fn put_letter(encoder: &mut Encoder, letter: u8) -> Result<(), EncodeError>
    ensures { (order : Endian) → WritesText result (counted_text w8 order (letter ∷ [])) encoder.old encoder.new }
{
    encoder.put(&[1, letter, 0])
}

/// Appends a number of a fixed type by its bits.
///
/// # Errors
///
/// ExcessData exactly where the output would pass its end. Memory for want of memory. On an error the output keeps the bytes
/// that it had, and some may stand after them.
#[tactic(auto, using(crate::proofs::Appends::bytes_alone), unfolding(wire_encoding::specs::Encoding::encoding, wire_encoding::specs::Encoding::ArraysFit))]
pub fn write_number(encoder: &mut Encoder, fixed: Fixed, bits: u64) -> Result<(), EncodeError>
    requires bits { bits < bound (fixed_type fixed) }
    ensures { WritesValue result (num (fixed_type fixed) bits) encoder.old encoder.new }
{
    match fixed {
        Fixed::Byte => put_number(encoder, 1, &[bits as u8]),
        Fixed::Boolean => put_number(encoder, 4, &write_u32(encoder.order, bits as u32)),
        Fixed::Of16(_) => put_number(encoder, 2, &write_u16(encoder.order, bits as u16)),
        Fixed::Of32(_) => put_number(encoder, 4, &write_u32(encoder.order, bits as u32)),
        Fixed::Of64(_) => put_number(encoder, 8, &write_u64(encoder.order, bits)),
    }
}

/// Appends a string.
///
/// # Errors
///
/// ExcessData exactly where the output would pass its end. Memory for want of memory. On an error the output keeps the bytes
/// that it had, and some may stand after them.
#[tactic(auto, unfolding(wire_encoding::specs::Encoding::encoding, wire_encoding::specs::Encoding::ArraysFit))]
pub fn write_string(encoder: &mut Encoder, text: &str) -> Result<(), EncodeError>
    requires well_typed { IsTextOf string text.now }
    ensures { WritesValue result (text_of string text.now) encoder.old encoder.new }
{
    put_text(encoder, text)
}

/// Appends an object path.
///
/// # Errors
///
/// ExcessData exactly where the output would pass its end. Memory for want of memory. On an error the output keeps the bytes
/// that it had, and some may stand after them.
#[tactic(auto, unfolding(wire_encoding::specs::Encoding::encoding, wire_encoding::specs::Encoding::ArraysFit))]
pub fn write_path(encoder: &mut Encoder, text: &str) -> Result<(), EncodeError>
    requires well_typed { IsTextOf object_path text.now }
    ensures { WritesValue result (text_of object_path text.now) encoder.old encoder.new }
{
    put_text(encoder, text)
}

/// Appends a signature.
///
/// # Errors
///
/// ExcessData exactly where the output would pass its end. Memory for want of memory. On an error the output keeps the bytes
/// that it had, and some may stand after them.
#[tactic(auto, using(crate::proofs::Appends::signature_texts), unfolding(wire_encoding::specs::Encoding::encoding, wire_encoding::specs::Encoding::ArraysFit))]
pub fn write_signature(encoder: &mut Encoder, text: &str) -> Result<(), EncodeError>
    requires well_typed { IsTextOf signature text.now }
    ensures { WritesValue result (text_of signature text.now) encoder.old encoder.new }
{
    put_signature(encoder, text)
}
