//! Values of the basic types.
ghost use Rattle.std.specs.Prelude.{◌≡◌, ◌<◌, IfSome};
ghost use Rattle.wire_tree.specs.Datum.{bound, object_path, signature, string};
ghost use Rattle.wire_tree.specs.DatumView.{datum_of};
ghost use Rattle.wire_tree.specs.Packed.{fixed_type};
ghost use Rattle.wire_encoding.specs.Reading.{basic_at, num_at, num_value_at, text_value_at};
ghost use Rattle.wire_number.specs.ReaderView.{Finds, cursor_of};
ghost use Rattle.wire_encoding.specs.ReaderView.{Gives};
ghost use Rattle.wire_codec.specs.Packed.{plain_at};

use std::alloc::Global;
use wire_encoding::{boolean, byte, path, signature, string, uint16, uint32, uint64};
use wire_names::Text;
use wire_number::{Endian, Reader};
use wire_signature::{BasicType, VariantError};
use wire_tree::{Fixed, Fixed16, Fixed32, Fixed64, Tree};

/// The bits of a number of the type in the next bytes, without padding before it. No number but 0 and 1 is a boolean.
#[tactic(auto, using(crate::proofs::PackedReads::alike), unfolding(crate::specs::Packed::plain_at))]
pub(crate) fn read_plain<'a>(
    order: Endian,
    fixed: Fixed,
    reader: Reader<'a>,
) -> Option<(u64, Reader<'a>)>
    ensures found { Finds (λ x. (x.0, cursor_of x.1)) result (plain_at (fixed_type fixed) order (cursor_of reader.entry)) }
    ensures within { IfSome result (λ x. x.0 < bound (fixed_type fixed)) }
{
    match fixed {
        Fixed::Byte => {
            let (number, after) = reader.u8(order)?;
            Some((u64::from(number), after))
        }
        Fixed::Boolean => {
            let (number, after) = reader.u32(order)?;
            if number < 2 {
                Some((u64::from(number), after))
            } else {
                None
            }
        }
        Fixed::Of16(_) => {
            let (number, after) = reader.u16(order)?;
            Some((u64::from(number), after))
        }
        Fixed::Of32(_) => {
            let (number, after) = reader.u32(order)?;
            Some((u64::from(number), after))
        }
        Fixed::Of64(_) => reader.u64(order),
    }
}

/// The bits of a number of the type, behind its padding, and what stands behind it.
#[tactic(auto, using(crate::proofs::PackedReads::alike))]
pub fn read_number<'a>(order: Endian, fixed: Fixed, reader: Reader<'a>) -> Option<(u64, Reader<'a>)>
    ensures found { Finds (λ x. (x.0, cursor_of x.1)) result (num_at (fixed_type fixed) order (cursor_of reader.entry)) }
    ensures within { IfSome result (λ x. x.0 < bound (fixed_type fixed)) }
{
    // Not by `read_plain`: a boundary that is known only at run time costs a division.
    match fixed {
        Fixed::Byte => {
            let (number, after) = byte(order, reader)?;
            Some((u64::from(number), after))
        }
        Fixed::Boolean => {
            let (flag, after) = boolean(order, reader)?;
            Some((u64::from(flag), after))
        }
        Fixed::Of16(_) => {
            let (number, after) = uint16(order, reader)?;
            Some((u64::from(number), after))
        }
        Fixed::Of32(_) => {
            let (number, after) = uint32(order, reader)?;
            Some((u64::from(number), after))
        }
        Fixed::Of64(_) => uint64(order, reader),
    }
}

/// A number of the type as a tree.
fn read_fixed<'a>(
    order: Endian,
    fixed: Fixed,
    reader: Reader<'a>,
) -> Result<(Tree, Reader<'a>), VariantError>
    ensures { Gives (λ x. (datum_of x.0, cursor_of x.1)) result (num_value_at (fixed_type fixed) order (cursor_of reader.entry)) }
{
    let (bits, after) = read_number(order, fixed, reader).ok_or(VariantError::Malformed)?;
    Ok((fixed.tree(bits), after))
}

fn read_string<'a>(
    alloc: Global,
    order: Endian,
    reader: Reader<'a>,
) -> Result<(Tree, Reader<'a>), VariantError>
    ensures { Gives (λ x. (datum_of x.0, cursor_of x.1)) result (text_value_at string order (cursor_of reader.entry)) }
{
    let (text, after) = string(order, reader).ok_or(VariantError::Malformed)?;
    let text = Text::from_str(alloc, text)?;
    Ok((Tree::Str(text), after))
}

fn read_path<'a>(
    alloc: Global,
    order: Endian,
    reader: Reader<'a>,
) -> Result<(Tree, Reader<'a>), VariantError>
    ensures { Gives (λ x. (datum_of x.0, cursor_of x.1)) result (text_value_at object_path order (cursor_of reader.entry)) }
{
    let (text, after) = path(order, reader).ok_or(VariantError::Malformed)?;
    let text = Text::from_str(alloc, text)?;
    Ok((Tree::Path(text), after))
}

fn read_signature<'a>(
    alloc: Global,
    order: Endian,
    reader: Reader<'a>,
) -> Result<(Tree, Reader<'a>), VariantError>
    ensures { Gives (λ x. (datum_of x.0, cursor_of x.1)) result (text_value_at signature order (cursor_of reader.entry)) }
{
    let (text, after) = signature(order, reader).ok_or(VariantError::Malformed)?;
    let text = Text::from_str(alloc, text)?;
    Ok((Tree::Sig(text), after))
}

/// A value of a basic type.
pub(crate) fn read_basic<'a>(
    alloc: Global,
    order: Endian,
    basic: BasicType,
    reader: Reader<'a>,
) -> Result<(Tree, Reader<'a>), VariantError>
    ensures { Gives (λ x. (datum_of x.0, cursor_of x.1)) result (basic_at basic order (cursor_of reader.entry)) }
{
    match basic {
        BasicType::Byte => read_fixed(order, Fixed::Byte, reader),
        BasicType::Boolean => read_fixed(order, Fixed::Boolean, reader),
        BasicType::Int16 => read_fixed(order, Fixed::Of16(Fixed16::Int16), reader),
        BasicType::Uint16 => read_fixed(order, Fixed::Of16(Fixed16::Uint16), reader),
        BasicType::Int32 => read_fixed(order, Fixed::Of32(Fixed32::Int32), reader),
        BasicType::Uint32 => read_fixed(order, Fixed::Of32(Fixed32::Uint32), reader),
        BasicType::Int64 => read_fixed(order, Fixed::Of64(Fixed64::Int64), reader),
        BasicType::Uint64 => read_fixed(order, Fixed::Of64(Fixed64::Uint64), reader),
        BasicType::Double => read_fixed(order, Fixed::Of64(Fixed64::Double), reader),
        BasicType::UnixFd => read_fixed(order, Fixed::Of32(Fixed32::UnixFd), reader),
        BasicType::String => read_string(alloc, order, reader),
        BasicType::ObjectPath => read_path(alloc, order, reader),
        BasicType::Signature => read_signature(alloc, order, reader),
    }
}
