//! Numbers that lie packed, appended to an encoder.
ghost use Rattle.std.specs.Prelude.{◌≡◌, ◌≤◌, ◌+◌, ◌*◌, ◌++◌, drop, length, map, take};
ghost use Rattle.wire_number.specs.Number.{number_text};
ghost use Rattle.wire_tree.specs.Datum.{byte, width};
ghost use Rattle.wire_tree.specs.Packed.{numbers_array, numbers_bits, numbers_type};
ghost use Rattle.wire_encoding.specs.Encoding.{width_of};
ghost use Rattle.wire_codec.specs.Packed.{numbers_text};
ghost use Rattle.wire_codec.specs.Writing.{WritesText, WritesValue};

use crate::encoder::Encoder;
use crate::error::EncodeError;
use crate::number::Number;
use crate::opening::{close_array, open_array};
use wire_number::{Endian, write_u16, write_u32, write_u64};
use wire_tree::{Fixed, Numbers};

/// Puts a number's bytes in place of as many from a place on.
fn put_at<T: Number>(order: Endian, bytes: &mut [u8], place: usize, item: T)
    requires { place + width T.fixed ≤ length bytes.old }
    ensures { bytes.new ≡ take place bytes.old ++ (number_text (width_of T.fixed) order (T.bits item) ++ drop (place + width T.fixed) bytes.old) }
{
    let bits = item.bits();
    match T::fixed() {
        Fixed::Byte => bytes[place..place + 1].copy_from_slice(&[bits as u8]),
        Fixed::Boolean => bytes[place..place + 4].copy_from_slice(&write_u32(order, bits as u32)),
        Fixed::Of16(_) => bytes[place..place + 2].copy_from_slice(&write_u16(order, bits as u16)),
        Fixed::Of32(_) => bytes[place..place + 4].copy_from_slice(&write_u32(order, bits as u32)),
        Fixed::Of64(_) => bytes[place..place + 8].copy_from_slice(&write_u64(order, bits)),
    }
}

/// Puts the bytes of numbers in place of others, one after the other, with no padding.
fn fill<T: Number>(order: Endian, bytes: &mut [u8], items: &[T])
    requires { length bytes.old ≡ length items.now * width T.fixed }
    ensures { bytes.new ≡ numbers_text T.fixed order (map T.bits items.now) }
{
    let width = T::fixed().width();
    let mut place = 0;
    for item in items {
        put_at(order, bytes, place, *item);
        place += width;
    }
}

/// Appends numbers one after the other, with no padding, where all of them fit.
///
/// # Errors
///
/// ExcessData exactly where the output would pass its end. Memory for want of memory. On an error the output is as before.
pub fn write_numbers<T: Number>(encoder: &mut Encoder, items: &[T]) -> Result<(), EncodeError>
    ensures { WritesText result (numbers_text T.fixed encoder.old.order (map T.bits items.now)) encoder.old encoder.new }
{
    let width = T::fixed().width();
    if !encoder.has_room(items.len(), width) {
        return Err(EncodeError::ExcessData);
    }
    let start = encoder.bytes.len();
    let end = start.saturating_add(items.len().saturating_mul(width));
    encoder.bytes.resize(end, 0)?;
    let places = &mut encoder.bytes.as_mut_slice()[start..];
    fill(encoder.order, places, items);
    Ok(())
}

/// Appends bytes, which are numbers in every order, by one copy.
///
/// # Errors
///
/// ExcessData exactly where the output would pass its end. Memory for want of memory. On an error the output is as before.
pub fn write_bytes(encoder: &mut Encoder, bytes: &[u8]) -> Result<(), EncodeError>
    ensures { WritesText result (numbers_text byte encoder.old.order bytes.now) encoder.old encoder.new }
{
    encoder.put(bytes)
}

/// Appends numbers one after the other, with no padding, where all of them fit.
fn write_all(encoder: &mut Encoder, numbers: &Numbers) -> Result<(), EncodeError>
    ensures { WritesText result (numbers_text (numbers_type numbers.now) encoder.old.order (numbers_bits numbers.now)) encoder.old encoder.new }
{
    match numbers {
        Numbers::Bytes(items) => write_bytes(encoder, items.as_slice()),
        Numbers::Booleans(items) => write_numbers(encoder, items.as_slice()),
        Numbers::Of16(_, items) => write_numbers(encoder, items.as_slice()),
        Numbers::Of32(_, items) => write_numbers(encoder, items.as_slice()),
        Numbers::Of64(_, items) => write_numbers(encoder, items.as_slice()),
    }
}

/// Appends an array whose elements lie packed. One that is too long is refused before any element is written.
pub(crate) fn write_packed(encoder: &mut Encoder, numbers: &Numbers) -> Result<(), EncodeError>
    ensures { WritesValue result (numbers_array numbers.now) encoder.old encoder.new }
{
    let array = open_array(encoder, numbers.fixed().width())?;
    let written = write_all(encoder, numbers);
    close_array(encoder, array);
    written
}
