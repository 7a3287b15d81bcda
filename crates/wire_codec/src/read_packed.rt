//! Reading numbers that lie packed. They begin on their boundary.
ghost use Rattle.std.specs.Prelude.{◌≡◌, ◌%◌, ◌*◌, ◌≤◌, ℕ, IfOk, length, map};
ghost use Rattle.std.specs.Vec.{vec_capacity};
ghost use Rattle.wire_number.specs.Reading.{Cursor};
ghost use Rattle.wire_number.specs.ReaderView.{cursor_of};
ghost use Rattle.wire_number.specs.declared.endian.Endian.{Endian};
ghost use Rattle.wire_tree.specs.Datum.{byte, num, width};
ghost use Rattle.wire_tree.specs.Packed.{fixed_type, numbers_data, numbers_type};
ghost use Rattle.wire_encoding.specs.Reading.{many_at, num_value_at};
ghost use Rattle.wire_encoding.specs.ReaderView.{Gives};
ghost use Rattle.wire_codec.specs.Packed.{plain_at};

use crate::basics::read_plain;
use crate::number::Number;
use std::alloc::Global;
use wire_number::{Endian, Reader};
use wire_signature::VariantError;
use wire_tree::{Fixed, Numbers};

/// All bytes, by one copy.
fn read_bytes(alloc: Global, bytes: &[u8]) -> Result<Vec<u8>, VariantError>
    ensures { (order : Endian) (place : ℕ) → Gives (λ v. map (num byte) v.items) result (many_at (length bytes.now) (num_value_at byte order) (record { place = place; rest = bytes.now })) }
{
    Ok(Vec::from_slice(alloc, bytes)?)
}

/// All numbers that lie packed and fill the bytes. Takes memory for no more than the bytes that are there.
///
/// # Errors
///
/// Malformed exactly where numbers of the type, one behind the other, don't fill the bytes; a `BOOLEAN` is 0 or 1. Memory for
/// want of memory.
pub fn read_numbers<'a, T: Number>(
    alloc: Global,
    order: Endian,
    elements: Reader<'a>,
) -> Result<Vec<T>, VariantError>
    ensures found { Gives (λ v. map T.bits v.items) result (many_at (length elements.entry.rest.now) (plain_at T.fixed order) (cursor_of elements.entry)) }
    ensures room { IfOk result (λ v. vec_capacity v * width T.fixed ≤ length elements.entry.rest.now) }
    ensures round { IfOk result (λ v. map T.of_bits (map T.bits v.items) ≡ v.items) }
{
    let fixed = T::fixed();
    let count = elements.rest.len() / fixed.width();
    let mut items = Vec::with_capacity(alloc, count)?;
    let mut left = elements;
    for _ in 0..count {
        match read_plain(order, fixed, left) {
            Some((bits, after)) => {
                items.push_reserved(T::from_bits(bits));
                left = after;
            }
            None => return Err(VariantError::Malformed),
        }
    }
    if left.rest.is_empty() {
        Ok(items)
    } else {
        Err(VariantError::Malformed)
    }
}

/// All numbers of a fixed type, which fill the bytes and begin on their boundary.
pub(crate) fn read_packed<'a>(
    alloc: Global,
    order: Endian,
    fixed: Fixed,
    elements: Reader<'a>,
) -> Result<Numbers, VariantError>
    requires { elements.place % width (fixed_type fixed) ≡ 0 }
    ensures found { Gives numbers_data result (many_at (length elements.entry.rest.now) (num_value_at (fixed_type fixed) order) (cursor_of elements.entry)) }
    ensures kind { IfOk result (λ numbers. numbers_type numbers ≡ fixed_type fixed) }
{
    match fixed {
        Fixed::Byte => Ok(Numbers::Bytes(read_bytes(alloc, elements.rest)?)),
        Fixed::Boolean => Ok(Numbers::Booleans(read_numbers(alloc, order, elements)?)),
        Fixed::Of16(fixed) => Ok(Numbers::Of16(fixed, read_numbers(alloc, order, elements)?)),
        Fixed::Of32(fixed) => Ok(Numbers::Of32(fixed, read_numbers(alloc, order, elements)?)),
        Fixed::Of64(fixed) => Ok(Numbers::Of64(fixed, read_numbers(alloc, order, elements)?)),
    }
}
