//! Values of a fixed type that lie packed, as an array's elements do: each is as long as its boundary, so no padding stands
//! between them.
ghost use Rattle.std.specs.Prelude.{◌≡◌, ◌%◌, ℕ, is_some, length, true};
ghost use Rattle.wire_signature.specs.SingleType.{basic_alignment};
ghost use Rattle.wire_tree.specs.Datum.{boolean};
ghost use Rattle.wire_encoding.specs.Reading.{basic_at, many_at, num_value_at};
ghost use Rattle.wire_encoding.specs.Walking.{fixed_first, is_fixed};

use wire_number::{Endian, read_u32};
use wire_signature::BasicType;

/// Whether the values of a type are numbers (D-Bus Specification, "Fixed types").
fn is_fixed(basic: BasicType) -> bool
    ensures { result ≡ is_fixed basic }
{
    match basic {
        BasicType::String | BasicType::ObjectPath | BasicType::Signature => false,
        _ => true,
    }
}

/// The type at the front of a text, where it is a fixed one.
pub(crate) fn fixed_first(text: &[u8]) -> Option<BasicType>
    ensures { result ≡ fixed_first text.now }
{
    let basic = BasicType::from_letter(*text.first()?)?;
    if is_fixed(basic) { Some(basic) } else { None }
}

/// Whether bytes are booleans, one behind the other: each is the number 0 or 1 (D-Bus Specification, "Marshaling",
/// `BOOLEAN`).
fn are_booleans(order: Endian, bytes: &[u8]) -> bool
    ensures { (place : ℕ) → place % 4 ≡ 0
        → result ≡ is_some (many_at (length bytes.now) (num_value_at boolean order) (record { place = place; rest = bytes.now })) }
{
    if bytes.len() % 4 != 0 {
        return false;
    }
    for index in 0..bytes.len() / 4 {
        if read_u32(order, bytes, 4 * index) > 1 {
            return false;
        }
    }
    true
}

/// Whether bytes are values of a fixed type, one behind the other, wherever on the type's boundary they begin. Only of
/// booleans each is looked at: of the other types every number of that width is a value.
pub(crate) fn are_packed(order: Endian, basic: BasicType, bytes: &[u8]) -> bool
    requires { is_fixed basic ≡ true }
    ensures { (place : ℕ) → place % basic_alignment basic ≡ 0
        → result ≡ is_some (many_at (length bytes.now) (basic_at basic order) (record { place = place; rest = bytes.now })) }
{
    match basic {
        BasicType::Boolean => are_booleans(order, bytes),
        _ => bytes.len() % basic.alignment() == 0,
    }
}
