//! Where values begin, and the bytes of an array's elements.
ghost use Rattle.std.specs.Prelude.{◌≡◌, ◌≤◌};
ghost use Rattle.wire_number.specs.ReaderView.{Finds, cursor_of};
ghost use Rattle.wire_signature.specs.SingleType.{alignment};
ghost use Rattle.wire_encoding.specs.Reading.{elements_at};

use wire_number::{Endian, Reader};
use wire_signature::ValueType;

/// The most bytes that an array's elements take (D-Bus Specification, "Marshaling", `ARRAY`).
pub const MAX_ARRAY_LENGTH: u32 = 67_108_864;

/// The bytes of an array's elements at their place, and what stands behind them. The elements begin on a boundary, in bytes.
/// `None` where padding is not of zeros, the bytes end too early, or the elements would take more than [`MAX_ARRAY_LENGTH`] bytes
/// (D-Bus Specification, "Marshaling", `ARRAY`).
#[tactic(auto, unfolding(crate::specs::Reading::elements_at))]
pub fn elements<'a>(
    order: Endian,
    boundary: usize,
    reader: Reader<'a>,
) -> Option<(Reader<'a>, Reader<'a>)>
    requires { 1 ≤ boundary }
    ensures { Finds (λ x. (cursor_of x.0, cursor_of x.1)) result (elements_at order boundary (cursor_of reader.entry)) }
{
    let (length, first) = reader.align(4)?.u32(order)?;
    if length > MAX_ARRAY_LENGTH {
        return None;
    }
    let first = first.align(boundary)?;
    let (bytes, after) = first.bytes(length as usize)?;
    let elements = Reader {
        place: first.place,
        rest: bytes,
    };
    Some((elements, after))
}

/// The boundary on which a value of the type begins, in bytes (D-Bus Specification, "Marshaling").
#[tactic(auto, using(crate::proofs::Shift::boundary_some))]
pub fn boundary(value_type: &ValueType) -> usize
    ensures exact { result ≡ alignment value_type.now }
    ensures some { 1 ≤ result }
{
    value_type.alignment()
}
