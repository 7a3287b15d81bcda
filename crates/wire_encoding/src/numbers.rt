//! Numbers of the basic types, with the padding before them.
#![tactic(auto, unfolding(crate::specs::Reading::num_at, wire_number::specs::Reading::boolean_at))]

ghost use Rattle.std.specs.Prelude.{◌≡◌, cond};
ghost use Rattle.wire_number.specs.ReaderView.{Finds, cursor_of};
ghost use Rattle.wire_tree.specs.Datum.{byte, boolean, uint16, uint32, uint64};
ghost use Rattle.wire_encoding.specs.Reading.{num_at};

use wire_number::{Endian, Reader};

/// A `BYTE`, and the reader behind it. `None` where no byte is left.
pub fn byte<'a>(order: Endian, reader: Reader<'a>) -> Option<(u8, Reader<'a>)>
    ensures { Finds (λ x. (x.0, cursor_of x.1)) result (num_at byte order (cursor_of reader.entry)) }
{
    reader.align(1)?.u8(order)
}

/// A `BOOLEAN`, and the reader behind it. `None` where the padding is not of zeros, the bytes end too early, or the number
/// is neither 0 nor 1 (D-Bus Specification, "Marshaling").
pub fn boolean<'a>(order: Endian, reader: Reader<'a>) -> Option<(bool, Reader<'a>)>
    ensures { Finds (λ x. (cond x.0 1 0, cursor_of x.1)) result (num_at boolean order (cursor_of reader.entry)) }
{
    reader.boolean(order)
}

/// A `UINT16`, and the reader behind it. `None` where the padding is not of zeros, or the bytes end too early.
pub fn uint16<'a>(order: Endian, reader: Reader<'a>) -> Option<(u16, Reader<'a>)>
    ensures { Finds (λ x. (x.0, cursor_of x.1)) result (num_at uint16 order (cursor_of reader.entry)) }
{
    reader.align(2)?.u16(order)
}

/// A `UINT32`, and the reader behind it. `None` where the padding is not of zeros, or the bytes end too early.
pub fn uint32<'a>(order: Endian, reader: Reader<'a>) -> Option<(u32, Reader<'a>)>
    ensures { Finds (λ x. (x.0, cursor_of x.1)) result (num_at uint32 order (cursor_of reader.entry)) }
{
    reader.align(4)?.u32(order)
}

/// A `UINT64`, and the reader behind it. `None` where the padding is not of zeros, or the bytes end too early.
pub fn uint64<'a>(order: Endian, reader: Reader<'a>) -> Option<(u64, Reader<'a>)>
    ensures { Finds (λ x. (x.0, cursor_of x.1)) result (num_at uint64 order (cursor_of reader.entry)) }
{
    reader.align(8)?.u64(order)
}
