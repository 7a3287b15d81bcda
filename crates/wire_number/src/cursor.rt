//! Taking bytes, padding, numbers and texts from a reader.
ghost use Rattle.std.specs.Prelude.{◌≡◌, ◌%◌, ◌≤◌, ◌==◌, cond};
ghost use Rattle.std.specs.Int.{w8, w16, w32, w64};
ghost use Rattle.std.specs.List.{list_all};
ghost use Rattle.wire_number.specs.Reading.{align_at, boolean_at, bytes_at, counted_at, number_at, zeros_at};
ghost use Rattle.wire_number.specs.ReaderView.{Finds, cursor_of};

use crate::endian::Endian;
use crate::number::read_u32;
use crate::padding::padding_for_n_bytes;
use crate::reader::Reader;

fn are_zeros(bytes: &[u8]) -> bool
    ensures { result ≡ list_all (λ b. b == 0) bytes.now }
{
    bytes.iter().all(|byte| *byte == 0)
}

impl<'a> Reader<'a> {
    /// Stands at the front of bytes that begin at a place.
    pub fn new(at: usize, bytes: &'a [u8]) -> Reader<'a>
        ensures { cursor_of result ≡ record { place = at % 8; rest = bytes.now } }
    {
        Reader {
            place: at % 8,
            rest: bytes,
        }
    }

    /// The next so many bytes.
    pub fn bytes(self, count: usize) -> Option<(&'a [u8], Reader<'a>)>
        ensures { Finds (λ x. (x.0.now, cursor_of x.1)) result (bytes_at count (cursor_of self.entry)) }
    {
        if count > self.rest.len() {
            return None;
        }
        let (front, rest) = self.rest.split_at(count);
        let place = self.place + count;
        Some((front, Reader { place, rest }))
    }

    /// Past so many bytes, which have to be 0.
    pub fn zeros(self, count: usize) -> Option<Reader<'a>>
        ensures { Finds cursor_of result (zeros_at count (cursor_of self.entry)) }
    {
        let (zeros, after) = self.bytes(count)?;
        if are_zeros(zeros) { Some(after) } else { None }
    }

    /// Past the padding up to a boundary.
    #[tactic(auto, unfolding(crate::specs::Reading::align_at))]
    pub fn align(self, boundary: usize) -> Option<Reader<'a>>
        requires { 1 ≤ boundary }
        ensures { Finds cursor_of result (align_at boundary (cursor_of self.entry)) }
    {
        self.zeros(padding_for_n_bytes(self.place, boundary))
    }

    /// The next byte as a number.
    #[tactic(auto, unfolding(crate::specs::Reading::number_at))]
    pub fn u8(self, order: Endian) -> Option<(u8, Reader<'a>)>
        ensures { Finds (λ x. (x.0, cursor_of x.1)) result (number_at w8 order (cursor_of self.entry)) }
    {
        let (bytes, after) = self.bytes(1)?;
        Some((bytes[0], after))
    }

    /// The number in the next two bytes.
    #[tactic(auto, unfolding(crate::specs::Reading::number_at))]
    pub fn u16(self, order: Endian) -> Option<(u16, Reader<'a>)>
        ensures { Finds (λ x. (x.0, cursor_of x.1)) result (number_at w16 order (cursor_of self.entry)) }
    {
        let (bytes, after) = self.bytes(2)?;
        let two = [bytes[0], bytes[1]];
        let number = match order {
            Endian::Little => u16::from_le_bytes(two),
            Endian::Big => u16::from_be_bytes(two),
        };
        Some((number, after))
    }

    /// The number in the next four bytes.
    #[tactic(auto, unfolding(crate::specs::Reading::number_at))]
    pub fn u32(self, order: Endian) -> Option<(u32, Reader<'a>)>
        ensures { Finds (λ x. (x.0, cursor_of x.1)) result (number_at w32 order (cursor_of self.entry)) }
    {
        let (bytes, after) = self.bytes(4)?;
        Some((read_u32(order, bytes, 0), after))
    }

    /// The number in the next eight bytes.
    #[tactic(auto, unfolding(crate::specs::Reading::number_at))]
    pub fn u64(self, order: Endian) -> Option<(u64, Reader<'a>)>
        ensures { Finds (λ x. (x.0, cursor_of x.1)) result (number_at w64 order (cursor_of self.entry)) }
    {
        let (bytes, after) = self.bytes(8)?;
        let eight = [
            bytes[0], bytes[1], bytes[2], bytes[3], bytes[4], bytes[5], bytes[6], bytes[7],
        ];
        let number = match order {
            Endian::Little => u64::from_le_bytes(eight),
            Endian::Big => u64::from_be_bytes(eight),
        };
        Some((number, after))
    }

    /// The boolean behind its padding. No number but 0 and 1 is one.
    #[tactic(auto, unfolding(crate::specs::Reading::boolean_at))]
    pub fn boolean(self, order: Endian) -> Option<(bool, Reader<'a>)>
        ensures { Finds (λ x. (cond x.0 1 0, cursor_of x.1)) result (boolean_at order (cursor_of self.entry)) }
    {
        let (number, after) = self.align(4)?.u32(order)?;
        match number {
            0 => Some((false, after)),
            1 => Some((true, after)),
            _ => None,
        }
    }

    /// The bytes of a text whose length is a `UINT32`, behind its padding. Nothing is asked of the text itself.
    #[tactic(auto, unfolding(crate::specs::Reading::counted_at))]
    pub fn long_text(self, order: Endian) -> Option<(&'a [u8], Reader<'a>)>
        ensures { Finds (λ x. (x.0.now, cursor_of x.1)) result (counted_at w32 order (cursor_of self.entry)) }
    {
        let (length, after) = self.align(4)?.u32(order)?;
        let (bytes, after) = after.bytes(length as usize)?;
        let end = after.zeros(1)?;
        Some((bytes, end))
    }

    /// The bytes of a text whose length is one byte. Nothing is asked of the text itself.
    #[tactic(auto, unfolding(crate::specs::Reading::counted_at))]
    pub fn short_text(self, order: Endian) -> Option<(&'a [u8], Reader<'a>)>
        ensures { Finds (λ x. (x.0.now, cursor_of x.1)) result (counted_at w8 order (cursor_of self.entry)) }
    {
        let (length, after) = self.align(1)?.u8(order)?;
        let (bytes, after) = after.bytes(length as usize)?;
        let after = after.zeros(1)?;
        Some((bytes, after))
    }
}
