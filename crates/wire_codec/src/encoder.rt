//! Where values are written.
ghost use Rattle.std.specs.Prelude.{◌≡◌, ◌↔◌, ◌+◌, ◌*◌, ◌<◌, ◌≤◌, IsTrue, length};
ghost use Rattle.wire_number.specs.Number.{padding};
ghost use Rattle.wire_codec.specs.Encoder.{Within, place_of};
ghost use Rattle.wire_codec.specs.Writing.{WritesText};

use crate::error::EncodeError;
use std::alloc::Global;
use std::marker::Model;
use wire_number::{Endian, padding_for_n_bytes};

const ZEROS: [u8; 8] = [0; 8];

/// An output to which values are appended: its bytes, with the byte order, the place of the first of them, counted from a
/// multiple of 8, and how many bytes it may have at most (D-Bus Specification, "Marshaling (Wire Format)").
pub struct Encoder {
    pub(crate) order: Endian,
    pub(crate) shift: usize,
    pub(crate) end: Option<usize>,
    pub(crate) bytes: Vec<u8>,
}

impl Drop for Encoder {
    fn drop(self) {
        let Encoder {
            order: _,
            shift: _,
            end: _,
            bytes: _,
        } = self;
    }
}

impl Model for Encoder {
    ghost use Rattle.std.specs.Prelude.{◌<◌, length};
    ghost use Rattle.wire_codec.specs.Encoder.{EncoderView, Within};

    ghost Value = { EncoderView };

    ghost view = { λ w. record { order = w.order; shift = w.shift; end = w.end; items = w.bytes.items } };

    ghost invariant = { λ w. (w.shift < 8) × Within w.end (length w.bytes.items) };
}

impl Encoder {
    /// An encoder that appends to `bytes`, whose first is at the place `shift` below 8.
    pub fn new(order: Endian, shift: usize, end: Option<usize>, bytes: Vec<u8>) -> Encoder
        requires shift { shift < 8 }
        requires within { Within end (length bytes.items) }
        ensures { result ≡ record { order = order; shift = shift; end = end; items = bytes.items } }
    {
        Encoder {
            order,
            shift,
            end,
            bytes,
        }
    }

    /// Gives the bytes back.
    pub fn into_bytes(self) -> Vec<u8>
        ensures bytes { result.items ≡ self.items }
        ensures within { Within self.end (length self.items) }
    {
        let Encoder {
            order: _,
            shift: _,
            end: _,
            bytes,
        } = self;
        bytes
    }

    /// The allocator of the bytes.
    pub fn allocator(&self) -> Global {
        *self.bytes.allocator()
    }

    /// Whether so many elements of a width in bytes don't pass the end.
    pub(crate) fn has_room(&self, count: usize, width: usize) -> bool
        ensures { IsTrue result ↔ Within self.now.end (length self.now.items + count * width) }
    {
        match self.end {
            Some(end) => match count.checked_mul(width) {
                Some(length) => length <= end - self.bytes.len(),
                None => false,
            },
            None => true,
        }
    }

    /// Appends bytes.
    ///
    /// # Errors
    ///
    /// ExcessData exactly where the output would pass its end. Memory for want of memory. On an error the output is as before.
    pub fn put(&mut self, bytes: &[u8]) -> Result<(), EncodeError>
        ensures { WritesText result bytes.now self.old self.new }
    {
        if !self.has_room(bytes.len(), 1) {
            return Err(EncodeError::ExcessData);
        }
        self.bytes.extend_from_slice(bytes)?;
        Ok(())
    }

    /// Appends the padding up to a boundary, in bytes: 0 bytes (D-Bus Specification, "Marshaling").
    ///
    /// # Errors
    ///
    /// ExcessData exactly where the output would pass its end. Memory for want of memory. On an error the output is as before.
    pub fn pad(&mut self, boundary: usize) -> Result<(), EncodeError>
        requires some { 1 ≤ boundary }
        requires small { boundary ≤ 8 }
        ensures { WritesText result (padding (place_of self.old) boundary) self.old self.new }
    {
        let gap = padding_for_n_bytes(self.shift + self.bytes.len(), boundary);
        // Mostly there is none, and then no empty slice is copied.
        if gap == 0 {
            return Ok(());
        }
        self.put(&ZEROS[..gap])
    }
}
