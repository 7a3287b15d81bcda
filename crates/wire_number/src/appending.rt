//! Bytes at the end of an output. `shift` is the place of the output's first byte. Only for want of memory a call fails, and
//! then it may have appended a front of its bytes.
ghost use Rattle.std.specs.Prelude.{◌≡◌, ◌+◌, ◌≤◌, ◌++◌, ◌∷◌, [], drop, length, take};
ghost use Rattle.wire_number.specs.Limits.{string_limit};
ghost use Rattle.std.specs.Int.{w8, w32};
ghost use Rattle.wire_number.specs.Number.{counted_text, number_text, padding};
ghost use Rattle.wire_number.specs.Appending.{Appended};

use crate::endian::Endian;
use crate::number::write_u32;
use crate::padding::padding_for_n_bytes;
use std::alloc::AllocError;

const ZEROS: [u8; 8] = [0; 8];

/// Appends the padding up to a boundary, in bytes: 0 bytes (D-Bus Specification, "Marshaling").
///
/// # Errors
///
/// AllocError for want of memory. Then the output has a front of those bytes behind its own, which may be nothing.
#[tactic(auto, using(crate::proofs::Appends::zero_fronts))]
pub fn pad_to(out: &mut Vec<u8>, shift: usize, boundary: usize) -> Result<(), AllocError>
    requires shift { shift ≤ 16 }
    requires some { 1 ≤ boundary }
    requires small { boundary ≤ 8 }
    ensures { Appended result (padding (shift + length out.old.items) boundary) out.old.items out.new.items }
{
    let count = padding_for_n_bytes(shift + out.len(), boundary);
    out.extend_from_slice(&ZEROS[..count])?;
    Ok(())
}

/// Appends bytes behind the padding up to a boundary.
///
/// # Errors
///
/// AllocError for want of memory. Then the output has a front of those bytes behind its own, which may be nothing.
#[tactic(auto, using(crate::proofs::Appends::appends))]
pub fn append(
    out: &mut Vec<u8>,
    shift: usize,
    boundary: usize,
    bytes: &[u8],
) -> Result<(), AllocError>
    requires shift { shift ≤ 16 }
    requires some { 1 ≤ boundary }
    requires small { boundary ≤ 8 }
    ensures { Appended result (padding (shift + length out.old.items) boundary ++ bytes.now) out.old.items out.new.items }
{
    pad_to(out, shift, boundary)?;
    out.extend_from_slice(bytes)?;
    Ok(())
}

/// Appends a text's length, its bytes and a 0 byte.
#[tactic(auto, using(crate::proofs::Appends::appends))]
fn append_counted(out: &mut Vec<u8>, length: &[u8], bytes: &[u8]) -> Result<(), AllocError>
    ensures { Appended result (length.now ++ (bytes.now ++ 0 ∷ [])) out.old.items out.new.items }
{
    out.extend_from_slice(length)?;
    out.extend_from_slice(bytes)?;
    out.push(0)?;
    Ok(())
}

/// Appends a text whose length is a `UINT32`, behind its padding.
///
/// # Errors
///
/// AllocError for want of memory. Then the output has a front of those bytes behind its own, which may be nothing.
#[tactic(auto, using(crate::proofs::Appends::appends))]
pub fn append_text(
    order: Endian,
    out: &mut Vec<u8>,
    shift: usize,
    bytes: &[u8],
) -> Result<(), AllocError>
    requires shift { shift ≤ 16 }
    requires short { length bytes.now ≤ string_limit }
    ensures { Appended result (padding (shift + length out.old.items) 4 ++ counted_text w32 order bytes.now) out.old.items out.new.items }
{
    pad_to(out, shift, 4)?;
    append_counted(out, &write_u32(order, bytes.len() as u32), bytes)
}

/// Appends a text whose length is one byte.
///
/// # Errors
///
/// AllocError for want of memory. Then the output has a front of those bytes behind its own, which may be nothing.
#[tactic(auto, using(crate::proofs::Appends::appends))]
pub fn append_signature(order: Endian, out: &mut Vec<u8>, bytes: &[u8]) -> Result<(), AllocError>
    requires short { length bytes.now ≤ 255 }
    ensures { Appended result (counted_text w8 order bytes.now) out.old.items out.new.items }
{
    append_counted(out, &[bytes.len() as u8], bytes)
}

/// Puts a number of four bytes in place of those that stand at a place.
pub fn put_u32(order: Endian, out: &mut Vec<u8>, place: usize, number: u32)
    requires { place + 4 ≤ length out.old.items }
    ensures { out.new.items ≡ take place out.old.items ++ (number_text w32 order number ++ drop (place + 4) out.old.items) }
{
    out.as_mut_slice()[place..place + 4].copy_from_slice(&write_u32(order, number));
}
