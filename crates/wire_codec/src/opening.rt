//! The front of an array where an output ends, and its length once the elements stand after it.
ghost use Rattle.std.specs.Prelude.{◌≡◌, ◌≤◌};
ghost use Rattle.wire_codec.specs.Encoder.{nearest};
ghost use Rattle.wire_codec.specs.Writing.{Closed, IsOpen, Opens};

use crate::encoder::Encoder;
use crate::error::EncodeError;
use wire_encoding::MAX_ARRAY_LENGTH;
use wire_number::put_u32;

/// An array whose elements are still to be written.
#[derive(Clone, Copy, Debug)]
pub struct OpenArray {
    /// where its length stands
    pub place: usize,
    /// where its elements begin
    pub start: usize,
    /// how many bytes the output might have before the array was opened
    pub outer_end: Option<usize>,
}

/// The farthest place up to `far` that doesn't pass an output's end.
fn nearest_end(end: Option<usize>, far: usize) -> usize
    ensures { result ≡ nearest end far }
{
    match end {
        Some(end) => end.min(far),
        None => far,
    }
}

/// Appends room for an array's length after its padding, and the padding before the first element, which begins on the
/// boundary of its type. Until the array is closed the encoder's end is the array's, so that no element is written past the
/// output's end or past what an array may take.
///
/// # Errors
///
/// ExcessData exactly where these bytes would pass the output's end. Memory for want of memory. On an error the output keeps
/// the bytes that it had, and some may stand after them.
pub fn open_array(encoder: &mut Encoder, boundary: usize) -> Result<OpenArray, EncodeError>
    requires some { 1 ≤ boundary }
    requires small { boundary ≤ 8 }
    ensures { Opens result boundary encoder.old encoder.new }
{
    encoder.pad(4)?;
    let place = encoder.bytes.len();
    encoder.put(&[0, 0, 0, 0])?;
    encoder.pad(boundary)?;
    let start = encoder.bytes.len();
    let outer_end = encoder.end;
    encoder.end = Some(nearest_end(outer_end, start + MAX_ARRAY_LENGTH as usize));
    Ok(OpenArray {
        place,
        start,
        outer_end,
    })
}

/// Puts the length of an array's elements, as far as they are written, at its place before them. The encoder's end is then as
/// it was before the array.
pub fn close_array(encoder: &mut Encoder, array: OpenArray)
    requires { IsOpen array encoder.old }
    ensures { Closed array encoder.old encoder.new }
{
    let long = encoder.bytes.len() - array.start;
    put_u32(encoder.order, &mut encoder.bytes, array.place, long as u32);
    encoder.end = array.outer_end;
}
