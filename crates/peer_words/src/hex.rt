//! Bytes in hexadecimal.
ghost use Rattle.std.specs.Prelude.{◌≡◌, ◌<◌, length, IfSome, IfOk};
ghost use Rattle.std.specs.Option.{option_map};
ghost use Rattle.peer_words.specs.Hex.{hex_value, hex_byte, hex_pairs, bytes_of, TakesOne};

use std::alloc::{AllocError, Global};

fn hex_value(digit: u8) -> Option<u8>
    ensures value { result ≡ hex_value digit }
    ensures small { IfSome result (λ value. value < 16) }
{
    if digit >= b'0' && digit <= b'9' {
        Some(digit - b'0')
    } else if digit >= b'a' && digit <= b'f' {
        Some(digit - b'a' + 10)
    } else {
        None
    }
}

/// The byte that two lower-case hexadecimal digits are; None where one of them is no such digit.
pub fn hex_byte(high: u8, low: u8) -> Option<u8>
    ensures { result ≡ hex_byte (hex_value high) (hex_value low) }
{
    let high = hex_value(high)?;
    let low = hex_value(low)?;
    Some(16 * high + low)
}

fn take_hex(rest: &[u8]) -> Option<(u8, &[u8])>
    requires { 0 < length rest.now }
    ensures { TakesOne (λ x. x.0) (λ x. x.1.now) hex_pairs rest.now result }
{
    match rest {
        [high, low, more @ ..] => {
            let byte = hex_byte(*high, *low)?;
            Some((byte, more))
        }
        _ => None,
    }
}

/// The bytes that a word of lower-case hexadecimal digits is, two for each byte. None where it is no such word: where it is
/// empty, has an odd count of bytes, or one that is no such digit.
///
/// # Errors
///
/// AllocError for want of memory.
pub fn read_hex(alloc: Global, word: &[u8]) -> Result<Option<Vec<u8>>, AllocError>
    ensures { IfOk result (λ bytes. option_map (λ v. v.items) bytes ≡ bytes_of word.now) }
{
    if word.is_empty() {
        return Ok(None);
    }
    let mut bytes = Vec::new(alloc);
    let mut rest = word;
    while !rest.is_empty() {
        let Some((byte, more)) = take_hex(rest) else {
            return Ok(None);
        };
        bytes.push(byte)?;
        rest = more;
    }
    Ok(Some(bytes))
}
