//! The words of a line: numbers, and texts with escapes.
ghost use Rattle.std.specs.Prelude.{◌≡◌, ◌<◌, ◌^◌, nat_lt, nat_le, ◌&&◌, map, length, IfSome, IfOk, Some, None, if◌then◌else◌, not, ◌==◌};
ghost use Rattle.std.specs.Option.{option_map};
ghost use Rattle.std.specs.List.{list_all};
ghost use Rattle.std.specs.Char.{is_ascii_digit};
ghost use Rattle.peer_script.specs.Word.{same, words_of, number_of, is_plain, escaped, unescaped, text_of};
ghost use Rattle.peer_words.specs.Hex.{TakesOne, hex_value, hex_byte, hex_pairs, bytes_of};

use itoa::Buffer;
use peer_words::hex_byte;
use std::alloc::{AllocError, Global};
use wire_value::Bytes;

/// The one text that isn't written as its bytes.
const EQUALS: &[u8] = b"=";

/// How that text is written.
const EQUALS_WORD: &[u8] = b"\\3d";

/// Whether two texts are the same.
pub(crate) fn same(word: &[u8], text: &[u8]) -> bool
    ensures { result ≡ same word.now text.now }
{
    word == text
}

/// What stands before, between and after the spaces.
pub(crate) fn words_of(alloc: Global, line: &[u8]) -> Result<Vec<&[u8]>, AllocError>
    ensures { IfOk result (λ words. map (λ w. w.now) words.items ≡ words_of line.now) }
{
    line.split(|byte| *byte == b' ').collect(alloc)
}

/// Returns the number below 2^64 that a word is, as it is printed: in decimal digits, without leading zeros.
pub fn number_of(word: &[u8]) -> Option<u64>
    ensures { result ≡ number_of word.now }
{
    let Ok(text) = str::from_utf8(word) else {
        return None;
    };
    let Ok(number) = text.parse::<u64>() else {
        return None;
    };
    if Buffer::new().format(number) == text {
        Some(number)
    } else {
        None
    }
}

pub(crate) fn is_plain(byte: u8) -> bool
    ensures { result ≡ is_plain byte }
{
    byte >= 0x21 && byte <= 0x7e && byte != b'\\'
}

fn escaped(byte: Option<u8>) -> Option<u8>
    ensures { result ≡ escaped byte }
{
    match byte {
        Some(byte) => { if is_plain(byte) { None } else { Some(byte) } }
        None => None,
    }
}

fn take_byte(rest: &[u8]) -> Option<(u8, &[u8])>
    requires { 0 < length rest.now }
    ensures { TakesOne (λ x. x.0) (λ x. x.1.now) unescaped rest.now result }
{
    match rest {
        [b'\\', high, low, more @ ..] => {
            let byte = escaped(hex_byte(*high, *low))?;
            Some((byte, more))
        }
        [byte, more @ ..] => {
            if is_plain(*byte) {
                Some((*byte, more))
            } else {
                None
            }
        }
        [] => None,
    }
}

fn unescaped(alloc: Global, word: &[u8]) -> Result<Option<Vec<u8>>, AllocError>
    ensures { IfOk result (λ bytes. option_map (λ v. v.items) bytes ≡ unescaped word.now) }
{
    let mut bytes = Vec::new(alloc);
    let mut rest = word;
    while !rest.is_empty() {
        let Some((byte, more)) = take_byte(rest) else {
            return Ok(None);
        };
        bytes.push(byte)?;
        rest = more;
    }
    Ok(Some(bytes))
}

/// The text that a word spells.
#[tactic(auto, unfolding(crate::specs::Word::text_of))]
pub(crate) fn text_of(alloc: Global, word: &[u8]) -> Result<Option<Bytes>, AllocError>
    ensures { IfOk result (λ text. text ≡ text_of word.now) }
{
    if word == EQUALS_WORD {
        return Ok(Some(Bytes::from_slice(alloc, EQUALS)?));
    }
    if word == EQUALS || word.is_empty() {
        return Ok(None);
    }
    match unescaped(alloc, word)? {
        Some(bytes) => Ok(Some(Bytes::from_vec(bytes))),
        None => Ok(None),
    }
}
