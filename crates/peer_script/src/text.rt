//! The words of a line, written: numbers, bytes in hexadecimal, texts with escapes, and flags.
ghost use Rattle.std.specs.Prelude.{◌≡◌, ◌++◌, ◌||◌, length, OnOk, ◌<◌, decimal};
ghost use Rattle.std.specs.List.{flat_map};
ghost use Rattle.peer_script.specs.Word.{text_byte, text_word, optional_word, flag_letter, flag_letters, flags_word};
ghost use Rattle.peer_words.specs.Hex.{hex_digit, hex_two, hex_word};

use crate::word::{is_plain, same};
use itoa::Buffer;
use peer_words::CallFlags;
use std::alloc::AllocError;
use wire_value::Bytes;

pub(crate) fn put(text: &mut Vec<u8>, bytes: &[u8]) -> Result<(), AllocError>
    ensures { OnOk result (text.new.items ≡ text.old.items ++ bytes.now) }
{
    text.extend_from_slice(bytes)
}

/// Appends a number in decimal digits, without leading zeros.
///
/// # Errors
///
/// AllocError if out of memory.
pub fn put_number(text: &mut Vec<u8>, number: u64) -> Result<(), AllocError>
    ensures { OnOk result (text.new.items ≡ text.old.items ++ decimal number) }
{
    let mut buffer = Buffer::new();
    put(text, buffer.format(number).as_bytes())
}

fn hex_digit(value: u8) -> u8
    requires { value < 16 }
    ensures { result ≡ hex_digit value }
{
    if value < 10 { b'0' + value } else { 87 + value }
}

pub(crate) fn put_hex_byte(text: &mut Vec<u8>, byte: u8) -> Result<(), AllocError>
    ensures { OnOk result (text.new.items ≡ text.old.items ++ hex_two byte) }
{
    put(text, &[hex_digit(byte / 16), hex_digit(byte % 16)])
}

pub(crate) fn put_hex(text: &mut Vec<u8>, bytes: &[u8]) -> Result<(), AllocError>
    ensures { OnOk result (text.new.items ≡ text.old.items ++ hex_word bytes.now) }
{
    for byte in bytes {
        put_hex_byte(text, *byte)?;
    }
    Ok(())
}

fn put_text_byte(text: &mut Vec<u8>, byte: u8) -> Result<(), AllocError>
    ensures { OnOk result (text.new.items ≡ text.old.items ++ text_byte byte) }
{
    if is_plain(byte) {
        put(text, &[byte])
    } else {
        put(text, b"\\")?;
        put_hex_byte(text, byte)
    }
}

fn put_text_bytes(text: &mut Vec<u8>, bytes: &[u8]) -> Result<(), AllocError>
    ensures { OnOk result (text.new.items ≡ text.old.items ++ flat_map text_byte bytes.now) }
{
    for byte in bytes {
        put_text_byte(text, *byte)?;
    }
    Ok(())
}

#[tactic(auto, unfolding(crate::specs::Word::text_word))]
pub(crate) fn put_text(text: &mut Vec<u8>, bytes: &[u8]) -> Result<(), AllocError>
    ensures { OnOk result (text.new.items ≡ text.old.items ++ text_word bytes.now) }
{
    if same(bytes, b"=") {
        put(text, b"\\3d")
    } else {
        put_text_bytes(text, bytes)
    }
}

pub(crate) fn put_optional(text: &mut Vec<u8>, word: &Option<Bytes>) -> Result<(), AllocError>
    ensures { OnOk result (text.new.items ≡ text.old.items ++ optional_word word.now) }
{
    match word {
        Some(bytes) => put_text(text, bytes.as_slice()),
        None => put(text, b"-"),
    }
}

fn put_letter(text: &mut Vec<u8>, letter: u8, flag: bool) -> Result<(), AllocError>
    ensures { OnOk result (text.new.items ≡ text.old.items ++ flag_letter letter flag) }
{
    if flag { put(text, &[letter]) } else { Ok(()) }
}

fn is_any(flags: CallFlags) -> bool
    ensures { result ≡ (flags.no_reply_expected || flags.no_auto_start || flags.allow_interactive_auth || flags.big || flags.descriptor) }
{
    flags.no_reply_expected
        || flags.no_auto_start
        || flags.allow_interactive_auth
        || flags.big
        || flags.descriptor
}

fn put_letters(text: &mut Vec<u8>, flags: CallFlags) -> Result<(), AllocError>
    ensures { OnOk result (text.new.items ≡ text.old.items ++ flag_letters flags) }
{
    put_letter(text, b'n', flags.no_reply_expected)?;
    put_letter(text, b'a', flags.no_auto_start)?;
    put_letter(text, b'i', flags.allow_interactive_auth)?;
    put_letter(text, b'b', flags.big)?;
    put_letter(text, b'd', flags.descriptor)
}

pub(crate) fn put_flags(text: &mut Vec<u8>, flags: CallFlags) -> Result<(), AllocError>
    ensures { OnOk result (text.new.items ≡ text.old.items ++ flags_word flags) }
{
    if is_any(flags) {
        put_letters(text, flags)
    } else {
        put(text, b"-")
    }
}
