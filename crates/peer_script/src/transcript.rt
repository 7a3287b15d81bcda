//! The transcript's text.
ghost use Rattle.std.specs.Prelude.{ℕ, ◌≡◌, ◌++◌, [], ◌∷◌, length, List, OnOk, false, ◌<◌, codes, decimal, Some};
ghost use Rattle.std.specs.Bool.{MatchBool};
ghost use Rattle.std.specs.List.{flat_map};
ghost use Rattle.wire_message.specs.Texts.{message_line};
ghost use Rattle.peer_script.specs.Word.{text_word};
ghost use Rattle.peer_words.specs.Hex.{hex_two};
ghost use Rattle.peer_script.specs.Transcript.{or_empty, shown_byte, shown_text, error_word, got_text, truth_word, last_text, answer_text, entry_text, given_text, sent_word, transcript_with};
ghost use Rattle.peer_script.specs.Reading.{given_of, given};
ghost use Rattle.wire_framing.specs.Sink.{WritesAll};

use crate::command_text::put_words;
use crate::head::{put_capacity, put_fds, put_machine, put_outfault, put_peer};
use crate::script::Setup;
use crate::text::{put, put_hex, put_hex_byte, put_number, put_text};
use peer_words::{Answer, Entry};
use std::alloc::{AllocError, Global};
use wire_framing::{Piece, Refusal, Sink, write_all};
use wire_message::{Error, Message};

/// What commands were answered.
#[derive(Drop)]
pub struct Transcript {
    /// One entry for each command, in the order in which they ran.
    pub entries: Vec<Entry>,
}

/// Appends the name of the error's variant, with the kind of an input or output fault and the name of a missing parameter.
///
/// # Errors
///
/// AllocError if out of memory.
pub fn put_error(text: &mut Vec<u8>, error: &Error) -> Result<(), AllocError>
    ensures { OnOk result (text.new.items ≡ text.old.items ++ error_word error.now) }
{
    match error {
        Error::InterfaceNotFound => put(text, b"InterfaceNotFound"),
        Error::InputOutput(kind) => {
            put(text, b"InputOutput.")?;
            put(text, kind.as_str().as_bytes())
        }
        Error::InvalidField => put(text, b"InvalidField"),
        Error::ExcessData => put(text, b"ExcessData"),
        Error::Variant(_) => put(text, b"Variant"),
        Error::Names(_) => put(text, b"Names"),
        Error::IncorrectEndian => put(text, b"IncorrectEndian"),
        Error::InvalidReply => put(text, b"InvalidReply"),
        Error::MethodError(_, _, _) => put(text, b"MethodError"),
        Error::MissingField => put(text, b"MissingField"),
        Error::InvalidGUID => put(text, b"InvalidGUID"),
        Error::Unsupported => put(text, b"Unsupported"),
        Error::FDO(_) => put(text, b"FDO"),
        Error::NameTaken => put(text, b"NameTaken"),
        Error::InvalidMatchRule => put(text, b"InvalidMatchRule"),
        Error::Failure(_) => put(text, b"Failure"),
        Error::MissingParameter(name) => {
            put(text, b"MissingParameter.")?;
            put_text(text, name.as_bytes())
        }
        Error::InterfaceExists(_, _) => put(text, b"InterfaceExists"),
        Error::Memory => put(text, b"Memory"),
        Error::SerialsSpent => put(text, b"SerialsSpent"),
        Error::UnknownHandle => put(text, b"UnknownHandle"),
        Error::Busy => put(text, b"Busy"),
    }
}

fn put_serial(text: &mut Vec<u8>, what: &[u8], serial: u32) -> Result<(), AllocError>
    ensures { OnOk result (text.new.items ≡ text.old.items ++ what.now ++ decimal serial) }
{
    put_with_number(text, what, u64::from(serial))
}

/// What was made, with its number and the serial of its message.
fn put_made(text: &mut Vec<u8>, what: &[u8], number: u64, serial: u32) -> Result<(), AllocError>
    ensures { OnOk result (text.new.items ≡ text.old.items ++ what.now ++ decimal number ++ codes " serial " ++ decimal serial) }
{
    put_with_number(text, what, number)?;
    put_serial(text, b" serial ", serial)
}

/// The serial of the last message by which the bus was told, if one was sent.
fn put_last(text: &mut Vec<u8>, last: Option<u32>) -> Result<(), AllocError>
    ensures { OnOk result (text.new.items ≡ text.old.items ++ last_text last) }
{
    match last {
        None => Ok(()),
        Some(serial) => put_serial(text, b" serial ", serial),
    }
}

fn put_gone(text: &mut Vec<u8>, last: Option<u32>) -> Result<(), AllocError>
    ensures { OnOk result (text.new.items ≡ text.old.items ++ codes "gone" ++ last_text last) }
{
    put(text, b"gone")?;
    put_last(text, last)
}

fn truth_word(is_so: bool) -> &'static [u8]
    ensures { result.now ≡ truth_word is_so }
{
    if is_so { b"true" } else { b"false" }
}

/// That an interface stands at its object no more, and whether the object is gone with it.
fn put_removed(text: &mut Vec<u8>, gone: bool) -> Result<(), AllocError>
    ensures { OnOk result (text.new.items ≡ text.old.items ++ codes "removed " ++ truth_word gone) }
{
    put(text, b"removed ")?;
    put(text, truth_word(gone))
}

/// Whether a byte is shown as itself.
fn is_plain(byte: u8) -> bool
    ensures { MatchBool result (shown_byte byte ≡ byte ∷ []) (shown_byte byte ≡ 92 ∷ hex_two byte) }
{
    byte >= 0x20 && byte <= 0x7e && byte != b'\\'
}

/// Appends a text as it is shown: a byte outside 0x20 to 0x7e, and a backslash, is a backslash and two hexadecimal digits.
///
/// # Errors
///
/// AllocError if out of memory.
pub fn put_shown(text: &mut Vec<u8>, bytes: &[u8]) -> Result<(), AllocError>
    ensures { OnOk result (text.new.items ≡ text.old.items ++ shown_text bytes.now) }
{
    let mut from = 0;
    for (at, byte) in bytes.iter().enumerate() {
        if is_plain(*byte) {
            continue;
        }
        put(text, &bytes[from..at])?;
        put(text, b"\\")?;
        put_hex_byte(text, *byte)?;
        from = at + 1;
    }
    put(text, &bytes[from..])
}

fn put_message(alloc: Global, text: &mut Vec<u8>, message: &Message) -> Result<(), AllocError>
    ensures { OnOk result (text.new.items ≡ text.old.items ++ got_text (Some message.now)) }
{
    put(text, b"got ")?;
    put_number(text, message.recv_position())?;
    put(text, b" ")?;
    put_number(text, message.data().len() as u64)?;
    put(text, b" ")?;
    let display = message.to_string(alloc)?;
    put_shown(text, display.as_bytes())
}

fn put_got(alloc: Global, text: &mut Vec<u8>, read: &Option<Message>) -> Result<(), AllocError>
    ensures { OnOk result (text.new.items ≡ text.old.items ++ got_text read.now) }
{
    match read {
        Some(message) => put_message(alloc, text, message),
        None => put(text, b"got"),
    }
}

fn put_method_error(text: &mut Vec<u8>, message: &Message) -> Result<(), AllocError>
    ensures { OnOk result (text.new.items ≡ text.old.items ++ codes "methoderror " ++ decimal message.now.position ++ 32 ∷ [] ++ text_word (or_empty message.now.error_name)) }
{
    put(text, b"methoderror ")?;
    put_number(text, message.recv_position())?;
    put(text, b" ")?;
    match message.header().error_name() {
        Some(name) => put_text(text, name.as_str().as_bytes()),
        None => put_text(text, b""),
    }
}

fn put_with_error(text: &mut Vec<u8>, what: &[u8], error: &Error) -> Result<(), AllocError>
    ensures { OnOk result (text.new.items ≡ text.old.items ++ what.now ++ error_word error.now) }
{
    put(text, what)?;
    put_error(text, error)
}

pub(crate) fn put_with_number(
    text: &mut Vec<u8>,
    what: &[u8],
    number: u64,
) -> Result<(), AllocError>
    ensures { OnOk result (text.new.items ≡ text.old.items ++ what.now ++ decimal number) }
{
    put(text, what)?;
    put_number(text, number)
}

#[tactic(auto, unfolding(crate::specs::Transcript::answer_text))]
fn put_answer(alloc: Global, text: &mut Vec<u8>, entry: &Entry) -> Result<(), AllocError>
    ensures { OnOk result (text.new.items ≡ text.old.items ++ answer_text entry.now.read entry.now.answer) }
{
    match &entry.answer {
        Answer::Called { call, serial } => put_made(text, b"call ", *call, *serial),
        Answer::Sent(serial) => put_serial(text, b"sent ", *serial),
        Answer::Refused(error) => put_with_error(text, b"refused ", error),
        Answer::SendFailed(error) => put_with_error(text, b"sendfailed ", error),
        Answer::Got => put_got(alloc, text, &entry.read),
        Answer::Passed(bytes) => put_with_number(text, b"passed ", bytes.len() as u64),
        Answer::Closed(error) => put_with_error(text, b"closed ", error),
        Answer::Reply(position) => put_with_number(text, b"reply ", *position),
        Answer::MethodError(message) => put_method_error(text, message),
        Answer::InvalidReply(position) => put_with_number(text, b"invalidreply ", *position),
        Answer::NotYet => put(text, b"notyet"),
        Answer::NoneBefore => put(text, b"nonebefore"),
        Answer::Busy => put(text, b"busy"),
        Answer::Dropped => put(text, b"dropped"),
        Answer::Streaming(number) => put_with_number(text, b"stream ", *number),
        Answer::Opening { number, serial } => put_made(text, b"opening ", *number, *serial),
        Answer::Opened => put(text, b"opened"),
        Answer::Item(position) => put_with_number(text, b"item ", *position),
        Answer::Empty => put(text, b"empty"),
        Answer::Ended => put(text, b"ended"),
        Answer::Gone(last) => put_gone(text, *last),
        Answer::Set => put(text, b"ok"),
        Answer::Added => put(text, b"added"),
        Answer::Exists => put(text, b"exists"),
        Answer::Removed(gone) => put_removed(text, *gone),
        Answer::Slot(slot) => put_with_number(text, b"slot ", *slot),
        Answer::Served(position) => put_with_number(text, b"served ", *position),
        Answer::Silent(position) => put_with_number(text, b"silent ", *position),
        Answer::Shut => put(text, b"closed"),
        Answer::Named(given) => put(text, truth_word(*given)),
        Answer::Nothing => put(text, b"-"),
    }
}

#[tactic(auto, unfolding(crate::specs::Transcript::entry_text))]
fn put_entry(alloc: Global, text: &mut Vec<u8>, entry: &Entry) -> Result<(), AllocError>
    ensures { OnOk result (text.new.items ≡ text.old.items ++ entry_text entry.now) }
{
    put_number(text, u64::from(entry.lane))?;
    put_words(text, &entry.words)?;
    put(text, b" = ")?;
    put_answer(alloc, text, entry)?;
    put(text, b"\n")
}

fn put_entries(alloc: Global, text: &mut Vec<u8>, entries: &[Entry]) -> Result<(), AllocError>
    ensures { OnOk result (text.new.items ≡ text.old.items ++ flat_map entry_text entries.now) }
{
    for entry in entries {
        put_entry(alloc, text, entry)?;
    }
    Ok(())
}

#[tactic(auto, unfolding(crate::specs::Transcript::given_text))]
fn put_piece(text: &mut Vec<u8>, piece: &Piece) -> Result<(), AllocError>
    ensures { OnOk result (text.new.items ≡ text.old.items ++ given_text (given_of piece.now)) }
{
    match piece {
        Piece::Bytes(bytes) => {
            put(text, b"in ")?;
            put_hex(text, bytes.as_slice())?;
            put(text, b"\n")
        }
        Piece::Fault => put(text, b"infault\n"),
    }
}

fn put_pieces(text: &mut Vec<u8>, pieces: &[Piece]) -> Result<(), AllocError>
    ensures { OnOk result (text.new.items ≡ text.old.items ++ flat_map given_text (given pieces.now)) }
{
    for piece in pieces {
        put_piece(text, piece)?;
    }
    Ok(())
}

fn put_sent(text: &mut Vec<u8>, sent: &[u8]) -> Result<(), AllocError>
    ensures { OnOk result (text.new.items ≡ text.old.items ++ sent_word sent.now) }
{
    if sent.is_empty() {
        put(text, b"-")
    } else {
        put_hex(text, sent)
    }
}

#[tactic(auto, unfolding(crate::specs::Transcript::transcript_text))]
fn put_transcript(
    alloc: Global,
    text: &mut Vec<u8>,
    setup: &Setup,
    entries: &[Entry],
    sent: &[u8],
) -> Result<(), AllocError>
    ensures { OnOk result (text.new.items ≡ text.old.items ++ transcript_with setup.now entries.now sent.now) }
{
    put_peer(text, &setup.kind)?;
    put_capacity(text, setup.queue)?;
    put_machine(text, &setup.machine)?;
    put_fds(text, setup.fds)?;
    put_outfault(text, setup.outfault)?;
    put_pieces(text, setup.pieces.as_slice())?;
    put_entries(alloc, text, entries)?;
    put(text, b"sent ")?;
    put_sent(text, sent)?;
    put(text, b"\n")
}

/// Writes the transcript: the header lines as they were read, one line for each entry in order, and one `sent` line with
/// all bytes that were sent.
///
/// # Errors
///
/// Failed where the output fails a write, only where its count of faults rose; Memory for want of memory. A proper front of the
/// text is then in the output.
pub fn write_transcript<O: Sink>(
    alloc: Global,
    setup: &Setup,
    transcript: &Transcript,
    sent: &[u8],
    output: &mut O,
) -> Result<(), Refusal>
    ensures text { WritesAll result (transcript_with setup.now transcript.now.entries.items sent.now) (O.view output.old) (O.view output.new) }
    ensures fds { O.takes output.new ≡ O.takes output.old }
{
    let mut text = Vec::new(alloc);
    match put_transcript(alloc, &mut text, setup, transcript.entries.as_slice(), sent) {
        Ok(()) => write_all(output, text.as_slice()),
        Err(_) => Err(Refusal::Memory),
    }
}
