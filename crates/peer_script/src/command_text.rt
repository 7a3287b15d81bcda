//! The text of a command's words.
ghost use Rattle.std.specs.Prelude.{◌≡◌, ◌++◌, [], ◌∷◌, OnOk, decimal};
ghost use Rattle.peer_script.specs.Word.{text_word, optional_word, flags_word};
ghost use Rattle.peer_script.specs.Transcript.{spaced, kind_word, outgoing_words, call_words, stream_words, object_words, live_words, entry_words, optional_decimal};
ghost use Rattle.peer_words.specs.declared.words.Words.TheVariants as words;
ghost use Rattle.peer_words.specs.declared.words.StreamOp.TheVariants as ops;
ghost use Rattle.peer_words.specs.declared.words.ObjectOp.TheVariants as objects;
ghost use Rattle.peer_words.specs.declared.words.Live.TheVariants as live;

use crate::text::{put, put_flags, put_number, put_optional, put_text};
use peer_words::{CallFlags, CallOp, Live, ObjectOp, Outgoing, OutgoingKind, StreamOp, Words};
use std::alloc::AllocError;
use wire_value::{Bytes, OwnedUniqueName};

/// A space and a word.
fn put_word(text: &mut Vec<u8>, word: &[u8]) -> Result<(), AllocError>
    ensures { OnOk result (text.new.items ≡ text.old.items ++ 32 ∷ word.now) }
{
    put(text, b" ")?;
    put(text, word)
}

/// A space and a text as a word.
fn put_text_word(text: &mut Vec<u8>, bytes: &[u8]) -> Result<(), AllocError>
    ensures { OnOk result (text.new.items ≡ text.old.items ++ 32 ∷ text_word bytes.now) }
{
    put(text, b" ")?;
    put_text(text, bytes)
}

/// A space and a text as a word, or `-` where there is none.
fn put_optional_word(text: &mut Vec<u8>, bytes: &Option<Bytes>) -> Result<(), AllocError>
    ensures { OnOk result (text.new.items ≡ text.old.items ++ 32 ∷ optional_word bytes.now) }
{
    put(text, b" ")?;
    put_optional(text, bytes)
}

/// A space and a number.
fn put_decimal(text: &mut Vec<u8>, number: u64) -> Result<(), AllocError>
    ensures { OnOk result (text.new.items ≡ text.old.items ++ 32 ∷ decimal number) }
{
    put(text, b" ")?;
    put_number(text, number)
}

fn kind_word(kind: OutgoingKind) -> &'static [u8]
    ensures { result.now ≡ kind_word kind }
{
    match kind {
        OutgoingKind::Call => b"call",
        OutgoingKind::Signal => b"signal",
    }
}

/// A space and the word of flags.
fn put_flags_word(text: &mut Vec<u8>, flags: CallFlags) -> Result<(), AllocError>
    ensures { OnOk result (text.new.items ≡ text.old.items ++ 32 ∷ flags_word flags) }
{
    put(text, b" ")?;
    put_flags(text, flags)
}

fn put_outgoing(text: &mut Vec<u8>, words: &Outgoing) -> Result<(), AllocError>
    ensures { OnOk result (text.new.items ≡ text.old.items ++ spaced (outgoing_words words.now)) }
{
    put_word(text, kind_word(words.kind))?;
    put_optional_word(text, &words.destination)?;
    put_text_word(text, words.path.as_slice())?;
    put_optional_word(text, &words.interface)?;
    put_text_word(text, words.member.as_slice())?;
    put_flags_word(text, words.flags)?;
    put_optional_word(text, &words.body)
}

/// A name and a number.
fn put_asked(text: &mut Vec<u8>, name: &[u8], number: u64) -> Result<(), AllocError>
    ensures { OnOk result (text.new.items ≡ text.old.items ++ spaced (name.now ∷ decimal number ∷ [])) }
{
    put_word(text, name)?;
    put_decimal(text, number)
}

/// A name and two numbers.
fn put_asked_with(
    text: &mut Vec<u8>,
    name: &[u8],
    number: u64,
    second: u64,
) -> Result<(), AllocError>
    ensures { OnOk result (text.new.items ≡ text.old.items ++ spaced (name.now ∷ decimal number ∷ decimal second ∷ [])) }
{
    put_asked(text, name, number)?;
    put_decimal(text, second)
}

fn put_call_op(text: &mut Vec<u8>, call: u64, op: CallOp) -> Result<(), AllocError>
    ensures { OnOk result (text.new.items ≡ text.old.items ++ spaced (call_words (decimal call) op)) }
{
    match op {
        CallOp::Poll => put_asked(text, b"poll", call),
        CallOp::Before(before) => put_asked_with(text, b"before", call, before),
        CallOp::Drop => put_asked(text, b"drop", call),
    }
}

fn put_reply(text: &mut Vec<u8>, stream: u64, body: &Option<Bytes>) -> Result<(), AllocError>
    ensures { OnOk result (text.new.items ≡ text.old.items ++ spaced (stream_words (decimal stream) (ops.Reply body.now))) }
{
    put_asked(text, b"reply", stream)?;
    put_optional_word(text, body)
}

fn put_error_reply(
    text: &mut Vec<u8>,
    stream: u64,
    name: &Bytes,
    body: &Option<Bytes>,
) -> Result<(), AllocError>
    ensures { OnOk result (text.new.items ≡ text.old.items ++ spaced (stream_words (decimal stream) (ops.Error name.now body.now))) }
{
    put_asked(text, b"error", stream)?;
    put_text_word(text, name.as_slice())?;
    put_optional_word(text, body)
}

fn put_stream_op(text: &mut Vec<u8>, stream: u64, op: &StreamOp) -> Result<(), AllocError>
    ensures { OnOk result (text.new.items ≡ text.old.items ++ spaced (stream_words (decimal stream) op.now)) }
{
    match op {
        StreamOp::Reply(body) => put_reply(text, stream, body),
        StreamOp::Error { name, body } => put_error_reply(text, stream, name, body),
        StreamOp::Take => put_asked(text, b"take", stream),
        StreamOp::TakeBefore(before) => put_asked_with(text, b"takebefore", stream, *before),
        StreamOp::Clone => put_asked(text, b"clone", stream),
        StreamOp::Opened => put_asked(text, b"opened", stream),
        StreamOp::Queue(limit) => put_asked_with(text, b"queue", stream, *limit),
        StreamOp::Unstream(None) => put_asked(text, b"unstream", stream),
        StreamOp::Unstream(Some(second)) => { put_asked_with(text, b"unstream", stream, *second) }
    }
}

/// A space and a number, or `-` where there is none.
fn put_optional_decimal(text: &mut Vec<u8>, number: Option<u64>) -> Result<(), AllocError>
    ensures { OnOk result (text.new.items ≡ text.old.items ++ 32 ∷ optional_decimal number) }
{
    match number {
        None => put_word(text, b"-"),
        Some(number) => put_decimal(text, number),
    }
}

fn put_open(text: &mut Vec<u8>, max_queued: Option<u64>, rule: &Bytes) -> Result<(), AllocError>
    ensures { OnOk result (text.new.items ≡ text.old.items ++ spaced (entry_words (words.Open max_queued rule.now))) }
{
    put_word(text, b"open")?;
    put_optional_decimal(text, max_queued)?;
    put_text_word(text, rule.as_slice())
}

/// A name and a path.
fn put_asked_at(text: &mut Vec<u8>, name: &[u8], path: &Bytes) -> Result<(), AllocError>
    ensures { OnOk result (text.new.items ≡ text.old.items ++ spaced (name.now ∷ text_word path.now ∷ [])) }
{
    put_word(text, name)?;
    put_text_word(text, path.as_slice())
}

/// A name, a path and an interface, or `-` where none is named.
fn put_named(
    text: &mut Vec<u8>,
    name: &[u8],
    path: &Bytes,
    interface: &Option<Bytes>,
) -> Result<(), AllocError>
    ensures { OnOk result (text.new.items ≡ text.old.items ++ spaced (name.now ∷ text_word path.now ∷ optional_word interface.now ∷ [])) }
{
    put_asked_at(text, name, path)?;
    put_optional_word(text, interface)
}

fn put_at(text: &mut Vec<u8>, path: &Bytes, number: u64) -> Result<(), AllocError>
    ensures { OnOk result (text.new.items ≡ text.old.items ++ spaced (object_words (objects.At path.now number))) }
{
    put_asked_at(text, b"at", path)?;
    put_decimal(text, number)
}

fn put_object_op(text: &mut Vec<u8>, op: &ObjectOp) -> Result<(), AllocError>
    ensures { OnOk result (text.new.items ≡ text.old.items ++ spaced (object_words op.now)) }
{
    match op {
        ObjectOp::At { path, number } => put_at(text, path, *number),
        ObjectOp::Remove { path, interface } => put_named(text, b"remove", path, interface),
        ObjectOp::Interface { path, interface } => put_named(text, b"iface", path, interface),
        ObjectOp::Serve => put_word(text, b"serve"),
    }
}

fn put_unique(text: &mut Vec<u8>, name: &OwnedUniqueName) -> Result<(), AllocError>
    ensures { OnOk result (text.new.items ≡ text.old.items ++ spaced (live_words (live.Unique name.now))) }
{
    put_word(text, b"unique")?;
    put_text_word(text, name.as_str().as_bytes())
}

fn put_live(text: &mut Vec<u8>, line: &Live) -> Result<(), AllocError>
    ensures { OnOk result (text.new.items ≡ text.old.items ++ spaced (live_words line.now)) }
{
    match line {
        Live::Written(index) => put_asked(text, b"written", *index),
        Live::Fault(index) => put_asked(text, b"fault", *index),
        Live::Unique(name) => put_unique(text, name),
        Live::Await(call) => put_asked(text, b"await", *call),
        Live::Next(stream) => put_asked(text, b"next", *stream),
        Live::Worker => put_word(text, b"worker"),
    }
}

/// The words of a command, with a space before each.
pub(crate) fn put_words(text: &mut Vec<u8>, words: &Words) -> Result<(), AllocError>
    ensures { OnOk result (text.new.items ≡ text.old.items ++ spaced (entry_words words.now)) }
{
    match words {
        Words::Send(words) => put_outgoing(text, words),
        Words::Read => put_word(text, b"read"),
        Words::OfCall { call, op } => put_call_op(text, *call, *op),
        Words::Stream => put_word(text, b"stream"),
        Words::Open { max_queued, rule } => put_open(text, *max_queued, rule),
        Words::OfStream { stream, op } => put_stream_op(text, *stream, op),
        Words::MainQueue(limit) => put_asked(text, b"mainqueue", *limit),
        Words::Objects(op) => put_object_op(text, op),
        Words::Close => put_word(text, b"close"),
        Words::Live(line) => put_live(text, line),
    }
}
