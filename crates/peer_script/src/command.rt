//! The words of a command.
ghost use Rattle.std.specs.Prelude.{◌≡◌, [], ◌∷◌, map, IfOk, option_map};
ghost use Rattle.peer_words.specs.declared.words.StreamOp.TheVariants as ops;
ghost use Rattle.peer_script.specs.Script.{command_words, kind_of, open_of, at_of, remove_of, iface_of, object_op, numbered_op, error_op, interface_of, sending, plain, call_op, stream_op, asking_words, present, optional_of, optional_number, has_letter, named_flags, flags_of, is_absent};
ghost use Rattle.peer_script.specs.Word.{number_of, text_of};

use crate::text::put_flags;
use crate::word::{number_of, same, text_of};
use peer_words::{CallFlags, CallOp, ObjectOp, Outgoing, OutgoingKind, StreamOp, Words};
use std::alloc::{AllocError, Global};
use wire_value::Bytes;

const ABSENT: &[u8] = b"-";

pub(crate) fn is_absent(word: &[u8]) -> bool
    ensures { result ≡ is_absent word.now }
{
    same(word, ABSENT)
}

/// A text, or None in it where the word says that there is none.
fn optional_of(alloc: Global, word: &[u8]) -> Result<Option<Option<Bytes>>, AllocError>
    ensures { IfOk result (λ text. text ≡ optional_of word.now) }
{
    if is_absent(word) {
        return Ok(Some(None));
    }
    Ok(text_of(alloc, word)?.map(Some))
}

fn has_letter(letter: u8, word: &[u8]) -> bool
    ensures { result ≡ has_letter letter word.now }
{
    word.contains(&letter)
}

fn named_flags(word: &[u8]) -> CallFlags
    ensures { result ≡ named_flags word.now }
{
    CallFlags {
        no_reply_expected: has_letter(b'n', word),
        no_auto_start: has_letter(b'a', word),
        allow_interactive_auth: has_letter(b'i', word),
        big: has_letter(b'b', word),
        descriptor: has_letter(b'd', word),
    }
}

/// The flags whose one spelling the word is.
fn flags_of(alloc: Global, word: &[u8]) -> Result<Option<CallFlags>, AllocError>
    ensures { IfOk result (λ flags. flags ≡ flags_of word.now) }
{
    let flags = named_flags(word);
    let mut spelled = Vec::new(alloc);
    put_flags(&mut spelled, flags)?;
    if same(word, spelled.as_slice()) {
        Ok(Some(flags))
    } else {
        Ok(None)
    }
}

/// A text that must be there, so that no word stands for its absence.
fn present_of(alloc: Global, word: &[u8]) -> Result<Option<Option<Bytes>>, AllocError>
    ensures { IfOk result (λ text. text ≡ present (text_of word.now)) }
{
    Ok(text_of(alloc, word)?.map(Some))
}

/// A number, or None in it where the word says that there is none.
fn optional_number(word: &[u8]) -> Option<Option<u64>>
    ensures { result ≡ optional_number word.now }
{
    if is_absent(word) {
        return Some(None);
    }
    number_of(word).map(Some)
}

/// What is sent, by the command's name.
fn kind_of(name: &[u8]) -> Option<OutgoingKind>
    ensures { result ≡ kind_of name.now }
{
    if same(name, b"call") {
        Some(OutgoingKind::Call)
    } else if same(name, b"signal") {
        Some(OutgoingKind::Signal)
    } else {
        None
    }
}

/// The interface's text; a signal has one.
fn interface_of(
    alloc: Global,
    kind: OutgoingKind,
    word: &[u8],
) -> Result<Option<Option<Bytes>>, AllocError>
    ensures { IfOk result (λ text. text ≡ interface_of kind word.now) }
{
    match kind {
        OutgoingKind::Call => optional_of(alloc, word),
        OutgoingKind::Signal => present_of(alloc, word),
    }
}

/// The words of a call or of a signal, behind its name.
fn sending(alloc: Global, kind: OutgoingKind, words: &[&[u8]]) -> Result<Option<Words>, AllocError>
    ensures { IfOk result (λ w. w ≡ sending kind (map (λ word. word.now) words.now)) }
{
    let [destination, path, interface, member, flags, body] = words else {
        return Ok(None);
    };
    let Some(destination) = optional_of(alloc, destination)? else {
        return Ok(None);
    };
    let Some(path) = text_of(alloc, path)? else {
        return Ok(None);
    };
    let Some(interface) = interface_of(alloc, kind, interface)? else {
        return Ok(None);
    };
    let Some(member) = text_of(alloc, member)? else {
        return Ok(None);
    };
    let Some(flags) = flags_of(alloc, flags)? else {
        return Ok(None);
    };
    match optional_of(alloc, body)? {
        Some(body) => Ok(Some(Words::Send(Outgoing {
            kind,
            destination,
            path,
            interface,
            member,
            flags,
            body,
        }))),
        None => Ok(None),
    }
}

/// The command of one name.
fn lone(name: &[u8]) -> Option<Words>
    ensures { result ≡ plain name.now [] }
{
    if same(name, b"read") {
        Some(Words::Read)
    } else if same(name, b"stream") {
        Some(Words::Stream)
    } else if same(name, b"serve") {
        Some(Words::Objects(ObjectOp::Serve))
    } else if same(name, b"close") {
        Some(Words::Close)
    } else {
        None
    }
}

fn open_of(alloc: Global, max_queued: &[u8], rule: &[u8]) -> Result<Option<Words>, AllocError>
    ensures { IfOk result (λ words. words ≡ open_of (optional_number max_queued.now) (text_of rule.now)) }
{
    let Some(max_queued) = optional_number(max_queued) else {
        return Ok(None);
    };
    match text_of(alloc, rule)? {
        Some(rule) => Ok(Some(Words::Open { max_queued, rule })),
        None => Ok(None),
    }
}

fn at_of(alloc: Global, path: &[u8], number: &[u8]) -> Result<Option<ObjectOp>, AllocError>
    ensures { IfOk result (λ op. op ≡ at_of (text_of path.now) (number_of number.now)) }
{
    let Some(number) = number_of(number) else {
        return Ok(None);
    };
    match text_of(alloc, path)? {
        Some(path) => Ok(Some(ObjectOp::At { path, number })),
        None => Ok(None),
    }
}

fn remove_of(alloc: Global, path: &[u8], interface: &[u8]) -> Result<Option<ObjectOp>, AllocError>
    ensures { IfOk result (λ op. op ≡ remove_of (text_of path.now) (optional_of interface.now)) }
{
    let Some(path) = text_of(alloc, path)? else {
        return Ok(None);
    };
    match optional_of(alloc, interface)? {
        Some(interface) => Ok(Some(ObjectOp::Remove { path, interface })),
        None => Ok(None),
    }
}

fn iface_of(alloc: Global, path: &[u8], interface: &[u8]) -> Result<Option<ObjectOp>, AllocError>
    ensures { IfOk result (λ op. op ≡ iface_of (text_of path.now) (optional_of interface.now)) }
{
    let Some(path) = text_of(alloc, path)? else {
        return Ok(None);
    };
    match optional_of(alloc, interface)? {
        Some(interface) => Ok(Some(ObjectOp::Interface { path, interface })),
        None => Ok(None),
    }
}

/// What is asked of the peer's objects at a path, by the name, the path and the word behind it.
fn object_op(
    alloc: Global,
    name: &[u8],
    path: &[u8],
    word: &[u8],
) -> Result<Option<ObjectOp>, AllocError>
    ensures { IfOk result (λ op. op ≡ object_op name.now path.now word.now) }
{
    if same(name, b"at") {
        at_of(alloc, path, word)
    } else if same(name, b"remove") {
        remove_of(alloc, path, word)
    } else if same(name, b"iface") {
        iface_of(alloc, path, word)
    } else {
        Ok(None)
    }
}

/// A command that asks nothing of a call or of a stream.
fn plain(alloc: Global, name: &[u8], words: &[&[u8]]) -> Result<Option<Words>, AllocError>
    ensures { IfOk result (λ w. w ≡ plain name.now (map (λ word. word.now) words.now)) }
{
    match words {
        [] => Ok(lone(name)),
        [limit] => {
            if same(name, b"mainqueue") {
                Ok(number_of(limit).map(Words::MainQueue))
            } else {
                Ok(None)
            }
        }
        [first, second] => {
            if same(name, b"open") {
                open_of(alloc, first, second)
            } else {
                Ok(object_op(alloc, name, first, second)?.map(Words::Objects))
            }
        }
        _ => Ok(None),
    }
}

/// What is asked of a call, by the name and the words behind the number.
fn call_op(name: &[u8], words: &[&[u8]]) -> Option<CallOp>
    ensures { result ≡ call_op name.now (map (λ word. word.now) words.now) }
{
    match words {
        [] => {
            if same(name, b"poll") {
                Some(CallOp::Poll)
            } else if same(name, b"drop") {
                Some(CallOp::Drop)
            } else {
                None
            }
        }
        [word] => {
            if same(name, b"before") {
                number_of(word).map(CallOp::Before)
            } else {
                None
            }
        }
        _ => None,
    }
}

/// What is asked of a stream by a name and its number.
fn lone_stream_op(name: &[u8]) -> Option<StreamOp>
    ensures { result ≡ stream_op name.now [] }
{
    if same(name, b"take") {
        Some(StreamOp::Take)
    } else if same(name, b"opened") {
        Some(StreamOp::Opened)
    } else if same(name, b"clone") {
        Some(StreamOp::Clone)
    } else if same(name, b"unstream") {
        Some(StreamOp::Unstream(None))
    } else {
        None
    }
}

fn numbered_op(name: &[u8], number: Option<u64>) -> Option<StreamOp>
    ensures { result ≡ numbered_op name.now number }
{
    if same(name, b"takebefore") {
        number.map(StreamOp::TakeBefore)
    } else if same(name, b"queue") {
        number.map(StreamOp::Queue)
    } else if same(name, b"unstream") {
        Some(StreamOp::Unstream(Some(number?)))
    } else {
        None
    }
}

fn error_op(alloc: Global, name: &[u8], body: &[u8]) -> Result<Option<StreamOp>, AllocError>
    ensures { IfOk result (λ op. op ≡ error_op (text_of name.now) (optional_of body.now)) }
{
    let Some(name) = text_of(alloc, name)? else {
        return Ok(None);
    };
    match optional_of(alloc, body)? {
        Some(body) => Ok(Some(StreamOp::Error { name, body })),
        None => Ok(None),
    }
}

/// What is asked of a stream, by the name and the words behind the number.
fn stream_op(alloc: Global, name: &[u8], words: &[&[u8]]) -> Result<Option<StreamOp>, AllocError>
    ensures { IfOk result (λ op. op ≡ stream_op name.now (map (λ word. word.now) words.now)) }
{
    match words {
        [] => Ok(lone_stream_op(name)),
        [word] => {
            if same(name, b"reply") {
                Ok(optional_of(alloc, word)?.map(StreamOp::Reply))
            } else {
                Ok(numbered_op(name, number_of(word)))
            }
        }
        [error, body] => {
            if same(name, b"error") {
                error_op(alloc, error, body)
            } else {
                Ok(None)
            }
        }
        _ => Ok(None),
    }
}

/// A command that asks something of a call or of a stream.
fn asking_words(alloc: Global, name: &[u8], words: &[&[u8]]) -> Result<Option<Words>, AllocError>
    ensures { IfOk result (λ w. w ≡ asking_words name.now (map (λ word. word.now) words.now)) }
{
    let [number, more @ ..] = words else {
        return Ok(None);
    };
    let Some(number) = number_of(number) else {
        return Ok(None);
    };
    if let Some(op) = call_op(name, more) {
        return Ok(Some(Words::OfCall { call: number, op }));
    }
    match stream_op(alloc, name, more)? {
        Some(op) => Ok(Some(Words::OfStream { stream: number, op })),
        None => Ok(None),
    }
}

/// The words of a command, without its lane.
#[tactic(auto, unfolding(crate::specs::Script::command_words))]
pub(crate) fn command_words(alloc: Global, words: &[&[u8]]) -> Result<Option<Words>, AllocError>
    ensures { IfOk result (λ w. w ≡ command_words (map (λ word. word.now) words.now)) }
{
    let [name, more @ ..] = words else {
        return Ok(None);
    };
    if let Some(kind) = kind_of(name) {
        return sending(alloc, kind, more);
    }
    if let Some(words) = plain(alloc, name, more)? {
        return Ok(Some(words));
    }
    asking_words(alloc, name, more)
}
