//! What a line is.
ghost use Rattle.std.specs.Prelude.{◌≡◌, [], ◌∷◌, ◌++◌, length, take, map, IfOk, Some, None, option_map};
ghost use Rattle.std.specs.List.{list_any};
ghost use Rattle.std.specs.Char.{is_ascii_uppercase};
ghost use Rattle.peer_script.specs.Script.{before_answer, lane_words, command_words, command_line, head_line, line_of, in_lane, unique_of, machine_of, sent_line, is_absent};
ghost use Rattle.peer_script.specs.Word.{number_of, text_of};
ghost use Rattle.peer_words.specs.Hex.{bytes_of};
ghost use Rattle.peer_script.specs.declared.line.Line.TheVariants as lines;

use crate::command::{command_words, is_absent};
use crate::kind::PeerKind;
use crate::word::{number_of, same, text_of, words_of};
use peer_words::{Command, Words, read_hex};
use std::alloc::{AllocError, Global};
use wire_value::{Bytes, Guid, OwnedGuid, OwnedUniqueName, UniqueName};

/// The greatest lane.
const LAST_LANE: u64 = 63;

/// What a line of a script is.
#[derive(Drop)]
pub(crate) enum Line {
    /// What kind of peer it is, and its unique name, where it has one.
    Peer(PeerKind),
    /// How many messages a stream may hold.
    Capacity(u64),
    /// The id of the machine.
    Machine(OwnedGuid),
    /// The sink takes file descriptors.
    Fds,
    /// After how many bytes the sink fails a write.
    OutFault(u64),
    /// A piece of the source.
    In(Bytes),
    /// A read that fails.
    InFault,
    /// A command.
    Do(Command),
    /// The bytes that were sent, which are passed over.
    Sent,
}

/// What stands before the first ` = `.
fn before_answer(line: &[u8]) -> &[u8]
    ensures { result.now ≡ before_answer line.now }
{
    let mut at = 0;
    while at + 2 < line.len() {
        if line[at] == b' ' && line[at + 1] == b'=' && line[at + 2] == b' ' {
            return &line[..at];
        }
        at += 1;
    }
    line
}

fn in_lane(lane: u32, words: Option<Words>) -> Option<Command>
    ensures { result ≡ in_lane lane words }
{
    match words {
        Some(words) => Some(Command { lane, words }),
        None => None,
    }
}

fn lane_words(alloc: Global, words: &[&[u8]]) -> Result<Option<Command>, AllocError>
    ensures { IfOk result (λ c. c ≡ lane_words (map (λ word. word.now) words.now)) }
{
    let [word, rest @ ..] = words else {
        return Ok(None);
    };
    match number_of(word) {
        Some(lane) => {
            if lane <= LAST_LANE {
                Ok(in_lane(lane as u32, command_words(alloc, rest)?))
            } else {
                Ok(None)
            }
        }
        None => Ok(in_lane(0, command_words(alloc, words)?)),
    }
}

fn command_line(alloc: Global, line: &[u8]) -> Result<Option<Command>, AllocError>
    ensures { IfOk result (λ c. c ≡ command_line line.now) }
{
    let words = words_of(alloc, before_answer(line))?;
    lane_words(alloc, words.as_slice())
}

/// The unique name that a word is.
fn unique_of(alloc: Global, word: &[u8]) -> Result<Option<OwnedUniqueName>, AllocError>
    ensures { IfOk result (λ name. name ≡ unique_of (text_of word.now)) }
{
    let Some(text) = text_of(alloc, word)? else {
        return Ok(None);
    };
    match UniqueName::try_from_bytes(text.as_slice()) {
        Ok(name) => Ok(Some(name.to_owned(alloc)?)),
        Err(_) => Ok(None),
    }
}

fn has_upper(word: &[u8]) -> bool
    ensures { result ≡ list_any is_ascii_uppercase word.now }
{
    word.iter().any(|byte| byte.is_ascii_uppercase())
}

/// Returns the id of a machine that a word is: a GUID without an upper-case letter.
#[tactic(auto, using(crate::proofs::Ids::no_id))]
fn machine_of(alloc: Global, word: &[u8]) -> Result<Option<OwnedGuid>, AllocError>
    ensures { IfOk result (λ id. id ≡ machine_of word.now) }
{
    let Ok(text) = str::from_utf8(word) else {
        return Ok(None);
    };
    match Guid::try_from(text) {
        Ok(id) if !has_upper(word) => Ok(Some(id.to_owned(alloc)?)),
        _ => Ok(None),
    }
}

fn in_line(alloc: Global, word: &[u8]) -> Result<Option<Line>, AllocError>
    ensures { IfOk result (λ line. line ≡ option_map lines.In (bytes_of word.now)) }
{
    match read_hex(alloc, word)? {
        Some(piece) => Ok(Some(Line::In(Bytes::from_vec(piece)))),
        None => Ok(None),
    }
}

fn sent_line(alloc: Global, word: &[u8]) -> Result<Option<Line>, AllocError>
    ensures { IfOk result (λ line. line ≡ sent_line word.now) }
{
    if is_absent(word) || read_hex(alloc, word)?.is_some() {
        Ok(Some(Line::Sent))
    } else {
        Ok(None)
    }
}

/// The header line of one word.
#[tactic(auto, unfolding(crate::specs::Script::head_line))]
fn lone_head(name: &[u8]) -> Option<Line>
    ensures { result ≡ head_line (name.now ∷ []) }
{
    if same(name, b"direct") {
        Some(Line::Peer(PeerKind::Direct(None)))
    } else if same(name, b"fds") {
        Some(Line::Fds)
    } else if same(name, b"infault") {
        Some(Line::InFault)
    } else {
        None
    }
}

/// The header line, or the line `sent`, of a name and a word.
#[tactic(auto, unfolding(crate::specs::Script::head_line))]
fn head_of(alloc: Global, name: &[u8], word: &[u8]) -> Result<Option<Line>, AllocError>
    ensures { IfOk result (λ line. line ≡ head_line (name.now ∷ word.now ∷ [])) }
{
    if same(name, b"direct") {
        Ok(unique_of(alloc, word)?.map(|name| Line::Peer(PeerKind::Direct(Some(name)))))
    } else if same(name, b"bus") {
        Ok(unique_of(alloc, word)?.map(|name| Line::Peer(PeerKind::Bus(name))))
    } else if same(name, b"in") {
        in_line(alloc, word)
    } else if same(name, b"queue") {
        Ok(number_of(word).map(Line::Capacity))
    } else if same(name, b"machine") {
        Ok(machine_of(alloc, word)?.map(Line::Machine))
    } else if same(name, b"outfault") {
        Ok(number_of(word).map(Line::OutFault))
    } else if same(name, b"sent") {
        sent_line(alloc, word)
    } else {
        Ok(None)
    }
}

#[tactic(auto, unfolding(crate::specs::Script::head_line))]
fn head_line(alloc: Global, words: &[&[u8]]) -> Result<Option<Line>, AllocError>
    ensures { IfOk result (λ line. line ≡ head_line (map (λ word. word.now) words.now)) }
{
    match words {
        [name] => Ok(lone_head(name)),
        [name, word] => head_of(alloc, name, word),
        _ => Ok(None),
    }
}

/// What a line is, where it is in the table.
#[tactic(auto, unfolding(crate::specs::Script::line_of))]
pub(crate) fn line_of(alloc: Global, line: &[u8]) -> Result<Option<Line>, AllocError>
    ensures { IfOk result (λ l. l ≡ line_of line.now) }
{
    let words = words_of(alloc, line)?;
    if let Some(head) = head_line(alloc, words.as_slice())? {
        return Ok(Some(head));
    }
    Ok(command_line(alloc, line)?.map(Line::Do))
}
