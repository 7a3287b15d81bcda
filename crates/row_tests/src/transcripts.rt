//! Entries that no script reaches, as a transcript writes them.
use crate::row::{Written, refuse};
use peer_script::{PeerKind, Setup, Transcript, transcripts_are_read_again, write_transcript};
use peer_words::{Answer, Entry, Live, ObjectOp, Posts, StreamOp, Words};
use std::alloc::{AllocError, Global};
use wire_framing::MemorySink;
use wire_message::{Error, IoKind};
use wire_value::{Bytes, NamesError, OwnedUniqueName};

/// A peer on a message bus that reads nothing.
fn setup(alloc: Global) -> Result<Setup, NamesError> {
    Ok(Setup {
        kind: PeerKind::Bus(OwnedUniqueName::try_from(alloc, ":1.5")?),
        queue: None,
        machine: None,
        fds: false,
        outfault: None,
        pieces: Vec::new(alloc),
    })
}

/// The lane of writes.
const WRITER: u32 = 4_294_967_295;

/// An entry that put nothing.
pub(crate) fn entry(alloc: Global, lane: u32, words: Words, answer: Answer) -> Entry {
    Entry {
        lane,
        words,
        answer,
        read: None,
        put: Posts(Vec::new(alloc)),
        written: 0,
        failed: false,
    }
}

/// The path of the object.
fn path(alloc: Global) -> Result<Bytes, AllocError> {
    Bytes::from_slice(alloc, b"/a")
}

/// The path, and the name of an interface.
fn place(alloc: Global) -> Result<(Bytes, Option<Bytes>), AllocError> {
    let path = path(alloc)?;
    let name = Bytes::from_slice(alloc, b"b.c")?;
    Ok((path, Some(name)))
}

/// The path, and no name.
fn whole(alloc: Global) -> Result<(Bytes, Option<Bytes>), AllocError> {
    Ok((path(alloc)?, None))
}

/// Adds an interface with this number.
fn added(alloc: Global, number: u64) -> Result<ObjectOp, AllocError> {
    let path = path(alloc)?;
    Ok(ObjectOp::At { path, number })
}

fn removed((path, interface): (Bytes, Option<Bytes>)) -> ObjectOp {
    ObjectOp::Remove { path, interface }
}

fn kept((path, interface): (Bytes, Option<Bytes>)) -> ObjectOp {
    ObjectOp::Interface { path, interface }
}

/// What is asked of the peer's objects.
fn object_op(alloc: Global, word: &str) -> Result<ObjectOp, AllocError> {
    match word {
        "added" => added(alloc, 0),
        "exists" => added(alloc, u64::MAX),
        "removed" => Ok(removed(place(alloc)?)),
        "left" => Ok(removed(whole(alloc)?)),
        "slot" => Ok(kept(place(alloc)?)),
        "last-slot" => Ok(kept(whole(alloc)?)),
        _ => Ok(ObjectOp::Serve),
    }
}

/// What only lanes have that run at once.
fn live(alloc: Global, word: &str) -> Result<Live, NamesError> {
    match word {
        "written" => Ok(Live::Written(3)),
        "fault" => Ok(Live::Fault(3)),
        "await" => Ok(Live::Await(1)),
        "next" => Ok(Live::Next(1)),
        "worker" => Ok(Live::Worker),
        _ => Ok(Live::Unique(OwnedUniqueName::try_from(alloc, ":1.7")?)),
    }
}

/// The command of an entry.
fn words_of(alloc: Global, word: &str) -> Result<Words, NamesError> {
    match word {
        "gone" | "untold" | "unwritten" | "closed" | "refused" => Ok(Words::OfStream {
            stream: 7,
            op: StreamOp::Opened,
        }),
        "written" | "fault" | "await" | "next" | "worker" | "unique" => {
            Ok(Words::Live(live(alloc, word)?))
        }
        _ => Ok(Words::Objects(object_op(alloc, word)?)),
    }
}

/// What is answered of objects.
fn object_answer(word: &str) -> Answer {
    match word {
        "added" => Answer::Added,
        "exists" => Answer::Exists,
        "removed" => Answer::Removed(true),
        "left" => Answer::Removed(false),
        "slot" => Answer::Slot(0),
        "last-slot" => Answer::Slot(u64::MAX),
        "served" => Answer::Served(7),
        _ => Answer::Silent(8),
    }
}

/// What is answered where lanes run at once, or of objects.
fn live_answer(word: &str) -> Answer {
    match word {
        "written" | "fault" => Answer::Nothing,
        "await" => Answer::NotYet,
        "next" => Answer::Empty,
        "worker" => Answer::Ended,
        "unique" => Answer::Named(true),
        _ => object_answer(word),
    }
}

/// The answer of an entry: why the bus can't be told, a serial that is hard to reach, and the others.
fn answer_of(word: &str) -> Answer {
    match word {
        "gone" => Answer::Gone(Some(4_294_967_295)),
        "untold" => Answer::Refused(Error::SerialsSpent),
        "unwritten" => Answer::SendFailed(Error::InputOutput(IoKind::WriteFault)),
        "closed" => Answer::Closed(Error::InputOutput(IoKind::TimedOut)),
        "refused" => Answer::Refused(Error::MissingParameter("a path")),
        _ => live_answer(word),
    }
}

/// The lane of an entry.
fn lane_of(word: &str) -> u32 {
    match word {
        "written" | "fault" => WRITER,
        "await" | "next" | "worker" | "unique" => 2,
        "exists" => 63,
        "silent" => 5,
        _ => 0,
    }
}

/// The transcript of one entry.
fn transcript_of(alloc: Global, word: &str) -> Result<Transcript, NamesError> {
    let words = words_of(alloc, word)?;
    let entry = entry(alloc, lane_of(word), words, answer_of(word));
    let mut entries = Vec::new(alloc);
    entries.push(entry)?;
    Ok(Transcript { entries })
}

/// Writes the transcript.
pub(crate) fn write_lines(
    alloc: Global,
    out: &mut String,
    setup: &Setup,
    transcript: &Transcript,
) -> Written {
    let mut sink = MemorySink::new(alloc, false);
    match write_transcript(alloc, setup, transcript, b"", &mut sink) {
        Ok(()) => out.push_str(str::from_utf8(sink.bytes()).unwrap_or("no text")),
        Err(refusal) => write!(out, "{refusal:?}"),
    }
}

fn write_entry(alloc: Global, out: &mut String, setup: &Setup, word: &str) -> Written {
    match transcript_of(alloc, word) {
        Ok(transcript) => write_lines(alloc, out, setup, &transcript),
        Err(error) => refuse(out, &error),
    }
}

/// Writes the transcript of an entry.
pub(crate) fn write_answered(alloc: Global, out: &mut String, word: &str) -> Written {
    transcripts_are_read_again();
    match setup(alloc) {
        Ok(setup) => write_entry(alloc, out, &setup, word),
        Err(error) => refuse(out, &error),
    }
}
