//! Sources and sinks in memory, which tell their bytes and fail where they are told to.
ghost use Rattle.std.specs.Prelude.{ℕ, ◌≡◌, ◌+◌, ◌^◌, ◌-◌, ◌≤◌, ◌<◌, List, [], ◌++◌, length, take, drop, Bool, ◌==◌, Some, None, OnOk, IfOk, IfErr, min, max};
ghost use Rattle.std.specs.Option.{option_map_or};
ghost use Rattle.wire_framing.specs.Untold.{no_name};
ghost use Rattle.wire_framing.specs.Source.{Reads, Asks, Widens};
ghost use Rattle.wire_framing.specs.Sink.{Writes};
ghost use Rattle.wire_framing.specs.Memory.{told_bytes, told_stop, source_view, next_piece, ReadsPiece, sink_view};
ghost use Rattle.wire_framing.specs.declared.sink.Refusal.TheVariants.{Memory};

use crate::sink::{Refusal, Sink};
use crate::source::{Failed, Source};
use std::alloc::Global;

/// What a memory source gives.
pub enum Piece {
    /// Bytes, of which a read gives no more than these.
    Bytes(Vec<u8>),
    /// One read fails.
    Fault,
}

impl Drop for Piece {
    fn drop(self) {
        match self {
            Piece::Bytes(_) | Piece::Fault => {}
        }
    }
}

/// A source over pieces in memory. It tells its bytes until its first failed call, how often it was asked, and its widest
/// buffer.
#[derive(Drop)]
pub struct MemorySource<'a> {
    piece: &'a [u8],
    pieces: &'a [Piece],
    faults: u64,
    asked: u64,
    widest: usize,
}

impl<'a> MemorySource<'a> {
    /// A source that gives these pieces.
    pub fn new(pieces: &'a [Piece]) -> MemorySource<'a>
        ensures { source_view result ≡ record { left = Some (told_bytes pieces.now); stop = Some (told_stop pieces.now); faults = 0; asked = Some 0; widest = Some 0 } }
    {
        MemorySource {
            piece: &[],
            pieces,
            faults: 0,
            asked: 0,
            widest: 0,
        }
    }

    /// How often a read asked this source; a count stays at 2^64 - 1.
    pub fn asked(&self) -> u64
        ensures { result ≡ self.now.asked }
    {
        self.asked
    }

    /// The length of the widest buffer that a read had, 0 before the first.
    pub fn widest(&self) -> usize
        ensures { result ≡ self.now.widest }
    {
        self.widest
    }
}

impl<'a> Source for MemorySource<'a> {
    ghost view = { λ s. source_view s };

    /// Gives as many bytes as the buffer has room for of the first piece that isn't empty, and never of two pieces. Failed
    /// comes exactly where a failing call stands before that piece. Each read counts, whatever it answers.
    #[tactic(auto, using(crate::specs::Memory::told_of_no_more))]
    fn read(&mut self, buf: &mut [u8]) -> Result<usize, Failed>
        ensures bytes { Reads result buf.new (source_view self.old) (source_view self.new) }
        ensures asks { Asks (source_view self.old) (source_view self.new) 1 }
        ensures width { Widens (source_view self.old) (source_view self.new) (length buf.new) }
        ensures same { no_name ≡ no_name }
        ensures together { (source_view self.old).left ≡ None → (source_view self.old).stop ≡ None }
        ensures piece { ReadsPiece result buf.new (next_piece self.old.piece.now self.old.pieces.now) }
        ensures counted { self.new.asked ≡ min (self.old.asked + 1) (2 ^ 64 - 1) }
        ensures widest { self.new.widest ≡ max self.old.widest (length buf.new) }
    {
        self.asked = self.asked.saturating_add(1);
        self.widest = self.widest.max(buf.len());
        while self.piece.is_empty() {
            let Some((piece, pieces)) = self.pieces.split_first() else {
                return Ok(0);
            };
            self.pieces = pieces;
            match piece {
                Piece::Bytes(bytes) => self.piece = bytes.as_slice(),
                Piece::Fault => {
                    self.faults = self.faults.saturating_add(1);
                    return Err(Failed);
                }
            }
        }
        let count = self.piece.len().min(buf.len());
        let (front, rest) = self.piece.split_at(count);
        buf[..count].copy_from_slice(front);
        self.piece = rest;
        Ok(count)
    }
}

/// A sink in memory. It tells its bytes, where its one write fails, and how often it was asked to close.
pub struct MemorySink {
    bytes: Vec<u8>,
    room: Option<u64>,
    takes_fds: bool,
    faults: u64,
    closes: u64,
}

impl Drop for MemorySink {
    fn drop(self) {
        let MemorySink {
            bytes: _,
            room: _,
            takes_fds: _,
            faults: _,
            closes: _,
        } = self;
    }
}

impl MemorySink {
    /// An empty sink of which no write fails.
    pub fn new(alloc: Global, takes_fds: bool) -> MemorySink
        ensures bytes { result.bytes.items ≡ [] }
        ensures room { result.room ≡ None }
        ensures fds { result.takes_fds ≡ takes_fds }
        ensures faults { result.faults ≡ 0 }
        ensures closes { result.closes ≡ 0 }
    {
        MemorySink {
            bytes: Vec::new(alloc),
            room: None,
            takes_fds,
            faults: 0,
            closes: 0,
        }
    }

    /// An empty sink that fails the one write that would go past `count` bytes, and takes whatever comes after it.
    pub fn with_fault(alloc: Global, count: u64, takes_fds: bool) -> MemorySink
        ensures bytes { result.bytes.items ≡ [] }
        ensures room { result.room ≡ Some count }
        ensures fds { result.takes_fds ≡ takes_fds }
        ensures faults { result.faults ≡ 0 }
        ensures closes { result.closes ≡ 0 }
    {
        MemorySink {
            bytes: Vec::new(alloc),
            room: Some(count),
            takes_fds,
            faults: 0,
            closes: 0,
        }
    }

    /// The bytes that the sink holds.
    pub fn bytes(&self) -> &[u8]
        ensures { result.now ≡ self.now.bytes.items }
    {
        self.bytes.as_slice()
    }

    /// How often this sink was asked to close; a count stays at 2^64 - 1.
    pub fn closes(&self) -> u64
        ensures { result ≡ self.now.closes }
    {
        self.closes
    }

    /// The bytes that the sink holds.
    pub fn into_bytes(self) -> Vec<u8>
        ensures { result.items ≡ self.bytes.items }
    {
        let MemorySink {
            bytes,
            room: _,
            takes_fds: _,
            faults: _,
            closes: _,
        } = self;
        bytes
    }
}

fn append(bytes: &mut Vec<u8>, piece: &[u8]) -> Result<(), Refusal>
    ensures ok { OnOk result (bytes.new.items ≡ bytes.old.items ++ piece.now) }
    ensures err { IfErr result (λ e. (e ≡ Memory) × (bytes.new.items ≡ bytes.old.items)) }
{
    match bytes.extend_from_slice(piece) {
        Ok(()) => Ok(()),
        Err(_) => Err(Refusal::Memory),
    }
}

impl Sink for MemorySink {
    ghost view = { λ s. sink_view s };

    ghost takes = { λ s. s.takes_fds };

    // all that there is room for is taken at once
    fn write(&mut self, piece: &[u8]) -> Result<usize, Refusal>
        ensures bytes { Writes result piece.now (sink_view self.old) (sink_view self.new) }
        ensures uncounted { (sink_view self.new).closes ≡ (sink_view self.old).closes }
        ensures fds { self.new.takes_fds ≡ self.old.takes_fds }
        ensures same { no_name ≡ no_name }
        ensures together { (sink_view self.old).held ≡ None → (sink_view self.old).room ≡ None }
        ensures all { IfOk result (λ count. count ≡ option_map_or (λ room. min room (length piece.now)) self.old.room (length piece.now)) }
    {
        let Some(room) = self.room else {
            append(&mut self.bytes, piece)?;
            return Ok(piece.len());
        };
        if piece.is_empty() {
            return Ok(0);
        }
        if room == 0 {
            self.room = None;
            self.faults = self.faults.saturating_add(1);
            return Err(Refusal::Failed);
        }
        let count = room.min(piece.len() as u64);
        append(&mut self.bytes, &piece[..count as usize])?;
        self.room = Some(room - count);
        Ok(count as usize)
    }

    /// Only counts the call; it never fails.
    fn close(&mut self) -> Result<(), Failed> {
        self.closes = self.closes.saturating_add(1);
        Ok(())
    }

    fn takes_fds(&self) -> bool {
        self.takes_fds
    }
}
