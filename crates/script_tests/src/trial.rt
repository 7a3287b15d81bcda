//! One script, run through the program in pieces of several sizes, and how that ended.
use crate::row::Fault;
use peer_boxes::{Named, own_interfaces};
use peer_run::{Interface, MemorySink, MemorySource, Piece, peer_main, program_main};
use std::alloc::{AllocError, Global};
use wire_value::{NamesError, OwnedInterfaceName};

/// A script, and what the program must end with.
#[derive(Clone, Copy)]
pub(crate) struct Wanted<'a> {
    pub(crate) input: &'a [u8],
    pub(crate) output: &'a [u8],
    pub(crate) status: u8,
    pub(crate) fault: Fault,
    /// The names of the interfaces that are handed in behind the program's own.
    pub(crate) interfaces: &'a str,
}

/// How the program ended.
#[derive(Clone, Copy)]
pub(crate) enum Ended {
    /// With the wanted status, and it printed what is wanted.
    Wanted,
    /// With the first status; the second was wanted.
    Status(u8, u8),
    /// It printed something else.
    Output,
}

/// The program's words.
fn words_of(alloc: Global, text: &str) -> Result<Vec<String>, AllocError> {
    let mut words = Vec::new(alloc);
    if text != "-" {
        for word in text.split(',') {
            words.push(String::from_str(alloc, word)?)?;
        }
    }
    Ok(words)
}

/// The script in pieces of that many bytes; the last may be shorter.
fn pieces_of(alloc: Global, wanted: &Wanted<'_>, size: usize) -> Result<Vec<Piece>, AllocError> {
    let mut pieces = Vec::new(alloc);
    for piece in wanted.input.chunks(size.max(1)) {
        pieces.push(Piece::Bytes(Vec::from_slice(alloc, piece)?))?;
    }
    if matches!(wanted.fault, Fault::Input) {
        pieces.push(Piece::Fault)?;
    }
    Ok(pieces)
}

/// Where the program prints to.
fn sink_of(alloc: Global, wanted: &Wanted<'_>) -> MemorySink {
    if matches!(wanted.fault, Fault::Output) {
        MemorySink::with_fault(alloc, wanted.output.len() as u64, false)
    } else {
        MemorySink::new(alloc, false)
    }
}

/// An interface of that name alone; none where it is no interface's name.
fn interface_of(alloc: Global, name: &str) -> Result<Option<Named>, AllocError> {
    match OwnedInterfaceName::try_from(alloc, name) {
        Ok(name) => Ok(Some(Named::new(name))),
        Err(NamesError::Memory) => Err(AllocError),
        Err(_) => Ok(None),
    }
}

/// The status where the program is handed more interfaces than it may be: no row has so many.
const MANY: u8 = 1;

/// The status with which the program ends on what the source gives, where an interface of each of these names is handed in behind the
/// program's own.
fn status_with(
    rt: &HostRuntime,
    words: &[String],
    interfaces: &str,
    source: &mut MemorySource<'_>,
    sink: &mut MemorySink,
) -> Result<u8, AllocError> {
    let alloc = rt.alloc();
    let mut boxes: Vec<Box<dyn Interface>> = Vec::new(alloc);
    for own in own_interfaces(alloc)? {
        boxes.push(Box::new(alloc, own)?)?;
    }
    for name in interfaces.split(',') {
        if let Some(interface) = interface_of(alloc, name)? {
            boxes.push(Box::new(alloc, interface)?)?;
        }
    }
    let status = if boxes.len() <= u32::MAX as usize {
        peer_main(rt, alloc, words, source, sink, boxes)
    } else {
        MANY
    };
    Ok(status)
}

/// The status with which the program ends on what the source gives.
fn status_of(
    rt: &HostRuntime,
    words: &[String],
    interfaces: &str,
    source: &mut MemorySource<'_>,
    sink: &mut MemorySink,
) -> Result<u8, AllocError> {
    if interfaces.is_empty() {
        Ok(program_main(rt.alloc(), words, source, sink))
    } else {
        status_with(rt, words, interfaces, source, sink)
    }
}

/// How the program ends on the script in pieces of that size.
fn ended_in_pieces(
    rt: &HostRuntime,
    words: &[String],
    wanted: &Wanted<'_>,
    size: usize,
) -> Result<Ended, AllocError> {
    let pieces = pieces_of(rt.alloc(), wanted, size)?;
    let mut source = MemorySource::new(pieces.as_slice());
    let mut sink = sink_of(rt.alloc(), wanted);
    let status = status_of(rt, words, wanted.interfaces, &mut source, &mut sink)?;
    if status != wanted.status {
        return Ok(Ended::Status(status, wanted.status));
    }
    if sink.bytes() != wanted.output {
        return Ok(Ended::Output);
    }
    Ok(Ended::Wanted)
}

/// How the program ends on the script as a whole, a byte at a time and in thirds: the first that isn't as wanted.
pub(crate) fn ended_of(
    rt: &HostRuntime,
    words: &str,
    wanted: &Wanted<'_>,
) -> Result<Ended, AllocError> {
    let words = words_of(rt.alloc(), words)?;
    let length = wanted.input.len();
    for size in [length, 1, length / 3 + 1] {
        let ended = ended_in_pieces(rt, words.as_slice(), wanted, size)?;
        if !matches!(ended, Ended::Wanted) {
            return Ok(ended);
        }
    }
    Ok(Ended::Wanted)
}
