//! Messages from and to memory.

use crate::test_support::{RETURN, holds, is_return};
use std::alloc::Global;
use wire_framing::{MemorySink, MemorySource, Piece, ReadHalf, WriteHalf, write_all};
use wire_message::{Result as Answer, message_of};

/// The method call of `do` at `/`, of serial 1, with one file descriptor: 56 bytes.
const WITH_DESCRIPTOR: [u8; 56] = [
    108, 1, 0, 1, 0, 0, 0, 0, 1, 0, 0, 0, 40, 0, 0, 0, 1, 1, 111, 0, 1, 0, 0, 0, 47, 0, 0, 0, 0, 0,
    0, 0, 3, 1, 115, 0, 2, 0, 0, 0, 100, 111, 0, 0, 0, 0, 0, 0, 9, 1, 117, 0, 1, 0, 0, 0,
];

/// These bytes as a piece.
fn piece(alloc: Global, bytes: &[u8]) -> Answer<Piece> {
    Ok(Piece::Bytes(bytes.to_vec(alloc)?))
}

/// These bytes, one piece before the tenth and one behind it, and then a failing call.
fn pieces_of(alloc: Global, bytes: &[u8]) -> Answer<Vec<Piece>> {
    let (front, rest) = bytes.split_at(bytes.len().min(10));
    let mut pieces = Vec::new(alloc);
    pieces.push(piece(alloc, front)?)?;
    pieces.push(piece(alloc, rest)?)?;
    pieces.push(Piece::Fault)?;
    Ok(pieces)
}

/// Whether a return comes of these pieces, in the fewest reads, none wider than what is missing.
fn comes_in_pieces(alloc: Global, pieces: &[Piece]) -> bool {
    let mut half = ReadHalf::new(MemorySource::new(pieces));
    let comes = is_return(&half.receive_message(alloc, 1, &mut Vec::new(alloc)), 1);
    let source = half.into_source();
    comes && source.asked() == 3 && source.widest() == 16
}

/// Whether a return comes of what was kept and of these pieces, with nothing left.
fn comes_behind(alloc: Global, pieces: &[Piece], mut kept: Vec<u8>) -> bool {
    let mut half = ReadHalf::new(MemorySource::new(pieces));
    is_return(&half.receive_message(alloc, 1, &mut kept), 1)
        && kept.is_empty()
        && half.into_source().asked() == 3
}

fn one_comes_in_pieces(alloc: Global) -> Answer<bool> {
    Ok(comes_in_pieces(alloc, &pieces_of(alloc, &RETURN)?))
}

fn one_comes_behind(alloc: Global) -> Answer<bool> {
    let pieces = pieces_of(alloc, &RETURN[4..])?;
    Ok(comes_behind(alloc, &pieces, RETURN[..4].to_vec(alloc)?))
}

#[test]
fn one_comes(rt: HostRuntime) {
    assert!(rt; holds(one_comes_in_pieces(rt.alloc())));
    assert!(rt; holds(one_comes_behind(rt.alloc())));
}

/// Whether a sink holds the return once its bytes were written.
fn all_is_written(alloc: Global) -> bool {
    let mut sink = MemorySink::new(alloc, false);
    write_all(&mut sink, &RETURN) == Ok(()) && sink.into_bytes().as_slice() == RETURN.as_slice()
}

/// The half's sink, once it sent the call and was closed.
fn closed_behind(alloc: Global, mut half: WriteHalf<MemorySink>) -> Answer<MemorySink> {
    half.send_message(&message_of(alloc, WITH_DESCRIPTOR.to_vec(alloc)?)?)?;
    half.close()?;
    Ok(half.into_sink())
}

fn descriptor_goes_out(alloc: Global) -> Answer<bool> {
    let sink = closed_behind(alloc, WriteHalf::new(MemorySink::new(alloc, true)))?;
    Ok(sink.bytes() == WITH_DESCRIPTOR.as_slice() && sink.closes() == 1)
}

#[test]
fn one_goes(rt: HostRuntime) {
    assert!(rt; all_is_written(rt.alloc()));
    assert!(rt; holds(descriptor_goes_out(rt.alloc())));
}
