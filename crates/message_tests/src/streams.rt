//! Real streams and sockets, and broken ones.

use crate::test_support::{RETURN, count_of, holds, send_behind};
use std::alloc::Global;
use std::io;
use std::io::{Read, Write};
use std::net::{Ipv4Addr, SocketAddr, TcpListener, TcpStream};
use std::os::unix::net::UnixStream;
use wire_framing::{
    BoxedSplit, Failed, ReadHalf, Refusal, Sink, SocketSink, SocketSource, Source, Split, StdSink,
    StdSource, StreamSocket, WriteHalf, Writing,
};
use wire_message::{Error, IoKind, Result as Answer};

/// Sends one return to this sink, and closes it.
fn send_one<W: Sink>(alloc: Global, half: &mut WriteHalf<W>) -> Answer<()> {
    send_behind(alloc, half, 0, 1)?;
    half.close()
}

/// How many returns come of this source.
fn comes<S: Source + Drop>(alloc: Global, source: S) -> Option<u8> {
    count_of(alloc, &mut ReadHalf::new(source))
}

/// Whether the one socket gets what the other sends and closes.
fn passes_one<S: Read + Write + StreamSocket + Drop>(
    alloc: Global,
    near: S,
    far: S,
) -> Answer<bool> {
    let mut half = WriteHalf::new(SocketSink::new(near));
    send_one(alloc, &mut half)?;
    Ok(!half.can_pass_unix_fd() && comes(alloc, SocketSource::new(far)) == Some(1))
}

/// Both ends of a connection of this machine.
fn tcp(rt: &HostRuntime) -> io::Result<(TcpStream, TcpStream)> {
    let listener = TcpListener::bind(rt, SocketAddr::from((Ipv4Addr::LOCALHOST, 0)))?;
    let near = TcpStream::connect(rt, listener.local_addr()?)?;
    let (far, _) = listener.accept()?;
    Ok((near, far))
}

fn tcp_passes(rt: &HostRuntime) -> bool {
    match tcp(rt) {
        Ok((near, far)) => holds(passes_one(rt.alloc(), near, far)),
        Err(_) => false,
    }
}

fn unix_passes(rt: &HostRuntime) -> bool {
    match UnixStream::pair(rt) {
        Ok((near, far)) => holds(passes_one(rt.alloc(), near, far)),
        Err(_) => false,
    }
}

#[test]
fn over_sockets(rt: HostRuntime) {
    assert!(rt; tcp_passes(&rt));
    assert!(rt; unix_passes(&rt));
}

/// Two halves over the ends of a pipe, in boxes.
fn boxed(rt: &HostRuntime, alloc: Global) -> io::Result<BoxedSplit> {
    let (far, near) = io::pipe(rt)?;
    let source: Box<dyn Source + Send + Drop> = Box::new(alloc, StdSource::new(far))?;
    let sink: Box<dyn Sink + Send + Drop> = Box::new(alloc, StdSink::new(near))?;
    Ok(Split::new(ReadHalf::new(source), WriteHalf::new(sink)))
}

/// Whether one return comes out of the halves, the one let go.
fn comes_out(alloc: Global, mut halves: BoxedSplit) -> Answer<bool> {
    send_one(alloc, halves.write_mut())?;
    let (mut reads, writes) = halves.take();
    drop(writes);
    Ok(count_of(alloc, &mut reads) == Some(1))
}

fn boxes_pass(rt: &HostRuntime) -> bool {
    match boxed(rt, rt.alloc()) {
        Ok(halves) => holds(comes_out(rt.alloc(), halves)),
        Err(_) => false,
    }
}

#[test]
fn over_a_pipe_in_boxes(rt: HostRuntime) {
    assert!(rt; boxes_pass(&rt));
}

#[test]
fn straight_out(rt: HostRuntime) {
    assert_eq!(rt; StdSink::new(io::writer(&rt)).write(b"pipit\n"), Ok(6));
}

/// A reader, a writer and a socket that fail.
#[derive(Drop)]
struct Broken;

fn fault() -> io::Error {
    io::Error::from(io::ErrorKind::BrokenPipe)
}

impl Read for Broken {
    fn read(&mut self, _buf: &mut [u8]) -> io::Result<usize> {
        Err(fault())
    }
}

impl Write for Broken {
    fn write(&mut self, _buf: &[u8]) -> io::Result<usize> {
        Err(fault())
    }

    fn flush(&mut self) -> io::Result<()> {
        Err(fault())
    }
}

impl StreamSocket for Broken {
    fn shut_down(&self) -> io::Result<()> {
        Err(fault())
    }
}

#[test]
fn broken_ones(rt: HostRuntime) {
    assert_eq!(rt; StdSource::new(Broken).read(&mut [0; 4]), Err(Failed));
    assert_eq!(rt; StdSink::new(Broken).write(&RETURN), Err(Refusal::Failed));
    assert_eq!(rt; SocketSink::new(Broken).close(), Err(Failed));
}

/// A writer of which each write fails with an error of this kind.
#[derive(Drop)]
struct Failing {
    kind: io::ErrorKind,
}

impl Write for Failing {
    fn write(&mut self, _buf: &[u8]) -> io::Result<usize> {
        Err(io::Error::from(self.kind))
    }

    fn flush(&mut self) -> io::Result<()> {
        Ok(())
    }
}

/// What a sink over a writer answers where each write fails so.
fn refusal_by(kind: io::ErrorKind) -> Result<usize, Refusal> {
    StdSink::new(Failing { kind }).write(&RETURN)
}

#[test]
fn only_out_of_memory_is_memory(rt: HostRuntime) {
    assert_eq!(rt;
        refusal_by(io::ErrorKind::OutOfMemory),
        Err(Refusal::Memory)
    );
    assert_eq!(rt;
        refusal_by(io::ErrorKind::Interrupted),
        Err(Refusal::Failed)
    );
    assert_eq!(rt; refusal_by(io::ErrorKind::Other), Err(Refusal::Failed));
}

/// A writer that takes what comes and can't be flushed.
#[derive(Drop)]
struct Unflushed;

impl Write for Unflushed {
    fn write(&mut self, buf: &[u8]) -> io::Result<usize> {
        Ok(buf.len())
    }

    fn flush(&mut self) -> io::Result<()> {
        Err(fault())
    }
}

/// Whether the half is closed, and says so, though its sink can't be flushed.
fn is_unflushed(alloc: Global) -> Answer<bool> {
    let mut half = WriteHalf::new(StdSink::new(Unflushed));
    send_behind(alloc, &mut half, 0, 1)?;
    let answer = half.close();
    Ok(
        matches!(&answer, Err(Error::InputOutput(IoKind::WriteFault)))
            && half.writing() == Writing::Closed,
    )
}

#[test]
fn one_that_cannot_be_flushed(rt: HostRuntime) {
    assert!(rt; holds(is_unflushed(rt.alloc())));
}
