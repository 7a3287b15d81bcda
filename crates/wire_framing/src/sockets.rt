//! The trusted edge of connections over the network and within the machine: a stream socket, TCP or Unix, as a source and a
//! sink. They tell what the standard ones tell.
ghost use Rattle.std.specs.Prelude.{◌≡◌, false, None, Some, refl};

use crate::sink::{Refusal, Sink};
use crate::source::Failed;
use crate::streams::{StdSink, StdSource};
use std::io;
use std::io::Write;
use std::net::{Shutdown, TcpStream};
use std::os::unix::net::UnixStream;

/// A connected stream socket (D-Bus Specification, "Transports").
pub trait StreamSocket {
    /// Shuts the connection down, both ways: no more bytes go out, and none come in.
    fn shut_down(&self) -> io::Result<()>;
}

impl StreamSocket for TcpStream {
    fn shut_down(&self) -> io::Result<()> {
        self.shutdown(Shutdown::Both)
    }
}

impl StreamSocket for UnixStream {
    fn shut_down(&self) -> io::Result<()> {
        self.shutdown(Shutdown::Both)
    }
}

/// A source over a handle of a stream socket.
pub type SocketSource<S> = StdSource<S>;

/// A sink over a handle of a stream socket, as the standard one over a writer, but that `close` shuts the connection down.
#[derive(Drop)]
pub struct SocketSink<S> {
    stream: StdSink<S>,
}

impl<S: Write + StreamSocket> SocketSink<S> {
    /// A sink that writes to this socket.
    pub fn new(stream: S) -> SocketSink<S>
        ensures stream { result.stream.writer ≡ stream }
        ensures faults { result.stream.faults ≡ 0 }
        ensures closes { result.stream.closes ≡ 0 }
    {
        SocketSink {
            stream: StdSink::new(stream),
        }
    }
}

impl<S: Write + StreamSocket> Sink for SocketSink<S> {
    ghost view = { λ s. record { held = S.contents s.stream.writer; room = None; faults = s.stream.faults; closes = Some s.stream.closes } };

    ghost takes = { λ s. false };

    fn write(&mut self, piece: &[u8]) -> Result<usize, Refusal> {
        self.stream.write(piece)
    }

    /// Ok exactly where the connection could be shut down.
    fn close(&mut self) -> Result<(), Failed> {
        self.stream.count_close();
        match self.stream.writer().shut_down() {
            Ok(()) => Ok(()),
            Err(_) => Err(self.stream.fail()),
        }
    }

    fn takes_fds(&self) -> bool {
        false
    }
}
