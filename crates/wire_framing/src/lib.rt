//! A read takes one message, or one ignored front, from a source of bytes. A send writes all bytes of a message to a sink, or fails
//! (D-Bus Specification, "Message Protocol").
#![tactic(auto)]

mod boxes;
mod channel;
mod lent;
mod memory;
mod pipe;
mod read_half;
mod read_to_message;
mod sink;
mod socket;
mod sockets;
mod source;
mod streams;
mod write_half;

pub use channel::{Channel, Reader, Writer};
pub use memory::{MemorySink, MemorySource, Piece};
pub use read_half::ReadHalf;
pub use sink::{Refusal, Sink, write_all};
pub use socket::{BoxedSplit, Socket, Split};
pub use sockets::{SocketSink, SocketSource, StreamSocket};
pub use source::{Failed, Source};
pub use streams::{StdSink, StdSource};
pub use write_half::{WriteHalf, Writing};
