//! One direction of a channel: messages wait in it, behind a lock, until they are read.
ghost use Rattle.std.specs.Prelude.{ℕ, ◌≡◌, ◌<◌, ◌≤◌, length, IfSome};

use std::alloc::{AllocError, Global};
use std::collections::VecDeque;
use std::sync::{Condvar, Mutex, Wait};

/// The most messages that a pipe holds.
const CAPACITY: usize = 32;

/// What a pipe holds.
struct Held {
    /// The bytes of each message; none is empty.
    messages: VecDeque<Vec<u8>>,
    /// How many bytes of the first message were read.
    read: usize,
    /// Whether the end that writes was closed: no more bytes come.
    ended: bool,
    /// Whether the end that reads was closed: what is written is passed over.
    shut: bool,
}

impl Drop for Held {
    fn drop(self) {
        let Held {
            messages: _,
            read: _,
            ended: _,
            shut: _,
        } = self;
    }
}

impl Held {
    fn is_closed(&self) -> bool {
        self.ended || self.shut
    }

    /// Whether a read waits.
    fn is_empty(&self) -> bool {
        self.messages.is_empty() && !self.is_closed()
    }

    /// Whether a write waits.
    fn is_full(&self) -> bool {
        self.messages.len() >= CAPACITY && !self.is_closed()
    }

    /// Takes as many bytes of the first message as the buffer has room for; says how many.
    fn give(&mut self, buf: &mut [u8]) -> usize
        ensures within { result ≤ length buf.new }
        ensures same { length buf.new ≡ length buf.old }
    {
        let Some(message) = self.messages.front() else {
            return 0;
        };
        let length = message.len();
        let from = self.read.min(length);
        let count = buf.len().min(length - from);
        buf[..count].copy_from_slice(&message[from..from + count]);
        self.read = from + count;
        if self.read == length {
            self.messages.pop_front();
            self.read = 0;
        }
        count
    }

    /// Puts a message behind those that wait, or passes it over where an end is closed.
    fn put(&mut self, message: Vec<u8>) -> Result<(), AllocError> {
        if self.is_closed() {
            return Ok(());
        }
        match self.messages.push_back(message) {
            Ok(()) => Ok(()),
            Err(_) => Err(AllocError),
        }
    }
}

/// A pipe from the one end of a channel to the other.
pub(crate) struct Pipe {
    held: Mutex<Held>,
    changed: Condvar,
}

impl Drop for Pipe {
    fn drop(self) {
        let Pipe {
            held: _,
            changed: _,
        } = self;
    }
}

impl Pipe {
    /// An open pipe that holds nothing.
    pub(crate) fn new(alloc: Global) -> Pipe {
        Pipe {
            held: Mutex::new(Held {
                messages: VecDeque::new(alloc),
                read: 0,
                ended: false,
                shut: false,
            }),
            changed: Condvar::new(),
        }
    }

    /// Takes bytes of one message, at least one, for a buffer that isn't empty; waits until there are some or an end is closed.
    /// None comes once the end that reads is closed, or once the other is and all was read.
    pub(crate) fn read<R: Wait>(&self, rt: &R, buf: &mut [u8]) -> Option<usize>
        ensures within { IfSome result (λ count. (0 < count) × (count ≤ length buf.new)) }
        ensures same { length buf.new ≡ length buf.old }
    {
        let mut held = self
            .changed
            .wait_while(rt, self.held.lock(rt), |held| held.is_empty());
        let count = held.give(buf);
        drop(held);
        self.changed.notify_all();
        if count > 0 { Some(count) } else { None }
    }

    /// Puts a message in; waits until there is room or an end is closed.
    pub(crate) fn write<R: Wait>(&self, rt: &R, message: Vec<u8>) -> Result<(), AllocError> {
        let mut held = self
            .changed
            .wait_while(rt, self.held.lock(rt), |held| held.is_full());
        let answer = held.put(message);
        drop(held);
        self.changed.notify_all();
        answer
    }

    /// Closes the end that writes: what waits can still be read.
    pub(crate) fn end<R: Wait>(&self, rt: &R) {
        let mut held = self.held.lock(rt);
        held.ended = true;
        drop(held);
        self.changed.notify_all();
    }

    /// Closes the end that reads: what waits goes away.
    pub(crate) fn shut<R: Wait>(&self, rt: &R) {
        let mut held = self.held.lock(rt);
        held.shut = true;
        held.messages.clear();
        drop(held);
        self.changed.notify_all();
    }
}
