//! A connection within the process: two pipes, one for each direction.
ghost use Rattle.std.specs.Prelude.{ℕ, ◌≡◌, ◌<◌, ◌≤◌, List, Bool, Option, None, Some, Ok, length, true, false, IsOk, IfOk, MatchResult, refl};
ghost use Rattle.wire_framing.specs.Sink.{Writes, Closes, asked_again};
ghost use Rattle.wire_framing.specs.Source.{Reads, Asks, Widens};
ghost use Rattle.wire_framing.specs.Untold.{IsNew, untold_source, untold_sink, no_name};
ghost use Rattle.wire_framing.specs.declared.sink.Refusal.TheVariants.{Memory};

use crate::pipe::Pipe;
use crate::read_half::ReadHalf;
use crate::sink::{Refusal, Sink};
use crate::socket::{Socket, Split};
use crate::source::{Failed, Source};
use crate::write_half::{WriteHalf, Writing};
use std::alloc::{AllocError, Global};
use std::sync::{Arc, Wait};

/// One end of a connection within the process. What a pipe holds is told by no clause, since another thread may change it at
/// any time.
pub struct Channel<R: Wait + Copy> {
    reader: Reader<R>,
    writer: Writer<R>,
}

impl<R: Wait + Copy> Drop for Channel<R> {
    fn drop(self) {
        let Channel {
            reader: _,
            writer: _,
        } = self;
    }
}

/// The source of an end. A read waits until the other end wrote or closed, or until this end closed. Once it is let go, what
/// the other end writes is passed over.
pub struct Reader<R: Wait + Copy> {
    rt: R,
    from: Arc<Pipe>,
    // whether a read came to the end
    over: bool,
}

/// The sink of an end. The bytes of one write enter the pipe at once, as one message; where 32 messages wait there, a write
/// waits. It takes no file descriptors. Once it is let go, the other end reads what waits, and then the end.
pub struct Writer<R: Wait + Copy> {
    rt: R,
    alloc: Global,
    to: Arc<Pipe>,
    // the other direction, which `close` shuts
    from: Arc<Pipe>,
    closes: u64,
}

impl<R: Wait + Copy> Drop for Reader<R> {
    fn drop(self) {
        let Reader { rt, from, over: _ } = self;
        from.shut(&rt);
    }
}

impl<R: Wait + Copy> Drop for Writer<R> {
    fn drop(self) {
        let Writer {
            rt,
            alloc: _,
            to,
            from: _,
            closes: _,
        } = self;
        to.end(&rt);
    }
}

impl<R: Wait + Copy> Channel<R> {
    /// Two ends, each of which reads what the other writes. Neither came to its end, or was closed.
    ///
    /// # Errors
    ///
    /// There is no memory.
    pub fn pair(rt: R, alloc: Global) -> Result<(Channel<R>, Channel<R>), AllocError>
        ensures { IfOk result (λ ends. IsNew ends.0.reader.over ends.0.writer.closes × IsNew ends.1.reader.over ends.1.writer.closes) }
    {
        let there = Arc::new(alloc, Pipe::new(alloc))?;
        let back = Arc::new(alloc, Pipe::new(alloc))?;
        let near = Channel::over(rt, alloc, Arc::try_clone(&there)?, Arc::try_clone(&back)?)?;
        let far = Channel::over(rt, alloc, back, there)?;
        Ok((near, far))
    }

    /// The end that writes to the one pipe and reads the other.
    fn over(rt: R, alloc: Global, to: Arc<Pipe>, from: Arc<Pipe>) -> Result<Channel<R>, AllocError>
        ensures { IfOk result (λ end. IsNew end.reader.over end.writer.closes) }
    {
        let reader = Reader {
            rt,
            from: Arc::try_clone(&from)?,
            over: false,
        };
        let writer = Writer {
            rt,
            alloc,
            to,
            from,
            closes: 0,
        };
        Ok(Channel { reader, writer })
    }
}

impl<R: Wait + Copy> Socket for Channel<R> {
    type In = Reader<R>;

    type Out = Writer<R>;

    ghost source = { λ c. c.reader };

    ghost sink = { λ c. c.writer };

    fn split(self) -> Split<ReadHalf<Reader<R>>, WriteHalf<Writer<R>>> {
        let Channel { reader, writer } = self;
        Split::new(ReadHalf::new(reader), WriteHalf::new(writer))
    }
}

impl<R: Wait + Copy> Source for Reader<R> {
    ghost view = { λ s. untold_source };

    /// A read never fails. For a buffer that isn't empty it gives 0 only at the end, and the end is for good.
    fn read(&mut self, buf: &mut [u8]) -> Result<usize, Failed>
        ensures bytes { Reads result buf.new untold_source untold_source }
        ensures asks { Asks untold_source untold_source 1 }
        ensures width { Widens untold_source untold_source (length buf.new) }
        ensures same { no_name ≡ no_name }
        ensures together { untold_source.left ≡ None → untold_source.stop ≡ None }
        ensures never_fails { IsOk result }
        ensures ended { result ≡ Ok 0 → 0 < length buf.new → self.new.over ≡ true }
        ensures for_good { self.old.over ≡ true → (result ≡ Ok 0) × (self.new.over ≡ true) }
    {
        if self.over || buf.is_empty() {
            return Ok(0);
        }
        match self.from.read(&self.rt, buf) {
            Some(count) => Ok(count),
            None => {
                self.over = true;
                Ok(0)
            }
        }
    }
}

impl<R: Wait + Copy> Sink for Writer<R> {
    ghost view = { λ s. untold_sink s.closes };

    ghost takes = { λ s. false };

    /// Takes the whole piece. Where an end is closed it is passed over. Fails only when out of memory.
    fn write(&mut self, piece: &[u8]) -> Result<usize, Refusal>
        ensures bytes { Writes result piece.now (untold_sink self.old.closes) (untold_sink self.new.closes) }
        ensures uncounted { (untold_sink self.new.closes).closes ≡ (untold_sink self.old.closes).closes }
        ensures fds { false ≡ false }
        ensures same { no_name ≡ no_name }
        ensures together { (untold_sink self.old.closes).held ≡ None → (untold_sink self.old.closes).room ≡ None }
        ensures whole { MatchResult result (λ count. count ≡ length piece.now) (λ e. e ≡ Memory) }
    {
        if piece.is_empty() {
            return Ok(0);
        }
        let Ok(message) = piece.to_vec(self.alloc) else {
            return Err(Refusal::Memory);
        };
        match self.to.write(&self.rt, message) {
            Ok(()) => Ok(piece.len()),
            Err(_) => Err(Refusal::Memory),
        }
    }

    /// Closes both directions: the other end reads what waits, and then the end; what it writes is passed over; this end's
    /// own reads end at once. It never fails.
    fn close(&mut self) -> Result<(), Failed>
        ensures bytes { Closes result (untold_sink self.old.closes) (untold_sink self.new.closes) }
        ensures counted { (untold_sink self.new.closes).closes ≡ asked_again (untold_sink self.old.closes).closes }
        ensures fds { false ≡ false }
        ensures same { no_name ≡ no_name }
        ensures never_fails { IsOk result }
    {
        self.closes = self.closes.saturating_add(1);
        self.to.end(&self.rt);
        self.from.shut(&self.rt);
        Ok(())
    }

    fn takes_fds(&self) -> bool {
        false
    }
}
