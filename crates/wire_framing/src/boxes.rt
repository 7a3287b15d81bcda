//! A boxed source or sink, of whatever type, is one too: a call goes to the value inside.
ghost use Rattle.std.specs.Prelude.{◌≡◌};

use crate::sink::{Refusal, Sink};
use crate::source::{Failed, Source};

impl Source for Box<dyn Source + Send + Drop> {
    ghost view = { λ b. (Source-box b).view b.value };

    ghost lent = { λ b. (Source-box b).lent b.value };

    fn read(&mut self, buf: &mut [u8]) -> Result<usize, Failed> {
        (**self).read(buf)
    }
}

impl Sink for Box<dyn Sink + Send + Drop> {
    ghost view = { λ b. (Sink-box b).view b.value };

    ghost takes = { λ b. (Sink-box b).takes b.value };

    ghost lent = { λ b. (Sink-box b).lent b.value };

    fn write(&mut self, piece: &[u8]) -> Result<usize, Refusal> {
        (**self).write(piece)
    }

    /// Ok exactly where the `close` of the sink inside is, which is asked once.
    fn close(&mut self) -> Result<(), Failed> {
        (**self).close()
    }

    fn takes_fds(&self) -> bool {
        (**self).takes_fds()
    }
}
