//! A source or a sink that is lent is one too.
ghost use Rattle.std.specs.Prelude.{◌≡◌, Some};

use crate::sink::{Refusal, Sink};
use crate::source::{Failed, Source};

impl<S: Source> Source for &mut S {
    ghost view = { λ s. S.view s.now };

    ghost lent = { λ s. Some s.ghost_name };

    fn read(&mut self, buf: &mut [u8]) -> Result<usize, Failed> {
        (**self).read(buf)
    }
}

impl<W: Sink> Sink for &mut W {
    ghost view = { λ s. W.view s.now };

    ghost takes = { λ s. W.takes s.now };

    ghost lent = { λ s. Some s.ghost_name };

    fn write(&mut self, piece: &[u8]) -> Result<usize, Refusal> {
        (**self).write(piece)
    }

    /// Ok exactly where the `close` of the sink that is lent is, which is asked once.
    fn close(&mut self) -> Result<(), Failed> {
        (**self).close()
    }

    fn takes_fds(&self) -> bool {
        (**self).takes_fds()
    }
}
