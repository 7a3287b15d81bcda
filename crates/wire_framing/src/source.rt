//! Where the bytes of messages come from.
ghost use Rattle.std.specs.Prelude.{◌≡◌, Option, None, length};
ghost use Rattle.std.specs.Borrow.{GName};
ghost use Rattle.wire_framing.specs.Views.{SourceView};
ghost use Rattle.wire_framing.specs.Source.{Reads, Asks, Widens};

/// A call of a source or a sink failed.
#[derive(Clone, Copy, PartialEq, Eq, Debug)]
pub struct Failed;

/// Where bytes come from.
pub trait Source {
    // what the source tells of itself
    ghost view: { Self → SourceView };

    // the reference that the source is, where it is a lent one
    ghost lent: { Self → Option GName } = { λ s. None };

    /// Puts the next bytes at the buffer's front, and says how many; for a buffer that isn't empty 0 comes only at the
    /// end. Failed only where the count of faults rose.
    fn read(&mut self, buf: &mut [u8]) -> Result<usize, Failed>
        ensures bytes { Reads result buf.new (view self.old) (view self.new) }
        ensures asks { Asks (view self.old) (view self.new) 1 }
        ensures width { Widens (view self.old) (view self.new) (length buf.new) }
        ensures same { lent self.new ≡ lent self.old }
        ensures together { (view self.old).left ≡ None → (view self.old).stop ≡ None };
}
