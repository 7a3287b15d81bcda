//! The flags of a header (D-Bus Specification, "Message Format").
ghost use Rattle.std.specs.Prelude.{⊤, [], ◌∷◌, codes};

use bitflags::{Flag, bitflag_items};

/// What a message asks of its reader (D-Bus Specification, "Message Format", the flags of a header).
#[derive(Clone, Copy, PartialEq, Eq, Debug)]
pub struct Flags(pub(crate) u8);

bitflag_items! {
    impl Flags: u8 {
        const NoReplyExpected = 1;
        const NoAutoStart = 2;
        const AllowInteractiveAuth = 4;
    }
}

impl bitflags::Flags for Flags {
    type Bits = u8;

    ghost exact = { ⊤ };

    ghost table = { (codes "NoReplyExpected", 1) ∷ (codes "NoAutoStart", 2) ∷ (codes "AllowInteractiveAuth", 4) ∷ [] };

    ghost set_of = { λ flags. flags.0 };

    fn flags<'a>() -> &'a [Flag<Flags>] {
        Flags::FLAGS
    }

    fn bits(&self) -> u8 {
        self.0
    }

    fn from_bits_retain(bits: u8) -> Flags {
        Flags(bits)
    }
}
