//! One argument that is lent, and those behind it.
ghost use Rattle.std.specs.Prelude.{◌≡◌, ◌∷◌, [], List, OnOk};
ghost use Rattle.wire_tree.specs.Datum.{Datum, data_of};
ghost use Rattle.wire_encoding.specs.Encoding.{depths};
ghost use Rattle.wire_codec.specs.Writing.{WritesAll};
ghost use Rattle.wire_argument.specs.Arguments.{Checks};
ghost use Rattle.wire_body.specs.Arguments.{AreAllWellTyped};

use wire_argument::Argument;
use wire_codec::{EncodeError, Encoder};
use wire_signature::VariantError;

/// Arguments that are lent, one behind the other, as pairs: the first, and those behind it.
pub trait Lent: Drop {
    /// the values that the arguments are
    ghost datums: { Self → List Datum };

    /// read again, the values are the arguments
    ghost are_read: { Self → Type 0 };

    /// Whether a message may hold the arguments, with no more than `room` containers open at once in each.
    fn check(&self, room: usize) -> Result<(), VariantError>
        ensures told { Checks result (AreAllWellTyped (datums self.now)) (depths (data_of (datums self.now))) room }
        ensures round { OnOk result (are_read self.now) };

    /// Appends the bytes of the values, one behind the other.
    fn encode(&self, encoder: &mut Encoder) -> Result<(), EncodeError>
        requires well_typed { AreAllWellTyped (datums self.now) }
        ensures { WritesAll result (data_of (datums self.now)) encoder.old encoder.new };
}

impl Lent for () {
    ghost datums = { λ x. [] };

    ghost are_read = { λ x. Unit {0} };

    fn check(&self, _room: usize) -> Result<(), VariantError> {
        Ok(())
    }

    fn encode(&self, _encoder: &mut Encoder) -> Result<(), EncodeError> {
        Ok(())
    }
}

impl<'a, A: Argument, R: Lent> Lent for (&'a A, R) {
    ghost datums = { λ x. A.datum x.0.now ∷ R.datums x.1 };

    ghost are_read = { λ x. (A.read (A.datum x.0.now) ≡ x.0.now) × R.are_read x.1 };

    fn check(&self, room: usize) -> Result<(), VariantError> {
        // A text that no message holds, behind what is too deep, is told before the depth.
        let first = self.0.check(room);
        if matches!(first, Err(VariantError::Malformed)) {
            return first;
        }
        self.1.check(room)?;
        first
    }

    fn encode(&self, encoder: &mut Encoder) -> Result<(), EncodeError> {
        self.0.encode(encoder)?;
        self.1.encode(encoder)
    }
}
