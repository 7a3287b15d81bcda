//! The text of a signature, without memory.
ghost use Rattle.std.specs.Prelude.{◌≡◌, ◌∷◌, []};
ghost use Rattle.wire_argument.specs.Arguments.{Puts};

use std::marker::Model;
use wire_signature::{MAX_LENGTH, VariantError};

/// Room for the text of a signature, which is at most 255 bytes long (D-Bus Specification, "Valid Signatures"). It takes no
/// memory.
pub struct SignatureBuffer {
    bytes: [u8; 255],
    count: usize,
}

impl Drop for SignatureBuffer {
    fn drop(self) {
        let SignatureBuffer { bytes: _, count: _ } = self;
    }
}

impl Model for SignatureBuffer {
    ghost use Rattle.std.specs.Prelude.{◌≤◌, List, ℕ, take};

    ghost Value = { List ℕ };

    ghost view = { λ b. take b.count b.bytes };

    ghost invariant = { λ b. b.count ≤ 255 };
}

impl SignatureBuffer {
    /// An empty buffer.
    pub fn new() -> SignatureBuffer
        ensures { result ≡ [] }
    {
        SignatureBuffer {
            bytes: [0; MAX_LENGTH],
            count: 0,
        }
    }

    /// Puts a letter behind what stands there.
    ///
    /// # Errors
    ///
    /// Signature exactly where the buffer is full, with 255 letters. Then it is unchanged.
    pub fn push(&mut self, letter: u8) -> Result<(), VariantError>
        ensures { Puts result (letter ∷ []) self.old self.new }
    {
        if self.count == MAX_LENGTH {
            return Err(VariantError::Signature);
        }
        self.bytes[self.count] = letter;
        self.count += 1;
        Ok(())
    }

    /// The letters that were put in, in their order.
    pub fn as_bytes(&self) -> &[u8]
        ensures { result.now ≡ self.now }
    {
        &self.bytes[..self.count]
    }
}
