//! Bodies of messages to be sent.
ghost use Rattle.std.specs.Prelude.{◌≡◌, ◌<◌, ◌≤◌, length, IfOk, IfErr};
ghost use Rattle.wire_number.specs.Limits.{string_limit};

use std::marker::Model;
use wire_body::BodyValues;
use wire_names::Text;

/// How many bytes a string may have (D-Bus Specification, "Marshaling", `STRING`).
const STRING_LIMIT: usize = 4294967295;

/// A text that is longer than a string may be.
pub struct LongText {
    text: Text,
}

impl Model for LongText {
    ghost use Rattle.std.specs.Prelude.{ℕ, ◌<◌, List, length};
    ghost use Rattle.wire_number.specs.Limits.{string_limit};

    ghost Value = { List ℕ };

    ghost view = { λ t. t.text };

    ghost invariant = { λ t. string_limit < length t.text };
}

impl Drop for LongText {
    fn drop(self) {
        let LongText { text: _ } = self;
    }
}

impl LongText {
    /// The text, if it is too long for a string (D-Bus Specification, "Marshaling", `STRING`); else it is handed back.
    ///
    /// # Errors
    ///
    /// The text itself, exactly where it has at most 4,294,967,295 bytes.
    pub fn of(text: Text) -> Result<LongText, Text>
        ensures long { IfOk result (λ long. long ≡ text) }
        ensures short { IfErr result (λ short. (short ≡ text) × (length text ≤ string_limit)) }
    {
        if text.len() > STRING_LIMIT {
            Ok(LongText { text })
        } else {
            Err(text)
        }
    }

    /// It is too long.
    pub(crate) fn is_long(&self)
        ensures { string_limit < length self.now }
    {
        let _ = self.text.len();
    }
}

/// The body of a message to be sent (D-Bus Specification, "Message Format").
pub enum OutgoingBody {
    /// These values.
    Values(BodyValues),
    /// One text that no string holds: its message is refused as too long, once it has its serial.
    Long(LongText),
}

impl Drop for OutgoingBody {
    fn drop(self) {
        match self {
            OutgoingBody::Values(_) => {}
            OutgoingBody::Long(_) => {}
        }
    }
}
