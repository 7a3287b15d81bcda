//! The bytes of values: what encodes a value of D-Bus, and walking over it without memory (D-Bus Specification,
//! "Marshaling (Wire Format)").
#![tactic(auto)]

pub use crate::cursor::{MAX_ARRAY_LENGTH, boundary, elements};
pub use crate::laws::{no_encoding_begins_another, one_encoding, one_value};
pub use crate::numbers::{boolean, byte, uint16, uint32, uint64};
pub use crate::skipping::{skip, skip_by_text};
pub use crate::texts::{path, signature, string, utf8};
pub use crate::walk::MAX_DEPTH;

mod cursor;
mod fixed;
mod laws;
mod numbers;
mod skipping;
mod texts;
mod walk;
