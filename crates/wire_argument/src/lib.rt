//! Arguments: Rust types whose values are values of one D-Bus type, written to a message's bytes and read from them.
#![tactic(auto)]

pub use crate::argument::Argument;
pub use crate::array::Array;
pub use crate::buffer::SignatureBuffer;
pub use crate::dict::Dict;
pub use crate::key::Key;
pub use wire_codec::{Double, Fd};

mod argument;
mod array;
mod buffer;
mod bytes;
mod dict;
mod key;
mod kind;
mod numbers;
mod texts;
