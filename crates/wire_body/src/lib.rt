//! Bodies of messages, and arguments as bodies (D-Bus Specification, "Message Format").
#![tactic(auto)]

pub use crate::arguments::Arguments;
pub use crate::arguments_bytes::{append_arguments, decode_arguments};
pub use crate::bodies::{append_body, decode_body, encode_body, is_shallow};
pub use crate::body::BodyValues;
pub use crate::message::{FromBody, ToBody, from, put_signature, there_and_back, to};
pub use crate::structs::{Fields, Struct};
pub use wire_argument::{Argument, Array, Dict, Double, Fd, Key, SignatureBuffer};

mod arguments;
mod arguments_bytes;
mod bodies;
mod body;
mod chain;
mod lent;
mod message;
mod structs;
mod tuple;
mod tuples;
