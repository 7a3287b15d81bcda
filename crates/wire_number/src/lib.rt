//! Byte orders, and numbers in them, padding and texts: how they stand in bytes, read and written (D-Bus Specification,
//! "Marshaling").
#![tactic(auto)]

pub use crate::appending::{append, append_signature, append_text, pad_to, put_u32};
pub use crate::endian::Endian;
pub use crate::laws::{reading_a_number, reading_a_text, reading_padding};
pub use crate::number::{read_u32, write_u16, write_u32, write_u64};
pub use crate::padding::{padding_for_8_bytes, padding_for_n_bytes};
pub use crate::reader::Reader;

mod appending;
mod cursor;
mod endian;
mod laws;
mod number;
mod padding;
mod reader;
