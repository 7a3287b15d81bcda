//! What the rows share: their words, and the line that refuses a row.
use std::alloc::{AllocError, Global};
use std::fmt::Display;

/// What a function answers that writes into a text; only memory can be missing.
pub(crate) type Written = Result<(), AllocError>;

/// Splits a row at its first blank; the second part is empty where there is none.
pub(crate) fn split(row: &str) -> (&str, &str) {
    match row.split_once(' ') {
        Some(parts) => parts,
        None => (row, ""),
    }
}

/// Writes why a row is refused, in place of what was written of the row.
pub(crate) fn refuse<E: Display>(out: &mut String, error: &E) -> Written {
    out.clear();
    write!(out, "refused: {error}")
}

/// Writes two hexadecimal digits for each byte.
pub(crate) fn write_digits(alloc: Global, out: &mut String, bytes: &[u8]) -> Written {
    match hex::encode(alloc, bytes) {
        Ok(digits) => out.push_str(digits.as_str()),
        Err(error) => Err(error),
    }
}
