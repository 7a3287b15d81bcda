//! Values by their bytes.
use crate::row::{Written, refuse};
use crate::show::show;
use std::alloc::Global;
use wire_value::{
    Endian, Signature, Value, ValueType, VariantError, decode, encode, skip, skip_by_text,
};

/// What is printed of a value.
#[derive(Clone, Copy)]
enum Asked {
    /// The value, and whether it comes back when it is written.
    Again,
    /// The value as text.
    Text,
}

/// A row: what is printed, and the order, the place, the type and the digits of a value's bytes.
#[derive(Clone, Copy)]
struct Row<'a> {
    asked: Asked,
    order: Endian,
    place: usize,
    types: &'a str,
    digits: &'a str,
}

/// The order that a word is.
fn order_of(word: &str) -> Option<Endian> {
    match word {
        "l" => Some(Endian::Little),
        "B" => Some(Endian::Big),
        _ => None,
    }
}

/// An order, a place, a type and digits.
fn placed(row: &str) -> Option<Row<'_>> {
    let (order, rest) = row.split_once(' ')?;
    let (place, rest) = rest.split_once(' ')?;
    let (types, digits) = rest.split_once(' ')?;
    Some(Row {
        asked: Asked::Again,
        order: order_of(order)?,
        place: place.parse::<usize>().ok()?,
        types,
        digits,
    })
}

/// A type and digits, in little order.
fn typed(row: &str) -> Option<Row<'_>> {
    let (types, digits) = row.split_once(' ')?;
    Some(Row {
        asked: Asked::Text,
        order: Endian::Little,
        place: 0,
        types,
        digits,
    })
}

/// Whether the value is written as the bytes.
fn is_written(alloc: Global, row: Row<'_>, value: &Value, bytes: &[u8]) -> bool {
    let mut out = Vec::new(alloc);
    encode(row.order, row.place, value, &mut out).is_ok() && out.as_slice() == bytes
}

/// Whether so many of the bytes are passed by the type, and by its text.
fn is_passed(row: Row<'_>, value_type: &ValueType, bytes: &[u8], count: Option<usize>) -> bool {
    skip(row.order, row.place, value_type, bytes) == count
        && skip_by_text(row.order, row.place, row.types.as_bytes(), bytes) == count
}

/// Whether so many of the bytes are all of them, are passed, and are written of the value.
fn is_same(
    alloc: Global,
    row: Row<'_>,
    value_type: &ValueType,
    bytes: &[u8],
    value: &Value,
    count: usize,
) -> bool {
    count == bytes.len()
        && is_passed(row, value_type, bytes, Some(count))
        && is_written(alloc, row, value, bytes)
}

/// The value's type as text.
fn type_of(alloc: Global, value: &Value) -> Result<String, VariantError> {
    Ok(value.ty(alloc)?.to_text(alloc)?)
}

/// Writes the type, the value, and whether it is the same again.
fn write_line(
    alloc: Global,
    out: &mut String,
    types: &str,
    value: &Value,
    is_same: bool,
) -> Written {
    out.push_str(types)?;
    out.push(' ')?;
    show(alloc, out, value.tree())?;
    out.push_str(if is_same { " same" } else { " different" })
}

/// Writes the value's type, the value, and whether it is the same again.
fn write_value(alloc: Global, out: &mut String, value: &Value, is_same: bool) -> Written {
    match type_of(alloc, value) {
        Ok(types) => write_line(alloc, out, types.as_str(), value, is_same),
        Err(error) => refuse(out, &error),
    }
}

/// Writes why nothing was read, and whether nothing is passed either.
fn write_fault(out: &mut String, is_passed: bool, error: VariantError) -> Written {
    let word = if is_passed { "passed" } else { "nothing" };
    write!(out, "{word}, {error}")
}

/// Writes a value that was read, and whether all the bytes were, are passed, and are written of the value; or why there is none.
fn write_again(
    alloc: Global,
    out: &mut String,
    row: Row<'_>,
    value_type: &ValueType,
    bytes: &[u8],
) -> Written {
    match decode(alloc, row.order, row.place, value_type, bytes) {
        Ok((value, count)) => {
            let is_same = is_same(alloc, row, value_type, bytes, &value, count);
            write_value(alloc, out, &value, is_same)
        }
        Err(error) => write_fault(out, !is_passed(row, value_type, bytes, None), error),
    }
}

/// Writes the type as a signature and as a type, and the value.
fn write_texts(
    alloc: Global,
    out: &mut String,
    row: Row<'_>,
    value_type: &ValueType,
    value: &Value,
) -> Written {
    match Signature::try_from(alloc, row.types) {
        Ok(signature) => write!(out, "{signature} {value_type} {value}"),
        Err(error) => refuse(out, &error),
    }
}

/// Writes a value as it is printed, after its type.
fn write_text(
    alloc: Global,
    out: &mut String,
    row: Row<'_>,
    value_type: &ValueType,
    bytes: &[u8],
) -> Written {
    match decode(alloc, row.order, row.place, value_type, bytes) {
        Ok((value, _)) => write_texts(alloc, out, row, value_type, &value),
        Err(error) => refuse(out, &error),
    }
}

/// Writes what is asked of a value of the type.
fn write_asked(alloc: Global, out: &mut String, row: Row<'_>, value_type: &ValueType) -> Written {
    match hex::decode(alloc, row.digits) {
        Ok(bytes) => match row.asked {
            Asked::Again => write_again(alloc, out, row, value_type, bytes.as_slice()),
            Asked::Text => write_text(alloc, out, row, value_type, bytes.as_slice()),
        },
        Err(error) => refuse(out, &error),
    }
}

fn write_row(alloc: Global, out: &mut String, row: Option<Row<'_>>) -> Written {
    let Some(row) = row else {
        return out.push_str("refused: no such row");
    };
    match ValueType::try_from(alloc, row.types) {
        Ok(value_type) => write_asked(alloc, out, row, &value_type),
        Err(error) => refuse(out, &error),
    }
}

/// Writes what is printed of a value's bytes.
pub(crate) fn write_encoded(alloc: Global, out: &mut String, row: &str) -> Written {
    write_row(alloc, out, placed(row))
}

/// Writes a value as it is printed, after its type, which is printed as a signature and as a type.
pub(crate) fn write_printed(alloc: Global, out: &mut String, row: &str) -> Written {
    write_row(alloc, out, typed(row))
}
