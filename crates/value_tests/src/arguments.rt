//! Arguments as bodies, and back.
use std::alloc::Global;
use wire_value::{
    Array, BodyValues, Bytes, Dict, Double, Fd, FromBody, ObjectPath, Signature, Struct, Text,
    Tree, Value, VariantError, there_and_back, to,
};

/// Whether the arguments, read again of the body that they became, have this signature. The letters are those of the table in
/// the D-Bus Specification, "Summary of types".
fn have_signature<T: FromBody>(
    alloc: Global,
    arguments: T,
    kinds: &str,
) -> Result<bool, VariantError> {
    let body = to(alloc, there_and_back(alloc, arguments)?)?;
    Ok(body.signature().to_text(alloc)?.as_str() == kinds)
}

fn numbers(alloc: Global) -> Result<bool, VariantError> {
    let numbers = (255u8, true, -1i16, 65_535u16, -1i32, 7u32, -1i64, 7u64);
    have_signature(alloc, numbers, "ybnqiuxt")
}

fn others(alloc: Global) -> Result<bool, VariantError> {
    let bits = 0x7ff8_0000_0000_0000;
    Ok(
        have_signature(alloc, (Double { bits }, Fd { index: 0 }), "dh")?
            && have_signature(alloc, (), "")?,
    )
}

fn texts(alloc: Global) -> Result<bool, VariantError> {
    let text = Text::from_str(alloc, "a")?;
    let signature = Signature::try_from(alloc, "a{sv}")?;
    have_signature(alloc, (text, signature), "sg")
}

fn path(alloc: Global) -> Result<bool, VariantError> {
    match ObjectPath::try_from("/a") {
        Ok(path) => have_signature(alloc, (path.to_owned(alloc)?,), "o"),
        Err(_) => Ok(false),
    }
}

fn array(alloc: Global) -> Result<bool, VariantError> {
    let words = Array::from_vec(vec![in alloc; 1u16, 2u16]?);
    have_signature(alloc, (7u8, words), "yaq")
}

fn dict(alloc: Global) -> Result<bool, VariantError> {
    let value = Value::from_tree(alloc, Tree::U8(1))?;
    let dict = Dict::from_vec(vec![in alloc; (7u8, value)]?);
    have_signature(alloc, (dict,), "a{yv}")
}

fn bytes(alloc: Global) -> Result<bool, VariantError> {
    let bytes = Bytes::from_vec(vec![in alloc; 1u8, 2u8]?);
    have_signature(alloc, (bytes,), "ay")
}

fn fields(alloc: Global) -> Result<bool, VariantError> {
    let pair = Struct::new((Text::from_str(alloc, "a")?, 1u32));
    have_signature(alloc, (pair,), "(su)")
}

fn structs(alloc: Global) -> Result<bool, VariantError> {
    let pair = Struct::new((1u8, Double { bits: 0 }));
    let pairs = Array::from_vec(vec![in alloc; pair]?);
    have_signature(alloc, (pairs,), "a(yd)")
}

/// Whether a body of one value gives it back.
fn values(alloc: Global) -> Result<bool, VariantError> {
    let value = Value::from_tree(alloc, Tree::U8(1))?;
    let body = BodyValues::from_values(alloc, vec![in alloc; value]?)?;
    Ok(body.into_values().len() == 1)
}

#[test]
fn arguments_there_and_back(rt: HostRuntime) {
    let alloc = rt.alloc();
    for answer in [
        numbers(alloc),
        others(alloc),
        texts(alloc),
        path(alloc),
        array(alloc),
        dict(alloc),
        bytes(alloc),
        fields(alloc),
        structs(alloc),
        values(alloc),
    ] {
        assert!(rt; answer == Ok(true));
    }
}
