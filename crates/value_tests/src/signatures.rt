//! Signatures and types: their calls, and texts of great length.
use std::alloc::{AllocError, Global};
use wire_value::{Signature, TypeNode, ValueType, VariantError, first_type, is_signature};

/// A million times the same, and `y`.
fn million(alloc: Global, open: u8) -> Result<String, AllocError> {
    let mut text = String::new(alloc);
    for _ in 0..1_000_000 {
        text.push(char::from(open))?;
    }
    text.push('y')?;
    Ok(text)
}

/// Whether as many arrays or structs in one another are refused: the calls go no deeper than the limits, however long the
/// text is.
fn are_refused(alloc: Global, open: u8) -> Result<bool, AllocError> {
    let text = million(alloc, open)?;
    Ok(
        !is_signature(text.as_bytes())
            && first_type(text.as_bytes()).is_none()
            && Signature::try_from(alloc, text.as_str()).is_err(),
    )
}

#[test]
fn a_megabyte_passes_the_limits(rt: HostRuntime) {
    for open in [b'a', b'('] {
        assert!(rt; are_refused(rt.alloc(), open) == Ok(true));
    }
}

fn signature(alloc: Global) -> Result<bool, VariantError> {
    let signature = Signature::try_from(alloc, "sv")?.try_clone(alloc)?;
    Ok(signature.types().len() == 2 && signature.to_text(alloc)?.as_str() == "sv")
}

fn are_equal(alloc: Global) -> Result<bool, VariantError> {
    let signature = Signature::try_from(alloc, "sv")?;
    Ok(
        signature == Signature::try_from(alloc, "sv")?
            && signature != Signature::try_from(alloc, "(sv)")?,
    )
}

fn array(alloc: Global) -> Result<bool, VariantError> {
    let array = ValueType::try_from(alloc, "a(ys)")?.try_clone(alloc)?;
    Ok(matches!(array.node(), TypeNode::Array(_)) && array.to_text(alloc)?.as_str() == "a(ys)")
}

#[test]
fn calls_of_signatures_and_types(rt: HostRuntime) {
    for answer in [
        signature(rt.alloc()),
        are_equal(rt.alloc()),
        array(rt.alloc()),
    ] {
        assert!(rt; answer == Ok(true));
    }
}

/// Whether a signature of so many times the one text, `y`, and so many times the other is taken.
fn is_taken(alloc: Global, open: &str, count: usize, close: &str) -> Result<bool, AllocError> {
    let mut text = String::new(alloc);
    for _ in 0..count {
        text.push_str(open)?;
    }
    text.push('y')?;
    for _ in 0..count {
        text.push_str(close)?;
    }
    Ok(Signature::try_from(alloc, text.as_str()).is_ok())
}

/// A signature has at most 255 bytes, 32 arrays and 32 structs in one another (D-Bus Specification, "Valid Signatures").
#[test]
fn signatures_up_to_the_limits(rt: HostRuntime) {
    for (open, most, close) in [("a", 32, ""), ("(", 32, ")"), ("y", 254, "")] {
        assert!(rt;
            is_taken(rt.alloc(), open, most, close) == Ok(true),
            "{most} of {open}"
        );
    }
    for (open, count, close) in [("a", 33, ""), ("(", 33, ")"), ("y", 255, "")] {
        assert!(rt;
            is_taken(rt.alloc(), open, count, close) == Ok(false),
            "{count} of {open}"
        );
    }
}
