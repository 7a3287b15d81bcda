//! Texts and bytes.
use std::alloc::{AllocError, Global};
use wire_value::{Bytes, Text};

fn text(alloc: Global) -> Result<bool, AllocError> {
    let text = Text::from_string(String::from_str(alloc, "ab")?);
    let other = Text::from_str(alloc, "b")?;
    Ok(text < other && text != other && text.len() == 2 && !text.is_empty())
}

fn text_again(alloc: Global) -> Result<bool, AllocError> {
    let text = Text::from_str(alloc, "ab")?.try_clone(alloc)?;
    Ok(text.to_string(alloc)?.as_str() == text.as_str() && text.into_string().as_str() == "ab")
}

fn bytes(alloc: Global) -> Result<bool, AllocError> {
    let bytes = Bytes::from_vec([0, 255].to_vec(alloc)?);
    let other = Bytes::from_slice(alloc, &[0])?;
    Ok(bytes != other && bytes.len() == 2 && !bytes.is_empty())
}

fn bytes_again(alloc: Global) -> Result<bool, AllocError> {
    let bytes = Bytes::from_slice(alloc, &[0, 255])?.try_clone(alloc)?;
    Ok(
        bytes.as_slice() == [0, 255].as_slice()
            && bytes.into_vec().as_slice() == [0, 255].as_slice(),
    )
}

#[test]
fn they_give_back_what_they_took(rt: HostRuntime) {
    let alloc = rt.alloc();
    for answer in [
        text(alloc),
        text_again(alloc),
        bytes(alloc),
        bytes_again(alloc),
    ] {
        assert!(rt; answer == Ok(true));
    }
}
