//! Messages built anew.
use crate::row::{Written, refuse, write_digits};
use std::alloc::Global;
use wire_message::{Builder, Message, NonePending, Result, Serials};

/// Numbers in place of the descriptors that were sent; no recorded message has more.
const DESCRIPTORS: [u32; 16] = [0; 16];

/// Builds the message anew of its header and of its body's bytes.
fn rebuilt(alloc: Global, message: &Message) -> Result<Message> {
    let header = message.header();
    let body = message.body();
    let signature = body.signature(alloc)?;
    let count = header.unix_fds().unwrap_or(0) as usize;
    let fds = &DESCRIPTORS[..count.min(DESCRIPTORS.len())];
    let mut serials = Serials::new();
    Builder::from(header).build_raw_body_uncounted(
        alloc,
        &mut serials,
        &NonePending,
        body.data(),
        &signature,
        fds,
    )
}

/// Writes a line with what stands before the body, or with nothing where the body doesn't follow.
fn write_front(alloc: Global, out: &mut String, built: &[u8], body: &[u8]) -> Written {
    out.push_str("\n  ")?;
    match built.strip_suffix(body) {
        Some(front) => write_digits(alloc, out, front),
        None => Ok(()),
    }
}

/// Builds the message anew, and writes a line with the new header's bytes.
pub(crate) fn write_rebuilt(alloc: Global, out: &mut String, message: &Message) -> Written {
    match rebuilt(alloc, message) {
        Ok(built) => write_front(alloc, out, built.data(), message.body().data()),
        Err(error) => refuse(out, &error),
    }
}
