//! The flags and the replies of names.
use bitflags::Flags as _;
use fdo_proxy::{ReleaseNameReply, RequestNameFlags, RequestNameReply, StartServiceReply};
use std::alloc::Global;
use std::fmt::Display;
use wire_message::{Error, Result};

/// Whether that is what is printed.
fn prints<T: Display>(alloc: Global, value: &T, text: &str) -> Result<bool> {
    Ok(match format!(in alloc; "{}", value) {
        Ok(printed) => printed.as_str() == text,
        Err(_) => false,
    })
}

#[test]
fn flags_of_a_request(rt: HostRuntime) {
    assert!(rt; RequestNameFlags::default().bits() == 7);
    assert!(rt; RequestNameFlags::AllowReplacement.bits() == 1);
    assert!(rt; RequestNameFlags::ReplaceExisting.bits() == 2);
    assert!(rt; RequestNameFlags::DoNotQueue.bits() == 4);
}

#[test]
fn replies_to_a_request(rt: HostRuntime) -> Result<()> {
    let alloc = rt.alloc();
    assert!(rt; prints(alloc, &RequestNameReply::try_from(1)?, "PrimaryOwner")?);
    assert!(rt; prints(alloc, &RequestNameReply::try_from(2)?, "InQueue")?);
    assert!(rt; prints(alloc, &RequestNameReply::try_from(3)?, "Exists")?);
    assert!(rt; prints(alloc, &RequestNameReply::try_from(4)?, "AlreadyOwner")?);
    assert!(rt; matches!(&RequestNameReply::try_from(0), Err(Error::InvalidReply)));
    assert!(rt; matches!(&RequestNameReply::try_from(5), Err(Error::InvalidReply)));
    Ok(())
}

#[test]
fn replies_to_a_release(rt: HostRuntime) -> Result<()> {
    let alloc = rt.alloc();
    assert!(rt; prints(alloc, &ReleaseNameReply::try_from(1)?, "Released")?);
    assert!(rt; prints(alloc, &ReleaseNameReply::try_from(2)?, "NonExistent")?);
    assert!(rt; prints(alloc, &ReleaseNameReply::try_from(3)?, "NotOwner")?);
    assert!(rt; matches!(&ReleaseNameReply::try_from(4), Err(Error::InvalidReply)));
    Ok(())
}

#[test]
fn replies_to_a_start(rt: HostRuntime) -> Result<()> {
    let alloc = rt.alloc();
    assert!(rt; prints(alloc, &StartServiceReply::try_from(1)?, "Success")?);
    assert!(rt; prints(alloc, &StartServiceReply::try_from(2)?, "AlreadyRunning")?);
    assert!(rt; matches!(&StartServiceReply::try_from(3), Err(Error::InvalidReply)));
    Ok(())
}
