//! GUIDs, owned and generated.
use rand_pcg::Pcg32;
use std::alloc::Global;
use wire_value::{Guid, GuidError, OwnedGuid};

const DIGITS: &str = "0123456789ABCDEF0123456789ABCDEF";

/// Whether the copy of an owned GUID lends the digits, and gives them back.
fn is_owned(alloc: Global) -> Result<bool, GuidError> {
    let guid = OwnedGuid::try_from(alloc, DIGITS)?;
    let copy = OwnedGuid::from(alloc, &guid.try_clone(alloc)?.inner())?;
    let is_copied = copy == guid && copy.eq_str(DIGITS) && copy.inner().eq_str(DIGITS);
    Ok(is_copied && copy.into_text().as_str() == DIGITS)
}

#[test]
fn guids_are_owned(rt: HostRuntime) {
    let is_static = Guid::from_static_str(DIGITS).is_ok();
    assert!(rt; is_static && is_owned(rt.alloc()) == Ok(true));
}

/// The first four numbers of PCG's published demonstration, which is seeded by 42 and 54, are a15c02b7, 7b47f409, ba1d3330 and
/// 83d2f293. Their bytes, least first, are those of the UUID, but for its version and its variant.
#[test]
fn guids_are_generated(rt: HostRuntime) {
    let mut rng = Pcg32::new(42, 54);
    match &Guid::generate(rt.alloc(), &mut rng) {
        Ok(guid) => assert!(rt; guid.as_str() == "b7025ca109f4477bb0331dba93f2d283"),
        Err(_) => assert!(rt; false),
    }
}
