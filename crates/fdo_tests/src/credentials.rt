//! Credentials of a connection.
use crate::support::{add, text};
use fdo_proxy::ConnectionCredentials;
use std::alloc::Global;
use wire_message::{Error, Result};
use wire_value::{Dict, Fixed32, Numbers, Tree, VariantError};

/// Numbers as an array of `UINT32`.
fn numbers(alloc: Global) -> Result<Tree> {
    let items = vec![in alloc; 100u32, 27u32]?;
    Ok(Tree::Numbers(Numbers::Of32(Fixed32::Uint32, items)))
}

/// A label with the 0 byte behind it.
fn label(alloc: Global) -> Result<Tree> {
    Ok(Tree::Numbers(Numbers::Bytes(vec![in alloc; 95u8, 0u8]?)))
}

/// Credentials with each key, where the first one is there again at the end, and another key.
fn read(alloc: Global) -> Result<ConnectionCredentials> {
    let mut entries = Vec::new(alloc);
    add(alloc, &mut entries, "UnixUserID", Tree::U32(90))?;
    add(alloc, &mut entries, "UnixGroupIDs", numbers(alloc)?)?;
    add(alloc, &mut entries, "ProcessFD", Tree::Fd(2))?;
    add(alloc, &mut entries, "ProcessID", Tree::U32(4711))?;
    add(alloc, &mut entries, "WindowsSID", text(alloc, "S-1-5-18")?)?;
    add(alloc, &mut entries, "LinuxSecurityLabel", label(alloc)?)?;
    add(alloc, &mut entries, "org.example.Own", Tree::U8(1))?;
    add(alloc, &mut entries, "UnixUserID", Tree::U32(1000))?;
    ConnectionCredentials::from_dict(alloc, Dict::from_vec(entries))
}

/// The same credentials, set one by one.
fn set(alloc: Global) -> Result<ConnectionCredentials> {
    let credentials = ConnectionCredentials::new()
        .set_unix_user_id(1000)
        .add_unix_group_id(alloc, 100)?
        .add_unix_group_id(alloc, 27)?
        .set_process_fd(2)
        .set_process_id(4711)
        .set_windows_sid(String::from_str(alloc, "S-1-5-18")?)
        .set_linux_security_label(vec![in alloc; 95u8, 0u8]?);
    Ok(credentials)
}

#[test]
fn credentials_of_a_connection(rt: HostRuntime) -> Result<()> {
    let alloc = rt.alloc();
    let credentials = read(alloc)?;
    assert!(rt; credentials.unix_user_id() == Some(1000));
    assert!(rt; credentials.unix_group_ids() == Some(&[100, 27][..]));
    assert!(rt; credentials.process_fd() == Some(2));
    assert!(rt; credentials.process_id() == Some(4711));
    assert!(rt; credentials.windows_sid() == Some("S-1-5-18"));
    assert!(rt; credentials.linux_security_label() == Some(&[95, 0][..]));
    Ok(())
}

#[test]
fn credentials_that_are_set(rt: HostRuntime) -> Result<()> {
    let alloc = rt.alloc();
    assert!(rt; set(alloc)? == read(alloc)?);
    assert!(rt; set(alloc)? != ConnectionCredentials::new());
    let groups = set(alloc)?.into_unix_group_ids();
    assert!(rt; matches!(&groups, Some(ids) if ids.as_slice() == &[100, 27][..]));
    let sid = set(alloc)?.into_windows_sid();
    assert!(rt; matches!(&sid, Some(text) if text.as_str() == "S-1-5-18"));
    let label = set(alloc)?.into_linux_security_label();
    assert!(rt; matches!(&label, Some(bytes) if bytes.as_slice() == &[95, 0][..]));
    Ok(())
}

/// Whether a value of another type is refused.
fn is_refused(alloc: Global, key: &str, tree: Tree) -> Result<bool> {
    let mut entries = Vec::new(alloc);
    add(alloc, &mut entries, key, tree)?;
    Ok(
        match ConnectionCredentials::from_dict(alloc, Dict::from_vec(entries)) {
            Err(error) => error == Error::Variant(VariantError::SignatureMismatch),
            Ok(_) => false,
        },
    )
}

#[test]
fn credentials_of_other_types(rt: HostRuntime) -> Result<()> {
    let alloc = rt.alloc();
    assert!(rt; is_refused(alloc, "UnixUserID", Tree::U64(1))?);
    assert!(rt; is_refused(alloc, "UnixGroupIDs", label(alloc)?)?);
    assert!(rt; is_refused(alloc, "ProcessFD", Tree::U32(2))?);
    assert!(rt; is_refused(alloc, "ProcessID", Tree::Fd(1))?);
    assert!(rt; is_refused(alloc, "WindowsSID", Tree::U32(1))?);
    assert!(rt; is_refused(alloc, "LinuxSecurityLabel", numbers(alloc)?)?);
    Ok(())
}
