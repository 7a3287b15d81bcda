//! Statistics of a bus and of a connection.
use crate::support::{add, numbered, text};
use fdo_proxy::{ConnectionStats, Stats};
use std::alloc::Global;
use wire_message::{Error, Result};
use wire_value::{Dict, Text, Tree, Value, VariantError};

/// Each key of a bus's statistics; the first one is there again at the end.
const STATS: [(&'static str, u32); 10] = [
    ("Serial", 90),
    ("ActiveConnections", 2),
    ("IncompleteConnections", 3),
    ("MatchRules", 4),
    ("PeakMatchRules", 5),
    ("PeakMatchRulesPerConnection", 6),
    ("BusNames", 7),
    ("PeakBusNames", 8),
    ("PeakBusNamesPerConnection", 9),
    ("Serial", 1),
];

/// Each key of a connection's statistics but UniqueName; the first one is there again at the end.
const CONNECTION: [(&'static str, u32); 18] = [
    ("Serial", 90),
    ("MatchRules", 2),
    ("PeakMatchRules", 3),
    ("BusNames", 4),
    ("PeakBusNames", 5),
    ("IncomingMessages", 6),
    ("OutgoingMessages", 7),
    ("IncomingBytes", 8),
    ("OutgoingBytes", 9),
    ("IncomingFds", 10),
    ("OutgoingFds", 11),
    ("PeakIncomingMessages", 12),
    ("PeakOutgoingMessages", 13),
    ("PeakIncomingBytes", 14),
    ("PeakOutgoingBytes", 15),
    ("PeakIncomingFds", 16),
    ("PeakOutgoingFds", 17),
    ("Serial", 1),
];

/// A bus's statistics, with two entries of other keys.
fn stats(alloc: Global) -> Result<Stats> {
    let mut entries = Vec::new(alloc);
    add(alloc, &mut entries, "serial", text(alloc, "own")?)?;
    for entry in numbered(alloc, &STATS)? {
        entries.push(entry)?;
    }
    add(alloc, &mut entries, "Memory", Tree::U64(5))?;
    Stats::from_dict(alloc, Dict::from_vec(entries))
}

/// A connection's statistics, with an entry of another key.
fn connection(alloc: Global) -> Result<ConnectionStats> {
    let mut entries = numbered(alloc, &CONNECTION)?;
    add(alloc, &mut entries, "UniqueName", text(alloc, ":1.9")?)?;
    add(alloc, &mut entries, "IncomingFDs", Tree::U32(5))?;
    ConnectionStats::from_dict(alloc, Dict::from_vec(entries))
}

/// Whether the entries have these keys, in this order.
fn have_keys(entries: &[(Text, Value)], keys: &[&str]) -> bool {
    for (entry, key) in entries.iter().zip(keys.iter()) {
        if entry.0.as_str() != *key {
            return false;
        }
    }
    entries.len() == keys.len()
}

#[test]
fn statistics_of_a_bus(rt: HostRuntime) -> Result<()> {
    let alloc = rt.alloc();
    let stats = stats(alloc)?;
    assert!(rt; stats.serial() == Some(1));
    assert!(rt; stats.active_connections() == Some(2));
    assert!(rt; stats.incomplete_connections() == Some(3));
    assert!(rt; stats.match_rules() == Some(4));
    assert!(rt; stats.peak_match_rules() == Some(5));
    assert!(rt; stats.peak_match_rules_per_connection() == Some(6));
    assert!(rt; stats.bus_names() == Some(7));
    assert!(rt; stats.peak_bus_names() == Some(8));
    assert!(rt; stats.peak_bus_names_per_connection() == Some(9));
    assert!(rt; have_keys(stats.rest(), &["serial", "Memory"]));
    Ok(())
}

#[test]
fn statistics_of_a_connection(rt: HostRuntime) -> Result<()> {
    let alloc = rt.alloc();
    let stats = connection(alloc)?;
    assert!(rt; stats.serial() == Some(1));
    assert!(rt; stats.unique_name() == Some(":1.9"));
    assert!(rt; stats.match_rules() == Some(2));
    assert!(rt; stats.peak_match_rules() == Some(3));
    assert!(rt; stats.bus_names() == Some(4));
    assert!(rt; stats.peak_bus_names() == Some(5));
    assert!(rt; stats.incoming_messages() == Some(6));
    assert!(rt; stats.outgoing_messages() == Some(7));
    assert!(rt; stats.incoming_bytes() == Some(8));
    assert!(rt; stats.outgoing_bytes() == Some(9));
    assert!(rt; stats.incoming_fds() == Some(10));
    assert!(rt; stats.outgoing_fds() == Some(11));
    assert!(rt; stats.peak_incoming_messages() == Some(12));
    assert!(rt; stats.peak_outgoing_messages() == Some(13));
    assert!(rt; stats.peak_incoming_bytes() == Some(14));
    assert!(rt; stats.peak_outgoing_bytes() == Some(15));
    assert!(rt; stats.peak_incoming_fds() == Some(16));
    assert!(rt; stats.peak_outgoing_fds() == Some(17));
    assert!(rt; have_keys(stats.rest(), &["IncomingFDs"]));
    Ok(())
}

#[test]
fn equal_statistics(rt: HostRuntime) -> Result<()> {
    let alloc = rt.alloc();
    assert!(rt; stats(alloc)? == stats(alloc)?);
    assert!(rt; stats(alloc)? != Stats::new(alloc));
    assert!(rt; connection(alloc)? == connection(alloc)?);
    assert!(rt; connection(alloc)? != ConnectionStats::new(alloc));
    Ok(())
}

/// Whether a value of another type is refused, though one of the key's own type comes behind it.
fn is_refused(alloc: Global, key: &str, wrong: Tree, right: Tree) -> Result<bool> {
    let mut entries = Vec::new(alloc);
    add(alloc, &mut entries, key, wrong)?;
    add(alloc, &mut entries, key, right)?;
    Ok(
        match ConnectionStats::from_dict(alloc, Dict::from_vec(entries)) {
            Err(error) => error == Error::Variant(VariantError::SignatureMismatch),
            Ok(_) => false,
        },
    )
}

#[test]
fn statistics_of_other_types(rt: HostRuntime) -> Result<()> {
    let alloc = rt.alloc();
    let mut entries = numbered(alloc, &STATS)?;
    add(alloc, &mut entries, "BusNames", Tree::U64(7))?;
    let refused = match Stats::from_dict(alloc, Dict::from_vec(entries)) {
        Err(error) => error == Error::Variant(VariantError::SignatureMismatch),
        Ok(_) => false,
    };
    assert!(rt; refused);
    assert!(rt; is_refused(alloc, "BusNames", Tree::U64(7), Tree::U32(7))?);
    assert!(rt; is_refused(alloc, "UniqueName", Tree::U32(7), text(alloc, ":1.9")?)?);
    Ok(())
}
