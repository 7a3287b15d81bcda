//! Statistics of a message bus (D-Bus Specification, "Message Bus Messages", "org.freedesktop.DBus.Debug.Stats").
ghost use Rattle.std.specs.Prelude.{◌≡◌, []};
ghost use Rattle.fdo_proxy.specs.Dictionary.{TellsDict};
ghost use Rattle.fdo_proxy.specs.Statistics.{AreStats, IsStats};

use crate::dictionary::{are_counts, count, others};
use std::alloc::Global;
use wire_message::Error;
use wire_value::{Dict, Text, Value, VariantError};

/// The keys of the statistics.
const KEYS: [&'static str; 9] = [
    "Serial",
    "ActiveConnections",
    "IncompleteConnections",
    "MatchRules",
    "PeakMatchRules",
    "PeakMatchRulesPerConnection",
    "BusNames",
    "PeakBusNames",
    "PeakBusNamesPerConnection",
];

/// What a message bus tells of itself: the reply to GetStats (D-Bus Specification, "Message Bus Messages",
/// "org.freedesktop.DBus.Debug.Stats").
///
/// Each number is absent where the bus didn't tell it. Statistics are equal where all of them are, and the rest is.
#[derive(Drop, PartialEq)]
pub struct Stats {
    serial: Option<u32>,
    active_connections: Option<u32>,
    incomplete_connections: Option<u32>,
    match_rules: Option<u32>,
    peak_match_rules: Option<u32>,
    peak_match_rules_per_connection: Option<u32>,
    bus_names: Option<u32>,
    peak_bus_names: Option<u32>,
    peak_bus_names_per_connection: Option<u32>,
    rest: Vec<(Text, Value)>,
}

impl Stats {
    /// No statistics.
    pub fn new(alloc: Global) -> Stats
        ensures { IsStats [] result }
    {
        Stats {
            serial: None,
            active_connections: None,
            incomplete_connections: None,
            match_rules: None,
            peak_match_rules: None,
            peak_match_rules_per_connection: None,
            bus_names: None,
            peak_bus_names: None,
            peak_bus_names_per_connection: None,
            rest: Vec::new(alloc),
        }
    }

    /// Reads the statistics from a dictionary. A key that is there more than once has the last of its values. The
    /// entries of other keys stay in their order, as [`Stats::rest`].
    ///
    /// # Errors
    ///
    /// `Variant(SignatureMismatch)` if and only if a value of one of the statistics' keys is no `UINT32`.
    /// `Memory` for want of memory.
    pub fn from_dict(alloc: Global, dict: Dict<Text, Value>) -> Result<Stats, Error>
        ensures { TellsDict (IsStats dict) (AreStats dict) result }
    {
        let entries = dict.as_slice();
        if !are_counts(entries, &KEYS) {
            return Err(Error::Variant(VariantError::SignatureMismatch));
        }
        Ok(Stats {
            serial: count(entries, "Serial"),
            active_connections: count(entries, "ActiveConnections"),
            incomplete_connections: count(entries, "IncompleteConnections"),
            match_rules: count(entries, "MatchRules"),
            peak_match_rules: count(entries, "PeakMatchRules"),
            peak_match_rules_per_connection: count(entries, "PeakMatchRulesPerConnection"),
            bus_names: count(entries, "BusNames"),
            peak_bus_names: count(entries, "PeakBusNames"),
            peak_bus_names_per_connection: count(entries, "PeakBusNamesPerConnection"),
            rest: others(alloc, dict, &KEYS)?,
        })
    }

    /// How often the bus was asked for its statistics, this time counted.
    pub fn serial(&self) -> Option<u32>
        ensures { result ≡ self.now.serial }
    {
        self.serial
    }

    /// How many connections the bus has that said Hello.
    pub fn active_connections(&self) -> Option<u32>
        ensures { result ≡ self.now.active_connections }
    {
        self.active_connections
    }

    /// How many connections the bus has that didn't say Hello yet.
    pub fn incomplete_connections(&self) -> Option<u32>
        ensures { result ≡ self.now.incomplete_connections }
    {
        self.incomplete_connections
    }

    /// How many match rules the bus has.
    pub fn match_rules(&self) -> Option<u32>
        ensures { result ≡ self.now.match_rules }
    {
        self.match_rules
    }

    /// The most match rules that the bus ever had.
    pub fn peak_match_rules(&self) -> Option<u32>
        ensures { result ≡ self.now.peak_match_rules }
    {
        self.peak_match_rules
    }

    /// The most match rules that one connection ever had.
    pub fn peak_match_rules_per_connection(&self) -> Option<u32>
        ensures { result ≡ self.now.peak_match_rules_per_connection }
    {
        self.peak_match_rules_per_connection
    }

    /// How many names of the bus have an owner.
    pub fn bus_names(&self) -> Option<u32>
        ensures { result ≡ self.now.bus_names }
    {
        self.bus_names
    }

    /// The most names of the bus that ever had an owner.
    pub fn peak_bus_names(&self) -> Option<u32>
        ensures { result ≡ self.now.peak_bus_names }
    {
        self.peak_bus_names
    }

    /// The most names that one connection ever owned.
    pub fn peak_bus_names_per_connection(&self) -> Option<u32>
        ensures { result ≡ self.now.peak_bus_names_per_connection }
    {
        self.peak_bus_names_per_connection
    }

    /// The entries of other keys, in their order.
    pub fn rest(&self) -> &[(Text, Value)]
        ensures { result.now ≡ self.now.rest.items }
    {
        self.rest.as_slice()
    }
}
