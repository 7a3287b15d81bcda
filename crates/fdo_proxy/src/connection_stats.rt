//! Statistics of a connection to a message bus (D-Bus Specification, "Message Bus Messages",
//! "org.freedesktop.DBus.Debug.Stats").
ghost use Rattle.std.specs.Prelude.{◌≡◌, [], option_map};
ghost use Rattle.fdo_proxy.specs.Dictionary.{TellsDict};
ghost use Rattle.fdo_proxy.specs.Statistics.{AreConnectionStats, IsConnectionStats};

use crate::dictionary::{are_counts, count, field, others};
use std::alloc::Global;
use wire_message::Error;
use wire_value::{Dict, Text, Value, VariantError};

/// The keys of the statistics. The first one is of a text, all others are of numbers.
const KEYS: [&'static str; 18] = [
    "UniqueName",
    "Serial",
    "MatchRules",
    "PeakMatchRules",
    "BusNames",
    "PeakBusNames",
    "IncomingMessages",
    "OutgoingMessages",
    "IncomingBytes",
    "OutgoingBytes",
    "IncomingFds",
    "OutgoingFds",
    "PeakIncomingMessages",
    "PeakOutgoingMessages",
    "PeakIncomingBytes",
    "PeakOutgoingBytes",
    "PeakIncomingFds",
    "PeakOutgoingFds",
];

/// What a message bus tells of a connection: the reply to GetConnectionStats (D-Bus Specification, "Message Bus
/// Messages", "org.freedesktop.DBus.Debug.Stats").
///
/// Each of them is absent where the bus didn't tell it. Statistics are equal where all of them are, and the rest is.
#[derive(Drop, PartialEq)]
pub struct ConnectionStats {
    serial: Option<u32>,
    unique_name: Option<Text>,
    match_rules: Option<u32>,
    peak_match_rules: Option<u32>,
    bus_names: Option<u32>,
    peak_bus_names: Option<u32>,
    incoming_messages: Option<u32>,
    outgoing_messages: Option<u32>,
    incoming_bytes: Option<u32>,
    outgoing_bytes: Option<u32>,
    incoming_fds: Option<u32>,
    outgoing_fds: Option<u32>,
    peak_incoming_messages: Option<u32>,
    peak_outgoing_messages: Option<u32>,
    peak_incoming_bytes: Option<u32>,
    peak_outgoing_bytes: Option<u32>,
    peak_incoming_fds: Option<u32>,
    peak_outgoing_fds: Option<u32>,
    rest: Vec<(Text, Value)>,
}

impl ConnectionStats {
    /// No statistics.
    pub fn new(alloc: Global) -> ConnectionStats
        ensures { IsConnectionStats [] result }
    {
        ConnectionStats {
            serial: None,
            unique_name: None,
            match_rules: None,
            peak_match_rules: None,
            bus_names: None,
            peak_bus_names: None,
            incoming_messages: None,
            outgoing_messages: None,
            incoming_bytes: None,
            outgoing_bytes: None,
            incoming_fds: None,
            outgoing_fds: None,
            peak_incoming_messages: None,
            peak_outgoing_messages: None,
            peak_incoming_bytes: None,
            peak_outgoing_bytes: None,
            peak_incoming_fds: None,
            peak_outgoing_fds: None,
            rest: Vec::new(alloc),
        }
    }

    /// Reads the statistics from a dictionary. A key that is there more than once has the last of its values. The
    /// entries of other keys stay in their order, as [`ConnectionStats::rest`].
    ///
    /// # Errors
    ///
    /// `Variant(SignatureMismatch)` if and only if a value of `UniqueName` is no `STRING`, or one of another of the
    /// statistics' keys no `UINT32`.
    /// `Memory` for want of memory.
    pub fn from_dict(alloc: Global, dict: Dict<Text, Value>) -> Result<ConnectionStats, Error>
        ensures { TellsDict (IsConnectionStats dict) (AreConnectionStats dict) result }
    {
        let entries = dict.as_slice();
        if !are_counts(entries, &KEYS[1..]) {
            return Err(Error::Variant(VariantError::SignatureMismatch));
        }
        let unique_name = field(alloc, entries, "UniqueName")?;
        Ok(ConnectionStats {
            serial: count(entries, "Serial"),
            unique_name,
            match_rules: count(entries, "MatchRules"),
            peak_match_rules: count(entries, "PeakMatchRules"),
            bus_names: count(entries, "BusNames"),
            peak_bus_names: count(entries, "PeakBusNames"),
            incoming_messages: count(entries, "IncomingMessages"),
            outgoing_messages: count(entries, "OutgoingMessages"),
            incoming_bytes: count(entries, "IncomingBytes"),
            outgoing_bytes: count(entries, "OutgoingBytes"),
            incoming_fds: count(entries, "IncomingFds"),
            outgoing_fds: count(entries, "OutgoingFds"),
            peak_incoming_messages: count(entries, "PeakIncomingMessages"),
            peak_outgoing_messages: count(entries, "PeakOutgoingMessages"),
            peak_incoming_bytes: count(entries, "PeakIncomingBytes"),
            peak_outgoing_bytes: count(entries, "PeakOutgoingBytes"),
            peak_incoming_fds: count(entries, "PeakIncomingFds"),
            peak_outgoing_fds: count(entries, "PeakOutgoingFds"),
            rest: others(alloc, dict, &KEYS)?,
        })
    }

    /// How often the bus was asked for a connection's statistics, this time counted.
    pub fn serial(&self) -> Option<u32>
        ensures { result ≡ self.now.serial }
    {
        self.serial
    }

    /// The connection's unique name. The text is as it came: its grammar isn't tested.
    pub fn unique_name(&self) -> Option<&str>
        ensures { option_map (λ text. text.now) result ≡ self.now.unique_name }
    {
        Some(self.unique_name.as_ref()?.as_str())
    }

    /// How many match rules the connection has.
    pub fn match_rules(&self) -> Option<u32>
        ensures { result ≡ self.now.match_rules }
    {
        self.match_rules
    }

    /// The most match rules that the connection ever had.
    pub fn peak_match_rules(&self) -> Option<u32>
        ensures { result ≡ self.now.peak_match_rules }
    {
        self.peak_match_rules
    }

    /// How many names the connection owns.
    pub fn bus_names(&self) -> Option<u32>
        ensures { result ≡ self.now.bus_names }
    {
        self.bus_names
    }

    /// The most names that the connection ever owned.
    pub fn peak_bus_names(&self) -> Option<u32>
        ensures { result ≡ self.now.peak_bus_names }
    {
        self.peak_bus_names
    }

    /// How many incoming messages the bus counts for the connection.
    pub fn incoming_messages(&self) -> Option<u32>
        ensures { result ≡ self.now.incoming_messages }
    {
        self.incoming_messages
    }

    /// How many outgoing messages the bus counts for the connection.
    pub fn outgoing_messages(&self) -> Option<u32>
        ensures { result ≡ self.now.outgoing_messages }
    {
        self.outgoing_messages
    }

    /// How many bytes these incoming messages have.
    pub fn incoming_bytes(&self) -> Option<u32>
        ensures { result ≡ self.now.incoming_bytes }
    {
        self.incoming_bytes
    }

    /// How many bytes these outgoing messages have.
    pub fn outgoing_bytes(&self) -> Option<u32>
        ensures { result ≡ self.now.outgoing_bytes }
    {
        self.outgoing_bytes
    }

    /// How many file descriptors these incoming messages have.
    pub fn incoming_fds(&self) -> Option<u32>
        ensures { result ≡ self.now.incoming_fds }
    {
        self.incoming_fds
    }

    /// How many file descriptors these outgoing messages have.
    pub fn outgoing_fds(&self) -> Option<u32>
        ensures { result ≡ self.now.outgoing_fds }
    {
        self.outgoing_fds
    }

    /// The most incoming messages that the bus ever counted for the connection at one time.
    pub fn peak_incoming_messages(&self) -> Option<u32>
        ensures { result ≡ self.now.peak_incoming_messages }
    {
        self.peak_incoming_messages
    }

    /// The most outgoing messages that the bus ever counted for the connection at one time.
    pub fn peak_outgoing_messages(&self) -> Option<u32>
        ensures { result ≡ self.now.peak_outgoing_messages }
    {
        self.peak_outgoing_messages
    }

    /// The most bytes that these incoming messages ever had at one time.
    pub fn peak_incoming_bytes(&self) -> Option<u32>
        ensures { result ≡ self.now.peak_incoming_bytes }
    {
        self.peak_incoming_bytes
    }

    /// The most bytes that these outgoing messages ever had at one time.
    pub fn peak_outgoing_bytes(&self) -> Option<u32>
        ensures { result ≡ self.now.peak_outgoing_bytes }
    {
        self.peak_outgoing_bytes
    }

    /// The most file descriptors that these incoming messages ever had at one time.
    pub fn peak_incoming_fds(&self) -> Option<u32>
        ensures { result ≡ self.now.peak_incoming_fds }
    {
        self.peak_incoming_fds
    }

    /// The most file descriptors that these outgoing messages ever had at one time.
    pub fn peak_outgoing_fds(&self) -> Option<u32>
        ensures { result ≡ self.now.peak_outgoing_fds }
    {
        self.peak_outgoing_fds
    }

    /// The entries of other keys, in their order.
    pub fn rest(&self) -> &[(Text, Value)]
        ensures { result.now ≡ self.now.rest.items }
    {
        self.rest.as_slice()
    }
}
