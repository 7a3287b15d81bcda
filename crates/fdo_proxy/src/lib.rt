//! The data types in which a message bus describes itself, and the flags and replies of its names (D-Bus Specification,
//! "Message Bus Messages").
#![tactic(auto)]

pub use crate::connection_stats::ConnectionStats;
pub use crate::credentials::ConnectionCredentials;
pub use crate::names::{ReleaseNameReply, RequestNameFlags, RequestNameReply, StartServiceReply};
pub use crate::stats::Stats;

mod connection_stats;
mod credentials;
mod dictionary;
mod names;
mod stats;
