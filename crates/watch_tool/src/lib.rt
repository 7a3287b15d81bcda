//! A monitor of recorded traffic: for each message that a rule matches, a line of text (D-Bus Specification, "Message
//! Protocol", "Match Rules").
#![tactic(auto)]

mod error;
mod line;
mod monitoring;
mod reading;
mod rules;

pub use error::WatchError;
pub use monitoring::monitor;
pub use rules::{RulesError, rules_of};
