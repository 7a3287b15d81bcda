//! A peer's state, and its commands in steps, without a source or a sink.
#![tactic(auto)]

mod acting;
mod answers;
mod handles;
mod lanes;
mod objects;
mod sending;
mod state;
mod steps;
mod streaming;

pub use state::{PeerState, RunError};
