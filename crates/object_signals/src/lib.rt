//! Signals of objects: what object managers announce, and signals that an object puts at once.
#![tactic(auto)]

pub use crate::announced::{ManagerSignal, announce_added, announce_removed};
pub use crate::emitter::{Emits, OwnedSignalEmitter, SignalEmitter};

mod announced;
mod emitter;
/// The standard interfaces that objects have: the name of each, and calls that put its signals at once (D-Bus Specification,
/// "Standard Interfaces").
pub mod fdo;
