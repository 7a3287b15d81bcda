//! The step of a peer with objects: a command's entry is begun, and what it asks of objects is answered by a service.
#![tactic(auto)]

mod laws;
mod objects;

pub use laws::{a_call_changes_one_object, each_call_is_answered_once, one_history};
pub use objects::begin;
