//! A service's objects by their commands: the interfaces that were handed in, each placed at a path and removed by its number.
#![tactic(auto)]

pub use crate::numbered::{Numbered, Registry};
pub use crate::service::Service;

mod numbered;
mod service;
mod shelf;
mod words;
