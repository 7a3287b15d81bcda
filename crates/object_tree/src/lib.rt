//! The tree of a service's objects: which paths there are, and which interfaces each object has, by the slot where it is kept.
#![tactic(auto)]

pub use crate::paths::is_below;
pub use crate::standard::{StandardInterface, is_standing};
pub use crate::tree::{Removal, Tree};
pub use crate::walk::ObjectAt;

mod nodes;
mod paths;
mod rows;
mod standard;
mod tree;
mod walk;
