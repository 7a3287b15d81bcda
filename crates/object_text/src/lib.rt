//! The text that introspection answers (D-Bus Specification, "Introspection Data Format").
#![tactic(auto)]

pub use crate::described::DescribedObject;
pub use crate::nodes::introspection;

mod described;
mod lines;
mod nodes;
mod parts;
