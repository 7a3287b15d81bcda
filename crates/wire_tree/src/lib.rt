//! Values of D-Bus (D-Bus Specification, "Type System").
#![tactic(auto)]

pub use crate::laws::{equal_is_one, variants_hold_values};
pub use crate::numbers::{Fixed, Fixed16, Fixed32, Fixed64, Numbers, number_of};
pub use crate::tree::{Entries, Inner, Tree, Trees};
pub use crate::typed::type_text;
pub use crate::value::Value;

mod copy;
mod display;
mod hash;
mod laws;
mod numbers;
mod same;
mod tree;
mod typed;
mod value;
mod well_typed;
