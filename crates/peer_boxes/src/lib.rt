//! The program's own interfaces: a greeter, an object with a property, a level that can be set, and those that have nothing but
//! a name.
#![tactic(auto)]

pub use crate::greeter::Greeter;
pub use crate::laws::each_answers_in_one_way;
pub use crate::level::Level;
pub use crate::named::Named;
pub use crate::own::{OwnInterface, own_interfaces};
pub use crate::test_object::TestObject;

mod greeter;
mod laws;
mod level;
mod named;
mod own;
mod test_object;
mod values;
