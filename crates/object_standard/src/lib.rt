//! The standard interfaces, which a service answers by itself (D-Bus Specification, "Standard Interfaces"): of each its methods,
//! their arguments and answers, its signals, and what introspection tells of it. What needs the service's objects is given by the
//! caller.
#![tactic(auto)]

pub use crate::arguments::has_no_arguments;
pub use crate::introspectable::text_body;
pub use crate::laws::{a_body_has_one_reading, properties_are_told_by_name};
pub use crate::method::StandardMethod;
pub use crate::object_manager::{
    ManagedInterface, ManagedObject, added_body, managed_body, manager_description, removed_body,
};
pub use crate::peer::{PeerMethod, answer_of_peer};
pub use crate::properties::{
    answer_of_get, answer_of_set, changed, changed_body, interface_argument, properties_body,
    property_arguments, setting_arguments, unknown_property,
};
pub use crate::standing_interfaces::standing;

mod arguments;
mod introspectable;
mod laws;
mod method;
mod object_manager;
mod peer;
mod properties;
mod standing_interfaces;
