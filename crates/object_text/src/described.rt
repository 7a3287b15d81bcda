//! What the text is made of.

use object_interface::{DescribedInterface, Items};
use wire_value::ObjectPath;

/// An object that is told: its path, and its own interfaces, ascending by their names (D-Bus Specification, "Introspection
/// Data Format").
pub struct DescribedObject<'a> {
    pub path: ObjectPath<'a>,
    pub interfaces: Items<DescribedInterface<'a>>,
}

impl<'a> Drop for DescribedObject<'a> {
    fn drop(self) {
        let DescribedObject {
            path: _,
            interfaces: _,
        } = self;
    }
}
