//! Names, object paths and GUIDs of D-Bus (D-Bus Specification, "Valid Names", "Valid Object Paths", "UUIDs"), and the small
//! types that hold text and bytes.
#![tactic(auto)]

pub use crate::bus::{BusName, OwnedBusName};
pub use crate::error::NamesError;
pub use crate::grammar::are_bus_name_elements;
pub use crate::guid::{Guid, GuidError, OwnedGuid, a_guid_is_text};
pub use crate::kinds::{
    ErrorName, InterfaceName, MemberName, ObjectPath, OwnedErrorName, OwnedInterfaceName,
    OwnedMemberName, OwnedObjectPath, OwnedUniqueName, OwnedWellKnownName, UniqueName,
    WellKnownName,
};
pub use crate::laws::only_the_bus_is_both;
pub use crate::name::{Name, NameKind, OwnedName};
pub use crate::small::{Bytes, Text};

mod bus;
mod error;
mod grammar;
mod guid;
/// The kinds of names: each with its grammar, and a name of each, lent and owned.
pub mod kinds;
mod laws;
mod name;
mod small;
