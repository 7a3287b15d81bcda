//! The methods of the standard interfaces.
ghost use Rattle.std.specs.Prelude.{◌≡◌};
ghost use Rattle.object_standard.specs.Method.{method_named};

use crate::peer::PeerMethod;
use object_tree::StandardInterface;

/// A method of a standard interface (D-Bus Specification, "Standard Interfaces").
#[derive(Clone, Copy, Debug, PartialEq, Eq)]
pub enum StandardMethod {
    /// One of `org.freedesktop.DBus.Peer`.
    Peer(PeerMethod),
    /// Of `org.freedesktop.DBus.Introspectable`.
    Introspect,
    /// Of `org.freedesktop.DBus.Properties`.
    Get,
    Set,
    GetAll,
    /// Of `org.freedesktop.DBus.ObjectManager`.
    GetManagedObjects,
}

impl StandardMethod {
    /// Returns the method of that name.
    pub fn named(interface: StandardInterface, member: &str) -> Option<StandardMethod>
        ensures { result ≡ method_named interface member.now }
    {
        match interface {
            StandardInterface::Peer => Some(StandardMethod::Peer(PeerMethod::named(member)?)),
            StandardInterface::Introspectable if member == "Introspect" => {
                Some(StandardMethod::Introspect)
            }
            StandardInterface::Properties if member == "Get" => Some(StandardMethod::Get),
            StandardInterface::Properties if member == "Set" => Some(StandardMethod::Set),
            StandardInterface::Properties if member == "GetAll" => Some(StandardMethod::GetAll),
            StandardInterface::ObjectManager if member == "GetManagedObjects" => {
                Some(StandardMethod::GetManagedObjects)
            }
            _ => None,
        }
    }
}
