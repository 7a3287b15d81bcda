//! The standard interfaces, by name.
ghost use Rattle.std.specs.Prelude.{◌≡◌};
ghost use Rattle.object_tree.specs.Standard.{is_standing, standard_name, standard_named};

use wire_names::InterfaceName;

/// The standard interfaces, which a service answers by itself (D-Bus Specification, "Standard Interfaces").
#[derive(Clone, Copy, Debug, PartialEq, Eq)]
pub enum StandardInterface {
    /// `org.freedesktop.DBus.Peer`.
    Peer,
    /// `org.freedesktop.DBus.Introspectable`.
    Introspectable,
    /// `org.freedesktop.DBus.Properties`.
    Properties,
    /// `org.freedesktop.DBus.ObjectManager`.
    ObjectManager,
}

impl StandardInterface {
    /// Returns its name.
    #[tactic(auto, unfolding(wire_names::specs::Names::is_interface_name, wire_names::specs::Names::is_dotted, wire_names::specs::Names::is_element))]
    pub fn name(self) -> InterfaceName<'static>
        ensures { result ≡ standard_name self }
    {
        match self {
            StandardInterface::Peer => InterfaceName::from_static_str("org.freedesktop.DBus.Peer"),
            StandardInterface::Introspectable => {
                InterfaceName::from_static_str("org.freedesktop.DBus.Introspectable")
            }
            StandardInterface::Properties => {
                InterfaceName::from_static_str("org.freedesktop.DBus.Properties")
            }
            StandardInterface::ObjectManager => {
                InterfaceName::from_static_str("org.freedesktop.DBus.ObjectManager")
            }
        }
    }

    /// Returns the standard interface of that name.
    pub fn named(name: &str) -> Option<StandardInterface>
        ensures { result ≡ standard_named name.now }
    {
        if name == StandardInterface::Peer.name().as_str() {
            Some(StandardInterface::Peer)
        } else if name == StandardInterface::Introspectable.name().as_str() {
            Some(StandardInterface::Introspectable)
        } else if name == StandardInterface::Properties.name().as_str() {
            Some(StandardInterface::Properties)
        } else if name == StandardInterface::ObjectManager.name().as_str() {
            Some(StandardInterface::ObjectManager)
        } else {
            None
        }
    }
}

/// Returns whether each object has the interface by itself: it is one of the four standard interfaces, but not
/// `org.freedesktop.DBus.ObjectManager` (D-Bus Specification, "Standard Interfaces").
pub fn is_standing(name: &InterfaceName<'_>) -> bool
    ensures { result ≡ is_standing name.now }
{
    match StandardInterface::named(name.as_str()) {
        None | Some(StandardInterface::ObjectManager) => false,
        Some(_) => true,
    }
}
