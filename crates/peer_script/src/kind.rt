//! What kind of peer a script is of.
ghost use Rattle.std.specs.Prelude.{◌≡◌, option_map};
ghost use Rattle.peer_script.specs.Script.{is_bus, name_of};

use wire_value::OwnedUniqueName;

/// What kind of peer a script is of.
pub enum PeerKind {
    /// One that stands on no message bus, and perhaps has a unique name.
    Direct(Option<OwnedUniqueName>),
    /// One that stands on a message bus, by this unique name.
    Bus(OwnedUniqueName),
}

impl Drop for PeerKind {
    fn drop(self) {
        match self {
            PeerKind::Direct(_) => {}
            PeerKind::Bus(_) => {}
        }
    }
}

impl PeerKind {
    /// Whether the peer stands on a message bus.
    pub fn is_bus(&self) -> bool
        ensures { result ≡ is_bus self.now }
    {
        matches!(self, PeerKind::Bus(_))
    }

    /// Its unique name, where it has one.
    pub fn name(&self) -> Option<&OwnedUniqueName>
        ensures { option_map (λ name. name.now) result ≡ name_of self.now }
    {
        match self {
            PeerKind::Direct(name) => name.as_ref(),
            PeerKind::Bus(name) => Some(name),
        }
    }
}
