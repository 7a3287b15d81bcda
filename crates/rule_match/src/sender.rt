//! The sender that a rule wants.
use std::alloc::{AllocError, Global};
use std::fmt;
use std::hash::{Hash, Hasher};
use std::marker::Model;
use wire_value::OwnedBusName;

/// A sender, compared and hashed by its kind and its text: bus names are compared by their texts alone.
pub(crate) struct Sender {
    name: OwnedBusName,
}

impl Drop for Sender {
    fn drop(self) {
        let Sender { name: _ } = self;
    }
}

impl Model for Sender {
    ghost use Rattle.wire_names.specs.declared.bus.OwnedBusName.{OwnedBusName};

    ghost Value = { OwnedBusName };

    ghost view = { λ sender. sender.name };

    ghost inverse = { λ name. record { name = name } };
}

impl fmt::Debug for Sender {
    fn fmt<W: fmt::Write>(&self, f: &mut fmt::Formatter<W>) -> fmt::Result {
        fmt::Debug::fmt(&self.name, f)
    }
}

impl Sender {
    ghost use Rattle.std.specs.Prelude.{◌≡◌, IfOk};

    pub(crate) fn new(name: OwnedBusName) -> Sender
        ensures { result ≡ name }
    {
        Sender { name }
    }

    pub(crate) fn name(&self) -> &OwnedBusName
        ensures { result.now ≡ self.now }
    {
        &self.name
    }

    pub(crate) fn try_clone(&self, alloc: Global) -> Result<Sender, AllocError>
        ensures { IfOk result (λ sender. sender ≡ self.now) }
    {
        let name = self.name.try_clone(alloc)?;
        Ok(Sender { name })
    }
}

impl PartialEq for Sender {
    ghost use Rattle.std.specs.Cmp.{on_per, partial_equiv_from_equiv};
    ghost use Rattle.std.specs.Cmp.Lexicographic.{nat_list_eq_equiv};
    ghost use Rattle.rule_match.specs.Sender.{key_of, same_sender};

    ghost eq = { same_sender };

    ghost laws = { on_per key_of (partial_equiv_from_equiv nat_list_eq_equiv) };

    fn eq(&self, other: &Sender) -> bool {
        match (&self.name, &other.name) {
            (OwnedBusName::Unique(name), OwnedBusName::Unique(other)) => name == other,
            (OwnedBusName::WellKnown(name), OwnedBusName::WellKnown(other)) => name == other,
            _ => false,
        }
    }
}

impl Eq for Sender {
    ghost use Rattle.std.specs.Cmp.{on_equiv};
    ghost use Rattle.std.specs.Cmp.Lexicographic.{nat_list_eq_equiv};
    ghost use Rattle.rule_match.specs.Sender.{key_of};

    ghost laws = { on_equiv key_of nat_list_eq_equiv };
}

impl Hash for Sender {
    ghost use Rattle.rule_match.specs.Sender.{key_of, key_fed, sender_alike};

    ghost hash_input = { λ name. key_fed (key_of name) };

    ghost respects_eq = { sender_alike.fed };

    fn hash<H: Hasher>(&self, state: &mut H) {
        match &self.name {
            OwnedBusName::Unique(name) => {
                0u8.hash(state);
                name.hash(state);
            }
            OwnedBusName::WellKnown(name) => {
                1u8.hash(state);
                name.hash(state);
            }
        }
    }
}
