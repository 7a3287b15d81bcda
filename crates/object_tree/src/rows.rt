//! The interfaces of one object.
ghost use Rattle.std.specs.Prelude.{◌≡◌, [], IfOk, IsTrue, OnOk, OnErr};
ghost use Rattle.std.specs.List.{AllByRecursion};
ghost use Rattle.std.specs.Map.{lookup, remove_entry};
ghost use Rattle.std.specs.BTreeMap.{insert_entry, is_at};
ghost use Rattle.object_tree.specs.Objects.{text_cmp, are_none_but_manager, manager_name};
ghost use Rattle.wire_names.specs.Names.{is_interface_name};

use crate::standard::StandardInterface;
use std::alloc::{AllocError, Global};
use std::collections::BTreeMap;
use std::marker::Model;
use wire_names::InterfaceName;

/// The interfaces of one object: the name of each, and the slot where it is kept.
pub(crate) struct Rows {
    slots: BTreeMap<String, u64>,
}

impl Drop for Rows {
    fn drop(self) {
        let Rows { slots: _ } = self;
    }
}

impl Model for Rows {
    ghost use Rattle.std.specs.Prelude.{List, ℕ};
    ghost use Rattle.object_tree.specs.Keyed.{listed};

    ghost Value = { List (List ℕ × ℕ) };

    ghost view = { λ r. listed r.slots.entries };
}

impl Rows {
    /// No interfaces.
    pub(crate) fn new(alloc: Global) -> Rows
        ensures { result ≡ [] }
    {
        Rows {
            slots: BTreeMap::new(alloc),
        }
    }

    /// The slot of an interface.
    #[tactic(auto, using(crate::proofs::Keyed::lookup_keyed))]
    pub(crate) fn get(&self, name: &str) -> Option<u64>
        ensures { result ≡ lookup (is_at (text_cmp name.now)) self.now }
    {
        self.slots.get(name).copied()
    }

    /// The slot of the interface that reports the objects below its own.
    pub(crate) fn manager(&self) -> Option<u64>
        ensures { result ≡ lookup (is_at (text_cmp manager_name)) self.now }
    {
        self.get(StandardInterface::ObjectManager.name().as_str())
    }

    /// Adds an interface, or gives one that is there another slot.
    #[tactic(auto, using(crate::proofs::Keyed::insert_keyed))]
    pub(crate) fn insert(&mut self, alloc: Global, name: &str, slot: u64) -> Result<(), AllocError>
        ensures done { OnOk result (self.new ≡ insert_entry text_cmp self.old name.now slot) }
        ensures left { OnErr result (self.new ≡ self.old) }
    {
        let key = String::from_str(alloc, name)?;
        self.slots.insert(key, slot)?;
        Ok(())
    }

    /// Removes an interface, and gives its slot.
    #[tactic(auto, using(crate::proofs::Keyed::lookup_keyed, crate::proofs::Keyed::remove_keyed))]
    pub(crate) fn remove(&mut self, name: &str) -> Option<u64>
        ensures slot { result ≡ lookup (is_at (text_cmp name.now)) self.old }
        ensures rest { self.new ≡ remove_entry (is_at (text_cmp name.now)) self.old }
    {
        self.slots.remove(name)
    }

    /// Removes all.
    pub(crate) fn clear(&mut self)
        ensures { self.new ≡ [] }
    {
        self.slots.clear();
    }

    /// Whether there is none but, perhaps, the one that tells of the objects below.
    pub(crate) fn are_none_but_manager(&self) -> bool
        ensures { result ≡ are_none_but_manager self.now }
    {
        match self.slots.len() {
            0 => true,
            1 => self.manager().is_some(),
            _ => false,
        }
    }

    /// The names, each with its slot, ascending by their bytes.
    pub(crate) fn names(&self, alloc: Global) -> Result<Vec<(InterfaceName<'_>, u64)>, AllocError>
        requires { AllByRecursion (λ row. IsTrue (is_interface_name row.0)) self.now }
        ensures { IfOk result (λ list. list.items ≡ self.now) }
    {
        let mut list = Vec::new(alloc);
        for (name, slot) in &self.slots {
            let Ok(name) = InterfaceName::try_from(name.as_str()) else {
                unreachable!()
            };
            list.push((name, *slot))?;
        }
        Ok(list)
    }
}
