//! The tree of objects.
ghost use Rattle.std.specs.Prelude.{◌≡◌, ◌∷◌, [], IfOk, IfSome, OnErr, IfNone, IsTrue, None, Some, is_some, option_map};
ghost use Rattle.object_tree.specs.Objects.{Adds, root, rows_at, slot_at, has_below, is_taken, is_gone_without, removed, gone_manager, below, from_path, manager_of, IsTree};

use crate::nodes::Nodes;
use crate::paths::{ROOT, parent};
use crate::standard::is_standing;
use crate::walk::ObjectAt;
use std::alloc::{AllocError, Global};
use std::marker::Model;
use wire_names::{InterfaceName, ObjectPath};

/// An interface that was removed.
#[derive(Clone, Copy, Debug)]
pub struct Removal {
    /// The slot where it was kept.
    pub slot: u64,
    /// Whether its object is gone with it: its path isn't `/`, no path is below, and no interface is left but, perhaps,
    /// `org.freedesktop.DBus.ObjectManager`.
    pub destroyed: bool,
    /// The slot of the object's `org.freedesktop.DBus.ObjectManager`, where it went with the object.
    pub manager: Option<u64>,
}

/// The paths of a service's objects, and the interfaces of each by the slot where it is kept (D-Bus Specification, "Valid
/// Object Paths", "Interfaces").
pub struct Tree {
    nodes: Nodes,
}

impl Drop for Tree {
    fn drop(self) {
        let Tree { nodes: _ } = self;
    }
}

impl Model for Tree {
    ghost use Rattle.object_tree.specs.Objects.{Objects, IsTree};

    ghost Value = { Objects };

    ghost view = { λ t. t.nodes };

    ghost invariant = { λ t. IsTree t.nodes };
}

impl Tree {
    /// The root alone, without interfaces.
    ///
    /// # Errors
    ///
    /// AllocError for want of memory.
    pub fn new(alloc: Global) -> Result<Tree, AllocError>
        ensures { IfOk result (λ tree. tree ≡ (root, []) ∷ []) }
    {
        let nodes = Nodes::new(alloc)?;
        Ok(Tree { nodes })
    }

    /// Whether it has the path.
    pub fn has_path(&self, path: &ObjectPath<'_>) -> bool
        ensures { result ≡ is_some (rows_at self.now path.now) }
    {
        self.nodes.get(path.as_str()).is_some()
    }

    /// Whether a path is strictly below.
    pub fn has_below(&self, path: &ObjectPath<'_>) -> bool
        ensures { result ≡ has_below self.now path.now }
    {
        self.nodes.has_below(path.as_str())
    }

    /// The objects strictly below a path, ascending by the paths' bytes. It takes a look-up, and a step for each of them.
    ///
    /// # Errors
    ///
    /// AllocError for want of memory.
    #[tactic(auto, using(crate::proofs::Removing::has_byte))]
    pub fn below(
        &self,
        alloc: Global,
        path: &ObjectPath<'_>,
    ) -> Result<Vec<ObjectAt<'_>>, AllocError>
        ensures { IfOk result (λ list. list.items ≡ below self.now path.now) }
    {
        self.nodes.below(alloc, path.as_str())
    }

    /// The object at a path, where the tree has it, and those below it, ascending by the paths' bytes. It takes a look-up, and a
    /// step for each of them.
    ///
    /// # Errors
    ///
    /// AllocError for want of memory.
    #[tactic(auto, using(crate::proofs::Removing::has_byte))]
    pub fn from_path(
        &self,
        alloc: Global,
        path: &ObjectPath<'_>,
    ) -> Result<Vec<ObjectAt<'_>>, AllocError>
        ensures { IfOk result (λ list. list.items ≡ from_path self.now path.now) }
    {
        self.nodes.from_path(alloc, path.as_str())
    }

    /// The manager of a path: the longest path that it is strictly below where an `org.freedesktop.DBus.ObjectManager` was
    /// added. It takes a look-up for each path on the way.
    pub fn manager(&self, path: &ObjectPath<'_>) -> Option<ObjectPath<'_>>
        ensures { result ≡ manager_of self.now path.now }
    {
        let mut front = path.as_str();
        'up: while let Some(above) = parent(front) {
            if let Some(manager) = self.nodes.manager_at(above) {
                return Some(manager);
            }
            front = above;
        }
        None
    }

    /// The slot of an interface at a path. The three that each object has by itself have none.
    pub fn slot(&self, path: &ObjectPath<'_>, name: &InterfaceName<'_>) -> Option<u64>
        ensures { result ≡ slot_at self.now path.now name.now }
    {
        match self.nodes.get(path.as_str()) {
            Some(rows) => rows.get(name.as_str()),
            None => None,
        }
    }

    /// Adds an interface to the object at a path, kept in that slot, with each path that is missing on the way; and says
    /// whether it was added, which it is exactly where each object hasn't the name by itself and this one hasn't it already.
    /// The tree stays where it wasn't added.
    ///
    /// # Errors
    ///
    /// AllocError for want of memory: the tree stays.
    pub fn add(
        &mut self,
        alloc: Global,
        path: &ObjectPath<'_>,
        name: &InterfaceName<'_>,
        slot: u64,
    ) -> Result<bool, AllocError>
        ensures done { IfOk result (λ done. Adds self.old self.new path.now name.now slot done) }
        ensures left { OnErr result (self.new ≡ self.old) }
    {
        if is_standing(name) {
            return Ok(false);
        }
        if self.slot(path, name).is_some() {
            return Ok(false);
        }
        self.nodes.add(alloc, path.as_str(), name.as_str(), slot)?;
        Ok(true)
    }

    /// Removes an interface from the object at a path, and the path with it where the object is gone; nothing where the object
    /// hasn't it, as the three that each object has by itself.
    pub fn remove(&mut self, path: &ObjectPath<'_>, name: &InterfaceName<'_>) -> Option<Removal>
        ensures slot { option_map (λ r. r.slot) result ≡ slot_at self.old path.now name.now }
        ensures there { IfSome result (λ r. (r.destroyed ≡ is_gone_without self.old path.now name.now) × (r.manager ≡ gone_manager self.old path.now name.now) × (self.new ≡ removed self.old path.now name.now)) }
        ensures none { IfNone result (self.new ≡ self.old) }
    {
        let has_below = self.has_below(path);
        let path = path.as_str();
        let (slot, bare) = self.nodes.remove_row(path, name.as_str())?;
        if path == ROOT || has_below || !bare {
            return Some(Removal {
                slot,
                destroyed: false,
                manager: None,
            });
        }
        let manager = self.nodes.remove(path);
        Some(Removal {
            slot,
            destroyed: true,
            manager,
        })
    }
}
