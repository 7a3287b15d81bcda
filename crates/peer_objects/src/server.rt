//! The objects of a service.
ghost use Rattle.std.specs.Prelude.{◌≡◌, ◌∷◌, [], IfOk, IfErr, true, slice_get, slice_set, None, option_and_then};
ghost use Rattle.object_tree.specs.Objects.{root, is_taken};
ghost use Rattle.peer_objects.specs.Reaching.{is_kept};
ghost use Rattle.peer_objects.specs.Serving.{IsKeptAt, Finds, Lends};
ghost use Rattle.peer_objects.specs.Placing.{PutsIn, TakesOne, Places, Removes, RemovesOne};

use crate::reference::{InterfaceDeref, InterfaceRef};
use object_interface::Interface;
use object_tree::{Tree, is_standing};
use std::alloc::{AllocError, AllocFailed, Global};
use std::collections::BTreeMap;
use std::marker::Model;
use wire_message::{Error, OutgoingMessage, Result};
use wire_value::{InterfaceName, ObjectPath};

/// What came of adding an interface.
#[derive(Drop)]
pub enum Adding<B> {
    /// It stands at the path. These messages of an object manager announce that, in order; there are none where no manager tells
    /// of it.
    Added(Vec<OutgoingMessage<'static>>),
    /// One of its name stands there already, or each object has the name by itself: it is handed back.
    Exists(B),
}

/// An interface that was removed.
#[derive(Drop)]
pub struct Removed<B> {
    /// Whether its object is gone with it.
    pub destroyed: bool,
    /// The interface.
    pub object: B,
    /// What the object's manager announces; nothing where it has none.
    pub announced: Vec<OutgoingMessage<'static>>,
}

/// The objects of a service: at each path the interfaces that stand there, each kept in a slot of its own, which is never used
/// again (D-Bus Specification, "Interfaces"); and the numbers of answers, each with whether its reply was put.
pub struct ObjectServer<B: Interface> {
    pub(crate) alloc: Global,
    pub(crate) tree: Tree,
    pub(crate) slots: Vec<Option<B>>,
    pub(crate) notified: BTreeMap<u64, bool>,
}

impl<B: Interface> Drop for ObjectServer<B> {
    fn drop(self) {
        let ObjectServer {
            alloc: _,
            tree: _,
            slots: _,
            notified: _,
        } = self;
    }
}

impl<B: Interface> Model for ObjectServer<B> {
    ghost use Rattle.peer_objects.specs.Serving.{AreKept};
    ghost use Rattle.peer_objects.specs.Placing.{ServerView};

    ghost Value = { ServerView B };

    ghost view = { λ s. (s.tree, s.slots.items, s.notified.entries) };

    ghost invariant = { λ s. AreKept (λ b. (B.meaning b).title) s.tree s.slots.items };
}

/// Takes out what is kept in a slot.
fn empty<B>(slots: &mut Vec<Option<B>>, slot: u64) -> Option<B>
    ensures kept { result ≡ option_and_then (λ o. o) (slice_get slots.old.items slot) }
    ensures left { slots.new.items ≡ slice_set slots.old.items slot None }
{
    match slots.get_mut(slot as usize) {
        Some(place) => place.take(),
        None => None,
    }
}

impl<B: Interface> ObjectServer<B> {
    /// No interfaces; of paths the root alone.
    ///
    /// # Errors
    ///
    /// AllocError for want of memory.
    pub fn new(alloc: Global) -> std::result::Result<ObjectServer<B>, AllocError>
        ensures { IfOk result (λ server. server ≡ ((root, []) ∷ [], [], [])) }
    {
        let tree = Tree::new(alloc)?;
        Ok(ObjectServer {
            alloc,
            tree,
            slots: Vec::new(alloc),
            notified: BTreeMap::new(alloc),
        })
    }

    /// The tree: the paths, and the slots where the interfaces of each are kept.
    pub fn inner(&self) -> &Tree
        ensures { result.now ≡ self.now.0 }
    {
        &self.tree
    }

    /// Gives the tree back, and the interfaces by their slots.
    pub fn into_inner(self) -> (Tree, Vec<Option<B>>)
        ensures tree { result.0 ≡ self.0 }
        ensures slots { result.1.items ≡ self.1 }
    {
        let ObjectServer {
            alloc: _,
            tree,
            slots,
            notified: _,
        } = self;
        (tree, slots)
    }

    /// Whether a name can't be added at a path: each object has it by itself, or one stands there already.
    pub(crate) fn is_taken(&self, path: &ObjectPath<'_>, name: &InterfaceName<'_>) -> bool
        ensures { result ≡ is_taken self.now.0 path.now name.now }
    {
        is_standing(name) || self.tree.slot(path, name).is_some()
    }

    /// Puts an interface in at a path where its name isn't taken; else it is handed back. Without memory nothing is changed.
    fn put_in(
        &mut self,
        path: &ObjectPath<'_>,
        object: B,
    ) -> std::result::Result<Option<B>, AllocFailed<B>>
        ensures put { IfOk result (λ back. PutsIn (λ b. (B.meaning b).title) self.old self.new path.now object back) }
        ensures back { IfErr result (λ e. (e.value ≡ object) × (self.new ≡ self.old)) }
    {
        if self.slots.reserve(1).is_err() {
            return Err(AllocFailed { value: object });
        }
        let slot = self.slots.len() as u64;
        let added = self.tree.add(self.alloc, path, &object.name(), slot);
        match added {
            Ok(true) => {
                self.slots.push_reserved(Some(object));
                Ok(None)
            }
            Ok(false) => Ok(Some(object)),
            Err(_) => Err(AllocFailed { value: object }),
        }
    }

    /// Adds an interface at a path, in the next slot, and makes each path that is missing on the way. Where one of its name
    /// stands there already, or it is one of the three that each object has by itself, it is handed back, and no path is made.
    ///
    /// The messages by which object managers announce it are handed back, to be put: the manager of the object, which is the
    /// closest one above it, tells of the interface with its properties. An
    /// `org.freedesktop.DBus.ObjectManager` that is added isn't told of; it tells of each object below its own (D-Bus Specification,
    /// "Standard Interfaces", "org.freedesktop.DBus.ObjectManager").
    ///
    /// # Errors
    ///
    /// Want of memory alone: the interface is handed back, and nothing is changed.
    ///
    /// # Examples
    ///
    /// ```
    /// use peer_boxes::Greeter;
    /// use peer_objects::{Adding, ObjectServer};
    /// use wire_value::ObjectPath;
    /// let mut server = ObjectServer::new(rt.alloc())?;
    /// let path = ObjectPath::try_from("/org/zbus/MyGreeter")?;
    /// assert!(rt; matches!(&server.at(&path, Greeter::new()), Ok(Adding::Added(_))));
    /// assert!(rt; matches!(&server.at(&path, Greeter::new()), Ok(Adding::Exists(_))));
    /// Ok(())
    /// ```
    pub fn at(
        &mut self,
        path: &ObjectPath<'_>,
        object: B,
    ) -> std::result::Result<Adding<B>, AllocFailed<B>>
        ensures placed { IfOk result (λ adding. Places B.meaning B.state self.old self.new path.now object adding) }
        ensures back { IfErr result (λ e. (e.value ≡ object) × (self.new ≡ self.old)) }
    {
        let announced = match self.announce(path, &object) {
            Ok(announced) => announced,
            Err(_) => return Err(AllocFailed { value: object }),
        };
        match self.put_in(path, object) {
            Ok(None) => Ok(Adding::Added(announced)),
            Ok(Some(object)) => Ok(Adding::Exists(object)),
            Err(error) => Err(error),
        }
    }

    /// Takes an interface out that is there, and says whether its object is gone with it.
    fn take_out(&mut self, path: &ObjectPath<'_>, name: &InterfaceName<'_>) -> Option<(bool, B)>
        ensures { TakesOne self.old self.new path.now name.now result }
    {
        let Some(removal) = self.tree.remove(path, name) else {
            return None;
        };
        let object = empty(&mut self.slots, removal.slot);
        if let Some(manager) = removal.manager {
            let _ = empty(&mut self.slots, manager);
        }
        match object {
            Some(object) => Some((removal.destroyed, object)),
            None => unreachable!(),
        }
    }

    /// Removes an interface, and hands it back: and whether its object is gone with it, which it is exactly where its path isn't
    /// `/`, no path is below, and no other interface stands there but, perhaps, `org.freedesktop.DBus.ObjectManager`, which goes
    /// with it. What the object's manager announces of it is handed back too, to be put; nothing is announced of what goes with
    /// the object.
    ///
    /// # Errors
    ///
    /// InterfaceNotFound exactly where no interface of the name was added there; else Memory for want of memory, which is taken only
    /// where the object has a manager. An error changes nothing.
    pub fn remove_named(
        &mut self,
        path: &ObjectPath<'_>,
        name: &InterfaceName<'_>,
    ) -> Result<Removed<B>>
        ensures { Removes self.old self.new path.now name.now result }
    {
        if self.tree.slot(path, name).is_none() {
            return Err(Error::InterfaceNotFound);
        }
        let announced = self.announce_removed(path, name)?;
        match self.take_out(path, name) {
            Some((destroyed, object)) => Ok(Removed {
                destroyed,
                object,
                announced,
            }),
            None => unreachable!(),
        }
    }

    /// Removes an interface, and says whether its object is gone with it, and what the object's manager announces, as
    /// [`ObjectServer::remove_named`] does.
    ///
    /// # Errors
    ///
    /// InterfaceNotFound exactly where no interface of the name was added there; else Memory for want of memory, which is taken only
    /// where the object has a manager. An error changes nothing.
    ///
    /// # Examples
    ///
    /// ```
    /// use peer_boxes::Greeter;
    /// use peer_objects::ObjectServer;
    /// use wire_value::{InterfaceName, ObjectPath};
    /// let mut server = ObjectServer::new(rt.alloc())?;
    /// let path = ObjectPath::try_from("/org/zbus/MyGreeter")?;
    /// let name = InterfaceName::try_from("org.zbus.MyGreeter1")?;
    /// assert!(rt; server.at(&path, Greeter::new()).is_ok());
    /// let (destroyed, _) = server.remove(&path, &name)?;
    /// assert!(rt; destroyed && server.interface(&path, &name).is_err());
    /// Ok(())
    /// ```
    pub fn remove(
        &mut self,
        path: &ObjectPath<'_>,
        name: &InterfaceName<'_>,
    ) -> Result<(bool, Vec<OutgoingMessage<'static>>)>
        ensures { RemovesOne self.old self.new path.now name.now result }
    {
        let removed = self.remove_named(path, name)?;
        Ok((removed.destroyed, removed.announced))
    }

    /// The interface of that name at a path, by the slot where it is kept.
    ///
    /// # Errors
    ///
    /// InterfaceNotFound exactly where no interface of the name was added there, else nothing but want of memory.
    ///
    /// # Examples
    ///
    /// ```
    /// use peer_boxes::Greeter;
    /// use peer_objects::ObjectServer;
    /// use wire_value::{InterfaceName, ObjectPath};
    /// let mut server = ObjectServer::new(rt.alloc())?;
    /// let path = ObjectPath::try_from("/org/zbus/MyGreeter")?;
    /// assert!(rt; server.at(&path, Greeter::new()).is_ok());
    /// let greeter = server.interface(&path, &InterfaceName::try_from("org.zbus.MyGreeter1")?)?;
    /// assert!(rt; greeter.path().as_str() == "/org/zbus/MyGreeter" && greeter.slot() == 0);
    /// Ok(())
    /// ```
    pub fn interface(&self, path: &ObjectPath<'_>, name: &InterfaceName<'_>) -> Result<InterfaceRef>
        ensures { Finds self.now.0 path.now name.now result }
    {
        match self.tree.slot(path, name) {
            Some(slot) => Ok(InterfaceRef::new(self.alloc, path, name, slot)?),
            None => Err(Error::InterfaceNotFound),
        }
    }

    /// Whether an interface is kept in the slot.
    pub(crate) fn keeps(&self, slot: u64) -> bool
        ensures { result ≡ is_kept (slice_get self.now.1 slot) }
    {
        matches!(self.slots.get(slot as usize), Some(Some(_)))
    }

    /// The interface in a slot that keeps one.
    pub(crate) fn kept(&self, slot: u64) -> &B
        requires { is_kept (slice_get self.now.1 slot) ≡ true }
        ensures { IsKeptAt self.now.1 slot result.now }
    {
        match self.slots.get(slot as usize) {
            Some(Some(object)) => object,
            _ => unreachable!(),
        }
    }

    /// Lends the interface that is meant.
    ///
    /// # Errors
    ///
    /// InterfaceNotFound exactly where it was removed since, also where another stands in its place.
    pub fn get(&self, reference: &InterfaceRef) -> Result<InterfaceDeref<'_, B>>
        ensures { Lends self.now.1 reference.now result }
    {
        match self.slots.get(reference.slot() as usize) {
            Some(Some(object)) => Ok(InterfaceDeref::new(object)),
            _ => Err(Error::InterfaceNotFound),
        }
    }
}
