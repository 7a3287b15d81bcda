//! The paths of the tree, each with its object's interfaces.
ghost use Rattle.std.specs.Prelude.{◌≡◌, ◌∷◌, ◌++◌, ◌<◌, [], IfOk, IsTrue, OnErr, OnOk, IfNone, IfSome, None, Some, if◌then◌else◌, false, is_some, length, option_copied, option_map};
ghost use Rattle.object_tree.specs.Closed.{AreNodes, walked, is_from, is_without, place};
ghost use Rattle.object_tree.specs.Keyed.{listed};
ghost use Rattle.std.specs.Map.{remove_entry, set_value};
ghost use Rattle.std.specs.BTreeMap.{is_at};
ghost use Rattle.object_tree.specs.Objects.{added, are_none_but_manager, below, from_path, has_below, is_manager, manager_name, root, rows_at, rows_without, slot_at, text_cmp};
ghost use Rattle.wire_names.specs.Names.{is_object_path, is_interface_name};

use crate::paths::{ROOT, is_below, parent};
use crate::rows::Rows;
use crate::walk::{ObjectAt, push_ways};
use std::alloc::{AllocError, Global};
use std::marker::Model;
use wire_names::ObjectPath;

/// The paths that were put in, ascending by their bytes, each with its object's interfaces. The paths on the way to them belong
/// to the tree, too: those that weren't put in themselves have no interfaces, and take no memory.
pub(crate) struct Nodes {
    list: Vec<(String, Rows)>,
    bare: Rows,
}

impl Drop for Nodes {
    fn drop(self) {
        let Nodes { list: _, bare: _ } = self;
    }
}

impl Model for Nodes {
    ghost use Rattle.std.specs.Prelude.{◌≡◌, []};
    ghost use Rattle.object_tree.specs.Closed.{AreNodes, closed};
    ghost use Rattle.object_tree.specs.Keyed.{listed};
    ghost use Rattle.object_tree.specs.Objects.{Objects};

    ghost Value = { Objects };

    ghost view = { λ n. closed (listed n.list.items) };

    ghost invariant = { λ n. AreNodes (listed n.list.items) × (n.bare ≡ []) };
}

/// How many paths of the list stand before a path.
fn place(list: &[(String, Rows)], path: &str) -> usize
    requires { AreNodes (listed list.now) }
    ensures { result ≡ place (listed list.now) path.now }
{
    let mut low: usize = 0;
    let mut high = list.len();
    'halve: while low < high {
        let middle = low + (high - low) / 2;
        if list[middle].0.as_str() < path {
            low = middle + 1;
        } else {
            high = middle;
        }
    }
    low
}

/// Where a path of the list stands, or would stand, and whether it is there.
fn find(list: &[(String, Rows)], path: &str) -> (usize, bool)
    requires { AreNodes (listed list.now) }
    ensures { result ≡ (place (listed list.now) path.now, is_some (rows_at (listed list.now) path.now)) }
{
    let at = place(list, path);
    match list.get(at) {
        Some((key, _)) => (at, key.as_str() == path),
        None => (at, false),
    }
}

/// Whether the path at an index is the path, or below it.
fn is_from(list: &[(String, Rows)], at: usize, path: &str) -> bool
    ensures { result ≡ is_from (listed list.now) at path.now }
{
    match list.get(at) {
        Some((key, _)) => key.as_str() == path || is_below(path, key),
        None => false,
    }
}

/// Whether a path is in the tree without the path at an index, which is below it.
fn is_without(list: &[(String, Rows)], at: usize, path: &str) -> bool
    requires { at < length list.now }
    ensures { result ≡ is_without (listed list.now) at path.now }
{
    if at > 0 && is_from(list, at - 1, path) {
        return true;
    }
    is_from(list, at + 1, path)
}

/// Puts the objects below a path behind those of the list; the paths that were put in stand from an index on.
fn push_below<'a>(
    list: &mut Vec<ObjectAt<'a>>,
    nodes: &'a [(String, Rows)],
    bare: &'a Rows,
    path: &str,
    from: usize,
) -> Result<(), AllocError>
    requires nodes { AreNodes (listed nodes.now) }
    requires bare { bare.now ≡ [] }
    requires path { IsTrue (is_object_path path.now) }
    ensures { OnOk result (list.new.items ≡ list.old.items ++ walked path.now (listed nodes.now) from) }
{
    let mut last: &str = path;
    let mut at = from;
    'next: while at < nodes.len() {
        let (key, rows) = &nodes[at];
        if !is_below(path, key) {
            return Ok(());
        }
        push_ways(list, last, key, bare)?;
        list.push(ObjectAt::new(key, rows))?;
        last = key;
        at += 1;
    }
    Ok(())
}

impl Nodes {
    /// The root alone, without interfaces.
    pub(crate) fn new(alloc: Global) -> Result<Nodes, AllocError>
        ensures { IfOk result (λ nodes. nodes ≡ (root, []) ∷ []) }
    {
        let mut list = Vec::new(alloc);
        list.push((String::from_str(alloc, ROOT)?, Rows::new(alloc)))?;
        Ok(Nodes {
            list,
            bare: Rows::new(alloc),
        })
    }

    /// The interfaces at a path.
    pub(crate) fn get(&self, path: &str) -> Option<&Rows>
        requires { IsTrue (is_object_path path.now) }
        ensures { option_copied result ≡ rows_at self.now path.now }
    {
        let (at, there) = find(&self.list, path);
        let Some((key, rows)) = self.list.get(at) else {
            return None;
        };
        if there {
            return Some(rows);
        }
        if is_below(path, key) {
            return Some(&self.bare);
        }
        None
    }

    /// Whether a path is strictly below.
    pub(crate) fn has_below(&self, path: &str) -> bool
        requires { IsTrue (is_object_path path.now) }
        ensures { result ≡ has_below self.now path.now }
    {
        let (at, there) = find(&self.list, path);
        let after = if there { at + 1 } else { at };
        match self.list.get(after) {
            Some((next, _)) => is_below(path, next),
            None => false,
        }
    }

    /// The objects strictly below a path.
    pub(crate) fn below(&self, alloc: Global, path: &str) -> Result<Vec<ObjectAt<'_>>, AllocError>
        requires { IsTrue (is_object_path path.now) }
        ensures { IfOk result (λ list. list.items ≡ below self.now path.now) }
    {
        let mut list = Vec::new(alloc);
        let (at, there) = find(&self.list, path);
        push_below(
            &mut list,
            &self.list,
            &self.bare,
            path,
            if there { at + 1 } else { at },
        )?;
        Ok(list)
    }

    /// The object at a path, if it is there, and those below it.
    pub(crate) fn from_path(
        &self,
        alloc: Global,
        path: &str,
    ) -> Result<Vec<ObjectAt<'_>>, AllocError>
        requires { IsTrue (is_object_path path.now) }
        ensures { IfOk result (λ list. list.items ≡ from_path self.now path.now) }
    {
        let mut list = Vec::new(alloc);
        let (at, there) = find(&self.list, path);
        let Some((key, _)) = self.list.get(at) else {
            return Ok(list);
        };
        let Some(rows) = self.get(path) else {
            return Ok(list);
        };
        list.push(ObjectAt::new(&key[..path.len()], rows))?;
        push_below(
            &mut list,
            &self.list,
            &self.bare,
            path,
            if there { at + 1 } else { at },
        )?;
        Ok(list)
    }

    /// The path, where its object tells of those below it.
    pub(crate) fn manager_at(&self, path: &str) -> Option<ObjectPath<'_>>
        ensures { result ≡ (if is_manager self.now path.now then Some path.now else None) }
    {
        let (at, there) = find(&self.list, path);
        if !there {
            return None;
        }
        let (key, rows) = &self.list[at];
        if rows.manager().is_none() {
            return None;
        }
        Some(ObjectAt::new(key, rows).path())
    }

    /// Adds an interface to the object at a path, with each path that is missing on the way.
    pub(crate) fn add(
        &mut self,
        alloc: Global,
        path: &str,
        name: &str,
        slot: u64,
    ) -> Result<(), AllocError>
        requires path { IsTrue (is_object_path path.now) }
        requires name { IsTrue (is_interface_name name.now) }
        ensures done { OnOk result (self.new ≡ added self.old path.now name.now slot) }
        ensures left { OnErr result (self.new ≡ self.old) }
    {
        let (at, there) = find(&self.list, path);
        if there {
            let (_, rows) = &mut self.list[at];
            rows.insert(alloc, name, slot)?;
            return Ok(());
        }
        let mut rows = Rows::new(alloc);
        rows.insert(alloc, name, slot)?;
        let key = String::from_str(alloc, path)?;
        self.list.insert(at, (key, rows))?;
        Ok(())
    }

    /// Removes a path that none is below, and gives the slot of its object's `org.freedesktop.DBus.ObjectManager`. The path on the
    /// way to it stays: it takes the memory of this one, where it was there by this one alone.
    pub(crate) fn remove(&mut self, path: &str) -> Option<u64>
        requires path { IsTrue (is_object_path path.now) }
        requires bare { has_below self.old path.now ≡ false }
        ensures manager { result ≡ slot_at self.old path.now manager_name }
        ensures rest { self.new ≡ remove_entry (is_at (text_cmp path.now)) self.old }
    {
        let (at, there) = find(&self.list, path);
        if !there {
            return None;
        }
        let manager = self.list[at].1.manager();
        if let Some(above) = parent(path) {
            if !is_without(&self.list, at, above) {
                let (key, rows) = &mut self.list[at];
                key.truncate(above.len());
                rows.clear();
                return manager;
            }
        }
        let _ = self.list.remove(at);
        manager
    }

    /// Removes an interface from the object at a path; and gives its slot, and whether none is left there but, perhaps, the one
    /// that tells of the objects below.
    pub(crate) fn remove_row(&mut self, path: &str, name: &str) -> Option<(u64, bool)>
        ensures slot { option_map (λ r. r.0) result ≡ slot_at self.old path.now name.now }
        ensures bare { IfSome result (λ r. r.1 ≡ are_none_but_manager (rows_without self.old path.now name.now)) }
        ensures rest { IfSome result (λ r. self.new ≡ set_value (is_at (text_cmp path.now)) self.old (rows_without self.old path.now name.now)) }
        ensures none { IfNone result (self.new ≡ self.old) }
    {
        let (at, there) = find(&self.list, path);
        if !there {
            return None;
        }
        let (_, rows) = &mut self.list[at];
        let Some(slot) = rows.remove(name) else {
            return None;
        };
        Some((slot, rows.are_none_but_manager()))
    }
}
