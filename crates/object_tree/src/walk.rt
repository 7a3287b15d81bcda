//! The objects that a walk over the tree gives.
ghost use Rattle.std.specs.Prelude.{◌≡◌, ◌<◌, ◌≤◌, ◌++◌, [], IfOk, IsTrue, OnOk, length, take};
ghost use Rattle.object_tree.specs.Closed.{bare_at, is_new_way, ways};
ghost use Rattle.wire_names.specs.Names.{is_object_path};
ghost use Rattle.object_tree.specs.Objects.{IsObject};

use crate::paths::is_below;
use crate::rows::Rows;
use std::alloc::{AllocError, Global};
use std::marker::Model;
use wire_names::{InterfaceName, ObjectPath};

/// Puts the objects without interfaces on the way to a path behind those of the list: those that aren't on the way to `last`,
/// and aren't it.
pub(crate) fn push_ways<'a>(
    list: &mut Vec<ObjectAt<'a>>,
    last: &str,
    path: &'a str,
    bare: &'a Rows,
) -> Result<(), AllocError>
    requires last { IsTrue (is_object_path last.now) }
    requires path { IsTrue (is_object_path path.now) }
    requires bare { bare.now ≡ [] }
    ensures { OnOk result (list.new.items ≡ list.old.items ++ bare_at (ways last.now path.now)) }
{
    let mut at = common(last, path);
    'next: while at < path.len() {
        if at > 0 && is_new(last, path, at) {
            list.push(ObjectAt::new(&path[..at], bare))?;
        }
        at += 1;
    }
    Ok(())
}

/// Whether a front of a path is on the way to it, and neither is `last` nor on the way to that.
fn is_new(last: &str, path: &str, at: usize) -> bool
    requires last { IsTrue (is_object_path last.now) }
    requires some { 1 ≤ at }
    requires less { at < length path.now }
    ensures { result ≡ is_new_way last.now path.now (take at path.now) }
{
    if path.as_bytes()[at] != b'/' {
        return false;
    }
    let front = &path[..at];
    last != front && !is_below(front, last)
}

/// How many bytes both begin with.
fn common(a: &str, b: &str) -> usize
    ensures same { take result a.now ≡ take result b.now }
    ensures first { result ≤ length a.now }
    ensures second { result ≤ length b.now }
{
    let a = a.as_bytes();
    let b = b.as_bytes();
    let mut n: usize = 0;
    'same: while n < a.len() && n < b.len() && a[n] == b[n] {
        n += 1;
    }
    n
}

/// An object of the tree: its path, and its interfaces.
#[derive(Drop)]
pub struct ObjectAt<'a> {
    path: &'a str,
    rows: &'a Rows,
}

impl<'a> Model for ObjectAt<'a> {
    ghost use Rattle.std.specs.Prelude.{List, ℕ};
    ghost use Rattle.object_tree.specs.Objects.{IsObject};

    ghost Value = { List ℕ × List (List ℕ × ℕ) };

    ghost view = { λ o. (o.path.now, o.rows.now) };

    ghost invariant = { λ o. IsObject (o.path.now, o.rows.now) };
}

impl<'a> ObjectAt<'a> {
    /// The object with these interfaces at a path.
    pub(crate) fn new(path: &'a str, rows: &'a Rows) -> ObjectAt<'a>
        requires { IsObject (path.now, rows.now) }
        ensures { result ≡ (path.now, rows.now) }
    {
        ObjectAt { path, rows }
    }

    /// Its path.
    pub fn path(&self) -> ObjectPath<'a>
        ensures { result ≡ self.now.0 }
    {
        match ObjectPath::try_from(self.path) {
            Ok(path) => path,
            Err(_) => unreachable!(),
        }
    }

    /// The name of each of its interfaces, with the slot where it is kept, ascending by the names' bytes.
    ///
    /// # Errors
    ///
    /// AllocError for want of memory.
    pub fn interfaces(&self, alloc: Global) -> Result<Vec<(InterfaceName<'a>, u64)>, AllocError>
        ensures { IfOk result (λ list. list.items ≡ self.now.1) }
    {
        self.rows.names(alloc)
    }
}
