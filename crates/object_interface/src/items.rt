//! Lists that contracts see as lists.
ghost use Rattle.std.specs.Prelude.{◌≡◌, ◌∷◌, ◌++◌, [], length, IfOk, OnOk, OnErr};

use std::alloc::{AllocError, Global};
use std::marker::Model;

/// A `Vec` that contracts see as the list of its items.
#[derive(Drop)]
pub struct Items<T> {
    items: Vec<T>,
}

impl<T> Model for Items<T> {
    ghost use Rattle.std.specs.Prelude.{List};

    ghost Value = { List T };

    ghost view = { λ l. l.items.items };
}

impl<T: Drop> Items<T> {
    /// No items. Takes no memory before the first one.
    pub fn new(alloc: Global) -> Items<T>
        ensures { result ≡ [] }
    {
        Items {
            items: Vec::new(alloc),
        }
    }

    /// Makes a list of one item.
    ///
    /// # Errors
    ///
    /// AllocError if out of memory.
    pub fn one(alloc: Global, item: T) -> Result<Items<T>, AllocError>
        ensures { IfOk result (λ items. items ≡ item ∷ []) }
    {
        let mut items = Items::new(alloc);
        items.push(item)?;
        Ok(items)
    }

    /// Takes the `Vec` itself, with no memory of its own.
    pub fn from_vec(items: Vec<T>) -> Items<T>
        ensures { result ≡ items.items }
    {
        Items { items }
    }

    /// The items, in their order.
    pub fn as_slice(&self) -> &[T]
        ensures { result.now ≡ self.now }
    {
        self.items.as_slice()
    }

    /// Gives the `Vec` back.
    pub fn into_vec(self) -> Vec<T>
        ensures { result.items ≡ self }
    {
        self.items
    }

    /// Puts an item behind the others.
    ///
    /// # Errors
    ///
    /// AllocError for want of memory: the item is given up, and the list stays.
    pub fn push(&mut self, item: T) -> Result<(), AllocError>
        ensures done { OnOk result (self.new ≡ self.old ++ item ∷ []) }
        ensures left { OnErr result (self.new ≡ self.old) }
    {
        self.items.push(item)?;
        Ok(())
    }
}
