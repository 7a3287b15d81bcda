//! Values of the program's interfaces.
ghost use Rattle.std.specs.Prelude.{◌≡◌, IfOk};
ghost use Rattle.wire_tree.specs.DatumView.{datum_of};

use std::alloc::{AllocError, Global};
use wire_value::{Tree, Value};

/// The value that a tree is, which is one: only memory can be missing.
pub(crate) fn value_of(alloc: Global, tree: Tree) -> Result<Value, AllocError>
    ensures { IfOk result (λ value. value ≡ datum_of tree) }
{
    match Value::from_tree(alloc, tree) {
        Ok(value) => Ok(value),
        Err(_) => Err(AllocError),
    }
}
