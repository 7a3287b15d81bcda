//! The interfaces that each object has by itself.
ghost use Rattle.std.specs.Prelude.{◌≡◌, IfOk, map};
ghost use Rattle.std.specs.List.Sorted.{IsStrictlySortedBy};
ghost use Rattle.object_tree.specs.Texts.{text_cmp};
ghost use Rattle.object_interface.specs.declared.description.DescribedInterface.{DescribedInterface};
ghost use Rattle.object_standard.specs.Standing.{standing};

use crate::introspectable::introspectable_description;
use crate::peer::peer_description;
use crate::properties::properties_description;
use object_interface::{DescribedInterface, Description};
use object_tree::StandardInterface;
use std::alloc::{AllocError, Global};

/// Describes each of the three. It fails only if memory ran out.
fn described(alloc: Global) -> Result<Vec<DescribedInterface<'static>>, AllocError>
    ensures { IfOk result (λ list. list.items ≡ standing) }
{
    let mut list = Vec::with_capacity(alloc, 3)?;
    list.push(DescribedInterface {
        name: StandardInterface::Introspectable.name(),
        description: introspectable_description(alloc)?,
    })?;
    list.push(DescribedInterface {
        name: StandardInterface::Peer.name(),
        description: peer_description(alloc)?,
    })?;
    list.push(DescribedInterface {
        name: StandardInterface::Properties.name(),
        description: properties_description(alloc)?,
    })?;
    Ok(list)
}

/// The three interfaces that each object has by itself, with their descriptions, ascending by their names (D-Bus Specification,
/// "Standard Interfaces").
///
/// # Errors
///
/// AllocError if out of memory.
pub fn standing(alloc: Global) -> Result<Vec<DescribedInterface<'static>>, AllocError>
    ensures told { IfOk result (λ list. list.items ≡ standing) }
    ensures ascending { IfOk result (λ list. IsStrictlySortedBy text_cmp (map (λ (i : DescribedInterface). i.name) list.items)) }
{
    described(alloc)
}
