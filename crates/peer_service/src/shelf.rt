//! The interfaces that can be placed.
ghost use Rattle.std.specs.Prelude.{◌≡◌, ℕ, IfOk, None, Some, option_and_then, slice_get, slice_set, is_some};
ghost use Rattle.object_interface.specs.Meaning.{Same};
ghost use Rattle.peer_service.specs.Service.{meaning_at, shelf_from};

use crate::numbered::{Numbered, Registry};
use object_interface::Interface;
use std::alloc::{AllocError, Global};

/// Each interface with its number, by their order.
pub(crate) fn numbered<B: Interface, R: Registry>(
    alloc: Global,
    boxes: Vec<B>,
) -> Result<Vec<Option<Numbered<B, R>>>, AllocError>
    requires { (n : ℕ) → Same (meaning_at B.meaning boxes.items n) (R.meanings n) }
    ensures { IfOk result (λ shelf. shelf.items ≡ shelf_from B.state 0 boxes.items) }
{
    let mut shelf = Vec::new(alloc);
    for object in boxes {
        let number = shelf.len() as u64;
        shelf.push(Some(Numbered::new(object, number)))?;
    }
    Ok(shelf)
}

/// Whether the interface of a number can be placed.
pub(crate) fn has<B>(shelf: &[Option<B>], number: u64) -> bool
    ensures { result ≡ is_some (option_and_then (λ o. o) (slice_get shelf.now number)) }
{
    match shelf.get(number as usize) {
        Some(place) => place.is_some(),
        None => false,
    }
}

/// Takes the interface of a number.
pub(crate) fn take<B>(shelf: &mut Vec<Option<B>>, number: u64) -> Option<B>
    ensures taken { result ≡ option_and_then (λ o. o) (slice_get shelf.old.items number) }
    ensures left { shelf.new.items ≡ slice_set shelf.old.items number None }
{
    match shelf.get_mut(number as usize) {
        Some(place) => place.take(),
        None => None,
    }
}

/// Puts an interface back at its number.
pub(crate) fn put<B: Interface, R: Registry>(
    shelf: &mut Vec<Option<Numbered<B, R>>>,
    object: Numbered<B, R>,
)
    ensures { shelf.new.items ≡ slice_set shelf.old.items object.number (Some object) }
{
    if let Some(place) = shelf.get_mut(object.number() as usize) {
        *place = Some(object);
    }
}
