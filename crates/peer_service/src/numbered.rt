//! Interfaces with their numbers.
ghost use Rattle.std.specs.Prelude.{◌≡◌, ◌∷◌, ℕ};
ghost use Rattle.object_interface.specs.Meaning.{Meaning, Same};
ghost use Rattle.peer_service.specs.Service.{no_meaning, numbered};

use object_interface::{Description, DispatchResult2, Interface, Properties};
use std::alloc::{AllocError, Global};
use std::marker::{Brand, Model, PhantomData};
use wire_message::{Message, fdo};
use wire_value::{InterfaceName, MemberName, Value};

/// What the interfaces mean that are handed in, by their numbers.
pub trait Registry: Drop + Send + Sync {
    /// what each means
    ghost meanings: { ℕ → Meaning };
}

/// Whoever hands interfaces in says here, by a pick of the ghost member, what they mean.
impl Registry for Brand {
    ghost meanings = { λ n. no_meaning };
}

/// An interface that was handed in, with its number. It means what it meant when it was.
pub struct Numbered<B: Interface, R: Registry> {
    object: B,
    number: u64,
    registry: PhantomData<R>,
}

impl<B: Interface, R: Registry> Drop for Numbered<B, R> {
    fn drop(self) {
        let Numbered {
            object: _,
            number: _,
            registry: _,
        } = self;
    }
}

impl<B: Interface, R: Registry> Model for Numbered<B, R> {
    ghost use Rattle.object_interface.specs.Meaning.{Same};
    ghost use Rattle.peer_service.specs.Service.{BoxView};

    ghost Value = { BoxView };

    ghost view = { λ b. record { number = b.number; state = B.state b.object } };

    ghost invariant = { λ b. Same (B.meaning b.object) (R.meanings b.number) };
}

impl<B: Interface, R: Registry> Numbered<B, R> {
    /// The interface with this number.
    pub(crate) fn new(object: B, number: u64) -> Numbered<B, R>
        requires { Same (B.meaning object) (R.meanings number) }
        ensures { result ≡ record { number = number; state = B.state object } }
    {
        Numbered {
            object,
            number,
            registry: PhantomData,
        }
    }

    /// The number.
    pub fn number(&self) -> u64
        ensures { result ≡ self.now.number }
    {
        self.number
    }
}

impl<B: Interface, R: Registry> Interface for Numbered<B, R> {
    // The number is in the state, so that whoever sees the states sees that it stays.
    ghost meaning = { λ b. numbered b.number (R.meanings b.number) };

    ghost state = { λ b. b.number ∷ b.state };

    fn name(&self) -> InterfaceName<'_> {
        self.object.name()
    }

    fn get(&self, alloc: Global, property: &str) -> Result<Option<fdo::Result<Value>>, AllocError> {
        self.object.get(alloc, property)
    }

    fn get_all(&self, alloc: Global) -> Result<Properties, AllocError> {
        self.object.get_all(alloc)
    }

    fn set(
        &self,
        alloc: Global,
        property: &str,
        value: &Value,
    ) -> Result<DispatchResult2, AllocError> {
        self.object.set(alloc, property, value)
    }

    fn set_mut(
        &mut self,
        alloc: Global,
        property: &str,
        value: &Value,
    ) -> Result<DispatchResult2, AllocError> {
        self.object.set_mut(alloc, property, value)
    }

    fn call(
        &self,
        alloc: Global,
        message: &Message,
        member: &MemberName<'_>,
    ) -> Result<DispatchResult2, AllocError> {
        self.object.call(alloc, message, member)
    }

    fn call_mut(
        &mut self,
        alloc: Global,
        message: &Message,
        member: &MemberName<'_>,
    ) -> Result<DispatchResult2, AllocError> {
        self.object.call_mut(alloc, message, member)
    }

    fn describe(&self, alloc: Global) -> Result<Description, AllocError> {
        self.object.describe(alloc)
    }

    fn spawn_tasks_for_methods(&self) -> bool {
        self.object.spawn_tasks_for_methods()
    }
}
